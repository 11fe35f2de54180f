//! Lists in reasons and notes: `921, 922`, the first twenty of them, and how many more there are.
use std::fmt;
use std::fmt::{Display, Formatter, Write};

/// The most that a list shows.
pub const MOST_SHOWN: usize = 20;

/// Says how many more than a list shows there are of this many; nothing where it shows all.
#[derive(Clone, Copy)]
pub struct Further(pub usize);

impl Display for Further {
    fn fmt<W: Write>(&self, f: &mut Formatter<W>) -> fmt::Result {
        match self.0.checked_sub(MOST_SHOWN) {
            None | Some(0) => Ok(()),
            Some(more) => write!(f, " and {more} more"),
        }
    }
}

/// Numbers with commas between them.
#[derive(Clone, Copy)]
pub struct Numbers<'a>(pub &'a [u32]);

impl Display for Numbers<'_> {
    fn fmt<W: Write>(&self, f: &mut Formatter<W>) -> fmt::Result {
        for (i, number) in self.0.iter().take(MOST_SHOWN).enumerate() {
            if i > 0 {
                f.write_str(", ")?;
            }
            let number = *number;
            write!(f, "{number}")?;
        }
        let further = Further(self.0.len());
        write!(f, "{further}")
    }
}

/// A text of ASCII letters, digits and signs.
#[derive(Clone, Copy)]
pub struct Ascii<'a>(pub &'a [u8]);

impl Display for Ascii<'_> {
    fn fmt<W: Write>(&self, f: &mut Formatter<W>) -> fmt::Result {
        f.write_str(std::str::from_utf8(self.0).unwrap_or(""))
    }
}
