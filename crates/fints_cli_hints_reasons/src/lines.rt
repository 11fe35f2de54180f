//! The lines of reasons, and names in them.
use fints_cli_hints_words::places::written;
use fints_script::Name;
use fints_syntax::Memory;
use std::alloc::Global;
use std::fmt;
use std::fmt::{Display, Formatter, Write};

/// A name as a text.
pub fn name_of(name: &Name) -> &str {
    std::str::from_utf8(name.as_bytes()).unwrap_or("")
}

/// A name in quotes.
#[derive(Clone, Copy)]
pub struct Called<'a>(pub &'a Name);

impl Display for Called<'_> {
    fn fmt<W: Write>(&self, f: &mut Formatter<W>) -> fmt::Result {
        let name = name_of(self.0);
        write!(f, "\"{name}\"")
    }
}

/// Where a reason holds, as a report says it: a step by its name, a message of a dialogue by its number, or
/// nothing for a single message; and a segment by its number, or 0 for the whole message.
#[derive(Clone, Copy)]
pub struct Where<'a> {
    pub sent: &'a str,
    pub segment: u16,
}

impl Display for Where<'_> {
    fn fmt<W: Write>(&self, f: &mut Formatter<W>) -> fmt::Result {
        let Where { sent, segment } = *self;
        match (sent.is_empty(), segment) {
            (true, 0) => Ok(()),
            (true, _) => write!(f, "segment {segment}: "),
            (false, 0) => write!(f, "{sent}: "),
            (false, _) => write!(f, "{sent} segment {segment}: "),
        }
    }
}

/// Adds the line of a reason.
pub fn add_why<T: Display + Drop>(
    text: &mut String,
    alloc: Global,
    place: Where<'_>,
    why: T,
) -> Result<(), Memory> {
    let line = written(alloc, format_args!("why: {place}{why}\n"))?;
    text.push_str(line.as_str())?;
    Ok(())
}
