//! The notes on a message or a step, by what a capture says.
use fints_syntax::Memory;
use std::alloc::Global;

/// Which note it is. Each is written once: in a dialogue, of a message, or of a script.
#[derive(Clone, Copy)]
pub enum Which {
    Unlisted,
    NotAllowed,
    OneStep,
    OtherVersion,
    NoTanOrder,
    OtherKind,
    NoMedium,
    OtherFormat,
    TooOld,
    TooShort,
    TooLong,
}

impl Which {
    fn place(self) -> usize {
        match self {
            Which::Unlisted => 0,
            Which::NotAllowed => 1,
            Which::OneStep => 2,
            Which::OtherVersion => 3,
            Which::NoTanOrder => 4,
            Which::OtherKind => 5,
            Which::NoMedium => 6,
            Which::OtherFormat => 7,
            Which::TooOld => 8,
            Which::TooShort => 9,
            Which::TooLong => 10,
        }
    }
}

/// Which notes were written.
#[derive(Clone, Copy)]
pub struct Noted([bool; 11]);

impl Noted {
    pub fn none() -> Noted {
        Noted([false; 11])
    }

    // Whether a note is written for the first time.
    fn is_first(&mut self, which: Which) -> bool {
        match self.0.get_mut(which.place()) {
            Some(told) if !*told => {
                *told = true;
                true
            }
            _ => false,
        }
    }
}

/// The notes on a message or a step, and what it is called there: with a colon and a blank after it, or nothing.
#[derive(Drop)]
pub struct Notes<'n> {
    pub alloc: Global,
    called: &'n str,
    text: String,
    noted: Noted,
}

impl<'n> Notes<'n> {
    /// None yet, after those that were written before.
    pub fn new(alloc: Global, called: &'n str, noted: Noted) -> Notes<'n> {
        Notes {
            alloc,
            called,
            text: String::new(alloc),
            noted,
        }
    }

    /// Adds the line of a note, where it wasn't written before.
    pub fn add(&mut self, which: Which, what: &str) -> Result<(), Memory> {
        if !self.noted.is_first(which) {
            return Ok(());
        }
        self.text.push_str("note: ")?;
        self.text.push_str(self.called)?;
        self.text.push_str(what)?;
        self.text.push_str("\n")?;
        Ok(())
    }

    /// The lines, and which notes are written now.
    pub fn into_parts(self) -> (String, Noted) {
        let Notes { text, noted, .. } = self;
        (text, noted)
    }
}
