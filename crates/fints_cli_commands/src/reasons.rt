//! What is said beside an answer where hints are wanted.
use fints_syntax_segments::Memory;

// What is said where memory ran out.
const MISSING: &[u8] = b"note: memory ran out, so reasons and notes are missing\n";

/// Reasons and notes, a line each.
#[derive(Drop)]
pub enum Reasons {
    Lines(String),
    /// Memory ran out while they were made.
    Missing,
}

impl Reasons {
    /// Those that were made, if there are some.
    pub fn of(made: Result<Option<String>, Memory>) -> Option<Reasons> {
        match made {
            Ok(Some(lines)) => Some(Reasons::Lines(lines)),
            Ok(None) => None,
            Err(Memory) => Some(Reasons::Missing),
        }
    }

    /// What is printed.
    pub fn as_bytes(&self) -> &[u8] {
        match self {
            Reasons::Lines(lines) => lines.as_bytes(),
            Reasons::Missing => MISSING,
        }
    }
}
