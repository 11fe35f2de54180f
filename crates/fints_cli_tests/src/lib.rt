//! Tests that cross crates: files and streams in memory that fail on demand, inputs
//! that are too long for a row of `rows/`, and calls that no command makes.
#![tactic(auto)]

mod shelf;
mod tape;

pub use shelf::{Quirk, Shelf};
pub use tape::Tape;

#[cfg(test)]
mod commands;
#[cfg(test)]
mod reports;
#[cfg(test)]
mod texts;
