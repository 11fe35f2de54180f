//! The command line: what the words after the program's name ask for, as `clap` reads them.
#![tactic(auto)]

mod described;
mod requests;
mod words;

pub use requests::{Asked, BUILT_IN, Command, INPUTS, Input, NO_PATHS, Paths, Request};
pub use words::read_words;
