//! What the program reads and writes, as traits; whole files within their limits, and captures that are
//! read while their files come.
#![tactic(auto)]

mod capture;
mod reading;
mod streams;

pub use capture::{Capture, ReadCapture, ToldAtEnd};
pub use reading::{LoadFault, MAX_CALLS, PieceTaker, load, load_into};
pub use streams::{Files, Out, ReadFault, WriteFault};
