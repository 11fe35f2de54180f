//! Texts of lines, and TOML documents: what order tables, scripts, cases and certificates are read
//! through. Of lines: what is before and after a byte and after a front, and which line of a text is
//! the first bad one, whatever kind of text it is. Of TOML: what bytes are as TOML, and look-ups in
//! its tables.
#![tactic(auto)]

pub mod document;
pub mod entries;
mod lines;
mod reading;

pub use lines::{MAX_TEXT, after, split_once};
pub use reading::{LineTaker, read_lines};
