//! What `record` prints: the messages that are in a file, and what of it is passed over.
#![tactic(auto)]

pub mod laws;
mod recording;

pub use recording::{Record, log_note, record_read};
