//! What the refusal of a capture or of a message is about.
#![tactic(auto)]

mod bad_elements;
mod captures;
mod forms;
mod frames;
mod messages;
mod scanning;
mod skipped;
mod syntax;

pub use bad_elements::data_in;
pub use captures::params_hint;
pub use messages::{UnreadHint, front_hint};
pub use skipped::{Skipped, skipped_notes, skipped_segments};
pub use syntax::head_of;
