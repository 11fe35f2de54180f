//! Whether a message is sent again as it was recorded, but for what a client makes new for each message.
#![tactic(auto)]

mod comparing;
mod renewed;

pub use comparing::{is_empty, is_same_item, other_sent};
pub use renewed::{goes_on, has_process, refers};
