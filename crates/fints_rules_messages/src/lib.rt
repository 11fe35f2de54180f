//! Messages: the segments of a body in their frame, plain or sealed, as they are read.
#![tactic(auto)]

mod frame;
mod front;
mod inner;
pub mod laws;
mod message;
mod observing;
mod part;
mod plain;
mod sealed;
mod slip;
mod tail;
mod values;

pub use front::{Inner, Seal};
pub use message::{JudgeFault, Message, read_or_slip};
pub use observing::{Unobserved, UnreadObserver, read_message, read_message_with};
pub use part::{MessagePart, part_of};
pub use slip::{Slip, Unread};
