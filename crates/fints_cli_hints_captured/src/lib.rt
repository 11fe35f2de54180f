//! Notes: what a capture says against a message or a step, and no rule asks for. A false note is worse than none, so
//! each is silent where a segment isn't as FinTS 3.0 describes it.
#![tactic(auto)]

mod captured;
mod days;
mod formats;
mod lists;
mod notes;
mod noting;
mod procedures;
mod sent;
mod spans;
mod walk;

pub use captured::{Captured, Said, said_in};
pub use lists::{Further, MOST_SHOWN, Numbers};
pub use notes::Noted;
pub use noting::{Basis, add_captured_notes};
pub use sent::{Outgoing, SentStep};
