//! Recorded dialogues: what the refusal of one is about, why its messages break rules, and notes on it. The
//! reasons and notes look on while a dialogue is audited; a contract here says no more than that each call
//! returns safely.
#![tactic(auto)]

mod captured;
mod lost;
mod notes;
mod parties;
mod reasons;
mod refused;
mod sources;
mod undrafted;
mod untold;

pub use reasons::AuditReasons;
pub use refused::{RefusedHint, file_hint};
pub use sources::Source;
pub use undrafted::{draft_hint, part_hint};
