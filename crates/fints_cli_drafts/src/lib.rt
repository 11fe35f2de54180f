//! Drafts of recorded dialogues: a script that sends a client's messages once more, and the case that
//! has it send exactly these.
#![tactic(auto)]

mod blank;
mod drafting;
mod elements;
mod fields;
mod notes;
mod place;
mod printing;
mod recorded;
mod replaying;
mod signers;
mod sketching;
mod steps;
mod texts;
mod turns;
mod within;

pub use drafting::{DraftObserver, DraftText, Drafted, draft_read};
