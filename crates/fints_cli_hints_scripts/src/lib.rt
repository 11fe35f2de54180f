//! What the refusal of a script is about.
#![tactic(auto)]

mod branches;
mod counts;
mod fields;
mod scripts;
mod segments;
mod signers;
mod steps;
mod weights;

pub use scripts::script_hint;
