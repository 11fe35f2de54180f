//! The text of a draft's script. It is a function of the script that it denotes, and of the numbers that its
//! comments have.
#![tactic(auto)]

mod drafting;
mod elements;
mod fields;
mod notes;
mod segments;
mod shown;
mod signers;
mod steps;
mod strings;
mod targets;

pub use drafting::draft_text;
pub use notes::{Notes, OrderNote, SealNote};
