//! The commands, over files that are handed in: what each answers, and why it has no answer.
#![tactic(auto)]

mod answering;
pub mod built_in;
mod commands;
mod failing;
mod loading;
mod reasons;

pub use answering::Answered;
pub use commands::perform;
pub use failing::{Failure, Refusal};
pub use reasons::Reasons;
