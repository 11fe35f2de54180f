//! Hints: which text, number or segment of an input a refusal is about. A hint changes neither a
//! status nor a fault line, so the contracts of hints say no more than that each call returns safely.
#![tactic(auto)]

mod admitted;
mod cases;
mod certs;
mod drafts;
mod findings;
mod labels;
mod lines;
mod orders;
mod plans;
mod runs;
mod telling;

pub use drafts::DraftHint;
pub use fints_cli_hints_words::inputs::Inputs;
pub use telling::hint;
