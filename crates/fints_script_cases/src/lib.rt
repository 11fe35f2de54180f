//! What a bank answers and what a tester chooses: patterns and branches, values, answers and cases.
#![tactic(auto)]

mod answers;
mod branch_at;
mod carried;
mod case;
mod case_fault;
mod case_reading;
mod case_writing;
pub mod laws;
mod pattern;
mod values;

pub use answers::{Branch, Target, choose, opener, target_of};
pub use branch_at::BranchAt;
pub use carried::{carries, carrying, passes};
pub use case::{Answer, Case};
pub use case_fault::CaseFault;
pub use fints_syntax::Memory;
pub use pattern::{Pattern, digits_of};
pub use values::{NamedValue, Values};
