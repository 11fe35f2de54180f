//! The checker: which rules the runs of a plan break, and the greatest figures of its steps.
#![tactic(auto)]

mod at_step;
mod casing;
mod choosing;
mod confirming;
mod elements;
mod figuring;
mod finding;
mod kinds;
mod laws;
mod releasing;
mod report;
mod searching;
mod step_facts;
mod tans;
mod templates;

pub use at_step::AtStep;
pub use confirming::confirm;
pub use figuring::greatest_figures;
pub use finding::{Finding, Reached};
pub use fints_syntax::Memory;
pub use laws::release_is_left;
pub use releasing::is_released_step;
pub use report::{Report, check};
