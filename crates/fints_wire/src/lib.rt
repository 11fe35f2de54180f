//! Messages of steps.
#![tactic(auto)]

mod building;
mod copies;
mod dialogue;
mod filling;
mod frame;
pub mod laws;
mod part;
pub mod run_laws;
mod values;
mod worst;

pub use building::{MAX_NUMBER, build};
pub use dialogue::{Sent, Visit, message, run, visits};
pub use fints_syntax::Memory;
pub use values::{least_values, worst_values};
pub use worst::worst_size;
