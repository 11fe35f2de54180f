//! The names of a draft's fields, signers and steps, and what the values of its fields are.
#![tactic(auto)]

mod names;
mod purposes;

pub use names::{is_field_name, is_signer_named, is_step_named};
pub use purposes::Purpose;
