//! The fields of a script as rows of its text, and what is wrong with a row.
#![tactic(auto)]

mod fault;
mod field_class;
mod field_entry;
mod field_values;
mod fields;
pub mod keys;
pub mod laws;
pub mod limits;
mod named_rows;
pub mod names;
pub mod parts;
pub mod places;
mod rows;
pub mod text;

pub use fault::{FaultKind, Place, ScriptFault};
pub use field_entry::field_in;
pub use fields::{Fields, NamedField, is_account};
pub use named_rows::NamedRows;
pub use rows::placed;
