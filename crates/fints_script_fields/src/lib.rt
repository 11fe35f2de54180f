//! Fields of messages: their names, and the classes that say which values they may have.
#![tactic(auto)]

mod alphabet;
mod characters;
mod class;
pub mod class_laws;
mod counted;
mod field;
mod listed;
mod listing;
mod lists;
mod name;

pub use alphabet::Alphabet;
pub use characters::{Digits, Plain};
pub use class::FieldClass;
pub use counted::{Bin, MAX_LEN, Text};
pub use field::Field;
pub use fints_syntax_segments::Memory;
pub use listed::{AccountValue, Listed, are_distinct};
pub use listing::{Account, MAX_ITEMS, MAX_VALUES, OneOf};
pub use lists::{Accounts, Texts};
pub use name::Name;
