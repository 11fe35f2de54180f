//! What a bank permits, by its captured parameters and an order table: the order table and the
//! look-ups that rules ask. It knows no message and no rule.
#![tactic(auto)]

mod account;
mod keys;
pub mod kinds;
pub mod laws;
mod limits;
mod needs;
mod orders;
mod parts;
mod permissions;
mod tans;

pub use account::AccountKey;
pub use fints_syntax::Memory;
pub use keys::OrderKey;
pub use limits::{Demand, Limits};
pub use orders::{AccountForm, MAX_ROWS, OrderRow, OrderTable, TableFault};
pub use parts::{BankPermissions, UserPermissions};
pub use permissions::{Permissions, Permit};
