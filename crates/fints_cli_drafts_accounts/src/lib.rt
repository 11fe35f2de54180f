//! The accounts that a recorded order may name: the recorded one, and the others of the user under which
//! the bank permits the order.
#![tactic(auto)]

mod filling;
mod keys;
mod listing;
mod naming;
mod offers;
mod recorded;

pub use listing::{AccountList, accounts_for};
pub use offers::{Offer, Offers, are_offered, offers_of};
