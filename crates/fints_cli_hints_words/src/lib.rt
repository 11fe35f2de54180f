//! The words of hints: texts of users in quotes, names that were meant, places, and what is wrong with
//! keys, elements and listed values, whatever row they are in.
#![tactic(auto)]

pub mod elements;
pub mod guessing;
pub mod inputs;
pub mod keys;
pub mod listed;
pub mod places;
pub mod quoting;
pub mod tables;
pub mod unread;
