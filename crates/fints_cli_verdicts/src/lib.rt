//! What is printed of several messages, each judged by itself: with one capture and one order table, which are read
//! once.
#![tactic(auto)]

mod judging;
pub mod laws;
mod pieces;
mod writing;

pub use judging::judge_all_read;
