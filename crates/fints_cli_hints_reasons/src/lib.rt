//! Reasons: why a message breaks a rule, and what to change. Which cause a reason speaks of is decided by
//! `segment_cause`, whose contract says that it is the one that breaks; its words are words, and
//! the contracts here say no more than that each call returns safely.
#![tactic(auto)]

mod accounts;
pub mod after;
pub mod bank;
pub mod branches;
pub mod elements;
mod judged;
pub mod kinds;
pub mod lines;
pub mod segment;
pub mod tans;
pub mod whole;

pub use judged::{JudgeReasons, Judged, add_reasons};
