//! Reasons of verdicts on scripts: why some run breaks a rule, why a certificate isn't closed, and notes on
//! a script. They look on while a script is checked or a certificate verified; a contract here says no more
//! than that each call returns safely.
#![tactic(auto)]

mod captured;
mod notes;
mod report;
mod steps;
mod verified;

pub use report::ReportReasons;
pub use verified::VerifyReason;
