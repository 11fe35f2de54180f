//! What the program prints of captures, messages and recorded dialogues, and the refusals of inputs.
#![tactic(auto)]

mod auditing;
mod fault;
mod judging;
mod judging_after;
pub mod laws;
mod masking;
mod reply;
mod showing;
mod showing_message;

pub use auditing::{audit_own, audit_read, good_log};
pub use fault::Fault;
pub use fints_rules_messages::Unobserved;
pub use judging::{
    JudgeObserver, judge_message, judge_read, verdict_status, write_broken, write_last,
};
pub use judging_after::judge_after_read;
pub use masking::has_reference;
pub use reply::Reply;
pub use showing::{show, show_read};
pub use showing_message::{show_message, show_message_with};
