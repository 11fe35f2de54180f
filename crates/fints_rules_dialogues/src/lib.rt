//! Recorded dialogues: the messages of a client and the bank's answers to them, as they were sent.
#![tactic(auto)]

mod auditing;
mod fault;
pub mod laws;
mod messages;
mod own_params;
mod parties;
mod parts;
mod reading;
mod recording;
mod sources;
mod turn;

pub use auditing::{Audited, Observer, audit, audit_exchanges};
pub use fault::DialogueFault;
pub use fints_rules_logs::Log;
pub use fints_rules_messages::{Unobserved, Unread, UnreadObserver};
pub use messages::{RecordedMessage, read_log};
pub use own_params::{Heard, OwnParams};
pub use parties::Party;
pub use parts::{DialoguePart, part_of};
pub use reading::{Answer, Exchange, is_answer};
pub use recording::{Recording, read_dialogue, read_dialogue_with};
pub use sources::{Basis, OwnPermissions, ToldIn};
pub use turn::{Turn, TurnObserver};
