//! Logs of clients: the messages that are in a file, as they are, in UTF-8 or in base64.
#![tactic(auto)]

mod begin;
mod decoding;
mod end;
mod fault;
mod find;
mod form;
mod keeping;
pub mod laws;
mod log;
mod losing;
mod relating;
mod scanning;
mod standing;
mod units;

pub use fault::LogFault;
pub use find::Found;
pub use fints_syntax::Memory;
pub use form::Form;
pub use keeping::Passed;
pub use log::Log;
