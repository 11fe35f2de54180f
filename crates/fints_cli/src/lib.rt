//! What the program does with its words, over files and streams that are handed in.
#![tactic(auto)]

mod emitting;
mod reporting;
mod responding;

pub use emitting::emit;
pub use fints_cli_commands::{Answered, Failure, Refusal, built_in, perform};
pub use fints_cli_drawings::draw_script;
pub use fints_cli_files::{Files, LoadFault, MAX_CALLS, Out, ReadFault, WriteFault, load};
pub use fints_cli_scripts::{Wanted, run_case, tell_script, verify_script};
pub use fints_cli_texts::{Fault, Reply, judge_message, show, show_message};
pub use fints_cli_words::{Asked, Command, Input, NO_PATHS, Paths, Request, read_words};
pub use fints_syntax::Memory;
pub use reporting::{check_text, report_text};
pub use responding::{execute, respond};
