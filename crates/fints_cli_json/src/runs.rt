//! What `run` answers.
ghost use Rattle.fints_cli_json.specs.RunMessages.{run_members, sent_members};

use crate::latin::write_latin;
use crate::objects::{Object, write_list};
use crate::writing::{write_count, write_heading, write_text};
use fints_script_fields::Name;
use json::Writer;
use std::alloc::{AllocError, Global};

/// A message of a run: its number, which counts from 1, its step, its size in bytes, and its bytes in base64.
#[derive(Drop)]
pub struct RunMessage {
    pub message: u64,
    pub step: Name,
    pub size: u64,
    pub base64: String,
}

impl Object for RunMessage {
    ghost members = { sent_members };

    #[tactic(auto, using(crate::proofs::ObjectLemmas::four_members))]
    fn write_members(&self, alloc: Global, out: &mut Writer) -> Result<(), AllocError> {
        write_count(out, "message", self.message)?;
        write_latin(alloc, out, "step", self.step.as_bytes())?;
        write_count(out, "size", self.size)?;
        write_text(out, "base64", self.base64.as_str())
    }
}

/// The messages of a run.
#[derive(Drop)]
pub struct RunMessages {
    pub messages: Vec<RunMessage>,
}

impl Object for RunMessages {
    ghost members = { λ r. run_members r.messages.items };

    #[tactic(auto, using(crate::proofs::ObjectLemmas::then_member))]
    fn write_members(&self, alloc: Global, out: &mut Writer) -> Result<(), AllocError> {
        write_heading(out, "run", 0, "sent")?;
        write_list(alloc, out, "messages", self.messages.as_slice())
    }
}
