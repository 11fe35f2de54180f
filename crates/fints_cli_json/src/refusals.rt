//! What a command answers that has no answer.
ghost use Rattle.fints_cli_json.specs.Refusals.{refusal_members};

use crate::objects::Object;
use crate::writing::{write_heading, write_some_text, write_text};
use json::Writer;
use std::alloc::{AllocError, Global};

/// Why a command has no answer: its exit status, the words of the line `error`, and what to look at.
#[derive(Drop)]
pub struct JsonRefusal {
    pub command: &'static str,
    pub status: u8,
    pub error: String,
    pub hint: Option<String>,
}

impl Object for JsonRefusal {
    ghost members = { λ r. refusal_members r.command.now r.status r.error r.hint };

    #[tactic(auto, using(crate::proofs::ObjectLemmas::members_append, crate::proofs::ObjectLemmas::one_member))]
    fn write_members(&self, _alloc: Global, out: &mut Writer) -> Result<(), AllocError> {
        write_heading(out, self.command, self.status, "refused")?;
        write_text(out, "error", self.error.as_str())?;
        write_some_text(out, "hint", &self.hint)
    }
}
