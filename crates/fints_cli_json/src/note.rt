//! A note, as an object of the list `notes`.
ghost use Rattle.fints_cli_json.specs.Findings.{note_members};

use crate::objects::Object;
use crate::writing::write_text;
use json::Writer;
use std::alloc::{AllocError, Global};

/// A note; no contract says what its words are.
#[derive(Drop)]
pub struct JsonNote {
    pub words: String,
}

impl Object for JsonNote {
    ghost members = { note_members };

    #[tactic(auto, using(crate::proofs::ObjectLemmas::one_member))]
    fn write_members(&self, _alloc: Global, out: &mut Writer) -> Result<(), AllocError> {
        write_text(out, "note", self.words.as_str())
    }
}
