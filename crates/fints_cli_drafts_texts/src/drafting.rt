//! The whole text.
ghost use Rattle.std.specs.Prelude.{◌≡◌, IfOk};
ghost use Rattle.fints_cli_drafts_texts.specs.DraftText.{draft_text};

use crate::fields::write_fields;
use crate::notes::{Notes, write_opening, write_seal_notes};
use crate::signers::{write_seal, write_signers};
use crate::steps::write_steps;
use fints_script::Script;
use fints_syntax_segments::Memory;
use std::alloc::Global;

/// The text of a draft that denotes a script, with its comments.
#[tactic(auto, unfolding(crate::specs::DraftText::draft_text))]
pub fn draft_text(alloc: Global, script: &Script, notes: &Notes) -> Result<Vec<u8>, Memory>
    ensures { IfOk result (λ text. text.items ≡ draft_text script.now notes.now) }
{
    let mut text = Vec::new(alloc);
    write_opening(&mut text)?;
    write_seal(alloc, &mut text, script.fields(), script.seal())?;
    write_seal_notes(&mut text, notes.seals.as_slice())?;
    write_fields(&mut text, script.fields())?;
    write_signers(alloc, &mut text, script.fields(), script.signers())?;
    write_steps(alloc, &mut text, script, notes)?;
    Ok(text)
}
