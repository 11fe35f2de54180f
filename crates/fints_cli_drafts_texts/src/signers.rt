//! The seal and the signers.
ghost use Rattle.std.specs.Prelude.{◌≡◌, ◌++◌, OnOk, option_map};
ghost use Rattle.std.specs.List.{flat_map};
ghost use Rattle.fints_cli_drafts_texts.specs.DraftText.{seal_row, signer_row};

use crate::elements::write_elements;
use crate::strings::write_quoted;
use fints_script_rows::NamedField;
use fints_script_templates::{Signer, TemplateElements};
use fints_syntax_segments::Memory;
use std::alloc::Global;

/// Writes the key of the seal, where there is one.
#[tactic(auto, unfolding(crate::specs::DraftText::seal_row))]
pub fn write_seal(
    alloc: Global,
    text: &mut Vec<u8>,
    fields: &[NamedField],
    seal: Option<&TemplateElements>,
) -> Result<(), Memory>
    ensures { OnOk result (text.new.items
        ≡ text.old.items ++ seal_row fields.now (option_map (λ own. own.now) seal.entry)) }
{
    match seal {
        None => {}
        Some(elements) => {
            text.extend_from_slice(b"\nseal = ")?;
            write_elements(alloc, text, fields, elements)?;
            text.push(b'\n')?;
        }
    }
    Ok(())
}

#[tactic(auto, unfolding(crate::specs::DraftText::signer_row))]
fn write_signer(
    alloc: Global,
    text: &mut Vec<u8>,
    fields: &[NamedField],
    signer: &Signer,
) -> Result<(), Memory>
    ensures { OnOk result (text.new.items ≡ text.old.items ++ signer_row fields.now signer.now) }
{
    text.extend_from_slice(b"\n[[signer]]\nname = ")?;
    write_quoted(text, signer.name.as_bytes())?;
    text.extend_from_slice(b"\nhead = ")?;
    write_elements(alloc, text, fields, &signer.head)?;
    text.extend_from_slice(b"\nend = ")?;
    write_elements(alloc, text, fields, &signer.end)?;
    text.push(b'\n')?;
    Ok(())
}

/// Writes the rows of the signers.
pub fn write_signers(
    alloc: Global,
    text: &mut Vec<u8>,
    fields: &[NamedField],
    signers: &[Signer],
) -> Result<(), Memory>
    ensures { OnOk result (text.new.items ≡ text.old.items ++ flat_map (signer_row fields.now) signers.now) }
{
    for signer in signers {
        write_signer(alloc, text, fields, signer)?;
    }
    Ok(())
}
