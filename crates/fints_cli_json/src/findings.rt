//! The findings of several messages or steps, and the notes.
ghost use Rattle.std.specs.Prelude.{◌≡◌, ◌++◌, OnOk};
ghost use Rattle.fints_cli_json.specs.Findings.{findings_members};
ghost use Rattle.fints_cli_json.specs.Tokens.{all_members};

use crate::found::JsonFinding;
use crate::note::JsonNote;
use crate::objects::write_list;
use json::Writer;
use std::alloc::{AllocError, Global};

/// Writes the findings, and then the notes.
#[tactic(auto, using(crate::proofs::ObjectLemmas::two_members))]
pub fn write_findings(
    alloc: Global,
    out: &mut Writer,
    founds: &[JsonFinding],
    notes: &[JsonNote],
) -> Result<(), AllocError>
    ensures tokens { OnOk result
        (out.new.tokens ≡ out.old.tokens ++ all_members (findings_members founds.now notes.now)) }
    ensures before { out.new.before ≡ out.old.before }
{
    write_list(alloc, out, "findings", founds)?;
    write_list(alloc, out, "notes", notes)
}
