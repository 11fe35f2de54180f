//! The text of a script, as it is printed of the script that it denotes.
ghost use Rattle.std.specs.Prelude.{◌≡◌, IfOk, IsTrue};
ghost use Rattle.fints_script.specs.Scripts.{Denotes};
ghost use Rattle.fints_cli_drafts_texts.specs.DraftText.{draft_text};

use crate::place::{SegmentPlace, Undrafted};
use crate::sketching::Sketch;
use fints_cli_drafts_texts::draft_text;
use fints_script::{FaultKind, Script};
use std::alloc::Global;

/// A script, and what is printed of it.
#[derive(Drop)]
pub struct PrintedScript {
    pub script: Script,
    pub text: Vec<u8>,
}

// The script that a text denotes. Where it is none, the place in the dialogue that a sketch has it from is refused.
fn script_of(alloc: Global, text: &[u8], sketch: &Sketch) -> Result<Script, Undrafted>
    ensures { IfOk result (λ script. Denotes text.now script) }
{
    match Script::read(alloc, text) {
        Ok(script) => Ok(script),
        Err(fault) => match fault.kind {
            FaultKind::Memory => Err(Undrafted::Memory),
            _ => Err(sketch.source(fault.place).refused()),
        },
    }
}

// What is printed of the script that a text denotes, with the comments of a sketch.
fn printed_of(alloc: Global, text: &[u8], sketch: &Sketch) -> Result<PrintedScript, Undrafted>
    ensures denotes { IfOk result (λ printed. Denotes text.now printed.script) }
    ensures text { IfOk result (λ printed. printed.text.items ≡ draft_text printed.script sketch.now.notes) }
{
    let script = script_of(alloc, text, sketch)?;
    let text = draft_text(alloc, &script, &sketch.notes)?;
    Ok(PrintedScript { script, text })
}

fn is_same(own: &[u8], other: &[u8]) -> bool
    ensures { IsTrue result → own.now ≡ other.now }
{
    own == other
}

/// The script of a sketch, and what is printed of it with the comments: a text that denotes the script.
pub fn printed(alloc: Global, sketch: &Sketch) -> Result<PrintedScript, Undrafted>
    ensures denotes { IfOk result (λ printed. Denotes printed.text.items printed.script) }
    ensures text { IfOk result (λ printed. printed.text.items ≡ draft_text printed.script sketch.now.notes) }
{
    let first = printed_of(alloc, sketch.script.as_bytes(), sketch)?.text;
    let printed = printed_of(alloc, first.as_slice(), sketch)?;
    if !is_same(first.as_slice(), printed.text.as_slice()) {
        return Err(SegmentPlace::whole(0).refused());
    }
    Ok(printed)
}
