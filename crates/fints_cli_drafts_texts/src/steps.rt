//! The rows of the steps.
ghost use Rattle.std.specs.Prelude.{◌≡◌, ◌==◌, ◌++◌, OnOk, codes};
ghost use Rattle.std.specs.List.{join_by};
ghost use Rattle.fints_cli_drafts_texts.specs.DraftText.{array_text, comma, each_from, notes_at, quoted, repeat_key, sealed_key, signer_name, signer_string, signers_key, step_row, step_row_at};

use crate::notes::{Notes, OrderNote};
use crate::segments::write_segments;
use crate::strings::write_quoted;
use crate::targets::{write_branches, write_default};
use fints_script::{Script, Step};
use fints_script_templates::Signer;
use fints_syntax_segments::Memory;
use itoa::Buffer;
use std::alloc::Global;

#[tactic(auto, unfolding(crate::specs::DraftText::sealed_key))]
fn write_sealed(text: &mut Vec<u8>, sealed: bool) -> Result<(), Memory>
    ensures { OnOk result (text.new.items ≡ text.old.items ++ sealed_key sealed) }
{
    if sealed {
        text.extend_from_slice(b"sealed = true\n")?;
    }
    Ok(())
}

// The name of the signer at a place.
fn signer_name(signers: &[Signer], place: usize) -> &[u8]
    ensures { result.now ≡ signer_name signers.now place }
{
    match signers.get(place) {
        Some(signer) => signer.name.as_bytes(),
        None => &[],
    }
}

fn write_joined_signers(
    text: &mut Vec<u8>,
    signers: &[Signer],
    places: &[usize],
) -> Result<(), Memory>
    ensures { OnOk result (text.new.items
        ≡ text.old.items ++ join_by (signer_string signers.now) comma places.now) }
{
    match places {
        [] => {}
        [first, rest @ ..] => {
            write_quoted(text, signer_name(signers, *first))?;
            for place in rest {
                text.extend_from_slice(b", ")?;
                write_quoted(text, signer_name(signers, *place))?;
            }
        }
    }
    Ok(())
}

fn write_signer_array(
    text: &mut Vec<u8>,
    signers: &[Signer],
    places: &[usize],
) -> Result<(), Memory>
    ensures { OnOk result (text.new.items
        ≡ text.old.items ++ array_text (signer_string signers.now) places.now) }
{
    text.push(b'[')?;
    write_joined_signers(text, signers, places)?;
    text.push(b']')?;
    Ok(())
}

// Writes the key of a step's signers, where there are some.
#[tactic(auto, unfolding(crate::specs::DraftText::signers_key))]
fn write_signers(text: &mut Vec<u8>, signers: &[Signer], places: &[usize]) -> Result<(), Memory>
    ensures { OnOk result (text.new.items ≡ text.old.items ++ signers_key signers.now places.now) }
{
    match places {
        [] => {}
        [_, ..] => {
            text.extend_from_slice(b"signers = ")?;
            write_signer_array(text, signers, places)?;
            text.push(b'\n')?;
        }
    }
    Ok(())
}

fn is_once(count: u16) -> bool
    ensures { result ≡ (count == 1) }
{
    count == 1
}

#[tactic(auto, unfolding(crate::specs::DraftText::repeat_key))]
fn write_repeat(text: &mut Vec<u8>, count: u16) -> Result<(), Memory>
    ensures { OnOk result (text.new.items ≡ text.old.items ++ repeat_key count) }
{
    if is_once(count) {
        return Ok(());
    }
    let mut digits = Buffer::new();
    text.extend_from_slice(b"repeat = ")?;
    text.extend_from_slice(digits.format(count).as_bytes())?;
    text.push(b'\n')?;
    Ok(())
}

fn write_step_name(text: &mut Vec<u8>, step: &Step) -> Result<(), Memory>
    ensures { OnOk result (text.new.items
        ≡ text.old.items ++ (codes "\n[[step]]\nname = " ++ quoted step.now.name ++ codes "\n")) }
{
    text.extend_from_slice(b"\n[[step]]\nname = ")?;
    write_quoted(text, step.name().as_bytes())?;
    text.push(b'\n')?;
    Ok(())
}

// Writes the keys of a step before its segments.
fn write_step_head(text: &mut Vec<u8>, signers: &[Signer], step: &Step) -> Result<(), Memory>
    ensures { OnOk result (text.new.items
        ≡ text.old.items
        ++ (codes "\n[[step]]\nname = " ++ quoted step.now.name ++ codes "\n"
        ++ sealed_key step.now.sealed ++ signers_key signers.now step.now.signers
        ++ repeat_key step.now.repeat)) }
{
    write_step_name(text, step)?;
    write_sealed(text, step.sealed())?;
    write_signers(text, signers, step.signers())?;
    write_repeat(text, step.repeat())
}

// Writes the row of a step.
#[tactic(auto, unfolding(crate::specs::DraftText::step_row))]
fn write_step(
    alloc: Global,
    text: &mut Vec<u8>,
    script: &Script,
    notes: &[OrderNote],
    step: &Step,
) -> Result<(), Memory>
    ensures { OnOk result (text.new.items ≡ text.old.items ++ step_row script.now notes.now step.now) }
{
    write_step_head(text, script.signers(), step)?;
    write_segments(alloc, text, script.fields(), notes, step.templates())?;
    write_branches(text, script.steps(), step.branches())?;
    write_default(text, script.steps(), step.otherwise())
}

// What is noted of the segments of the step at a place.
fn notes_at(notes: &Notes, place: usize) -> &[OrderNote]
    ensures { result.now ≡ notes_at notes.now place }
{
    match notes.orders.get(place) {
        Some(orders) => orders.as_slice(),
        None => &[],
    }
}

fn write_each_step(
    alloc: Global,
    text: &mut Vec<u8>,
    script: &Script,
    notes: &Notes,
    steps: &[Step],
) -> Result<(), Memory>
    ensures { OnOk result (text.new.items
        ≡ text.old.items ++ each_from (step_row_at script.now notes.now) 0 steps.now) }
{
    for (i, step) in steps.iter().enumerate() {
        write_step(alloc, text, script, notes_at(notes, i), step)?;
    }
    Ok(())
}

/// Writes the rows of the steps.
pub fn write_steps(
    alloc: Global,
    text: &mut Vec<u8>,
    script: &Script,
    notes: &Notes,
) -> Result<(), Memory>
    ensures { OnOk result (text.new.items
        ≡ text.old.items ++ each_from (step_row_at script.now notes.now) 0 script.now.steps) }
{
    write_each_step(alloc, text, script, notes, script.steps())
}
