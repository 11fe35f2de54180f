//! The branches of a step and its default.
ghost use Rattle.std.specs.Prelude.{◌≡◌, ◌++◌, OnOk};
ghost use Rattle.std.specs.List.{join_by};
ghost use Rattle.fints_cli_drafts_texts.specs.DraftText.{array_text, branch_text, branches_key, comma, default_key, step_name, target_string, target_word};

use crate::strings::write_quoted;
use fints_script::Step;
use fints_script_cases::{Branch, Target};
use fints_syntax_segments::Memory;

// Writes the name of a step, which counts from 1.
fn write_step_name(text: &mut Vec<u8>, steps: &[Step], n: usize) -> Result<(), Memory>
    ensures { OnOk result (text.new.items ≡ text.old.items ++ step_name steps.now n) }
{
    match steps.get(n.saturating_sub(1)) {
        Some(step) => text.extend_from_slice(step.name().as_bytes())?,
        None => {}
    }
    Ok(())
}

fn write_target_word(text: &mut Vec<u8>, steps: &[Step], to: Target) -> Result<(), Memory>
    ensures { OnOk result (text.new.items ≡ text.old.items ++ target_word steps.now to) }
{
    match to {
        Target::Step(n) => write_step_name(text, steps, usize::from(n))?,
        Target::Again => text.extend_from_slice(b"again")?,
        Target::Stop => text.extend_from_slice(b"stop")?,
    }
    Ok(())
}

fn write_target(text: &mut Vec<u8>, steps: &[Step], to: Target) -> Result<(), Memory>
    ensures { OnOk result (text.new.items ≡ text.old.items ++ target_string steps.now to) }
{
    text.push(b'"')?;
    write_target_word(text, steps, to)?;
    text.push(b'"')?;
    Ok(())
}

#[tactic(auto, unfolding(crate::specs::DraftText::branch_text))]
fn write_branch(text: &mut Vec<u8>, steps: &[Step], branch: &Branch) -> Result<(), Memory>
    ensures { OnOk result (text.new.items ≡ text.old.items ++ branch_text steps.now branch.now) }
{
    text.extend_from_slice(b"{on = ")?;
    write_quoted(text, branch.on.as_bytes())?;
    text.extend_from_slice(b", to = ")?;
    write_target(text, steps, branch.to)?;
    text.push(b'}')?;
    Ok(())
}

fn write_joined_branches(
    text: &mut Vec<u8>,
    steps: &[Step],
    branches: &[Branch],
) -> Result<(), Memory>
    ensures { OnOk result (text.new.items
        ≡ text.old.items ++ join_by (branch_text steps.now) comma branches.now) }
{
    match branches {
        [] => {}
        [first, rest @ ..] => {
            write_branch(text, steps, first)?;
            for branch in rest {
                text.extend_from_slice(b", ")?;
                write_branch(text, steps, branch)?;
            }
        }
    }
    Ok(())
}

fn write_branch_array(text: &mut Vec<u8>, steps: &[Step], branches: &[Branch]) -> Result<(), Memory>
    ensures { OnOk result (text.new.items
        ≡ text.old.items ++ array_text (branch_text steps.now) branches.now) }
{
    text.push(b'[')?;
    write_joined_branches(text, steps, branches)?;
    text.push(b']')?;
    Ok(())
}

/// Writes the key of a step's branches, where there are some.
#[tactic(auto, unfolding(crate::specs::DraftText::branches_key))]
pub fn write_branches(text: &mut Vec<u8>, steps: &[Step], branches: &[Branch]) -> Result<(), Memory>
    ensures { OnOk result (text.new.items ≡ text.old.items ++ branches_key steps.now branches.now) }
{
    match branches {
        [] => {}
        [_, ..] => {
            text.extend_from_slice(b"branches = ")?;
            write_branch_array(text, steps, branches)?;
            text.push(b'\n')?;
        }
    }
    Ok(())
}

/// Writes the key of where a step leads if no branch matches.
#[tactic(auto, unfolding(crate::specs::DraftText::default_key))]
pub fn write_default(text: &mut Vec<u8>, steps: &[Step], to: Target) -> Result<(), Memory>
    ensures { OnOk result (text.new.items ≡ text.old.items ++ default_key steps.now to) }
{
    text.extend_from_slice(b"default = ")?;
    write_target(text, steps, to)?;
    text.push(b'\n')?;
    Ok(())
}
