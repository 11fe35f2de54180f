//! The lines of the branches of a step, its default among them, which counts as the last.
ghost use Rattle.std.specs.Prelude.{◌≡◌, ◌≤◌, ◌+◌, ◌++◌, length, OnOk};
ghost use Rattle.fints_script.specs.Sound.{IsOnward, LeadsOnward};
ghost use Rattle.fints_cli_drawings.specs.Openers.{opener_of};
ghost use Rattle.fints_cli_drawings.specs.Picture.{closed_style, default_style, edge_label, edge_line, edge_lines, edge_style, edge_to, opener_text, pattern_text, repeat_text, target_name};

use crate::nodes::GREY;
use fints_params::Code;
use fints_script::{Plan, Step, Target};
use fints_script_cases::digits_of;
use fints_syntax::Memory;
use itoa::Buffer;

// The least code that fires the branch by itself, if some answer does.
fn opener_of(step: &Step, branch: usize) -> Option<Code>
    requires from { 1 ≤ branch }
    requires to { branch ≤ length step.now.branches + 1 }
    ensures { result ≡ opener_of step.now.branches branch }
{
    step.opener(branch)
}

fn write_pattern(text: &mut Vec<u8>, step: &Step, branch: usize) -> Result<(), Memory>
    ensures { OnOk result (text.new.items ≡ text.old.items ++ pattern_text step.now.branches branch) }
{
    match step.branches().get(branch.saturating_sub(1)) {
        Some(own) => text.extend_from_slice(own.on.as_bytes())?,
        None => text.extend_from_slice(b"default")?,
    }
    Ok(())
}

#[tactic(auto, unfolding(crate::specs::Picture::opener_text))]
fn write_opener(text: &mut Vec<u8>, opener: &Option<Code>) -> Result<(), Memory>
    ensures { OnOk result (text.new.items ≡ text.old.items ++ opener_text opener.now) }
{
    let Some(code) = opener else {
        return Ok(());
    };
    text.extend_from_slice(b" (")?;
    text.extend_from_slice(&digits_of(*code))?;
    text.push(b')')?;
    Ok(())
}

// Writes how many messages of the step may be sent in a row, where it is sent again.
#[tactic(auto, unfolding(crate::specs::Picture::repeat_text))]
fn write_repeat(text: &mut Vec<u8>, repeat: u16, to: Target) -> Result<(), Memory>
    ensures { OnOk result (text.new.items ≡ text.old.items ++ repeat_text repeat to) }
{
    if !matches!(to, Target::Again) {
        return Ok(());
    }
    let mut count = Buffer::new();
    text.extend_from_slice(b" repeat ")?;
    text.extend_from_slice(count.format(repeat).as_bytes())?;
    Ok(())
}

#[tactic(auto, unfolding(crate::specs::Picture::edge_label))]
fn write_label(
    text: &mut Vec<u8>,
    step: &Step,
    branch: usize,
    opener: &Option<Code>,
    to: Target,
) -> Result<(), Memory>
    ensures { OnOk result (text.new.items ≡ text.old.items ++ edge_label step.now branch opener.now to) }
{
    write_pattern(text, step, branch)?;
    write_opener(text, opener)?;
    write_repeat(text, step.repeat(), to)
}

// Dashed where it is the default.
fn write_default_style(text: &mut Vec<u8>, step: &Step, branch: usize) -> Result<(), Memory>
    ensures { OnOk result (text.new.items ≡ text.old.items ++ default_style step.now.branches branch) }
{
    if step.branches().get(branch.saturating_sub(1)).is_none() {
        text.extend_from_slice(b", style=dashed")?;
    }
    Ok(())
}

// Grey where no answer fires it.
#[tactic(auto, unfolding(crate::specs::Picture::closed_style))]
fn write_closed_style(text: &mut Vec<u8>, opener: &Option<Code>) -> Result<(), Memory>
    ensures { OnOk result (text.new.items ≡ text.old.items ++ closed_style opener.now) }
{
    if opener.is_none() {
        text.extend_from_slice(GREY)?;
    }
    Ok(())
}

#[tactic(auto, unfolding(crate::specs::Picture::edge_style))]
fn write_style(
    text: &mut Vec<u8>,
    step: &Step,
    branch: usize,
    opener: &Option<Code>,
) -> Result<(), Memory>
    ensures { OnOk result (text.new.items ≡ text.old.items ++ edge_style step.now branch opener.now) }
{
    write_default_style(text, step, branch)?;
    write_closed_style(text, opener)
}

// Writes the name of the step that a branch of a step leads to, or `stop`.
fn write_target(text: &mut Vec<u8>, plan: &Plan<'_>, step: &Step, to: Target) -> Result<(), Memory>
    requires { IsOnward (length plan.now.script.steps) 0 to }
    ensures { OnOk result (text.new.items
        ≡ text.old.items ++ target_name plan.now.script.steps step.now to) }
{
    match to {
        Target::Step(n) => text.extend_from_slice(plan.step(usize::from(n)).name().as_bytes())?,
        Target::Again => text.extend_from_slice(step.name().as_bytes())?,
        Target::Stop => text.extend_from_slice(b"stop")?,
    }
    Ok(())
}

#[tactic(auto, unfolding(crate::specs::Picture::edge_to))]
fn write_edge_to(
    text: &mut Vec<u8>,
    plan: &Plan<'_>,
    step: &Step,
    branch: usize,
    opener: &Option<Code>,
    to: Target,
) -> Result<(), Memory>
    requires { IsOnward (length plan.now.script.steps) 0 to }
    ensures { OnOk result (text.new.items
        ≡ text.old.items ++ edge_to plan.now.script.steps step.now branch opener.now to) }
{
    text.extend_from_slice(b"  \"")?;
    text.extend_from_slice(step.name().as_bytes())?;
    text.extend_from_slice(b"\" -> \"")?;
    write_target(text, plan, step, to)?;
    text.extend_from_slice(b"\" [label=\"")?;
    write_label(text, step, branch, opener, to)?;
    text.push(b'"')?;
    write_style(text, step, branch, opener)?;
    text.extend_from_slice(b"];\n")?;
    Ok(())
}

// Writes the line of a branch of a step.
fn write_edge(text: &mut Vec<u8>, plan: &Plan<'_>, step: &Step, branch: usize) -> Result<(), Memory>
    requires onward { LeadsOnward (length plan.now.script.steps) 0 step.now }
    requires from { 1 ≤ branch }
    requires to { branch ≤ length step.now.branches + 1 }
    ensures { OnOk result (text.new.items
        ≡ text.old.items ++ edge_line plan.now.script.steps step.now branch) }
{
    let opener = opener_of(step, branch);
    write_edge_to(text, plan, step, branch, &opener, step.target(branch))
}

/// Writes the lines of all branches of a step that lead to steps of the plan.
pub fn write_edges(text: &mut Vec<u8>, plan: &Plan<'_>, step: &Step) -> Result<(), Memory>
    requires { LeadsOnward (length plan.now.script.steps) 0 step.now }
    ensures { OnOk result (text.new.items
        ≡ text.old.items ++ edge_lines plan.now.script.steps step.now) }
{
    for b in 0..step.branches().len() + 1 {
        write_edge(text, plan, step, b + 1)?;
    }
    Ok(())
}
