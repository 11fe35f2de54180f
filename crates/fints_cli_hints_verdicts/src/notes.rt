//! What is clean and may still be wrong: notes on a script, which are no findings.
use crate::steps::{figures_of, is_open};
use fints_check::Report;
use fints_cli_hints_reasons::branches::BranchOf;
use fints_cli_hints_reasons::lines::{Called, name_of};
use fints_cli_hints_words::places::written;
use fints_script::{
    Name, NamedField, Plan, Signer, Step, Target, Template, TemplateElements, TemplateItem,
};
use fints_syntax::Memory;
use std::alloc::Global;
use std::fmt;
use std::fmt::{Display, Formatter, Write};

// ---- what is said

// Why no run sends a step.
#[derive(Clone, Copy)]
enum Unsent {
    /// The step that leads there is unreached itself.
    Behind(Name),
    /// The branch of a step that leads there is never fired.
    Closed(BranchOf, Name),
    /// Nothing leads there.
    Apart,
}

impl Display for Unsent {
    fn fmt<W: Write>(&self, f: &mut Formatter<W>) -> fmt::Result {
        match self {
            Unsent::Behind(from) => {
                let from = Called(from);
                write!(
                    f,
                    "step {from}, which leads there, is unreached too: fix that first"
                )
            }
            Unsent::Closed(branch, from) => {
                let from = Called(from);
                write!(
                    f,
                    "{branch} of step {from} leads there, and no answer fires it: narrow the patterns before it"
                )
            }
            Unsent::Apart => {
                f.write_str("no branch leads there: write one that does, or remove the step")
            }
        }
    }
}

// A note on a script.
#[derive(Clone, Copy)]
enum Note {
    /// A step is signed and not sealed; whether the script has a seal.
    NotSealed(Name, bool),
    DialogAsText(Name),
    NeverFired(usize, Name),
    NotSent(Name, Unsent),
    NoEnd(Name),
    Unused(Name),
}

fn write_not_sealed<W: Write>(f: &mut Formatter<W>, step: &Name, has_seal: bool) -> fmt::Result {
    let step = Called(step);
    let seal = if has_seal {
        ""
    } else {
        ", and seal = [..] before all tables"
    };
    write!(
        f,
        "step {step} is signed and not sealed: write sealed = true in it{seal}, so that no PIN or TAN is in its message in clear"
    )
}

impl Display for Note {
    fn fmt<W: Write>(&self, f: &mut Formatter<W>) -> fmt::Result {
        match self {
            Note::NotSealed(step, has_seal) => write_not_sealed(f, step, *has_seal),
            Note::DialogAsText(step) => {
                let step = Called(step);
                write!(
                    f,
                    "step {step}: element 2 of HKEND is the text \"dialog\": write \"$dialog\", the id of the dialogue"
                )
            }
            Note::NeverFired(branch, step) => {
                let step = Called(step);
                write!(
                    f,
                    "branch {branch} of step {step} is never fired, since the patterns before it match each of its codes: remove it, or put it before them"
                )
            }
            Note::NotSent(step, why) => {
                let step = Called(step);
                write!(f, "no run sends step {step}: {why}")
            }
            Note::NoEnd(step) => {
                let step = Called(step);
                write!(
                    f,
                    "after step {step} no message ends the dialogue: lead on to a step with HKEND"
                )
            }
            Note::Unused(field) => {
                let (field, name) = (Called(field), name_of(field));
                write!(
                    f,
                    "the field {field} is used nowhere: write \"${name}\" where its value belongs, or remove it"
                )
            }
        }
    }
}

fn add_note(text: &mut String, alloc: Global, note: Note) -> Result<(), Memory> {
    let line = written(alloc, format_args!("note: {note}\n"))?;
    text.push_str(line.as_str())?;
    Ok(())
}

// ---- what a step sends

fn is_end(template: &Template) -> bool {
    template.kind.is(b"HKEND")
}

// Whether the first item of element 2 is this literal.
fn begins_with(template: &Template, text: &[u8]) -> bool {
    match template.elements.as_slice() {
        [first, ..] => match first.as_slice() {
            [TemplateItem::Literal(item), ..] => item.value() == text,
            _ => false,
        },
        [] => false,
    }
}

fn add_sent(text: &mut String, alloc: Global, step: &Step, has_seal: bool) -> Result<(), Memory> {
    if !step.signers().is_empty() && !step.sealed() {
        add_note(text, alloc, Note::NotSealed(step.name(), has_seal))?;
    }
    let mut templates = step.templates().iter();
    if templates.any(|it| is_end(it) && begins_with(it, b"dialog")) {
        add_note(text, alloc, Note::DialogAsText(step.name()))?;
    }
    Ok(())
}

// ---- where its branches lead

fn add_closed(text: &mut String, alloc: Global, step: &Step) -> Result<(), Memory> {
    for branch in 1..step.branches().len() + 1 {
        if !is_open(step, branch) {
            add_note(text, alloc, Note::NeverFired(branch, step.name()))?;
        }
    }
    Ok(())
}

// The first way to a step: the place of the first step that has a branch there, and its first such branch.
// Branches count from 1, and the default counts as the last.
#[derive(Clone, Copy)]
struct Lead {
    from: usize,
    branch: usize,
}

// Keeps the branches of a step that are the first way to another.
fn add_leads(leads: &mut [Option<Lead>], step: &Step, from: usize) {
    for branch in 1..step.branches().len() + 2 {
        let Target::Step(to) = step.target(branch) else {
            continue;
        };
        if let Some(place) = usize::from(to).checked_sub(1)
            && let Some(lead) = leads.get_mut(place)
            && lead.is_none()
        {
            *lead = Some(Lead { from, branch });
        }
    }
}

// The first way to each step, where there is one.
fn leads_of(alloc: Global, steps: &[Step]) -> Result<Vec<Option<Lead>>, Memory> {
    let mut leads: Vec<Option<Lead>> = vec![in alloc; None; steps.len()]?;
    for (from, step) in steps.iter().enumerate() {
        add_leads(leads.as_mut_slice(), step, from);
    }
    Ok(leads)
}

// Why no run sends a step, by the first way to it.
fn why_unsent(report: &Report<'_>, steps: &[Step], lead: Option<Lead>) -> Unsent {
    let Some(Lead { from, branch }) = lead else {
        return Unsent::Apart;
    };
    let Some(step) = steps.get(from) else {
        return Unsent::Apart;
    };
    if figures_of(report, from.saturating_add(1)).is_none() {
        Unsent::Behind(step.name())
    } else {
        Unsent::Closed(BranchOf::at(step, branch), step.name())
    }
}

// ---- whether the dialogue is ended

fn is_ending(ends: &[bool], to: Target) -> bool {
    match to {
        Target::Step(n) => usize::from(n)
            .checked_sub(1)
            .and_then(|i| ends.get(i).copied())
            .unwrap_or(false),
        Target::Again | Target::Stop => false,
    }
}

fn leads_to_end(step: &Step, ends: &[bool]) -> bool {
    step.branches()
        .iter()
        .any(|branch| is_ending(ends, branch.to))
        || is_ending(ends, step.otherwise())
}

// For each step whether it, or some step after it, ends the dialogue.
fn endings(alloc: Global, steps: &[Step]) -> Result<Vec<bool>, Memory> {
    let mut ends: Vec<bool> = Vec::new(alloc);
    for step in steps {
        ends.push(step.templates().iter().any(is_end))?;
    }
    for i in (0..steps.len()).rev() {
        let later = leads_to_end(&steps[i], ends.as_slice());
        if let Some(end) = ends.as_mut_slice().get_mut(i)
            && later
        {
            *end = true;
        }
    }
    Ok(ends)
}

// The place of the first step that some run sends and after which nothing ends the dialogue.
fn first_endless(report: &Report<'_>, ends: &[bool]) -> Option<usize> {
    for (i, end) in ends.iter().enumerate() {
        if !*end && figures_of(report, i.saturating_add(1)).is_some() {
            return Some(i);
        }
    }
    None
}

// ---- fields

fn uses(elements: &TemplateElements, place: usize) -> bool {
    elements.as_slice().iter().any(|items| {
        items.as_slice().iter().any(|item| matches!(item, TemplateItem::Field(at) if *at == place))
    })
}

fn is_used(plan: &Plan<'_>, steps: &[Step], place: usize) -> bool {
    let in_signer = |signer: &Signer| uses(&signer.head, place) || uses(&signer.end, place);
    let in_step = |step: &Step| step.templates().iter().any(|it| uses(&it.elements, place));
    plan.signers().iter().any(in_signer)
        || steps.iter().any(in_step)
        || plan.seal().is_some_and(|seal| uses(seal, place))
}

fn add_fields(
    text: &mut String,
    alloc: Global,
    plan: &Plan<'_>,
    steps: &[Step],
    fields: &[NamedField],
) -> Result<(), Memory> {
    for (place, field) in fields.iter().enumerate() {
        // the built-in field is first
        if place != 0 && !is_used(plan, steps, place) {
            add_note(text, alloc, Note::Unused(field.name))?;
        }
    }
    Ok(())
}

// ---- all notes

fn add_steps(
    text: &mut String,
    alloc: Global,
    report: &Report<'_>,
    steps: &[Step],
    endless: Option<usize>,
) -> Result<(), Memory> {
    let has_seal = report.plan().seal().is_some();
    let leads = leads_of(alloc, steps)?;
    for (i, step) in steps.iter().enumerate() {
        add_sent(text, alloc, step, has_seal)?;
        add_closed(text, alloc, step)?;
        if figures_of(report, i + 1).is_none() {
            let why = why_unsent(report, steps, leads.get(i).copied().flatten());
            add_note(text, alloc, Note::NotSent(step.name(), why))?;
        }
        if endless == Some(i) {
            add_note(text, alloc, Note::NoEnd(step.name()))?;
        }
    }
    Ok(())
}

/// Adds the notes on a script, by its steps, and last those on its fields.
pub fn add_notes(text: &mut String, alloc: Global, report: &Report<'_>) -> Result<(), Memory> {
    let plan = report.plan();
    let steps = plan.steps();
    let ends = endings(alloc, steps)?;
    let endless = first_endless(report, ends.as_slice());
    add_steps(text, alloc, report, steps, endless)?;
    add_fields(text, alloc, plan, steps, plan.fields())
}
