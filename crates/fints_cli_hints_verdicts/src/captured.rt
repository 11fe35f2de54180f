//! What no rule asks for and the capture says against the steps of a script: notes.
use crate::steps::figures_of;
use fints_check::Report;
use fints_cli_hints_captured::{Basis, Captured, Noted, Outgoing, SentStep, add_captured_notes};
use fints_cli_hints_reasons::lines::Called;
use fints_cli_hints_words::places::written;
use fints_script::{Plan, Step};
use fints_syntax::Memory;
use std::alloc::Global;

fn sent_by<'a>(plan: &'a Plan<'_>, step: &'a Step) -> Outgoing<'a> {
    Outgoing::Step(SentStep {
        templates: step.templates(),
        signed_by: step.signers(),
        signers: plan.signers(),
        fields: plan.fields(),
    })
}

// The places, from 0, of the steps that some run sends and that are signed by PIN and TAN.
fn places_of(alloc: Global, report: &Report<'_>) -> Result<Vec<usize>, Memory> {
    let plan = report.plan();
    let mut places = Vec::new(alloc);
    for (i, step) in plan.steps().iter().enumerate() {
        let is_sent = figures_of(report, i.saturating_add(1)).is_some();
        if is_sent && sent_by(plan, step).function(alloc)?.is_some() {
            places.push(i)?;
        }
    }
    Ok(places)
}

// Adds the notes on a step, where they weren't written before, and answers which are written now.
fn add_step(
    text: &mut String,
    alloc: Global,
    basis: &Basis<'_>,
    plan: &Plan<'_>,
    step: &Step,
    noted: Noted,
) -> Result<Noted, Memory> {
    let name = step.name();
    let called = Called(&name);
    let called = written(alloc, format_args!("step {called}: "))?;
    let mut noted = noted;
    let sent = sent_by(plan, step);
    add_captured_notes(text, alloc, called.as_str(), &mut noted, basis, &sent)?;
    Ok(noted)
}

/// Adds the notes by what the capture says, each at the first step that it is true of.
pub fn add_captured(
    text: &mut String,
    alloc: Global,
    capture: &[u8],
    report: &Report<'_>,
) -> Result<(), Memory> {
    let places = places_of(alloc, report)?;
    if places.is_empty() {
        return Ok(());
    }
    let plan = report.plan();
    let captured = Captured::of(alloc, capture)?;
    let basis = Basis {
        captured: &captured,
        allowed: captured.allowed.as_slice(),
        earlier: captured.allowed.as_slice(),
        permissions: report.permissions(),
    };
    let mut noted = Noted::none();
    for place in places.iter() {
        if let Some(step) = plan.steps().get(*place) {
            noted = add_step(text, alloc, &basis, plan, step, noted)?;
        }
    }
    Ok(())
}
