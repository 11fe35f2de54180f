//! The text of `run`: the messages that a client sends under a case.
ghost use Rattle.std.specs.Prelude.{◌≡◌, ◌++◌, OnOk, IfOk, IfErr};
ghost use Rattle.std.specs.List.{All};
ghost use Rattle.fints_script.specs.Plans.{Admits};
ghost use Rattle.fints_cli_scripts.specs.StepNames.{IsMessageOf};
ghost use Rattle.fints_wire.specs.Runs.{IsWithin};
ghost use Rattle.fints_cli_scripts.specs.RunVisits.{TellsVisits, TellsVisit, FindsVisit, IsUnvisitedRefusal};
ghost use Rattle.fints_cli_scripts.specs.RunText.{line_of, message_text, TellsRun, TellsCase, IsRunOf, IsAdmittedRefusal, IsCaseRefusal, IsRunRefusal};

use crate::inputs::read_inputs;
use fints_cli_texts::Fault;
use fints_script::{Case, Name, Plan, Values};
use fints_syntax::Memory;
use fints_wire::{Sent, Visit, message, visits};
use itoa::Buffer;
use std::alloc::Global;

// Writes the line of a message of a step of this name.
#[tactic(auto, unfolding(crate::specs::RunText::line_of))]
fn write_line(text: &mut Vec<u8>, name: Name, sent: &Sent) -> Result<(), Memory>
    ensures { OnOk result (text.new.items ≡ text.old.items ++ line_of name sent.now) }
{
    let mut number = Buffer::new();
    let mut size = Buffer::new();
    text.extend_from_slice(b"message ")?;
    text.extend_from_slice(number.format(sent.number).as_bytes())?;
    text.extend_from_slice(b" step ")?;
    text.extend_from_slice(name.as_bytes())?;
    text.extend_from_slice(b" size ")?;
    text.extend_from_slice(size.format(sent.bytes.as_slice().len()).as_bytes())?;
    text.push(b'\n')?;
    Ok(())
}

#[tactic(auto, using(crate::proofs::StepLemmas::named), unfolding(crate::specs::RunText::message_text))]
fn write_message(text: &mut Vec<u8>, plan: &Plan, sent: &Sent) -> Result<(), Memory>
    requires { IsMessageOf plan.now.script.steps sent.now }
    ensures { OnOk result (text.new.items
        ≡ text.old.items ++ message_text plan.now.script.steps sent.now) }
{
    let step = plan.step(usize::from(sent.step));
    write_line(text, step.name(), sent)?;
    text.extend_from_slice(sent.bytes.as_slice())?;
    text.push(b'\n')?;
    Ok(())
}

// The messages of visits, each after its line, written as they are made.
fn all_messages(
    alloc: Global,
    plan: &Plan,
    values: &Values,
    visits: &[Visit],
) -> Result<Vec<u8>, Memory>
    requires within { All (IsWithin plan.now.script.steps) visits.now }
    requires admits { Admits plan.now.script.fields values.now }
    ensures { IfOk result (λ text. TellsVisits plan.now.script values.now visits.now text.items) }
{
    let mut text = Vec::new(alloc);
    for visit in visits {
        let sent = message(alloc, plan, values, *visit)?;
        write_message(&mut text, plan, &sent)?;
    }
    Ok(text)
}

// The visit with this number.
fn visit_of(visits: &[Visit], number: u32) -> Option<Visit>
    ensures { FindsVisit visits.now number result }
{
    visits.iter().copied().find(|visit| visit.number == number)
}

// The bytes of the message of this number.
fn one_message(
    alloc: Global,
    plan: &Plan,
    values: &Values,
    visits: &[Visit],
    number: u32,
) -> Result<Vec<u8>, Fault>
    requires within { All (IsWithin plan.now.script.steps) visits.now }
    requires admits { Admits plan.now.script.fields values.now }
    ensures told { IfOk result (λ text. TellsVisit plan.now.script values.now visits.now number text.items) }
    ensures refused { IfErr result (λ f. IsUnvisitedRefusal visits.now number f) }
{
    let Some(visit) = visit_of(visits, number) else {
        return Err(Fault::NoMessage { number });
    };
    let sent = message(alloc, plan, values, visit)?;
    let bytes = sent.bytes.as_slice().to_vec(alloc)?;
    Ok(bytes)
}

// The text of the run of a case with admitted values.
fn run_admitted(
    alloc: Global,
    plan: &Plan,
    case: &Case,
    only: Option<u32>,
) -> Result<Vec<u8>, Fault>
    requires { Admits plan.now.script.fields case.now.values }
    ensures told { IfOk result (λ text.
        TellsRun plan.now.script case.now.values case.now.answers.items only text.items) }
    ensures refused { IfErr result (λ f.
        IsAdmittedRefusal plan.now.script case.now.values case.now.answers.items only f) }
{
    let visits = visits(alloc, plan, case.answers.as_slice())?;
    let Some(number) = only else {
        let text = all_messages(alloc, plan, &case.values, visits.as_slice())?;
        return Ok(text);
    };
    let text = one_message(alloc, plan, &case.values, visits.as_slice(), number)?;
    Ok(text)
}

// The text of the run of a case, by a plan.
fn run_planned(alloc: Global, plan: &Plan, case: &[u8], only: Option<u32>) -> Result<Vec<u8>, Fault>
    ensures told { IfOk result (λ text. TellsCase plan.now.script case.now only text.items) }
    ensures refused { IfErr result (λ f. IsCaseRefusal plan.now.script case.now only f) }
{
    let case = Case::read(alloc, case)?;
    if !plan.admits(&case.values) {
        return Err(Fault::NotAdmitted);
    }
    run_admitted(alloc, plan, &case, only)
}

/// The messages that a client sends under a case, each after a line about it; or, where a
/// number is given, only the bytes of the message of that number; numbers count from 1. Of the
/// refusals that of the order table comes first, then that of the script, then what the script
/// leaves open with the order table, then that of the case, and then that of a number that the run
/// doesn't reach.
pub fn run_case(
    alloc: Global,
    orders: &[u8],
    script: &[u8],
    case: &[u8],
    only: Option<u32>,
) -> Result<Vec<u8>, Fault>
    ensures told { IfOk result (λ text. IsRunOf orders.now script.now case.now only text.items) }
    ensures refused { IfErr result (λ f. IsRunRefusal orders.now script.now case.now only f) }
{
    let inputs = read_inputs(alloc, orders, script)?;
    let plan = inputs.script.plan(&inputs.orders)?;
    let text = run_planned(alloc, &plan, case, only)?;
    Ok(text)
}
