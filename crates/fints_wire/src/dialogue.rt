//! Runs: the messages that a client sends under a list of answers.
ghost use Rattle.std.specs.Prelude.{◌<◌, ◌≤◌, MatchOption, IfOk};
ghost use Rattle.fints_script_cases.specs.Answers.{IsAnswer};
ghost use Rattle.fints_script.specs.Plans.{Admits};
ghost use Rattle.fints_script.specs.Scripts.{IsRead};
ghost use Rattle.std.specs.List.{All, AllByRecursion};
ghost use Rattle.fints_wire.specs.Views.{IsReadAs};
ghost use Rattle.fints_wire.specs.declared.building.TheConstants.{MAX_NUMBER};
ghost use Rattle.fints_wire.specs.Runs.{AreSent, AreVisits, Ends, Enters, IsSent, IsWithin, Run, answered};

use crate::building::build;
use fints_script::{Answer, Plan, Step, Target, Values};
use fints_syntax::{Bytes, Memory};
use std::alloc::Global;

/// A message before its values: its step and its number, both counted from 1, and how many messages
/// of this step were sent in a row, itself counted.
#[derive(Clone, Copy, PartialEq, Eq)]
pub struct Visit {
    pub step: u16,
    pub number: u32,
    pub times: u16,
}

/// A message that is sent: its step and its number, both counted from 1, and its bytes.
#[derive(Drop)]
pub struct Sent {
    pub step: u16,
    pub number: u32,
    pub bytes: Bytes,
}

// What an answer to a message of the step has sent next, unless it ends the run.
fn follow(step: &Step, here: Visit, answer: &Answer) -> Option<Visit>
    requires number { here.number < MAX_NUMBER }
    requires times { here.times ≤ 99 }
    ensures { MatchOption result
        (Ends step.now.repeat here (answered step.now answer.now))
        (Enters step.now.repeat here (answered step.now answer.now)) }
{
    match step.choose(answer.codes()) {
        Target::Step(to) => Some(Visit {
            step: to,
            number: here.number + 1,
            times: 1,
        }),
        Target::Again => {
            if here.times < step.repeat() {
                Some(Visit {
                    step: here.step,
                    number: here.number + 1,
                    times: here.times + 1,
                })
            } else {
                None
            }
        }
        Target::Stop => None,
    }
}

/// The message of a visit, for values that the plan admits.
pub fn message(alloc: Global, plan: &Plan, values: &Values, visit: Visit) -> Result<Sent, Memory>
    requires within { IsWithin plan.now.script.steps visit }
    requires admits { Admits plan.now.script.fields values.now }
    ensures { IfOk result (IsSent plan.now.script values.now visit) }
{
    prove!(usize::from(visit.step) <= plan.step_count());
    let bytes = build(alloc, plan, usize::from(visit.step), visit.number, values)?;
    Ok(Sent {
        step: visit.step,
        number: visit.number,
        bytes: Bytes::new(bytes),
    })
}

/// What a client sends under these answers, without the bytes. The first message is of step 1; each
/// answer leads to the next, or ends the run, and what comes after the end adds nothing.
pub fn visits(alloc: Global, plan: &Plan, answers: &[Answer]) -> Result<Vec<Visit>, Memory>
    ensures visits { IfOk result (λ visits. AreVisits plan.now.script.steps answers.now visits.items) }
    ensures within { IfOk result (λ visits. All (IsWithin plan.now.script.steps) visits.items) }
    ensures read { IsRead plan.now.script }
{
    let steps = plan.steps();
    let mut visits = Vec::new(alloc);
    let mut here = Visit {
        step: 1,
        number: 1,
        times: 1,
    };
    visits.push(here)?;
    for answer in answers {
        let step = &steps[here.step as usize - 1];
        match follow(step, here, answer) {
            None => return Ok(visits),
            Some(visit) => {
                here = visit;
                visits.push(visit)?;
            }
        }
    }
    Ok(visits)
}

// The messages of visits.
fn messages(
    alloc: Global,
    plan: &Plan,
    values: &Values,
    visits: &[Visit],
) -> Result<Vec<Sent>, Memory>
    requires within { All (IsWithin plan.now.script.steps) visits.now }
    requires admits { Admits plan.now.script.fields values.now }
    ensures { IfOk result (λ sent. AreSent plan.now.script values.now visits.now sent.items) }
{
    let mut sent = Vec::new(alloc);
    for visit in visits {
        sent.push(message(alloc, plan, values, *visit)?)?;
    }
    Ok(sent)
}

/// The messages that a client sends under these answers, for values that the plan admits.
pub fn run(
    alloc: Global,
    plan: &Plan,
    values: &Values,
    answers: &[Answer],
) -> Result<Vec<Sent>, Memory>
    requires { Admits plan.now.script.fields values.now }
    ensures run { IfOk result (λ sent. Run plan.now.script values.now answers.now sent.items) }
    ensures messages { IfOk result (λ sent. AllByRecursion (IsReadAs plan.now.script values.now) sent.items) }
{
    let visits = visits(alloc, plan, answers)?;
    let sent = messages(alloc, plan, values, visits.as_slice())?;
    Ok(sent)
}
