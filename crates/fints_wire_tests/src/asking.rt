//! What calls say of the plan of a script. Script and order table are read in one place for all of
//! them: a function that reads both costs more to prove than the test that asks it.
use crate::samples::{Pairs, values};
use fints_params::Code;
use fints_rules::OrderTable;
use fints_samples::T;
use fints_script::{Answer, Plan, Script, Values};
use fints_wire::{Sent, build, least_values, run, worst_size, worst_values};
use std::alloc::Global;
use std::test::*;

/// What is said of the plan of a script.
#[derive(Clone, Copy)]
pub enum Said<'a> {
    /// The worst size of a step's message at a number.
    Size(usize, u32, u64),
    /// The values that are written longest.
    Worst(Pairs<'a>),
    /// Those that are written shortest.
    Least(Pairs<'a>),
    /// Whether the values of these pairs are admitted.
    Admits(Pairs<'a>, bool),
    /// The message of step 1 at a number, for the values of these pairs.
    Message(u32, Pairs<'a>, &'a [u8]),
    /// What is sent for the values of these pairs and an answer of one code: step, number and
    /// message.
    Sent(Pairs<'a>, u16, &'a [(u16, u32, &'a [u8])]),
}

fn is_size(plan: &Plan<'_>, step: usize, number: u32, size: u64) -> bool {
    1 <= step
        && step <= plan.step_count()
        && 1 <= number
        && number <= 99_999
        && worst_size(plan, step, number) == size
}

/// Whether the values are those of these pairs, in this order.
pub fn are_values(values: &Values, pairs: Pairs<'_>) -> bool {
    for (value, (name, bytes)) in values.pairs().iter().zip(pairs) {
        if (value.name.as_bytes(), value.value.as_slice()) != (*name, *bytes) {
            return false;
        }
    }
    values.pairs().len() == pairs.len()
}

fn are_worst(alloc: Global, plan: &Plan<'_>, pairs: Pairs<'_>) -> Result<bool, Fail> {
    let worst = worst_values(alloc, plan)?;
    Ok(are_values(&worst, pairs))
}

fn are_least(alloc: Global, plan: &Plan<'_>, pairs: Pairs<'_>) -> Result<bool, Fail> {
    let least = least_values(alloc, plan)?;
    Ok(are_values(&least, pairs))
}

fn are_admitted(alloc: Global, plan: &Plan<'_>, pairs: Pairs<'_>) -> Result<bool, Fail> {
    let values = values(alloc, pairs)?;
    Ok(plan.admits(&values))
}

fn is_message(
    alloc: Global,
    plan: &Plan<'_>,
    number: u32,
    pairs: Pairs<'_>,
    message: &[u8],
) -> Result<bool, Fail> {
    let values = values(alloc, pairs)?;
    if plan.step_count() < 1 || number < 1 || number > 99_999 || !plan.admits(&values) {
        return Ok(false);
    }
    let built = build(alloc, plan, 1, number, &values)?;
    Ok(built.as_slice() == message)
}

fn are_sent(sent: &[Sent], wanted: &[(u16, u32, &[u8])]) -> bool {
    for (sent, wanted) in sent.iter().zip(wanted) {
        if (sent.step, sent.number, sent.bytes.as_slice()) != *wanted {
            return false;
        }
    }
    sent.len() == wanted.len()
}

// What is sent for the values and an answer of one code; nothing for values that aren't admitted.
fn sent(alloc: Global, plan: &Plan<'_>, values: &Values, code: u16) -> Result<Vec<Sent>, Fail> {
    if !plan.admits(values) {
        return Ok(Vec::new(alloc));
    }
    let code = Code::from_number(code).ok_or("code")?;
    let answer = Answer::single(alloc, code)?;
    Ok(run(alloc, plan, values, &[answer])?)
}

fn is_sent(
    alloc: Global,
    plan: &Plan<'_>,
    pairs: Pairs<'_>,
    code: u16,
    wanted: &[(u16, u32, &[u8])],
) -> Result<bool, Fail> {
    let values = values(alloc, pairs)?;
    let sent = sent(alloc, plan, &values, code)?;
    Ok(are_sent(sent.as_slice(), wanted))
}

fn is_true(alloc: Global, plan: &Plan<'_>, said: Said<'_>) -> Result<bool, Fail> {
    match said {
        Said::Size(step, number, size) => Ok(is_size(plan, step, number, size)),
        Said::Worst(pairs) => are_worst(alloc, plan, pairs),
        Said::Least(pairs) => are_least(alloc, plan, pairs),
        Said::Admits(pairs, wanted) => Ok(are_admitted(alloc, plan, pairs)? == wanted),
        Said::Message(number, pairs, message) => is_message(alloc, plan, number, pairs, message),
        Said::Sent(pairs, code, wanted) => is_sent(alloc, plan, pairs, code, wanted),
    }
}

// The first of these that is not true of the plan.
fn untrue_of(alloc: Global, plan: &Plan<'_>, said: &[Said<'_>]) -> Result<Option<usize>, Fail> {
    for (at, one) in said.iter().enumerate() {
        if !is_true(alloc, plan, *one)? {
            return Ok(Some(at));
        }
    }
    Ok(None)
}

/// The first of these that is not true of the plan of a script.
pub fn untrue(alloc: Global, script: &[u8], said: &[Said<'_>]) -> Result<Option<usize>, Fail> {
    let orders = OrderTable::read(alloc, T)?;
    let script = Script::read(alloc, script)?;
    let plan = script.plan(&orders)?;
    untrue_of(alloc, &plan, said)
}
