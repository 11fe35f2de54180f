//! Whether a script and a case send a recorded dialogue once more.
ghost use Rattle.std.specs.Prelude.{◌≡◌, ◌++◌, IfNone, IfOk, OnOk};
ghost use Rattle.fints_cli_drafts.specs.Drafts.{answers_of, answer_in, AreSentAgain, Replays};

use crate::place::{SegmentPlace, Undrafted};
use fints_cli_drafts_alike::other_sent;
use fints_params::Code;
use fints_rules::OrderTable;
use fints_rules_dialogues::Exchange;
use fints_script::{Answer, Case, Plan, PlanFault, Script};
use fints_syntax::Memory;
use fints_wire::{Sent, run};
use std::alloc::{AllocError, Global};

// The place of the dialogue's id, the one value that no field may be made for.
const DIALOGUE_ID: SegmentPlace = SegmentPlace {
    message: 2,
    segment: 1,
};

// A copy of the codes.
fn copied_codes(alloc: Global, codes: &[Code]) -> Result<Vec<Code>, AllocError>
    ensures { IfOk result (λ copy. copy.items ≡ codes.now) }
{
    let mut copy = Vec::new(alloc);
    copy.extend_from_slice(codes)?;
    Ok(copy)
}

// Adds the answer of an exchange, if it has one.
fn add_answer(
    alloc: Global,
    answers: &mut Vec<Answer>,
    exchange: &Exchange<'_>,
) -> Result<(), Undrafted>
    ensures { OnOk result (answers.new.items ≡ answers.old.items ++ answer_in exchange.now.answer) }
{
    let Some(answer) = &exchange.answer else {
        return Ok(());
    };
    let codes = copied_codes(alloc, answer.codes.as_slice())?;
    let Some(answer) = Answer::new(codes) else {
        return Err(SegmentPlace::whole(0).refused());
    };
    answers.push(answer)?;
    Ok(())
}

/// The bank's answers to the client's messages. One without a code, which no dialogue has, has no draft.
pub fn answers_of(alloc: Global, exchanges: &[Exchange<'_>]) -> Result<Vec<Answer>, Undrafted>
    ensures { IfOk result (λ answers. answers.items ≡ answers_of exchanges.now) }
{
    let mut answers = Vec::new(alloc);
    for exchange in exchanges {
        add_answer(alloc, &mut answers, exchange)?;
    }
    Ok(answers)
}

// The place of what isn't sent as it was recorded, if something isn't.
fn other_place(
    alloc: Global,
    exchanges: &[Exchange<'_>],
    sent: &[Sent],
) -> Result<Option<SegmentPlace>, Memory>
    ensures { IfOk result (λ other. IfNone other (AreSentAgain exchanges.now sent.now)) }
{
    if sent.len() != exchanges.len() {
        return Ok(Some(SegmentPlace::whole(sent.len() + 1)));
    }
    for i in 0..exchanges.len() {
        let other = other_sent(alloc, exchanges[i].sent.bytes, sent[i].bytes.as_slice())?;
        if let Some(segment) = other {
            let message = i + 1;
            return Ok(Some(SegmentPlace { message, segment }));
        }
    }
    Ok(None)
}

// The plan of a script.
fn plan_of<'a>(script: &'a Script, orders: &'a OrderTable) -> Result<Plan<'a>, Undrafted>
    ensures { IfOk result (λ plan. plan.script ≡ script.now) }
{
    match script.plan(orders) {
        Ok(plan) => Ok(plan),
        Err(PlanFault::OpenAccount { step, segment } | PlanFault::OpenProcess { step, segment }) =>
            Err(Undrafted::At(SegmentPlace {
                message: step,
                segment,
            })),
    }
}

/// Has a script send what it sends under these values and the bank's answers, and compares it with what
/// was recorded.
pub fn replay(
    alloc: Global,
    orders: &OrderTable,
    exchanges: &[Exchange<'_>],
    script: &Script,
    case: &Case,
) -> Result<(), Undrafted>
    ensures { OnOk result (case.now.answers.items ≡ answers_of exchanges.now
        → Replays exchanges.now script.now case.now.values) }
{
    let plan = plan_of(script, orders)?;
    if !plan.admits(&case.values) {
        return Err(DIALOGUE_ID.refused());
    }
    let sent = run(alloc, &plan, &case.values, case.answers.as_slice())?;
    match other_place(alloc, exchanges, sent.as_slice())? {
        Some(place) => Err(place.refused()),
        None => Ok(()),
    }
}
