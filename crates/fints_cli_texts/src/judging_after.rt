//! The text of `judge` for a message after another one and the bank's answer to that.
ghost use Rattle.std.specs.Prelude.{◌≡◌, ◌≤◌, ℕ, List, IfOk, IfErr};
ghost use Rattle.fints_params.specs.declared.fault.ParamFault.{ParamFault as ParamFaultValue};
ghost use Rattle.fints_cli_texts.specs.Fault.{fault_of};
ghost use Rattle.fints_rules_messages.specs.Messages.{IsMessage};
ghost use Rattle.fints_rules_dialogues.specs.Dialogues.{IsFromBank, IsFromClient};
ghost use Rattle.fints_params.specs.Captures.{IsParamsOf, IsReadOf};
ghost use Rattle.fints_cli_texts.specs.JudgeAfter.{IsAnswerRefusal, IsBeforeRefusal, IsJudgeAfterRefusal, IsRefusalOfThree, IsVerdictAfter, IsVerdictAfterBy};

use crate::fault::{Fault, answer_fault};
use crate::judging::{JudgeObserver, verdict};
use crate::reply::Reply;
use fints_params::{Code, ParamFault, Params, feedback_codes};
use fints_rules::{OrderTable, Permissions, judge_message_after};
use fints_rules_dialogues::is_answer;
use fints_rules_messages::{JudgeFault, Message, UnreadObserver, read_message_with};
use std::alloc::Global;

// The client's message before the judged one.
fn read_before<'a, O: UnreadObserver>(
    alloc: Global,
    before: &'a [u8],
    observer: &mut O,
) -> Result<Message<'a>, Fault>
    ensures message { IfOk result (λ m. IsMessage before.now m) }
    ensures client { IfOk result (λ _. IsFromClient before.now) }
    ensures refused { IfErr result (λ f. IsBeforeRefusal before.now f) }
{
    match read_message_with(alloc, before, observer) {
        Ok(message) => {
            if is_answer(&message) {
                return Err(Fault::BeforeAnswer);
            }
            Ok(message)
        }
        Err(fault) => match fault {
            JudgeFault::NotAMessage { offset } => Err(Fault::Before { offset }),
            _ => Err(Fault::Memory),
        },
    }
}

// The codes of the bank's answer to that message, one at least.
fn read_answer(alloc: Global, answer: &[u8]) -> Result<Vec<Code>, Fault>
    ensures codes { IfOk result (λ codes. IsFromBank answer.now codes.items) }
    ensures refused { IfErr result (λ f. IsAnswerRefusal answer.now f) }
{
    match feedback_codes(alloc, answer) {
        Ok(codes) => {
            if codes.is_empty() {
                return Err(Fault::NoCode);
            }
            Ok(codes)
        }
        Err(fault) => Err(answer_fault(fault)),
    }
}

// The verdict on a message after another one and the answer to that.
#[tactic(auto, using(crate::proofs::JudgeLemmas::answer_refused, crate::proofs::JudgeLemmas::judged_refused))]
fn judge_behind<O: JudgeObserver>(
    alloc: Global,
    permissions: &Permissions<'_>,
    before: &[u8],
    answer: &[u8],
    message: &[u8],
    observer: &mut O,
) -> Result<Reply, Fault>
    ensures judged { IfOk result (λ reply.
        IsVerdictAfterBy permissions.now.rows permissions.now.orders before.now answer.now message.now
        reply.status reply.text.items) }
    ensures refused { IfErr result (λ f. IsRefusalOfThree before.now answer.now message.now f) }
{
    let earlier = read_before(alloc, before, observer)?;
    let codes = read_answer(alloc, answer)?;
    let read = read_message_with(alloc, message, observer)?;
    let broken = judge_message_after(alloc, permissions, &earlier, codes.as_slice(), &read)?;
    observer.judged(permissions, &read, broken.as_slice());
    observer.judged_after(&earlier, answer, &read);
    let reply = verdict(alloc, broken.as_slice())?;
    Ok(reply)
}

// The same, by good parameters and a good order table.
fn judge_after_with<O: JudgeObserver>(
    alloc: Global,
    params: &Params,
    orders: &OrderTable,
    before: &[u8],
    answer: &[u8],
    message: &[u8],
    observer: &mut O,
) -> Result<Reply, Fault>
    ensures judged { IfOk result (λ reply.
        IsVerdictAfterBy params.now orders.now before.now answer.now message.now
        reply.status reply.text.items) }
    ensures refused { IfErr result (λ f. IsRefusalOfThree before.now answer.now message.now f) }
{
    let permissions = Permissions::build(alloc, params, orders)?;
    judge_behind(alloc, &permissions, before, answer, message, observer)
}

// The same, by good parameters and the text of an order table.
#[tactic(auto, using(crate::proofs::JudgeLemmas::orders_refused))]
fn judge_after_under<O: JudgeObserver>(
    alloc: Global,
    params: &Params,
    orders: &[u8],
    before: &[u8],
    answer: &[u8],
    message: &[u8],
    observer: &mut O,
) -> Result<Reply, Fault>
    ensures status { IfOk result (λ reply. reply.status ≤ 1) }
    ensures judged { IfOk result (λ reply. (capture : List ℕ) → IsParamsOf capture params.now
        → IsVerdictAfter capture orders.now before.now answer.now message.now reply.status reply.text.items) }
    ensures refused { IfErr result (λ f. (capture : List ℕ) → IsParamsOf capture params.now
        → IsJudgeAfterRefusal capture orders.now before.now answer.now message.now f) }
{
    let orders = OrderTable::read(alloc, orders)?;
    judge_after_with(alloc, params, &orders, before, answer, message, observer)
}

/// The rules that a message breaks after the client's message before it and the bank's answer to that,
/// by what was read of a capture and an order table. The refusals come in this order: of the capture, of
/// the order table, of the message before, which is no answer of the bank, of the answer, which has a
/// feedback code, of the message. The codes of the answer are those of `feedback_codes`.
pub fn judge_after_read<O: JudgeObserver>(
    alloc: Global,
    params: Result<Params, ParamFault>,
    orders: &[u8],
    before: &[u8],
    answer: &[u8],
    message: &[u8],
    observer: &mut O,
) -> Result<Reply, Fault>
    ensures status { IfOk result (λ reply. reply.status ≤ 1) }
    ensures judged { IfOk result (λ reply. (capture : List ℕ) → IsReadOf capture params
        → IsVerdictAfter capture orders.now before.now answer.now message.now reply.status reply.text.items) }
    ensures refused { IfErr result (λ f. (capture : List ℕ) → IsReadOf capture params
        → IsJudgeAfterRefusal capture orders.now before.now answer.now message.now f) }
    ensures params_first { (f : ParamFaultValue) → params ≡ Err f → result ≡ Err (fault_of f) }
{
    let params = match params {
        Ok(params) => params,
        Err(fault) => return Err(Fault::from(fault)),
    };
    judge_after_under(alloc, &params, orders, before, answer, message, observer)
}
