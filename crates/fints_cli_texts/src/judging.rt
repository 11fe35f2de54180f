//! The text of `judge`: the rules that a message breaks.
ghost use Rattle.std.specs.Prelude.{◌≡◌, ◌≤◌, ◌++◌, ℕ, List, OnOk, IfOk, IfErr, string_bytes};
ghost use Rattle.fints_params.specs.declared.fault.ParamFault.{ParamFault as ParamFaultValue};
ghost use Rattle.fints_cli_texts.specs.Fault.{fault_of};
ghost use Rattle.fints_params.specs.Captures.{IsParamsOf, IsReadOf};
ghost use Rattle.std.specs.List.{flat_map};
ghost use Rattle.fints_cli_texts.specs.Judge.{broken_line, last_line, verdict_text, verdict_status, IsVerdictBy, IsVerdictOf, IsMessageRefusal, IsJudgeRefusal};

use crate::fault::Fault;
use crate::reply::Reply;
use fints_params::{ParamFault, Params};
use fints_rules::{Broken, Message, OrderTable, Permissions};
use fints_rules_messages::{Unobserved, UnreadObserver, read_message_with};
use itoa::Buffer;
use std::alloc::{AllocError, Global};

/// Writes the line of a rule that is broken.
pub fn write_broken(text: &mut String, broken: &Broken) -> Result<(), AllocError>
    ensures { OnOk result (string_bytes text.new ≡ string_bytes text.old ++ broken_line broken.now) }
{
    let mut segment = Buffer::new();
    text.push_str(broken.rule.name())?;
    text.push_str(" segment ")?;
    text.push_str(segment.format(broken.segment))?;
    text.push_str("\n")
}

fn write_all(text: &mut String, broken: &[Broken]) -> Result<(), AllocError>
    ensures { OnOk result (string_bytes text.new
        ≡ string_bytes text.old ++ flat_map broken_line broken.now) }
{
    for one in broken {
        write_broken(text, one)?;
    }
    Ok(())
}

/// Writes the last line: that nothing is broken, or how much.
pub fn write_last(text: &mut String, broken: &[Broken]) -> Result<(), AllocError>
    ensures { OnOk result (string_bytes text.new ≡ string_bytes text.old ++ last_line broken.now) }
{
    if broken.is_empty() {
        return text.push_str("permitted\n");
    }
    let mut count = Buffer::new();
    text.push_str("broken ")?;
    text.push_str(count.format(broken.len()))?;
    text.push_str("\n")
}

/// The status: 0 where nothing is broken, else 1.
pub fn verdict_status(broken: &[Broken]) -> u8
    ensures { result ≡ verdict_status broken.now }
{
    if broken.is_empty() { 0 } else { 1 }
}

/// The lines of a judged message, and 0 where it is permitted, else 1.
pub fn verdict(alloc: Global, broken: &[Broken]) -> Result<Reply, AllocError>
    ensures text { IfOk result (λ reply. reply.text.items ≡ verdict_text broken.now) }
    ensures status { IfOk result (λ reply. reply.status ≡ verdict_status broken.now) }
{
    let mut text = String::new(alloc);
    write_all(&mut text, broken)?;
    write_last(&mut text, broken)?;
    Ok(Reply {
        status: verdict_status(broken),
        text: text.into_bytes(),
    })
}

/// What looks on while a message is judged. No contract says what it makes of it.
pub trait JudgeObserver: UnreadObserver {
    /// Looks at the message, and at the rules that it breaks under these permissions.
    fn judged(&mut self, permissions: &Permissions<'_>, message: &Message<'_>, broken: &[Broken]);

    /// Looks at the message before it, too, and at the bank's answer to that.
    fn judged_after(&mut self, before: &Message<'_>, answer: &[u8], message: &Message<'_>);
}

impl JudgeObserver for Unobserved {
    fn judged(
        &mut self,
        _permissions: &Permissions<'_>,
        _message: &Message<'_>,
        _broken: &[Broken],
    ) {}

    fn judged_after(&mut self, _before: &Message<'_>, _answer: &[u8], _message: &Message<'_>) {}
}

// The verdict on a message, by what a bank permits.
#[tactic(auto, using(crate::proofs::JudgeLemmas::message_refused))]
fn judge_by<O: JudgeObserver>(
    alloc: Global,
    permissions: &Permissions<'_>,
    message: &[u8],
    observer: &mut O,
) -> Result<Reply, Fault>
    ensures judged { IfOk result (λ reply.
        IsVerdictBy permissions.now.rows permissions.now.orders message.now reply.status reply.text.items) }
    ensures refused { IfErr result (λ f. IsMessageRefusal message.now f) }
{
    let read = read_message_with(alloc, message, observer)?;
    let broken = fints_rules::judge_message(alloc, permissions, &read)?;
    observer.judged(permissions, &read, broken.as_slice());
    let reply = verdict(alloc, broken.as_slice())?;
    Ok(reply)
}

// The same, by good parameters and a good order table.
fn judge_with<O: JudgeObserver>(
    alloc: Global,
    params: &Params,
    orders: &OrderTable,
    message: &[u8],
    observer: &mut O,
) -> Result<Reply, Fault>
    ensures judged { IfOk result (λ reply.
        IsVerdictBy params.now orders.now message.now reply.status reply.text.items) }
    ensures refused { IfErr result (λ f. IsMessageRefusal message.now f) }
{
    let permissions = Permissions::build(alloc, params, orders)?;
    judge_by(alloc, &permissions, message, observer)
}

// The same, by good parameters and the text of an order table.
#[tactic(auto, using(crate::proofs::JudgeLemmas::orders_refused))]
fn judge_under<O: JudgeObserver>(
    alloc: Global,
    params: &Params,
    orders: &[u8],
    message: &[u8],
    observer: &mut O,
) -> Result<Reply, Fault>
    ensures status { IfOk result (λ reply. reply.status ≤ 1) }
    ensures judged { IfOk result (λ reply. (capture : List ℕ) → IsParamsOf capture params.now
        → IsVerdictOf capture orders.now message.now reply.status reply.text.items) }
    ensures refused { IfErr result (λ f. (capture : List ℕ) → IsParamsOf capture params.now
        → IsJudgeRefusal capture orders.now message.now f) }
{
    let orders = OrderTable::read(alloc, orders)?;
    judge_with(alloc, params, &orders, message, observer)
}

/// The rules that a message breaks, by what was read of a capture and an order table. Of the refusals
/// that of the capture comes first, and then that of the order table.
pub fn judge_read<O: JudgeObserver>(
    alloc: Global,
    params: Result<Params, ParamFault>,
    orders: &[u8],
    message: &[u8],
    observer: &mut O,
) -> Result<Reply, Fault>
    ensures status { IfOk result (λ reply. reply.status ≤ 1) }
    ensures judged { IfOk result (λ reply. (capture : List ℕ) → IsReadOf capture params
        → IsVerdictOf capture orders.now message.now reply.status reply.text.items) }
    ensures refused { IfErr result (λ f. (capture : List ℕ) → IsReadOf capture params
        → IsJudgeRefusal capture orders.now message.now f) }
    ensures params_first { (f : ParamFaultValue) → params ≡ Err f → result ≡ Err (fault_of f) }
{
    let params = match params {
        Ok(params) => params,
        Err(fault) => return Err(Fault::from(fault)),
    };
    judge_under(alloc, &params, orders, message, observer)
}

/// The rules that a message breaks, by a capture and an order table, with the same refusals.
pub fn judge_message(
    alloc: Global,
    params: &[u8],
    orders: &[u8],
    message: &[u8],
) -> Result<Reply, Fault>
    ensures judged { IfOk result (λ reply.
        IsVerdictOf params.now orders.now message.now reply.status reply.text.items) }
    ensures refused { IfErr result (λ f. IsJudgeRefusal params.now orders.now message.now f) }
{
    let params = Params::read(alloc, params);
    judge_read(alloc, params, orders, message, &mut Unobserved)
}
