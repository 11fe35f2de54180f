//! The rules that the messages of a recording break.
ghost use Rattle.std.specs.Prelude.{◌≡◌, length, map, Some, IfOk, IfErr, option_copied};
ghost use Rattle.std.specs.List.{AllByRecursion};
ghost use Rattle.fints_rules_dialogues.specs.Dialogues.{IsExchange, IsMemoryOrRefusal, IsTurnFault};
ghost use Rattle.fints_rules_dialogues.specs.Auditing.{before_in, codes_told, AreAudited, AreAuditedInTurn, IsAuditedNext, IsExchangeOrNone, IsJudgedNext, IsOwnAudit};
ghost use Rattle.fints_rules_dialogues.specs.OwnParams.{AreHeard, IsOwnParamsFault, IsRefusedAnswer, LacksBank, granted_each};
ghost use Rattle.fints_rules_dialogues.specs.declared.fault.DialogueFault.TheVariants as fault;

use crate::fault::DialogueFault;
use crate::messages::RecordedMessage;
use crate::own_params::{Heard, OwnParams};
use crate::reading::{Exchange, message_count, read_exchange};
use crate::recording::Recording;
use crate::sources::{Basis, OwnPermissions, ToldIn};
use crate::turn::{TurnObserver, show_refusal, show_refused_answer};
use fints_params::Code;
use fints_rules::{Broken, OrderTable, Permissions, judge_message, judge_message_after};
use fints_rules_messages::Unobserved;
use fints_syntax::Memory;
use std::alloc::Global;

/// A message of the client, and the rules that it breaks, in order of rule, then of segment.
#[derive(Drop)]
pub struct Audited<'a> {
    pub sent: RecordedMessage<'a>,
    /// Whether it is the first of a dialogue.
    pub begins: bool,
    pub broken: Vec<Broken>,
}

/// What looks on while a recording is audited. No contract says what it makes of it.
pub trait Observer: TurnObserver {
    /// Looks at the next exchange, and at the rules that its message breaks under these permissions, which
    /// come from these answers.
    fn observe(
        &mut self,
        permissions: &Permissions<'_>,
        told_in: ToldIn<'_>,
        exchange: &Exchange<'_>,
        broken: &[Broken],
    );

    /// Looks at what the answers say, where the bank of some message sends no parameters.
    fn lacks_bank(&mut self, heard: &[Heard<'_>]);
}

impl Observer for Unobserved {
    fn observe(
        &mut self,
        _permissions: &Permissions<'_>,
        _told_in: ToldIn<'_>,
        _exchange: &Exchange<'_>,
        _broken: &[Broken],
    ) {}

    fn lacks_bank(&mut self, _heard: &[Heard<'_>]) {}
}

// The codes of the answer of an exchange; none without an answer.
fn codes_told<'e>(exchange: &'e Exchange<'_>) -> &'e [Code]
    ensures { result.now ≡ codes_told exchange.now.answer }
{
    match &exchange.answer {
        Some(answer) => answer.codes.as_slice(),
        None => &[],
    }
}

// The rules that the message of an exchange breaks after that one.
fn judge_next(
    alloc: Global,
    permissions: &Permissions<'_>,
    before: Option<&Exchange<'_>>,
    exchange: &Exchange<'_>,
) -> Result<Vec<Broken>, Memory>
    ensures { IfOk result (λ broken. IsExchangeOrNone (option_copied before.entry) → IsExchange exchange.now
        → IsJudgedNext permissions.now (option_copied before.entry)
        exchange.now.sent.bytes.now broken.items) }
{
    let message = &exchange.message;
    match before {
        None => judge_message(alloc, permissions, message),
        Some(earlier) => {
            let codes = codes_told(earlier);
            judge_message_after(alloc, permissions, &earlier.message, codes, message)
        }
    }
}

// The exchange before this one in its dialogue, by the one before it in the file.
fn before_in<'b, 'e>(
    before: Option<&'b Exchange<'e>>,
    exchange: &Exchange<'_>,
) -> Option<&'b Exchange<'e>>
    ensures { option_copied result ≡ before_in (option_copied before.entry) exchange.now }
{
    if exchange.begins { None } else { before }
}

// The parameters are of a capture that is handed in.
const HANDED_IN: ToldIn<'static> = ToldIn {
    bank: None,
    user: None,
};

// The message of an exchange, with the rules that it breaks after the exchange before it in the file.
fn audit_next<'a, O: Observer>(
    alloc: Global,
    permissions: &Permissions<'_>,
    told_in: ToldIn<'_>,
    before: Option<&Exchange<'_>>,
    exchange: &Exchange<'a>,
    observer: &mut O,
) -> Result<Audited<'a>, Memory>
    ensures { IfOk result (λ audited. IsExchangeOrNone (option_copied before.entry) → IsExchange exchange.now
        → IsAuditedNext permissions.now (option_copied before.entry) exchange.now audited) }
{
    let earlier = before_in(before, exchange);
    let broken = judge_next(alloc, permissions, earlier, exchange)?;
    observer.observe(permissions, told_in, exchange, broken.as_slice());
    Ok(Audited {
        sent: exchange.sent,
        begins: exchange.begins,
        broken,
    })
}

/// The rules that each message of the client breaks after the one before it in its dialogue and the bank's
/// answer to that, in the order of the messages; P11 is judged within each dialogue. Each message is read
/// once, and let go when the next one is judged. The refusal is that of `Recording::exchanges`.
pub fn audit<'a, O: Observer>(
    alloc: Global,
    permissions: &Permissions<'_>,
    recording: &Recording<'a>,
    observer: &mut O,
) -> Result<Vec<Audited<'a>>, DialogueFault>
    ensures audited { IfOk result (λ audited.
        AreAuditedInTurn permissions.now recording.now audited.items) }
    ensures refused { IfErr result (λ f. IsMemoryOrRefusal (IsTurnFault recording.now) f) }
{
    let messages = recording.messages();
    let mut audited = Vec::new(alloc);
    let mut before: Option<Exchange<'a>> = None;
    let mut at = 0;
    while at < messages.len() {
        let (_, rest) = messages.split_at(at);
        let earlier = before.as_ref();
        let read = read_exchange(alloc, earlier, rest, observer);
        show_refusal(audited.len(), earlier, rest, &read, observer);
        let exchange = read?;
        let one = audit_next(alloc, permissions, HANDED_IN, earlier, &exchange, observer)?;
        audited.push(one)?;
        at += message_count(&exchange);
        before = Some(exchange);
    }
    Ok(audited)
}

// The same of exchanges that are read, each message by its own permissions.
fn audit_each<'a, O: Observer>(
    alloc: Global,
    bases: &[Basis<'_>],
    exchanges: &[Exchange<'a>],
    observer: &mut O,
) -> Result<Vec<Audited<'a>>, Memory>
    ensures { IfOk result (λ audited. length bases.now ≡ length exchanges.now
        → AllByRecursion IsExchange exchanges.now
        → AreAudited bases.now exchanges.now audited.items) }
{
    let mut audited = Vec::new(alloc);
    let mut before: Option<&Exchange<'a>> = None;
    for i in 0..bases.len().min(exchanges.len()) {
        let (basis, exchange) = (&bases[i], &exchanges[i]);
        let permissions = basis.permissions();
        let one = audit_next(
            alloc,
            &permissions,
            basis.told_in(),
            before,
            exchange,
            observer,
        )?;
        audited.push(one)?;
        before = Some(exchange);
    }
    Ok(audited)
}

// What the answers say. The refusal is that of `OwnParams::of`, and the observer sees the answer.
fn own_params_of<'a, O: Observer>(
    alloc: Global,
    exchanges: &[Exchange<'a>],
    observer: &mut O,
) -> Result<OwnParams<'a>, DialogueFault>
    ensures heard { IfOk result (λ own. AreHeard exchanges.now own) }
    ensures refused { IfErr result (λ f. IsMemoryOrRefusal (IsRefusedAnswer exchanges.now) f) }
{
    match OwnParams::of(alloc, exchanges) {
        Ok(own) => Ok(own),
        Err(fault) => {
            show_refused_answer(exchanges, &fault, observer);
            Err(fault)
        }
    }
}

// By what the message of each exchange is judged. The refusal is that of `OwnPermissions::each`.
fn bases_of<'g, 'a, O: Observer>(
    alloc: Global,
    own: &OwnParams<'_>,
    permissions: &'g OwnPermissions<'a>,
    observer: &mut O,
) -> Result<Vec<Basis<'g>>, DialogueFault>
    ensures granted { IfOk result (λ v. map Some v.items
        ≡ granted_each permissions.now.orders permissions.now.heard) }
    ensures refused { IfErr result
        (λ f. IsMemoryOrRefusal (λ f. LacksBank permissions.now.heard × (f ≡ fault.NoParameters)) f) }
{
    match permissions.each(alloc) {
        Ok(bases) => Ok(bases),
        Err(fault) => {
            observer.lacks_bank(own.heard());
            Err(fault)
        }
    }
}

/// The same by the parameters in the recording's own answers, each message by those that were sent
/// last before it (`OwnPermissions::each`). The refusal is that of `OwnParams::of`, or that the bank of some
/// message sends no parameters.
pub fn audit_exchanges<'a, O: Observer>(
    alloc: Global,
    orders: &OrderTable,
    exchanges: &[Exchange<'a>],
    observer: &mut O,
) -> Result<Vec<Audited<'a>>, DialogueFault>
    ensures audited { IfOk result (λ audited. AllByRecursion IsExchange exchanges.now
        → IsOwnAudit orders.now exchanges.now audited.items) }
    ensures refused { IfErr result (λ f. IsMemoryOrRefusal (IsOwnParamsFault exchanges.now) f) }
{
    let own = own_params_of(alloc, exchanges, observer)?;
    let permissions = OwnPermissions::of(alloc, &own, orders)?;
    let bases = bases_of(alloc, &own, &permissions, observer)?;
    let audited = audit_each(alloc, bases.as_slice(), exchanges, observer)?;
    Ok(audited)
}
