//! The text of `audit`: the rules that the messages of a recorded dialogue break.
ghost use Rattle.std.specs.Prelude.{◌≡◌, ◌≤◌, ◌<◌, ◌+◌, ◌++◌, ◌^◌, ℕ, List, drop, IsOk, OnOk, IfOk, IfErr, string_bytes};
ghost use Rattle.std.specs.List.{flat_map, list_any};
ghost use Rattle.fints_params.specs.declared.fault.ParamFault.{ParamFault as ParamFaultValue};
ghost use Rattle.fints_params.specs.Captures.{IsReadOf};
ghost use Rattle.fints_rules_dialogues.specs.Dialogues.{IsMemoryOrRefusal, IsTurnFault, IsTurnFaultOf};
ghost use Rattle.fints_cli_texts.specs.Fault.{fault_of};
ghost use Rattle.fints_cli_texts.specs.Judge.{verdict_status};
ghost use Rattle.fints_cli_texts.specs.Audit.{are_several, broken_told, dialogue_line, message_lines, lines_from, all_broken, audit_text, IsAuditOf, IsOwnAuditOf, IsAuditRefusal, IsOwnAuditRefusal, IsLogReadOf, IsRecordingAudit, IsLogAudit, IsOwnLogAudit, IsOwnLogFault};

use crate::fault::Fault;
use crate::judging::{verdict_status, write_broken, write_last};
use crate::reply::Reply;
use fints_params::{ParamFault, Params};
use fints_rules::{Broken, OrderTable, Permissions};
use fints_rules_dialogues::{
    Audited, DialogueFault, Log, Observer, Recording, audit, audit_exchanges, read_dialogue_with,
};
use itoa::Buffer;
use std::alloc::{AllocError, Global};

fn write_told(text: &mut String, broken: &Broken) -> Result<(), AllocError>
    ensures { OnOk result (string_bytes text.new ≡ string_bytes text.old ++ broken_told broken.now) }
{
    text.push_str("broken ")?;
    write_broken(text, broken)
}

fn write_all_told(text: &mut String, broken: &[Broken]) -> Result<(), AllocError>
    ensures { OnOk result (string_bytes text.new
        ≡ string_bytes text.old ++ flat_map broken_told broken.now) }
{
    for one in broken {
        write_told(text, one)?;
    }
    Ok(())
}

// The lines of the message of a number.
fn write_message(text: &mut String, number: usize, audited: &Audited<'_>) -> Result<(), AllocError>
    ensures { OnOk result (string_bytes text.new
        ≡ string_bytes text.old ++ message_lines number audited.now) }
{
    let size = audited.sent.bytes.len();
    let mut digits = Buffer::new();
    text.push_str("message ")?;
    text.push_str(digits.format(number))?;
    text.push_str(" size ")?;
    text.push_str(digits.format(size))?;
    text.push_str("\n")?;
    write_all_told(text, audited.broken.as_slice())
}

// The line of the dialogue of a number, before its first message, where there are several.
fn write_dialogue(
    text: &mut String,
    several: bool,
    number: usize,
    audited: &Audited<'_>,
) -> Result<(), AllocError>
    ensures { OnOk result (string_bytes text.new
        ≡ string_bytes text.old ++ dialogue_line several number audited.now) }
{
    if !several || !audited.begins {
        return Ok(());
    }
    let mut digits = Buffer::new();
    text.push_str("dialogue ")?;
    text.push_str(digits.format(number))?;
    text.push_str("\n")
}

fn write_messages(
    text: &mut String,
    several: bool,
    audited: &[Audited<'_>],
) -> Result<(), AllocError>
    ensures { OnOk result (string_bytes text.new
        ≡ string_bytes text.old ++ lines_from several 1 1 audited.now) }
{
    let mut dialogue: usize = 1;
    for (i, one) in audited.iter().enumerate() {
        write_dialogue(text, several, dialogue, one)?;
        write_message(text, i + 1, one)?;
        if one.begins {
            dialogue += 1;
        }
    }
    Ok(())
}

fn some_begins(audited: &[Audited<'_>]) -> bool
    ensures { result ≡ list_any (λ a. a.begins) audited.now }
{
    audited.iter().any(|one| one.begins)
}

// Whether the messages are of several dialogues.
fn are_several(audited: &[Audited<'_>]) -> bool
    ensures { result ≡ are_several audited.now }
{
    if audited.is_empty() {
        return false;
    }
    let (_, more) = audited.split_at(1);
    some_begins(more)
}

// What all messages break.
fn all_broken(alloc: Global, audited: &[Audited<'_>]) -> Result<Vec<Broken>, AllocError>
    ensures { IfOk result (λ broken. broken.items ≡ all_broken audited.now) }
{
    let mut broken = Vec::new(alloc);
    for one in audited {
        broken.extend_from_slice(one.broken.as_slice())?;
    }
    Ok(broken)
}

// The text of audited messages, and its status.
fn audit_reply(alloc: Global, audited: &[Audited<'_>]) -> Result<Reply, AllocError>
    ensures text { IfOk result (λ reply. reply.text.items ≡ audit_text audited.now) }
    ensures status { IfOk result (λ reply. reply.status ≡ verdict_status (all_broken audited.now)) }
{
    let broken = all_broken(alloc, audited)?;
    let mut text = String::new(alloc);
    write_messages(&mut text, are_several(audited), audited)?;
    write_last(&mut text, broken.as_slice())?;
    Ok(Reply {
        status: verdict_status(broken.as_slice()),
        text: text.into_bytes(),
    })
}

// The text of a recording, by good parameters and a good order table.
fn audit_recording<O: Observer>(
    alloc: Global,
    params: &Params,
    orders: &OrderTable,
    recording: &Recording<'_>,
    observer: &mut O,
) -> Result<Reply, DialogueFault>
    ensures audited { IfOk result (λ reply.
        IsRecordingAudit params.now orders.now recording.now reply.status reply.text.items) }
    ensures refused { IfErr result (λ f. IsMemoryOrRefusal (IsTurnFault recording.now) f) }
{
    let permissions = Permissions::build(alloc, params, orders)?;
    let audited = audit(alloc, &permissions, recording, observer)?;
    let reply = audit_reply(alloc, audited.as_slice())?;
    Ok(reply)
}

// The text of the dialogue in a log, by good parameters and a good order table.
fn audit_log<O: Observer>(
    alloc: Global,
    params: &Params,
    orders: &OrderTable,
    log: &Log<'_>,
    observer: &mut O,
) -> Result<Reply, DialogueFault>
    ensures audited { IfOk result (λ reply.
        IsLogAudit params.now orders.now log.now reply.status reply.text.items) }
    ensures refused { IfErr result (λ f. IsMemoryOrRefusal (IsTurnFaultOf log.now) f) }
{
    let recording = Recording::of(alloc, log)?;
    audit_recording(alloc, params, orders, &recording, observer)
}

// The same by the parameters in the recording's own answers. A refusal of its messages comes first.
fn audit_log_own<O: Observer>(
    alloc: Global,
    orders: &OrderTable,
    log: &Log<'_>,
    observer: &mut O,
) -> Result<Reply, DialogueFault>
    ensures audited { IfOk result (λ reply.
        IsOwnLogAudit orders.now log.now reply.status reply.text.items) }
    ensures refused { IfErr result (λ f. IsMemoryOrRefusal (IsOwnLogFault log.now) f) }
{
    let exchanges = read_dialogue_with(alloc, log, observer)?;
    let audited = audit_exchanges(alloc, orders, exchanges.as_slice(), observer)?;
    let reply = audit_reply(alloc, audited.as_slice())?;
    Ok(reply)
}

/// The log that was read, or why the file is none.
pub fn good_log<'l, 'a>(
    log: &'l Result<Log<'a>, DialogueFault>,
) -> Result<&'l Log<'a>, DialogueFault>
    ensures log { IfOk result (λ it. log.now ≡ Ok it.now) }
    ensures refused { IfErr result (λ f. log.now ≡ Err f) }
{
    match log {
        Ok(log) => Ok(log),
        Err(fault) => Err(*fault),
    }
}

/// The rules that the client's messages of a recorded dialogue break, by what was read of a capture, an
/// order table and a log. Of the refusals that of the capture comes first, then that of the order table,
/// then that of the dialogue.
pub fn audit_read<O: Observer>(
    alloc: Global,
    params: Result<Params, ParamFault>,
    orders: &[u8],
    log: &Result<Log<'_>, DialogueFault>,
    observer: &mut O,
) -> Result<Reply, Fault>
    ensures status { IfOk result (λ reply. reply.status ≤ 1) }
    ensures audited { IfOk result (λ reply. (capture dialogue : List ℕ) → IsReadOf capture params
        → IsLogReadOf dialogue log.now
        → IsAuditOf capture orders.now dialogue reply.status reply.text.items) }
    ensures refused { IfErr result (λ f. (capture dialogue : List ℕ) → IsReadOf capture params
        → IsLogReadOf dialogue log.now → IsAuditRefusal capture orders.now dialogue f) }
    ensures log { IfOk result (λ _. IsOk log.now) }
    ensures params_first { (f : ParamFaultValue) → params ≡ Err f → result ≡ Err (fault_of f) }
{
    let params = match params {
        Ok(params) => params,
        Err(fault) => return Err(Fault::from(fault)),
    };
    let orders = OrderTable::read(alloc, orders)?;
    let log = good_log(log)?;
    let reply = audit_log(alloc, &params, &orders, log, observer)?;
    Ok(reply)
}

/// The same, by the parameters in the dialogue's own answers. Of the refusals that of the order
/// table comes first, then that of the dialogue, then that of its parameters.
pub fn audit_own<O: Observer>(
    alloc: Global,
    orders: &[u8],
    log: &Result<Log<'_>, DialogueFault>,
    observer: &mut O,
) -> Result<Reply, Fault>
    ensures status { IfOk result (λ reply. reply.status ≤ 1) }
    ensures audited { IfOk result (λ reply. (dialogue : List ℕ) → IsLogReadOf dialogue log.now
        → IsOwnAuditOf orders.now dialogue reply.status reply.text.items) }
    ensures refused { IfErr result (λ f. (dialogue : List ℕ) → IsLogReadOf dialogue log.now
        → IsOwnAuditRefusal orders.now dialogue f) }
    ensures log { IfOk result (λ _. IsOk log.now) }
{
    let orders = OrderTable::read(alloc, orders)?;
    let log = good_log(log)?;
    let reply = audit_log_own(alloc, &orders, log, observer)?;
    Ok(reply)
}
