//! Which rules the messages of recorded dialogues break.
ghost use Rattle.std.specs.Prelude.{◌≤◌, IfOk, IfErr};
ghost use Rattle.fints_cli_texts.specs.Audit.{IsAuditOf, IsAuditRefusal, IsOwnAuditOf, IsOwnAuditRefusal};
ghost use Rattle.fints_c.specs.Calls.{audit_inputs, own_inputs, AreWithin, IsFailure, IsGiven, IsRefused};

use crate::inputs::{read_capture, read_recording, within};
use crate::putting::{put_failure, put_reply};
use fints_cli::{Failure, Input, Reply};
use fints_cli_texts::{Unobserved, audit_own, audit_read};
use std::alloc::Global;

fn audited(alloc: Global, params: &[u8], orders: &[u8], dialogue: &[u8]) -> Result<Reply, Failure>
    ensures status { IfOk result (λ reply. reply.status ≤ 1) }
    ensures audited { IfOk result (λ reply.
        IsAuditOf params.now orders.now dialogue.now reply.status reply.text.items) }
    ensures within { IfOk result (λ _. AreWithin (audit_inputs params.now orders.now dialogue.now)) }
    ensures refused { IfErr result (λ f. IsFailure (IsAuditRefusal params.now orders.now dialogue.now)
        (audit_inputs params.now orders.now dialogue.now) f) }
{
    within(&[
        (Input::Params, params.len()),
        (Input::Orders, orders.len()),
        (Input::Dialogue, dialogue.len()),
    ])?;
    match audit_read(
        alloc,
        read_capture(alloc, params),
        orders,
        &read_recording(alloc, dialogue),
        &mut Unobserved,
    ) {
        Ok(reply) => Ok(reply),
        Err(fault) => Err(Failure::Input(fault)),
    }
}

/// The rules that the client's messages of a recording break, by a capture and an order table, with the statuses of
/// `fints_judge`.
#[unsafe(no_mangle)]
pub extern "C" fn fints_audit(
    alloc: Global,
    params: &[u8],
    orders: &[u8],
    dialogue: &[u8],
    buffer: &mut [u8],
    size: &mut usize,
) -> u32
    ensures status { result ≤ 5 }
    ensures audited { result ≤ 1
        → IsGiven (IsAuditOf params.now orders.now dialogue.now result)
        buffer.old buffer.new size.new }
    ensures within { result ≤ 1 → AreWithin (audit_inputs params.now orders.now dialogue.now) }
    ensures refused { 2 ≤ result
        → IsRefused (IsAuditRefusal params.now orders.now dialogue.now)
        (audit_inputs params.now orders.now dialogue.now) result buffer.old buffer.new size.new }
{
    match audited(alloc, params, orders, dialogue) {
        Ok(reply) => put_reply(&reply, buffer, size),
        Err(failure) => put_failure(&failure, buffer, size),
    }
}

fn audited_own(alloc: Global, orders: &[u8], dialogue: &[u8]) -> Result<Reply, Failure>
    ensures status { IfOk result (λ reply. reply.status ≤ 1) }
    ensures audited { IfOk result (λ reply.
        IsOwnAuditOf orders.now dialogue.now reply.status reply.text.items) }
    ensures within { IfOk result (λ _. AreWithin (own_inputs orders.now dialogue.now)) }
    ensures refused { IfErr result (λ f. IsFailure (IsOwnAuditRefusal orders.now dialogue.now)
        (own_inputs orders.now dialogue.now) f) }
{
    within(&[
        (Input::Orders, orders.len()),
        (Input::Dialogue, dialogue.len()),
    ])?;
    match audit_own(
        alloc,
        orders,
        &read_recording(alloc, dialogue),
        &mut Unobserved,
    ) {
        Ok(reply) => Ok(reply),
        Err(fault) => Err(Failure::Input(fault)),
    }
}

/// The same, by the parameters in the bank's own answers.
#[unsafe(no_mangle)]
pub extern "C" fn fints_audit_own(
    alloc: Global,
    orders: &[u8],
    dialogue: &[u8],
    buffer: &mut [u8],
    size: &mut usize,
) -> u32
    ensures status { result ≤ 5 }
    ensures audited { result ≤ 1
        → IsGiven (IsOwnAuditOf orders.now dialogue.now result)
        buffer.old buffer.new size.new }
    ensures within { result ≤ 1 → AreWithin (own_inputs orders.now dialogue.now) }
    ensures refused { 2 ≤ result
        → IsRefused (IsOwnAuditRefusal orders.now dialogue.now)
        (own_inputs orders.now dialogue.now) result buffer.old buffer.new size.new }
{
    match audited_own(alloc, orders, dialogue) {
        Ok(reply) => put_reply(&reply, buffer, size),
        Err(failure) => put_failure(&failure, buffer, size),
    }
}
