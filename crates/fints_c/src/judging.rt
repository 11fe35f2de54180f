//! Which rules a message breaks.
ghost use Rattle.std.specs.Prelude.{◌≤◌, IfOk, IfErr};
ghost use Rattle.fints_cli_texts.specs.Judge.{IsVerdictOf, IsJudgeRefusal};
ghost use Rattle.fints_cli_texts.specs.JudgeAfter.{IsVerdictAfter, IsJudgeAfterRefusal};
ghost use Rattle.fints_cli_verdicts.specs.Verdicts.{AreVerdictsOf, IsVerdictsRefusal};
ghost use Rattle.fints_c.specs.Calls.{after_inputs, judge_inputs, AreWithin, IsFailure, IsGiven, IsRefused};

use crate::inputs::{read_capture, within};
use crate::putting::{put_failure, put_reply};
use fints_cli::{Failure, Input, Reply};
use fints_cli_texts::{Unobserved, judge_after_read, judge_read};
use fints_cli_verdicts::judge_all_read;
use std::alloc::Global;

fn judged(alloc: Global, params: &[u8], orders: &[u8], message: &[u8]) -> Result<Reply, Failure>
    ensures status { IfOk result (λ reply. reply.status ≤ 1) }
    ensures judged { IfOk result (λ reply.
        IsVerdictOf params.now orders.now message.now reply.status reply.text.items) }
    ensures within { IfOk result (λ _. AreWithin (judge_inputs params.now orders.now message.now)) }
    ensures refused { IfErr result (λ f. IsFailure (IsJudgeRefusal params.now orders.now message.now)
        (judge_inputs params.now orders.now message.now) f) }
{
    within(&[
        (Input::Params, params.len()),
        (Input::Orders, orders.len()),
        (Input::Message, message.len()),
    ])?;
    match judge_read(
        alloc,
        read_capture(alloc, params),
        orders,
        message,
        &mut Unobserved,
    ) {
        Ok(reply) => Ok(reply),
        Err(fault) => Err(Failure::Input(fault)),
    }
}

/// The rules that a message breaks, by a capture and an order table: status 0 where it is permitted, 1 where it
/// breaks a rule, 3 where an input is refused, 4 where memory ran out, and 5 where an input is longer than the
/// program takes.
#[unsafe(no_mangle)]
pub extern "C" fn fints_judge(
    alloc: Global,
    params: &[u8],
    orders: &[u8],
    message: &[u8],
    buffer: &mut [u8],
    size: &mut usize,
) -> u32
    ensures status { result ≤ 5 }
    ensures judged { result ≤ 1
        → IsGiven (IsVerdictOf params.now orders.now message.now result)
        buffer.old buffer.new size.new }
    ensures within { result ≤ 1 → AreWithin (judge_inputs params.now orders.now message.now) }
    ensures refused { 2 ≤ result
        → IsRefused (IsJudgeRefusal params.now orders.now message.now)
        (judge_inputs params.now orders.now message.now) result buffer.old buffer.new size.new }
{
    match judged(alloc, params, orders, message) {
        Ok(reply) => put_reply(&reply, buffer, size),
        Err(failure) => put_failure(&failure, buffer, size),
    }
}

fn judged_after(
    alloc: Global,
    params: &[u8],
    orders: &[u8],
    before: &[u8],
    answer: &[u8],
    message: &[u8],
) -> Result<Reply, Failure>
    ensures status { IfOk result (λ reply. reply.status ≤ 1) }
    ensures judged { IfOk result (λ reply.
        IsVerdictAfter params.now orders.now before.now answer.now message.now
        reply.status reply.text.items) }
    ensures within { IfOk result
        (λ _. AreWithin (after_inputs params.now orders.now before.now answer.now message.now)) }
    ensures refused { IfErr result (λ f.
        IsFailure (IsJudgeAfterRefusal params.now orders.now before.now answer.now message.now)
        (after_inputs params.now orders.now before.now answer.now message.now) f) }
{
    within(&[
        (Input::Params, params.len()),
        (Input::Orders, orders.len()),
        (Input::Before, before.len()),
        (Input::Answer, answer.len()),
        (Input::Message, message.len()),
    ])?;
    match judge_after_read(
        alloc,
        read_capture(alloc, params),
        orders,
        before,
        answer,
        message,
        &mut Unobserved,
    ) {
        Ok(reply) => Ok(reply),
        Err(fault) => Err(Failure::Input(fault)),
    }
}

/// Those that it breaks after the message before it and the bank's answer to that, with the same statuses.
#[unsafe(no_mangle)]
pub extern "C" fn fints_judge_after(
    alloc: Global,
    params: &[u8],
    orders: &[u8],
    before: &[u8],
    answer: &[u8],
    message: &[u8],
    buffer: &mut [u8],
    size: &mut usize,
) -> u32
    ensures status { result ≤ 5 }
    ensures judged { result ≤ 1
        → IsGiven (IsVerdictAfter params.now orders.now before.now answer.now message.now result)
        buffer.old buffer.new size.new }
    ensures within { result ≤ 1
        → AreWithin (after_inputs params.now orders.now before.now answer.now message.now) }
    ensures refused { 2 ≤ result
        → IsRefused (IsJudgeAfterRefusal params.now orders.now before.now answer.now message.now)
        (after_inputs params.now orders.now before.now answer.now message.now)
        result buffer.old buffer.new size.new }
{
    match judged_after(alloc, params, orders, before, answer, message) {
        Ok(reply) => put_reply(&reply, buffer, size),
        Err(failure) => put_failure(&failure, buffer, size),
    }
}

fn judged_all(
    alloc: Global,
    params: &[u8],
    orders: &[u8],
    messages: &[u8],
    sizes: &[usize],
) -> Result<Reply, Failure>
    ensures status { IfOk result (λ reply. reply.status ≤ 1) }
    ensures judged { IfOk result (λ reply. AreVerdictsOf params.now orders.now messages.now sizes.now
        reply.status reply.text.items) }
    ensures within { IfOk result (λ _. AreWithin (judge_inputs params.now orders.now messages.now)) }
    ensures refused { IfErr result (λ f.
        IsFailure (IsVerdictsRefusal params.now orders.now messages.now sizes.now)
        (judge_inputs params.now orders.now messages.now) f) }
{
    within(&[
        (Input::Params, params.len()),
        (Input::Orders, orders.len()),
        (Input::Message, messages.len()),
    ])?;
    match judge_all_read(
        alloc,
        read_capture(alloc, params),
        orders,
        messages,
        sizes,
        &mut Unobserved,
    ) {
        Ok(reply) => Ok(reply),
        Err(fault) => Err(Failure::Input(fault)),
    }
}

/// Those that each of several messages breaks by itself. The messages come one after another, by their sizes in
/// bytes; what is left after the last size is one message more. Before the verdict on each is the line `message N`,
/// which counts from 1. Status 1 says that one of them breaks a rule, and the others are those of `fints_judge`.
#[unsafe(no_mangle)]
pub extern "C" fn fints_judge_all(
    alloc: Global,
    params: &[u8],
    orders: &[u8],
    messages: &[u8],
    sizes: &[usize],
    buffer: &mut [u8],
    size: &mut usize,
) -> u32
    ensures status { result ≤ 5 }
    ensures judged { result ≤ 1
        → IsGiven (AreVerdictsOf params.now orders.now messages.now sizes.now result)
        buffer.old buffer.new size.new }
    ensures within { result ≤ 1 → AreWithin (judge_inputs params.now orders.now messages.now) }
    ensures refused { 2 ≤ result
        → IsRefused (IsVerdictsRefusal params.now orders.now messages.now sizes.now)
        (judge_inputs params.now orders.now messages.now) result buffer.old buffer.new size.new }
{
    match judged_all(alloc, params, orders, messages, sizes) {
        Ok(reply) => put_reply(&reply, buffer, size),
        Err(failure) => put_failure(&failure, buffer, size),
    }
}
