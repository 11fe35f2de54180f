//! What the runs of a script break, certificates, and runs.
ghost use Rattle.std.specs.Prelude.{◌≡◌, ◌≤◌, IfOk, IfErr};
ghost use Rattle.fints_cli_scripts.specs.RunText.{IsRunOf, IsRunRefusal};
ghost use Rattle.fints_cli_scripts.specs.Told.{IsToldOf, IsTellRefusal};
ghost use Rattle.fints_cli_scripts.specs.Verified.{IsVerifiedOf, IsUnverified};
ghost use Rattle.fints_cli_scripts.specs.declared.telling.Wanted.TheVariants as wants;
ghost use Rattle.fints_cli_commands.specs.Commands.{cases_wanted};
ghost use Rattle.fints_c.specs.Calls.{run_inputs, script_inputs, verify_inputs, only_of, AreWithin, IsFailure, IsGiven, IsRefused};

use crate::inputs::{read_capture, within};
use crate::putting::{put_failure, put_reply, put_text};
use fints_cli::{Failure, Input, Reply, Wanted, run_case};
use fints_cli_scripts::{tell_read, verify_read};
use fints_cli_texts::Unobserved;
use std::alloc::Global;

// The number that is asked for; 0 asks for all.
fn only_of(number: u32) -> Option<u32>
    ensures { result ≡ only_of number }
{
    if number == 0 { None } else { Some(number) }
}

// What `explain` prints: the cases of all findings, or that of the one of a number.
fn cases_wanted(finding: Option<u32>) -> Wanted
    ensures { result ≡ cases_wanted finding }
{
    match finding {
        None => Wanted::Cases,
        Some(number) => Wanted::OneCase(number),
    }
}

fn checked(
    alloc: Global,
    params: &[u8],
    orders: &[u8],
    script: &[u8],
    wanted: Wanted,
) -> Result<Reply, Failure>
    ensures status { IfOk result (λ reply. reply.status ≤ 1) }
    ensures told { IfOk result (λ reply.
        IsToldOf wanted params.now orders.now script.now reply.status reply.text.items) }
    ensures within { IfOk result (λ _. AreWithin (script_inputs params.now orders.now script.now)) }
    ensures refused { IfErr result (λ f. IsFailure (IsTellRefusal wanted params.now orders.now script.now)
        (script_inputs params.now orders.now script.now) f) }
{
    within(&[
        (Input::Params, params.len()),
        (Input::Orders, orders.len()),
        (Input::Script, script.len()),
    ])?;
    match tell_read(
        alloc,
        read_capture(alloc, params),
        orders,
        script,
        wanted,
        &mut Unobserved,
    ) {
        Ok(reply) => Ok(reply),
        Err(fault) => Err(Failure::Input(fault)),
    }
}

// Puts into the buffer what is wanted of a script.
fn check(
    alloc: Global,
    params: &[u8],
    orders: &[u8],
    script: &[u8],
    wanted: Wanted,
    buffer: &mut [u8],
    size: &mut usize,
) -> u32
    ensures status { result ≤ 5 }
    ensures told { result ≤ 1
        → IsGiven (IsToldOf wanted params.now orders.now script.now result)
        buffer.old buffer.new size.new }
    ensures within { result ≤ 1 → AreWithin (script_inputs params.now orders.now script.now) }
    ensures refused { 2 ≤ result
        → IsRefused (IsTellRefusal wanted params.now orders.now script.now)
        (script_inputs params.now orders.now script.now) result buffer.old buffer.new size.new }
{
    match checked(alloc, params, orders, script, wanted) {
        Ok(reply) => put_reply(&reply, buffer, size),
        Err(failure) => put_failure(&failure, buffer, size),
    }
}

/// The report on a script: the greatest figures of each step, and what its runs break. Status 0 says that nothing is
/// found, and 1 that something is.
#[unsafe(no_mangle)]
pub extern "C" fn fints_check(
    alloc: Global,
    params: &[u8],
    orders: &[u8],
    script: &[u8],
    buffer: &mut [u8],
    size: &mut usize,
) -> u32
    ensures status { result ≤ 5 }
    ensures told { result ≤ 1
        → IsGiven (IsToldOf wants.Report params.now orders.now script.now result)
        buffer.old buffer.new size.new }
    ensures within { result ≤ 1 → AreWithin (script_inputs params.now orders.now script.now) }
    ensures refused { 2 ≤ result
        → IsRefused (IsTellRefusal wants.Report params.now orders.now script.now)
        (script_inputs params.now orders.now script.now) result buffer.old buffer.new size.new }
{
    check(alloc, params, orders, script, Wanted::Report, buffer, size)
}

/// The report, and a case of each finding, or of the one of a number; numbers count from 1, and 0 asks for all. Status
/// 2 says that there is no finding of the number.
#[unsafe(no_mangle)]
pub extern "C" fn fints_explain(
    alloc: Global,
    params: &[u8],
    orders: &[u8],
    script: &[u8],
    finding: u32,
    buffer: &mut [u8],
    size: &mut usize,
) -> u32
    ensures status { result ≤ 5 }
    ensures told { result ≤ 1
        → IsGiven (IsToldOf (cases_wanted (only_of finding)) params.now orders.now script.now result)
        buffer.old buffer.new size.new }
    ensures refused { 2 ≤ result
        → IsRefused (IsTellRefusal (cases_wanted (only_of finding)) params.now orders.now script.now)
        (script_inputs params.now orders.now script.now) result buffer.old buffer.new size.new }
{
    check(
        alloc,
        params,
        orders,
        script,
        cases_wanted(only_of(finding)),
        buffer,
        size,
    )
}

/// The certificate of a script in which nothing is found, else the report with status 1.
#[unsafe(no_mangle)]
pub extern "C" fn fints_certify(
    alloc: Global,
    params: &[u8],
    orders: &[u8],
    script: &[u8],
    buffer: &mut [u8],
    size: &mut usize,
) -> u32
    ensures status { result ≤ 5 }
    ensures told { result ≤ 1
        → IsGiven (IsToldOf wants.Certificate params.now orders.now script.now result)
        buffer.old buffer.new size.new }
    ensures within { result ≤ 1 → AreWithin (script_inputs params.now orders.now script.now) }
    ensures refused { 2 ≤ result
        → IsRefused (IsTellRefusal wants.Certificate params.now orders.now script.now)
        (script_inputs params.now orders.now script.now) result buffer.old buffer.new size.new }
{
    check(
        alloc,
        params,
        orders,
        script,
        Wanted::Certificate,
        buffer,
        size,
    )
}

fn verified(
    alloc: Global,
    params: &[u8],
    orders: &[u8],
    script: &[u8],
    certificate: &[u8],
) -> Result<Reply, Failure>
    ensures status { IfOk result (λ reply. reply.status ≤ 1) }
    ensures told { IfOk result (λ reply.
        IsVerifiedOf params.now orders.now script.now certificate.now reply.status reply.text.items) }
    ensures within { IfOk result
        (λ _. AreWithin (verify_inputs params.now orders.now script.now certificate.now)) }
    ensures refused { IfErr result (λ f.
        IsFailure (IsUnverified params.now orders.now script.now certificate.now)
        (verify_inputs params.now orders.now script.now certificate.now) f) }
{
    within(&[
        (Input::Params, params.len()),
        (Input::Orders, orders.len()),
        (Input::Script, script.len()),
        (Input::Certificate, certificate.len()),
    ])?;
    match verify_read(
        alloc,
        read_capture(alloc, params),
        orders,
        script,
        certificate,
        &mut Unobserved,
    ) {
        Ok(reply) => Ok(reply),
        Err(fault) => Err(Failure::Input(fault)),
    }
}

/// Whether a certificate of a script is closed: `valid` and 0, or `invalid` and 1.
#[unsafe(no_mangle)]
pub extern "C" fn fints_verify(
    alloc: Global,
    params: &[u8],
    orders: &[u8],
    script: &[u8],
    certificate: &[u8],
    buffer: &mut [u8],
    size: &mut usize,
) -> u32
    ensures status { result ≤ 5 }
    ensures told { result ≤ 1
        → IsGiven (IsVerifiedOf params.now orders.now script.now certificate.now result)
        buffer.old buffer.new size.new }
    ensures within { result ≤ 1
        → AreWithin (verify_inputs params.now orders.now script.now certificate.now) }
    ensures refused { 2 ≤ result
        → IsRefused (IsUnverified params.now orders.now script.now certificate.now)
        (verify_inputs params.now orders.now script.now certificate.now)
        result buffer.old buffer.new size.new }
{
    match verified(alloc, params, orders, script, certificate) {
        Ok(reply) => put_reply(&reply, buffer, size),
        Err(failure) => put_failure(&failure, buffer, size),
    }
}

fn ran(
    alloc: Global,
    orders: &[u8],
    script: &[u8],
    case_text: &[u8],
    number: u32,
) -> Result<Vec<u8>, Failure>
    ensures ran { IfOk result (λ text.
        IsRunOf orders.now script.now case_text.now (only_of number) text.items) }
    ensures within { IfOk result (λ _. AreWithin (run_inputs orders.now script.now case_text.now)) }
    ensures refused { IfErr result (λ f.
        IsFailure (IsRunRefusal orders.now script.now case_text.now (only_of number))
        (run_inputs orders.now script.now case_text.now) f) }
{
    within(&[
        (Input::Orders, orders.len()),
        (Input::Script, script.len()),
        (Input::Case, case_text.len()),
    ])?;
    match run_case(alloc, orders, script, case_text, only_of(number)) {
        Ok(text) => Ok(text),
        Err(fault) => Err(Failure::Input(fault)),
    }
}

/// The messages of a script under a case, or the bytes of the one of a number; numbers count from 1, and 0 asks for
/// all. Status 2 says that there is no message of the number.
#[unsafe(no_mangle)]
pub extern "C" fn fints_run(
    alloc: Global,
    orders: &[u8],
    script: &[u8],
    case_text: &[u8],
    number: u32,
    buffer: &mut [u8],
    size: &mut usize,
) -> u32
    ensures status { result ≤ 5 }
    ensures ran { result ≤ 1
        → IsGiven (IsRunOf orders.now script.now case_text.now (only_of number))
        buffer.old buffer.new size.new }
    ensures within { result ≤ 1 → AreWithin (run_inputs orders.now script.now case_text.now) }
    ensures refused { 2 ≤ result
        → IsRefused (IsRunRefusal orders.now script.now case_text.now (only_of number))
        (run_inputs orders.now script.now case_text.now) result buffer.old buffer.new size.new }
{
    match ran(alloc, orders, script, case_text, number) {
        Ok(text) => put_text(&text, buffer, size),
        Err(failure) => put_failure(&failure, buffer, size),
    }
}
