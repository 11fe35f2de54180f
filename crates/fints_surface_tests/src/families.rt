//! Reports on families of scripts, whose answers formulas give.
use crate::samples::{C1, T};
use fints_cli::{Fault, check_text};
use std::alloc::{AllocError, Global};
use std::test::*;

/// C1 with a limit of one kilobyte (HIBPA 8).
const KILOBYTE: &[u8] =
    b"HIBPA:3:3+12+280:10020030+Bank+1+1+300+1'\nHIPINS:9:1+1+1+0+5:38:6:::HKSAL:N:HKKAZ:N:HKCCS:J'\n";

fn write_number(text: &mut String, number: usize) -> Result<(), AllocError> {
    write!(text, "{number}")
}

// Row `kilobyte`: the end of a dialogue with a field of up to `most` digits.
fn write_padded(text: &mut String, most: usize) -> Result<(), AllocError> {
    text.push_str("field = [{name = 'pad', class = 'digits', min = 0, max = ")?;
    write_number(text, most)?;
    text.push_str("}]\nstep = [{name = 'end', segments = [{kind = 'HKEND', version = 1, ")?;
    text.push_str("elements = ['$dialog', '$pad']}]}]\n")
}

// 55 bytes without the field, one before it, and its digits: 1,024 are a kilobyte.
fn write_padded_report(text: &mut String, most: usize) -> Result<(), AllocError> {
    text.push_str("step end number 1 size ")?;
    write_number(text, most.saturating_add(56))?;
    text.push_str(if most <= 968 {
        "\nclean\n"
    } else {
        "\nbroken end P3 size segment 0\nfindings 1\n"
    })
}

fn is_padded(alloc: Global, most: usize) -> Result<bool, Fail> {
    let mut script = String::new(alloc);
    write_padded(&mut script, most)?;
    let mut wanted = String::new(alloc);
    write_padded_report(&mut wanted, most)?;
    let found = check_text(alloc, KILOBYTE, T, script.as_bytes())?;
    Ok(found.as_slice() == wanted.as_bytes())
}

#[test]
fn kilobyte(rt: HostRuntime) -> Result<(), Fail> {
    for most in 0..=1200 {
        assert!(rt; is_padded(rt.alloc(), most)?);
    }
    Ok(())
}

// A branch to step w of a number, where there is one.
fn write_branch(
    text: &mut String,
    on: &str,
    number: usize,
    count: usize,
) -> Result<(), AllocError> {
    if number > count {
        return Ok(());
    }
    text.push_str("{on = '")?;
    text.push_str(on)?;
    text.push_str("', to = 'w")?;
    write_number(text, number)?;
    text.push_str("'},")
}

const END: &str = "'\nsegments = [{kind = 'HKEND', version = 1, elements = ['$dialog']}]\n";

// Step w of a number, out of `count`: answers lead to the next step and to the one after it.
fn write_step(text: &mut String, number: usize, count: usize) -> Result<(), AllocError> {
    text.push_str("[[step]]\nname = 'w")?;
    write_number(text, number)?;
    text.push_str(END)?;
    text.push_str("branches = [")?;
    write_branch(text, "0***", number.saturating_add(1), count)?;
    write_branch(text, "3***", number.saturating_add(2), count)?;
    text.push_str("]\n")
}

// The script of steps w1 to wn: the branches of each lead one and two steps on, where these are there.
fn branching(alloc: Global, count: usize) -> Result<String, AllocError> {
    let mut text = String::new(alloc);
    for number in 1..=count {
        write_step(&mut text, number, count)?;
    }
    Ok(text)
}

// The greatest size of the last of `count` steps, up to 999: its message has its number twice.
fn last_size(count: usize) -> usize {
    match count {
        0..=1 => 55,
        2..=9 => 173,
        10..=99 => 175,
        _ => 177,
    }
}

fn write_last_lines(text: &mut String, count: usize) -> Result<(), AllocError> {
    text.push_str("\nstep w")?;
    write_number(text, count)?;
    text.push_str(" number ")?;
    write_number(text, count)?;
    text.push_str(" size ")?;
    write_number(text, last_size(count))?;
    text.push_str("\nclean\n")
}

// The report after a line feed, so that its first line has one before it too.
fn report(alloc: Global, script: &[u8]) -> Result<Vec<u8>, Fault> {
    let mut report = Vec::from_slice(alloc, b"\n")?;
    let text = check_text(alloc, C1, T, script)?;
    report.extend_from_slice(text.as_slice())?;
    Ok(report)
}

fn ends_so(alloc: Global, count: usize) -> Result<bool, Fail> {
    let script = branching(alloc, count)?;
    let mut wanted = String::new(alloc);
    write_last_lines(&mut wanted, count)?;
    let found = report(alloc, script.as_bytes())?;
    Ok(found.as_slice().ends_with(wanted.as_bytes()))
}

#[test]
fn steps(rt: HostRuntime) -> Result<(), Fail> {
    for count in 1..=200 {
        assert!(rt; ends_so(rt.alloc(), count)?);
    }
    Ok(())
}
