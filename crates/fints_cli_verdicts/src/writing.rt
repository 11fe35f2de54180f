//! The text of verdicts.
ghost use Rattle.std.specs.Prelude.{◌≡◌, ◌++◌, OnOk, IfOk, map, string_bytes};
ghost use Rattle.std.specs.List.{flat_map, list_any};
ghost use Rattle.fints_cli_texts.specs.Judge.{broken_line};
ghost use Rattle.fints_cli_verdicts.specs.Verdicts.{is_broken, numbered_verdict, verdicts_from, verdicts_status};

use fints_cli_texts::{Reply, write_broken, write_last};
use fints_rules::Broken;
use itoa::Buffer;
use std::alloc::{AllocError, Global};

fn write_all(text: &mut String, broken: &[Broken]) -> Result<(), AllocError>
    ensures { OnOk result (string_bytes text.new
        ≡ string_bytes text.old ++ flat_map broken_line broken.now) }
{
    for one in broken {
        write_broken(text, one)?;
    }
    Ok(())
}

// The line of a message's number, and its verdict.
fn write_verdict(text: &mut String, number: usize, broken: &[Broken]) -> Result<(), AllocError>
    ensures { OnOk result (string_bytes text.new
        ≡ string_bytes text.old ++ numbered_verdict number broken.now) }
{
    let mut digits = Buffer::new();
    text.push_str("message ")?;
    text.push_str(digits.format(number))?;
    text.push_str("\n")?;
    write_all(text, broken)?;
    write_last(text, broken)
}

fn write_verdicts(text: &mut String, all: &[Vec<Broken>]) -> Result<(), AllocError>
    ensures { OnOk result (string_bytes text.new
        ≡ string_bytes text.old ++ verdicts_from 1 (map (λ broken. broken.items) all.now)) }
{
    for (i, broken) in all.iter().enumerate() {
        write_verdict(text, i + 1, broken.as_slice())?;
    }
    Ok(())
}

fn is_broken(broken: &Vec<Broken>) -> bool
    ensures { result ≡ is_broken broken.now.items }
{
    !broken.is_empty()
}

fn some_broken(all: &[Vec<Broken>]) -> bool
    ensures { result ≡ list_any (λ broken. is_broken broken.items) all.now }
{
    all.iter().any(is_broken)
}

// The status: 1 where some message breaks a rule, else 0.
#[tactic(auto, using(crate::proofs::VerdictLemmas::any_in_map))]
fn verdicts_status(all: &[Vec<Broken>]) -> u8
    ensures { result ≡ verdicts_status (map (λ broken. broken.items) all.now) }
{
    if some_broken(all) { 1 } else { 0 }
}

/// The text of what each message breaks, and its status.
pub fn verdicts_reply(alloc: Global, all: &[Vec<Broken>]) -> Result<Reply, AllocError>
    ensures text { IfOk result (λ reply.
        reply.text.items ≡ verdicts_from 1 (map (λ broken. broken.items) all.now)) }
    ensures status { IfOk result (λ reply.
        reply.status ≡ verdicts_status (map (λ broken. broken.items) all.now)) }
{
    let mut text = String::new(alloc);
    write_verdicts(&mut text, all)?;
    Ok(Reply {
        status: verdicts_status(all),
        text: text.into_bytes(),
    })
}
