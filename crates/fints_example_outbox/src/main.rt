//! A client's outbox at work: what the bank's parameters don't permit is held back.
#![tactic(auto)]

mod outbox;

use anyhow::Result;
use fints_params::{ParamReader, Params, feedback_codes};
use fints_rules::{Broken, OrderTable, Permissions};
use outbox::{Held, Outbox};
use std::fs;

fn print_broken(rt: &HostRuntime, name: &str, broken: &[Broken]) -> Result<()> {
    for one in broken {
        println!(rt;
            "{name}: held back, {} at segment {}",
            one.rule, one.segment
        )?;
    }
    Ok(())
}

// Hands the message of a file on, or prints why it is held back.
fn send(rt: &HostRuntime, outbox: &mut Outbox<'_>, name: &str) -> Result<()> {
    let message = fs::read(rt, name)?;
    match outbox.send(message.as_slice()) {
        Ok(()) => println!(rt; "{name}: handed on")?,
        Err(Held::Broken(broken)) => print_broken(rt, name, broken.as_slice())?,
        Err(Held::Unjudged(fault)) => println!(rt; "{name}: held back, {fault}")?,
    }
    Ok(())
}

// Notes the bank's answer in a file.
fn hear(rt: &HostRuntime, outbox: &mut Outbox<'_>, name: &str) -> Result<()> {
    let answer = fs::read(rt, name)?;
    outbox.answered(feedback_codes(rt.alloc(), answer.as_slice())?);
    println!(rt; "{name}: heard")?;
    Ok(())
}

// The client asks for the balance where the bank waits for a TAN, and then sends the TAN first.
fn talk(rt: &HostRuntime, outbox: &mut Outbox<'_>) -> Result<()> {
    send(rt, outbox, "init.fints")?;
    hear(rt, outbox, "waits.fints")?;
    send(rt, outbox, "balance.fints")?;
    send(rt, outbox, "init-tan.fints")?;
    hear(rt, outbox, "done.fints")?;
    send(rt, outbox, "balance.fints")?;
    println!(rt;
        "{} messages were handed on, each permitted",
        outbox.sent().len()
    )?;
    Ok(())
}

fn open(rt: &HostRuntime, params: &Params, orders: &OrderTable) -> Result<()> {
    let permissions = Permissions::build(rt.alloc(), params, orders)?;
    let mut outbox = Outbox::new(rt.alloc(), &permissions);
    talk(rt, &mut outbox)
}

// The parameters of a capture that comes in pieces, as from a stream.
fn read_pieces(rt: &HostRuntime, capture: &[u8]) -> Result<Params> {
    let mut reader = ParamReader::new(rt.alloc());
    for piece in capture.chunks(512) {
        reader.feed(piece)?;
    }
    Ok(reader.finish()?)
}

fn main(rt: HostRuntime) -> Result<()> {
    let params = read_pieces(&rt, fs::read(&rt, "bank.fints")?.as_slice())?;
    let orders = OrderTable::read(rt.alloc(), fs::read(&rt, "orders.toml")?.as_slice())?;
    open(&rt, &params, &orders)
}
