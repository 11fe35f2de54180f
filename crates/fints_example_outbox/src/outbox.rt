//! A client's outbox: what it hands on, the bank's parameters permit.
ghost use Rattle.std.specs.Prelude.{◌≡◌, [], OnOk, OnErr, IfOk, IfErr};
ghost use Rattle.fints_rules.specs.Permits.{Granted};
ghost use Rattle.fints_rules.specs.JudgeFaults as faults;
ghost use Rattle.fints_example_outbox.specs.Outboxes.{nothing_sent, with_sent, after_sending, EachWasPermitted, IsHeldFor, IsJudgedNextIn, IsNextIn};
ghost use Rattle.fints_example_outbox.specs.declared.outbox.Held.TheVariants as held;

use fints_params::Code;
use fints_rules::{Broken, JudgeFault, Memory, Permissions, judge, judge_after};
use fints_syntax::Bytes;
use std::alloc::Global;
use std::marker::Model;

/// A message that was handed on, and the codes of the bank's answer that was heard before it.
#[derive(Drop)]
pub struct HandedOn {
    message: Bytes,
    heard: Vec<Code>,
}

impl Model for HandedOn {
    ghost use Rattle.fints_example_outbox.specs.Outboxes.{HandedOnValue};

    ghost Value = { HandedOnValue };

    ghost view = { λ s. record { message = s.message; heard = s.heard.items } };
}

impl HandedOn {
    pub fn message(&self) -> &[u8]
        ensures { result.now ≡ self.now.message }
    {
        self.message.as_slice()
    }

    fn copied(alloc: Global, message: &[u8], heard: &[Code]) -> Result<HandedOn, Memory>
        ensures { IfOk result (λ s. s ≡ record { message = message.now; heard = heard.now }) }
    {
        Ok(HandedOn {
            message: Bytes::copied(alloc, message)?,
            heard: heard.to_vec(alloc)?,
        })
    }
}

/// The messages of a dialogue that were handed on, and the codes of the bank's last answer; a
/// contract sees them, with what the bank permits.
#[derive(Drop)]
pub struct Outbox<'a> {
    alloc: Global,
    permissions: &'a Permissions<'a>,
    sent: Vec<HandedOn>,
    codes: Vec<Code>,
}

impl<'a> Model for Outbox<'a> {
    ghost use Rattle.fints_example_outbox.specs.Outboxes.{OutboxValue};

    ghost Value = { OutboxValue };

    ghost use Rattle.fints_example_outbox.specs.Inside.{outbox_of, IsOutbox};

    ghost view = { outbox_of };

    ghost invariant = { IsOutbox };
}

/// Why a message is held back: it breaks these rules, or it can't be judged.
#[derive(Drop)]
pub enum Held {
    Broken(Vec<Broken>),
    Unjudged(JudgeFault),
}

impl From<JudgeFault> for Held {
    ghost from_gives = { λ fault why. why ≡ held.Unjudged fault };

    fn from(fault: JudgeFault) -> Held {
        Held::Unjudged(fault)
    }
}

impl From<Memory> for Held {
    ghost from_gives = { λ _ why. why ≡ held.Unjudged faults.Memory };

    fn from(_: Memory) -> Held {
        Held::Unjudged(JudgeFault::Memory)
    }
}

fn keep(
    alloc: Global,
    sent: &mut Vec<HandedOn>,
    message: &[u8],
    heard: &[Code],
) -> Result<(), Memory>
    ensures kept { OnOk result (sent.new.items ≡ with_sent sent.old.items message.now heard.now) }
    ensures full { OnErr result (sent.new.items ≡ sent.old.items) }
{
    sent.push(HandedOn::copied(alloc, message, heard)?)?;
    Ok(())
}

impl<'a> Outbox<'a> {
    /// Nothing was sent.
    pub fn new(alloc: Global, permissions: &'a Permissions<'a>) -> Outbox<'a>
        ensures { result ≡ nothing_sent permissions.now }
    {
        Outbox {
            alloc,
            permissions,
            sent: Vec::new(alloc),
            codes: Vec::new(alloc),
        }
    }

    // The rules that the message breaks after the last one and the bank's answer.
    fn broken(&self, message: &[u8]) -> Result<Vec<Broken>, JudgeFault>
        ensures permitted { IfOk result (λ broken. broken.items ≡ [] → IsNextIn self.now message.now) }
        ensures broken { IfOk result (λ broken. IsNextIn self.now message.now → broken.items ≡ []) }
        ensures judged { IfOk result (λ broken. IsJudgedNextIn self.now message.now broken.items) }
        ensures unjudged { IfErr result (λ f. IsHeldFor self.now message.now (held.Unjudged f)) }
        ensures memory_alone { IsNextIn self.now message.now → IfErr result (λ f. f ≡ faults.Memory) }
    {
        match self.sent.last() {
            Some(before) => judge_after(
                self.alloc,
                self.permissions,
                before.message(),
                self.codes.as_slice(),
                message,
            ),
            None => judge(self.alloc, self.permissions, message),
        }
    }

    /// Hands a message on, if the bank permits it after the one before and the bank's answer to that. One that it
    /// permits is held back only when memory runs out; another for all the rules that it breaks, or because it is
    /// no message.
    pub fn send(&mut self, message: &[u8]) -> Result<(), Held>
        ensures permitted { OnOk result (IsNextIn self.old message.now) }
        ensures sent { OnOk result (self.new ≡ after_sending self.old message.now) }
        ensures held { IfErr result (λ why. self.new ≡ self.old) }
        ensures why { IfErr result (λ why. IsHeldFor self.old message.now why) }
        ensures memory_alone { IsNextIn self.old message.now
            → IfErr result (λ why. why ≡ held.Unjudged faults.Memory) }
    {
        let broken = self.broken(message)?;
        if !broken.as_slice().is_empty() {
            return Err(Held::Broken(broken));
        }
        keep(self.alloc, &mut self.sent, message, self.codes.as_slice())?;
        Ok(())
    }

    /// Notes the codes of the bank's answer to the last message.
    pub fn answered(&mut self, codes: Vec<Code>)
        ensures { self.new ≡ record self.old { codes = codes.items } }
    {
        self.codes = codes;
    }

    /// What was handed on, each message permitted after the one before it.
    pub fn sent(&self) -> &[HandedOn]
        ensures sent { result.now ≡ self.now.sent }
        ensures permitted { EachWasPermitted self.now.granted result.now }
    {
        self.sent.as_slice()
    }
}
