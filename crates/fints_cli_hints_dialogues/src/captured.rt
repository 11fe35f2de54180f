//! The notes on the messages of a recording, by what its parameters and the bank's answers say.
use crate::parties::{Party, party_in};
use crate::sources::Capture;
use fints_cli_hints_captured::{
    Basis, Captured, Noted, Outgoing, Said, add_captured_notes, said_in,
};
use fints_cli_hints_words::places::written;
use fints_rules::{Message, Permissions};
use fints_rules_dialogues::{Answer, Exchange};
use fints_syntax::{Memory, OwnedSegment};
use std::alloc::Global;
use std::collections::BTreeMap;
use std::mem;

/// What was noted of a dialogue, and what the bank has said in it.
#[derive(Drop)]
pub struct CapturedNotes {
    // What each capture says, by its place in the recording.
    captured: BTreeMap<usize, Captured>,
    noted: Noted,
    // Whether the note on an order reference was written.
    referred: bool,
    // Whose the dialogue is, where its first message says it.
    party: Option<Party>,
    // The functions that the last feedback 3920 of the dialogue allows the user.
    allowed: Vec<u32>,
    // Those of the last one before the dialogue, of each party.
    earlier: BTreeMap<Party, Vec<u32>>,
    // The HITAN that give order references.
    references: Vec<OwnedSegment>,
}

// The first HKTAN of a message, of version 6 or 7.
fn tan_order(alloc: Global, message: &Message<'_>) -> Result<Option<OwnedSegment>, Memory> {
    for segment in message.body() {
        if segment.id().is(b"HKTAN") && (segment.version() == 6 || segment.version() == 7) {
            return Ok(Some(segment.to_owned(alloc)?));
        }
    }
    Ok(None)
}

impl CapturedNotes {
    pub fn new(alloc: Global) -> CapturedNotes {
        CapturedNotes {
            captured: BTreeMap::new(alloc),
            noted: Noted::none(),
            referred: false,
            party: None,
            allowed: Vec::new(alloc),
            earlier: BTreeMap::new(alloc),
            references: Vec::new(alloc),
        }
    }

    // Keeps the functions that the dialogue so far allows its user.
    fn keep_allowed(&mut self, alloc: Global) -> Result<(), Memory> {
        let allowed = mem::replace(&mut self.allowed, Vec::new(alloc));
        if let Some(party) = self.party.take()
            && !allowed.is_empty()
        {
            self.earlier.insert(party, allowed)?;
        }
        Ok(())
    }

    // Begins another dialogue, by its first message.
    fn begin(&mut self, alloc: Global, message: &Message<'_>) -> Result<(), Memory> {
        self.keep_allowed(alloc)?;
        self.party = party_in(alloc, message)?;
        self.noted = Noted::none();
        self.referred = false;
        self.references.clear();
        Ok(())
    }

    // The functions that the user was allowed before the dialogue began: in an earlier one of the party, or
    // else in the capture that was handed in.
    fn allowed_before<'a>(&'a self, source: Capture<'_>, captured: &'a Captured) -> &'a [u32] {
        let earlier = match &self.party {
            Some(party) => self.earlier.get(party),
            None => None,
        };
        match earlier {
            Some(allowed) => allowed.as_slice(),
            None if source.is_handed_in() => captured.allowed.as_slice(),
            None => &[],
        }
    }

    // Whether the bank gave order references in this dialogue, and none is that of the HKTAN.
    fn is_unknown_reference(&self, order: &OwnedSegment) -> bool {
        let process = order.value(2, 1);
        let refers = process == b"2".as_slice() || process == b"S".as_slice();
        let reference = order.value(6, 1);
        let given = |it: &OwnedSegment| it.value(4, 1) == reference;
        refers
            && !reference.is_empty()
            && !self.references.is_empty()
            && !self.references.iter().any(given)
    }

    // Adds the notes on a message that is signed, by the capture by which it is judged.
    fn add_message(
        &mut self,
        text: &mut String,
        alloc: Global,
        place: usize,
        source: Capture<'_>,
        permissions: &Permissions<'_>,
        message: &Message<'_>,
    ) -> Result<(), Memory> {
        if message.openers().is_empty() {
            return Ok(());
        }
        if !self.captured.contains_key(&source.place) {
            let captured = Captured::of(alloc, source.bytes)?;
            self.captured.insert(source.place, captured)?;
        }
        let Some(captured) = self.captured.get(&source.place) else {
            return Ok(());
        };
        let called = written(alloc, format_args!("message {place}: "))?;
        let basis = Basis {
            captured,
            allowed: self.allowed.as_slice(),
            earlier: self.allowed_before(source, captured),
            permissions,
        };
        let mut noted = self.noted;
        let sent = Outgoing::Message(message);
        add_captured_notes(text, alloc, called.as_str(), &mut noted, &basis, &sent)?;
        self.noted = noted;
        Ok(())
    }

    // Adds the note on an order reference that the bank didn't give.
    fn add_reference(
        &mut self,
        text: &mut String,
        alloc: Global,
        place: usize,
        order: &OwnedSegment,
    ) -> Result<(), Memory> {
        if self.referred || !self.is_unknown_reference(order) {
            return Ok(());
        }
        self.referred = true;
        let line = written(
            alloc,
            format_args!(
                "note: message {place}: element 6 of HKTAN is no order reference that a HITAN of this dialogue gave\n"
            ),
        )?;
        text.push_str(line.as_str())?;
        Ok(())
    }

    // Keeps what an answer says.
    fn keep(&mut self, alloc: Global, answer: &Answer<'_>) -> Result<(), Memory> {
        let Said {
            allowed,
            references,
        } = said_in(alloc, answer.sent.bytes)?;
        if !allowed.is_empty() {
            self.allowed = allowed;
        }
        for reference in references {
            self.references.push(reference)?;
        }
        Ok(())
    }

    /// Adds the notes on the next exchange, whose message has this place, from 1, and is judged by this
    /// capture.
    pub fn add(
        &mut self,
        text: &mut String,
        alloc: Global,
        place: usize,
        source: Capture<'_>,
        permissions: &Permissions<'_>,
        exchange: &Exchange<'_>,
    ) -> Result<(), Memory> {
        if exchange.begins {
            self.begin(alloc, &exchange.message)?;
        }
        self.add_message(text, alloc, place, source, permissions, &exchange.message)?;
        if let Some(order) = tan_order(alloc, &exchange.message)? {
            self.add_reference(text, alloc, place, &order)?;
        }
        match &exchange.answer {
            Some(answer) => self.keep(alloc, answer),
            None => Ok(()),
        }
    }
}
