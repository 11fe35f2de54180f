//! Where the parameters are by which messages are judged, and what was found in them.
use fints_cli_hints_reasons::bank::{AccountIndex, Bank, BankIndex};
use fints_cli_hints_reasons::{Judged, add_reasons};
use fints_rules::{Broken, Message, Permissions};
use fints_rules_dialogues::{RecordedMessage, ToldIn};
use fints_syntax::Memory;
use std::alloc::Global;
use std::collections::BTreeMap;

/// A capture, and its place in the recording.
#[derive(Clone, Copy)]
pub struct Capture<'c> {
    pub place: usize,
    pub bytes: &'c [u8],
}

// No answer of a recording is there.
const NOWHERE: usize = usize::MAX;

impl Capture<'_> {
    /// Whether it is no answer of the recording: it was handed in, or is empty.
    pub fn is_handed_in(&self) -> bool {
        self.place == NOWHERE
    }
}

/// Where the parameters of an audit were read.
#[derive(Clone, Copy)]
pub enum Source<'c> {
    /// In a capture that was handed in.
    Capture(&'c [u8]),
    /// In the answers of the recording itself.
    Answers,
}

impl Source<'_> {
    /// Whether they are in the recording itself.
    pub fn is_own(&self) -> bool {
        match self {
            Source::Capture(_) => false,
            Source::Answers => true,
        }
    }
}

fn place_of(sent: Option<RecordedMessage<'_>>) -> usize {
    match sent {
        Some(sent) => sent.start,
        None => NOWHERE,
    }
}

/// The capture of the bank's parameters.
pub fn capture_of<'c>(source: Source<'c>, told_in: ToldIn<'c>) -> Capture<'c> {
    match source {
        Source::Capture(bytes) => Capture {
            place: NOWHERE,
            bytes,
        },
        Source::Answers => Capture {
            place: place_of(told_in.bank),
            bytes: match told_in.bank {
                Some(sent) => sent.bytes,
                None => &[],
            },
        },
    }
}

/// The rows of captures in order, by the places of these. Each is ordered once, however often the dialogues
/// of a recording change between banks and customers.
#[derive(Drop)]
pub struct Indexes {
    banks: BTreeMap<usize, BankIndex>,
    accounts: BTreeMap<usize, AccountIndex>,
}

impl Indexes {
    pub fn new(alloc: Global) -> Indexes {
        Indexes {
            banks: BTreeMap::new(alloc),
            accounts: BTreeMap::new(alloc),
        }
    }

    // Orders the rows by which a message is judged, where they weren't yet.
    fn order(
        &mut self,
        alloc: Global,
        permissions: &Permissions<'_>,
        capture: Capture<'_>,
        user: usize,
    ) -> Result<(), Memory> {
        if !self.banks.contains_key(&capture.place) {
            let index = BankIndex::of(alloc, permissions, capture.bytes)?;
            self.banks.insert(capture.place, index)?;
        }
        if !self.accounts.contains_key(&user) {
            let index = AccountIndex::of(alloc, permissions)?;
            self.accounts.insert(user, index)?;
        }
        Ok(())
    }

    /// Adds the reasons of what a message breaks, which is called so.
    pub fn add(
        &mut self,
        text: &mut String,
        alloc: Global,
        permissions: &Permissions<'_>,
        capture: Capture<'_>,
        told_in: ToldIn<'_>,
        called: &str,
        message: &Message<'_>,
        broken: &[Broken],
    ) -> Result<(), Memory> {
        let user = place_of(told_in.user);
        self.order(alloc, permissions, capture, user)?;
        let Some(index) = self.banks.get(&capture.place) else {
            return Ok(());
        };
        let Some(accounts) = self.accounts.get(&user) else {
            return Ok(());
        };
        let bank = Bank {
            permissions,
            index,
            accounts,
        };
        let judged = Judged {
            bank: &bank,
            called,
            message,
        };
        add_reasons(text, alloc, &judged, broken)
    }
}
