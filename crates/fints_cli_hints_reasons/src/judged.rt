//! Why a message breaks the rules that `judge` names.
use crate::after::add_notes;
use crate::bank::{AccountIndex, Bank, BankIndex};
use crate::elements::Elements;
use crate::kinds::Kinds;
use crate::lines::{Where, add_why};
use crate::segment::{Seen, SegmentWhy};
use crate::tans::NoTan;
use crate::whole::{Before, Whole, WholeWhy, is_of_whole};
use fints_cli_hints_captured::{Basis, Captured, Noted, Outgoing, add_captured_notes};
use fints_cli_hints_segments::UnreadHint;
use fints_cli_hints_words::places::HintText;
use fints_cli_texts::JudgeObserver;
use fints_rules::{Broken, Message, Permissions};
use fints_rules_messages::{Unread, UnreadObserver};
use fints_syntax::{Kind, Memory, SegmentView};
use std::alloc::Global;
use std::mem;

fn kinds_in(
    alloc: Global,
    permissions: &Permissions<'_>,
    body: &[SegmentView<'_>],
) -> Result<Kinds, Memory> {
    let mut kinds: Vec<Kind> = Vec::new(alloc);
    for segment in body {
        kinds.push(segment.id())?;
    }
    Ok(Kinds::of(kinds, permissions))
}

/// A message that is judged by what a bank permits, and what it is called: nothing where it is judged by itself.
#[derive(Clone, Copy)]
pub struct Judged<'a> {
    pub bank: &'a Bank<'a>,
    pub called: &'a str,
    pub message: &'a Message<'a>,
}

fn place_of<'a>(judged: &Judged<'a>, broken: &Broken) -> Where<'a> {
    Where {
        sent: judged.called,
        segment: broken.segment,
    }
}

fn add_segment(
    text: &mut String,
    alloc: Global,
    judged: &Judged<'_>,
    kinds: &Kinds,
    broken: &Broken,
    segment: &SegmentView<'_>,
) -> Result<(), Memory> {
    let bank = judged.bank;
    let (kind, version) = (segment.id(), segment.version());
    let sent = segment.to_owned(alloc)?;
    let seen = Seen {
        kind,
        version,
        elements: Elements::Sent(&sent),
        count: kinds.count(kind),
        signatures: judged.message.ends().len(),
        demanding: kinds.demanding(),
        no_tan: NoTan::NoneThere,
    };
    let Some(cause) = seen.cause(bank.permissions, broken.rule) else {
        return Ok(());
    };
    let why = SegmentWhy {
        bank,
        seen: &seen,
        cause,
    };
    add_why(text, alloc, place_of(judged, broken), why)
}

fn add_whole(
    text: &mut String,
    alloc: Global,
    judged: &Judged<'_>,
    kinds: &Kinds,
    broken: &Broken,
) -> Result<(), Memory> {
    if !is_of_whole(broken.rule) {
        return Ok(());
    }
    let message = judged.message;
    let whole = Whole {
        is_one: true,
        protocol: message.protocol(),
        number: message.number(),
        size: message.size() as u64,
        kinds: kinds.plain(),
        before: Before::Message,
    };
    let why = WholeWhy {
        bank: judged.bank.permissions.bank(),
        whole: &whole,
        rule: broken.rule,
    };
    add_why(text, alloc, place_of(judged, broken), why)
}

// The segment of a body that has the number: they are numbered on from the first.
fn segment_of<'b, 'a>(body: &'b [SegmentView<'a>], number: u16) -> Option<&'b SegmentView<'a>> {
    let first = body.first()?.number();
    body.get(usize::from(number.checked_sub(first)?))
}

/// Adds a line for each of these rules, which the message breaks, in their order: why, and what to change.
pub fn add_reasons(
    text: &mut String,
    alloc: Global,
    judged: &Judged<'_>,
    broken: &[Broken],
) -> Result<(), Memory> {
    let body = judged.message.body();
    let kinds = kinds_in(alloc, judged.bank.permissions, body)?;
    for one in broken {
        match segment_of(body, one.segment) {
            Some(segment) => add_segment(text, alloc, judged, &kinds, one, segment)?,
            None => add_whole(text, alloc, judged, &kinds, one)?,
        }
    }
    Ok(())
}

const ANSWER: &str =
    "each segment begins with HI or DI, so this is a bank's answer: hand it over by --answer, the message that it answers by --before, and the client's next one by --message";

// Whether the segment is one that a bank sends.
fn is_of_bank(segment: &SegmentView<'_>) -> bool {
    let kind = segment.id();
    let name = kind.as_bytes();
    name.starts_with(b"HI") || name.starts_with(b"DI")
}

// Whether the message has segments, and a bank sends all of them.
fn is_answer(message: &Message<'_>) -> bool {
    let body = message.body();
    !body.is_empty() && body.iter().all(is_of_bank)
}

// The one line of a bank's answer.
fn answer_line(alloc: Global) -> Result<String, Memory> {
    let mut text = String::new(alloc);
    let place = Where {
        sent: "",
        segment: 0,
    };
    add_why(&mut text, alloc, place, ANSWER)?;
    Ok(text)
}

// A line for each rule that the message breaks, or one line where it is a bank's answer.
fn lines_of(
    alloc: Global,
    capture: &[u8],
    permissions: &Permissions<'_>,
    message: &Message<'_>,
    broken: &[Broken],
) -> Result<Option<String>, Memory> {
    if broken.is_empty() {
        return Ok(None);
    }
    if is_answer(message) {
        return Ok(Some(answer_line(alloc)?));
    }
    let index = BankIndex::of(alloc, permissions, capture)?;
    let accounts = AccountIndex::of(alloc, permissions)?;
    let bank = Bank {
        permissions,
        index: &index,
        accounts: &accounts,
    };
    let judged = Judged {
        bank: &bank,
        called: "",
        message,
    };
    let mut text = String::new(alloc);
    add_reasons(&mut text, alloc, &judged, broken)?;
    Ok(Some(text))
}

// These reasons, and after them the notes on the message by what the capture says.
fn with_captured_notes(
    alloc: Global,
    reasons: Option<String>,
    capture: &[u8],
    permissions: &Permissions<'_>,
    message: &Message<'_>,
) -> Result<Option<String>, Memory> {
    if message.openers().is_empty() || is_answer(message) {
        return Ok(reasons);
    }
    let captured = Captured::of(alloc, capture)?;
    let basis = Basis {
        captured: &captured,
        allowed: captured.allowed.as_slice(),
        earlier: captured.allowed.as_slice(),
        permissions,
    };
    let mut text = reasons.unwrap_or_else(|| String::new(alloc));
    let mut noted = Noted::none();
    let sent = Outgoing::Message(message);
    add_captured_notes(&mut text, alloc, "", &mut noted, &basis, &sent)?;
    Ok(Some(text))
}

// These reasons, and after them the notes on a message after another one and the answer to that.
fn with_notes(
    alloc: Global,
    reasons: Option<String>,
    before: &Message<'_>,
    answer: &[u8],
    message: &Message<'_>,
) -> Result<Option<String>, Memory> {
    let mut text = reasons.unwrap_or_else(|| String::new(alloc));
    add_notes(&mut text, alloc, before, answer, message)?;
    Ok(Some(text))
}

/// The reasons of what a message breaks, in the order in which `judge` names it: a line for each rule, why
/// it is broken and what to change; or one line where the message is a bank's answer, with no segment of a
/// client. After them are the notes: by what the capture says, and on a message after another one. None
/// where they aren't wanted. And the hint of bytes that are no message.
#[derive(Drop)]
pub struct JudgeReasons<'c> {
    alloc: Global,
    wanted: bool,
    capture: &'c [u8],
    text: HintText,
    hint: UnreadHint,
}

impl<'c> JudgeReasons<'c> {
    /// Those by the parameters that were read in this capture.
    pub fn new(alloc: Global, wanted: bool, capture: &'c [u8]) -> JudgeReasons<'c> {
        JudgeReasons {
            alloc,
            wanted,
            capture,
            text: Ok(None),
            hint: UnreadHint::new(alloc, wanted),
        }
    }

    /// The reasons and the notes, if there is one. An error where memory ran out while they were made.
    pub fn into_text(self) -> HintText {
        let text = self.text?;
        Ok(text.filter(|text| !text.is_empty()))
    }

    // The reasons of a message that was judged, and the notes by what the capture says.
    fn reasons_of(
        &self,
        permissions: &Permissions<'_>,
        message: &Message<'_>,
        broken: &[Broken],
    ) -> HintText {
        let reasons = lines_of(self.alloc, self.capture, permissions, message, broken)?;
        with_captured_notes(self.alloc, reasons, self.capture, permissions, message)
    }

    // The reasons so far, and after them the notes on a message after another one.
    fn with_notes_after(
        &mut self,
        before: &Message<'_>,
        answer: &[u8],
        message: &Message<'_>,
    ) -> HintText {
        let reasons = mem::replace(&mut self.text, Ok(None))?;
        with_notes(self.alloc, reasons, before, answer, message)
    }

    /// Why bytes are no message; none where they were one.
    pub fn into_hint(self) -> Option<String> {
        self.hint.into_text()
    }
}

impl UnreadObserver for JudgeReasons<'_> {
    fn unread(&mut self, bytes: &[u8], unread: &Unread<'_>) {
        self.hint.unread(bytes, unread);
    }
}

impl JudgeObserver for JudgeReasons<'_> {
    fn judged(&mut self, permissions: &Permissions<'_>, message: &Message<'_>, broken: &[Broken]) {
        if self.wanted {
            self.text = self.reasons_of(permissions, message, broken);
        }
    }

    fn judged_after(&mut self, before: &Message<'_>, answer: &[u8], message: &Message<'_>) {
        if self.wanted {
            self.text = self.with_notes_after(before, answer, message);
        }
    }
}
