//! What the refusal of a recorded dialogue is about.
use crate::lost::lost_hint;
use fints_cli_hints_segments::{UnreadHint, params_hint};
use fints_cli_hints_words::places::{HintText, line_at, say, say_at, written};
use fints_params::ParamFault;
use fints_rules_dialogues::{
    DialogueFault, RecordedMessage, Turn, TurnObserver, Unread, UnreadObserver,
};
use fints_syntax::Memory;
use std::alloc::Global;

// ---- no messages

const NO_MESSAGE: &str =
    "no message begins in the file: one begins with HNHBK:1:3 and its size in 12 digits, or with SE5IQks6, the same in base64";

/// What the refusal of a file is about in which a message is lost, or that has none.
pub fn file_hint(alloc: Global, fault: &DialogueFault, file: &[u8]) -> HintText {
    match fault {
        DialogueFault::NoMessage => say(alloc, NO_MESSAGE),
        DialogueFault::NotAMessage { offset } => lost_hint(alloc, file, *offset),
        _ => Ok(None),
    }
}

// ---- messages that are refused

// The client's message or the answer to it, in words.
fn turn_text(alloc: Global, due: Turn) -> Result<String, Memory> {
    let number = due.number;
    if due.is_answer {
        written(alloc, format_args!("the answer to message {number}"))
    } else {
        written(alloc, format_args!("message {number}"))
    }
}

// Why a message of the client is none, as its reader says it.
fn client_hint(alloc: Global, due: Turn, unread: Option<&str>) -> HintText {
    let Some(unread) = unread else {
        return Ok(None);
    };
    let number = due.number.saturating_add(usize::from(due.is_answer));
    say(alloc, format_args!("message {number}: {unread}"))
}

fn turn_hint(alloc: Global, due: Turn) -> HintText {
    let there = if due.is_answer {
        "no answer of the bank, since it has no code in an HIRMG or HIRMS"
    } else {
        "an answer of the bank, since it has an HIRMG"
    };
    let turn = turn_text(alloc, due)?;
    let turn = turn.as_str();
    say(
        alloc,
        format_args!(
            "{turn} is due, and this is {there}: the client's messages and the bank's answers come in turn, the client's first"
        ),
    )
}

fn answer_hint(
    alloc: Global,
    file: &[u8],
    due: Turn,
    sent: &RecordedMessage<'_>,
    fault: &ParamFault,
) -> HintText {
    let turn = turn_text(alloc, due)?;
    let turn = turn.as_str();
    let line = line_at(file, sent.start);
    say_at(
        alloc,
        format_args!("{turn}, whose line 1 is line {line} of the file: "),
        params_hint(alloc, fault, sent.bytes)?,
    )
}

/// Looks on while a recording is read, and says what its refusal is about.
#[derive(Drop)]
pub struct RefusedHint<'f> {
    alloc: Global,
    wanted: bool,
    file: &'f [u8],
    unread: UnreadHint,
    text: Option<String>,
}

impl<'f> RefusedHint<'f> {
    /// One that has seen nothing yet of that file, and says nothing where no hint is wanted.
    pub fn new(alloc: Global, wanted: bool, file: &'f [u8]) -> RefusedHint<'f> {
        RefusedHint {
            alloc,
            wanted,
            file,
            unread: UnreadHint::new(alloc, wanted),
            text: None,
        }
    }

    /// What it says. None where nothing was refused, or memory ran out.
    pub fn into_text(self) -> Option<String> {
        self.text
    }

    fn hint(&self, due: Turn, sent: &RecordedMessage<'_>, fault: &DialogueFault) -> HintText {
        match fault {
            DialogueFault::NotAMessage { .. } => client_hint(self.alloc, due, self.unread.text()),
            DialogueFault::NotInTurn { .. } => turn_hint(self.alloc, due),
            DialogueFault::Answer { fault, .. } => {
                answer_hint(self.alloc, self.file, due, sent, fault)
            }
            _ => Ok(None),
        }
    }
}

impl UnreadObserver for RefusedHint<'_> {
    fn unread(&mut self, bytes: &[u8], unread: &Unread<'_>) {
        self.unread.unread(bytes, unread);
    }
}

impl TurnObserver for RefusedHint<'_> {
    fn refused(&mut self, due: Turn, sent: &RecordedMessage<'_>, fault: &DialogueFault) {
        if self.wanted {
            self.text = self.hint(due, sent, fault).unwrap_or(None);
        }
    }
}
