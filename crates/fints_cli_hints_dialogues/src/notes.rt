//! What no rule forbids and is still wrong in a recorded dialogue: notes on its messages and answers.
use fints_cli_hints_reasons::after::{head_of, other_reference};
use fints_cli_hints_words::places::written;
use fints_cli_hints_words::quoting::Sample;
use fints_rules::Message;
use fints_rules_dialogues::{Answer, Exchange};
use fints_syntax::{Memory, OwnedSegment};
use std::alloc::Global;
use std::fmt;
use std::fmt::{Display, Formatter, Write};

// ---- what is said

// A note on a message of the client, or on the answer to it.
#[derive(Clone, Copy)]
enum Note<'a> {
    /// The number of the message, and the one that is due.
    OtherNumber(u64, u64),
    /// The dialogue id of the first message, which isn't 0.
    EarlyDialogue(&'a [u8]),
    /// The dialogue id of a later message, and the one that the bank has given.
    OtherDialogue(&'a [u8], &'a [u8]),
    /// The dialogue id that an HKEND names, and that of its message.
    OtherEnd(&'a [u8], &'a [u8]),
    NotSealed,
    Ended,
    /// The number of the message that an answer names, and that of the message.
    OtherReference(&'a [u8], u64),
}

impl Display for Note<'_> {
    fn fmt<W: Write>(&self, f: &mut Formatter<W>) -> fmt::Result {
        match *self {
            Note::OtherNumber(number, due) => write!(
                f,
                "the number in HNHBK is {number}, and must be {due}: the messages of a dialogue are numbered 1, 2, 3 and so on"
            ),
            Note::EarlyDialogue(id) => {
                let id = Sample(id);
                write!(
                    f,
                    "the dialogue id in HNHBK is {id}, and must be \"0\": the bank gives one in its first answer"
                )
            }
            Note::OtherDialogue(id, given) => {
                let (id, given) = (Sample(id), Sample(given));
                write!(
                    f,
                    "the dialogue id in HNHBK is {id}, and must be {given}, which the bank's first answer gives"
                )
            }
            Note::OtherEnd(named, id) => {
                let (named, id) = (Sample(named), Sample(id));
                write!(
                    f,
                    "element 2 of HKEND is {named}, and must be {id}, the dialogue id in HNHBK"
                )
            }
            Note::NotSealed => f.write_str(
                "the message is signed and not sealed: put its segments into an HNVSD, so that no PIN or TAN is in it in clear",
            ),
            Note::Ended => f.write_str(
                "an answer before has 9800, by which the bank ended the dialogue: begin another one",
            ),
            Note::OtherReference(named, number) => {
                let named = Sample(named);
                write!(
                    f,
                    "the answer to it refers to message {named} (HNHBK, element 6), and the message has number {number}"
                )
            }
        }
    }
}

fn add_note(text: &mut String, alloc: Global, place: usize, note: Note<'_>) -> Result<(), Memory> {
    let line = written(alloc, format_args!("note: message {place}: {note}\n"))?;
    text.push_str(line.as_str())?;
    Ok(())
}

// ---- what is there, and what is due

// What is due of the message at a place, from 1, by what is before it.
#[derive(Clone, Copy)]
struct Due<'a> {
    place: usize,
    number: u64,
    /// The dialogue id that the bank has given: none before its first answer.
    given: Option<&'a [u8]>,
    /// Whether an answer has ended the dialogue.
    ended: bool,
    /// Whether it is the first message that is signed and not sealed.
    open: bool,
}

// ---- the notes on one message

fn dialogue_note<'a>(id: &'a [u8], given: Option<&'a [u8]>) -> Option<Note<'a>> {
    match given {
        None if id != b"0".as_slice() => Some(Note::EarlyDialogue(id)),
        Some(given) if id != given => Some(Note::OtherDialogue(id, given)),
        _ => None,
    }
}

// The first HKEND of the message that names another than the dialogue id.
fn other_end(
    alloc: Global,
    message: &Message<'_>,
    id: &[u8],
) -> Result<Option<OwnedSegment>, Memory> {
    for segment in message.body() {
        if segment.id().is(b"HKEND") {
            let end = segment.to_owned(alloc)?;
            if end.value(2, 1) != id {
                return Ok(Some(end));
            }
        }
    }
    Ok(None)
}

// Adds the notes on a message of the client, and answers its number.
fn add_message(
    text: &mut String,
    alloc: Global,
    due: &Due<'_>,
    message: &Message<'_>,
) -> Result<u64, Memory> {
    let (place, number) = (due.place, message.number());
    let head = message.first().to_owned(alloc)?;
    let id = head.value(4, 1);
    if number != due.number {
        add_note(text, alloc, place, Note::OtherNumber(number, due.number))?;
    }
    if let Some(note) = dialogue_note(id, due.given) {
        add_note(text, alloc, place, note)?;
    }
    if let Some(end) = other_end(alloc, message, id)? {
        add_note(text, alloc, place, Note::OtherEnd(end.value(2, 1), id))?;
    }
    if due.open {
        add_note(text, alloc, place, Note::NotSealed)?;
    }
    if due.ended {
        add_note(text, alloc, place, Note::Ended)?;
    }
    Ok(number)
}

// Adds the note on an answer whose reference is that of another message than the one of this number.
fn add_answer(
    text: &mut String,
    alloc: Global,
    place: usize,
    number: u64,
    answer: &Answer<'_>,
) -> Result<(), Memory> {
    if let Some(head) = other_reference(alloc, answer.sent.bytes, number)? {
        add_note(
            text,
            alloc,
            place,
            Note::OtherReference(head.value(6, 2), number),
        )?;
    }
    Ok(())
}

// ---- all notes

// The code by which a bank ends a dialogue.
const ENDED: u16 = 9800;

fn ends(answer: &Answer<'_>) -> bool {
    answer.codes.iter().any(|code| code.number() == ENDED)
}

/// The notes on a recording, exchange by exchange. What is noted is of one dialogue.
#[derive(Drop)]
pub struct Notes {
    text: String,
    place: usize,
    // The number that is due.
    number: u64,
    // HNHBK of the first answer of the dialogue, which gives the dialogue id.
    first: Option<OwnedSegment>,
    // Whether an answer has ended the dialogue.
    ended: bool,
    // Whether a message of the dialogue is signed and not sealed.
    open: bool,
}

fn is_open(message: &Message<'_>) -> bool {
    message.seal().is_none() && !message.ends().is_empty()
}

impl Notes {
    pub fn new(alloc: Global) -> Notes {
        Notes {
            text: String::new(alloc),
            place: 1,
            number: 1,
            first: None,
            ended: false,
            open: false,
        }
    }

    /// The place of the next message of the client, from 1.
    pub fn place(&self) -> usize {
        self.place
    }

    pub fn text(&self) -> &str {
        self.text.as_str()
    }

    /// Where further notes on the next message go, after those of `add`.
    pub fn text_mut(&mut self) -> &mut String {
        &mut self.text
    }

    /// Adds the notes on the next exchange.
    pub fn add(&mut self, alloc: Global, exchange: &Exchange<'_>) -> Result<(), Memory> {
        if exchange.begins {
            self.number = 1;
            self.first = None;
            self.ended = false;
            self.open = false;
        }
        let is_open = is_open(&exchange.message);
        let due = Due {
            place: self.place,
            number: self.number,
            given: self.first.as_ref().map(|it| it.value(4, 1)),
            ended: self.ended,
            open: is_open && !self.open,
        };
        self.open = self.open || is_open;
        let number = add_message(&mut self.text, alloc, &due, &exchange.message)?;
        if let Some(answer) = &exchange.answer {
            add_answer(&mut self.text, alloc, self.place, number, answer)?;
            self.ended = self.ended || ends(answer);
            if exchange.begins {
                self.first = head_of(alloc, answer.sent.bytes)?;
            }
        }
        self.place = self.place.saturating_add(1);
        self.number = number.saturating_add(1);
        Ok(())
    }
}
