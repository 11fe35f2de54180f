//! The ways of a draft: which step an answer of the bank has sent next.
use crate::recorded::Recorded;
use crate::texts::write_number;
use fints_cli_drafts_alike::{goes_on, has_process};
use fints_params::Code;
use fints_rules_dialogues::Exchange;
use fints_script_cases::digits_of;
use fints_syntax::Kind;
use std::alloc::{AllocError, Global};

/// What a message of the client does with an order that demands a TAN (FinTS 3.0, Security PIN/TAN,
/// HKTAN), and the kind by which it is known.
#[derive(Clone, Copy)]
pub struct Turn {
    kind: Option<Kind>,
    /// It submits one: HKTAN of process 4.
    submits: bool,
    /// It goes on with one: HKTAN of process 2 sends the TAN, one of process S asks whether it was
    /// released elsewhere.
    releases: bool,
    /// It sends the TAN.
    sends_tan: bool,
    /// It ends the dialogue.
    ends: bool,
}

impl Turn {
    pub fn of(recorded: &Recorded) -> Turn {
        let body = &recorded.body;
        Turn {
            kind: recorded.kind(),
            submits: body.iter().any(|own| has_process(own, b"4")),
            releases: body.iter().any(|own| goes_on(own)),
            sends_tan: body.iter().any(|own| has_process(own, b"2")),
            ends: body.iter().any(|own| own.head.id.is(b"HKEND")),
        }
    }
}

/// The step of a message, which counts from 1, by the kind by which the message is known.
#[derive(Clone, Copy)]
struct Target {
    message: usize,
    kind: Option<Kind>,
}

/// The branches of a step: first that of the code that ends the run, then one for each of the codes; and its default.
/// A target is a step, or the end.
#[derive(Drop)]
pub struct Ways {
    ending: Option<Code>,
    codes: Vec<Code>,
    target: Option<Target>,
    default: Option<Target>,
}

// The code by which a bank demands a TAN.
const DEMANDING: u16 = 30;

// The codes by which a bank asks for a TAN, or for a release elsewhere.
const ASKING: [u16; 3] = [DEMANDING, 3955, 3956];

// Those of the codes by which the bank asked, each once.
fn asking_codes(alloc: Global, exchange: &Exchange<'_>) -> Result<Vec<Code>, AllocError> {
    let mut asking: Vec<Code> = Vec::new(alloc);
    let Some(answer) = &exchange.answer else {
        return Ok(asking);
    };
    for code in answer.codes.iter() {
        if ASKING.contains(&code.number()) && !asking.contains(code) {
            asking.push(*code)?;
        }
    }
    Ok(asking)
}

// The step of the message of a place, from 0 on, if there is one.
fn target_at(turns: &[Turn], place: usize) -> Option<Target> {
    let turn = turns.get(place)?;
    Some(Target {
        message: place.saturating_add(1),
        kind: turn.kind,
    })
}

// The step of the first message from a place on that goes on with no order.
fn past_releases(turns: &[Turn], place: usize) -> Option<Target> {
    let rest = turns.get(place..).unwrap_or(&[]);
    let count = rest.iter().take_while(|turn| turn.releases).count();
    target_at(turns, place.saturating_add(count))
}

// The code 0030, where a message submitted an order, the bank didn't ask by this code, and the next message neither
// sends the TAN nor ends the dialogue.
fn unreleased(here: Option<&Turn>, next: Option<&Turn>, asking: &[Code]) -> Option<Code> {
    let is_asked = asking.iter().any(|code| code.number() == DEMANDING);
    let submits = here.is_some_and(|turn| turn.submits);
    if submits && !is_asked && next.is_some_and(|turn| !turn.sends_tan && !turn.ends) {
        return Code::from_number(DEMANDING);
    }
    None
}

/// The ways of the step of a place among the messages, from 0 on. Where the bank asked for a TAN or for a
/// release elsewhere, and the next message goes on with the order, each code by which it asked leads there, and
/// the default past it. Where an order was submitted, and the next message doesn't release it by its TAN, the code
/// 0030 ends the run, unless the bank asked by it.
pub fn ways_of(
    alloc: Global,
    turns: &[Turn],
    place: usize,
    exchange: &Exchange<'_>,
) -> Result<Ways, AllocError> {
    let next = place.saturating_add(1);
    let asking = asking_codes(alloc, exchange)?;
    let ending = unreleased(turns.get(place), turns.get(next), asking.as_slice());
    if !asking.is_empty() && turns.get(next).is_some_and(|turn| turn.releases) {
        return Ok(Ways {
            ending,
            codes: asking,
            target: target_at(turns, next),
            default: past_releases(turns, next),
        });
    }
    Ok(Ways {
        ending,
        codes: Vec::new(alloc),
        target: None,
        default: target_at(turns, next),
    })
}

/// Writes the name of the step of a message: its number, and the kind by which it is known.
pub fn write_name(text: &mut String, message: usize, kind: Option<Kind>) -> Result<(), AllocError> {
    text.push_str("\"m")?;
    write_number(text, message)?;
    if let Some(kind) = kind {
        text.push('-')?;
        for b in kind.as_bytes() {
            text.push(char::from(b.to_ascii_lowercase()))?;
        }
    }
    text.push('"')
}

fn write_target(
    text: &mut String,
    target: Option<Target>,
    before: usize,
) -> Result<(), AllocError> {
    match target {
        None => text.push_str("\"stop\""),
        Some(target) => write_name(text, target.message.saturating_add(before), target.kind),
    }
}

fn write_branch(
    text: &mut String,
    code: Code,
    target: Option<Target>,
    before: usize,
) -> Result<(), AllocError> {
    text.push_str("{on = \"")?;
    for digit in digits_of(code) {
        text.push(char::from(digit))?;
    }
    text.push_str("\", to = ")?;
    write_target(text, target, before)?;
    text.push('}')
}

fn write_branches(text: &mut String, ways: &Ways, before: usize) -> Result<(), AllocError> {
    text.push_str("branches = [")?;
    if let Some(code) = ways.ending {
        write_branch(text, code, None, before)?;
    }
    for (i, code) in ways.codes.iter().enumerate() {
        if i > 0 || ways.ending.is_some() {
            text.push_str(", ")?;
        }
        write_branch(text, *code, ways.target, before)?;
    }
    text.push_str("]\n")
}

/// Writes the branches and the default of a step, where this many messages of the client come before the dialogue
/// in the recording.
pub fn write_ways(text: &mut String, ways: &Ways, before: usize) -> Result<(), AllocError> {
    if ways.ending.is_some() || !ways.codes.is_empty() {
        write_branches(text, ways, before)?;
    }
    text.push_str("default = ")?;
    write_target(text, ways.default, before)?;
    text.push('\n')
}
