//! Why a run has no message of a number.
use crate::labels::name_text;
use fints_cli_hints_words::places::{HintText, say};
use fints_script::{Script, Step, Target};
use fints_script_cases::{Answer, Case};
use std::alloc::Global;
use std::fmt;
use std::fmt::{Display, Formatter, Write};

/// Why nothing more is sent.
#[derive(Clone, Copy)]
enum End {
    /// There is no further answer.
    NoAnswer,
    /// The answer leads to `stop`.
    Stop,
    /// The answer leads to `again`, and the step was sent so often in a row, as often as it may be.
    Repeated(u16),
}

impl Display for End {
    fn fmt<W: Write>(&self, f: &mut Formatter<W>) -> fmt::Result {
        match *self {
            End::NoAnswer => f.write_str("the case has no answer to it"),
            End::Stop => f.write_str("its answer leads to stop"),
            End::Repeated(repeat) => {
                write!(f, "its answer leads to again, and its repeat is {repeat}")
            }
        }
    }
}

/// The last message of a run: its number, its step by the place from 0, and how many messages of the
/// step are in a row up to it.
#[derive(Clone, Copy)]
struct Last {
    number: usize,
    place: usize,
    in_a_row: usize,
}

fn step_after(last: &Last, target: Target, repeat: u16) -> Result<Last, End> {
    let number = last.number.saturating_add(1);
    match target {
        Target::Step(step) => Ok(Last {
            number,
            place: usize::from(step).saturating_sub(1),
            in_a_row: 1,
        }),
        Target::Again if last.in_a_row < usize::from(repeat) => Ok(Last {
            number,
            place: last.place,
            in_a_row: last.in_a_row.saturating_add(1),
        }),
        Target::Again => Err(End::Repeated(repeat)),
        Target::Stop => Err(End::Stop),
    }
}

fn next(steps: &[Step], last: &Last, answer: &Answer) -> Result<Last, End> {
    match steps.get(last.place) {
        Some(step) => step_after(last, step.choose(answer.codes()), step.repeat()),
        None => Err(End::Stop),
    }
}

// The last message of the run under these answers, and why it is the last.
fn last_of(steps: &[Step], answers: &[Answer]) -> (Last, End) {
    let mut last = Last {
        number: 1,
        place: 0,
        in_a_row: 1,
    };
    for answer in answers {
        match next(steps, &last, answer) {
            Ok(more) => last = more,
            Err(end) => return (last, end),
        }
    }
    (last, End::NoAnswer)
}

fn end_text(alloc: Global, last: &Last, step: &Step, end: End) -> HintText {
    let number = last.number;
    let name = step.name();
    let name = name_text(&name);
    say(
        alloc,
        format_args!("the last message of the run is number {number}, of the step {name}; {end}"),
    )
}

fn run_text(alloc: Global, script: &Script, case: &Case) -> HintText {
    let (last, end) = last_of(script.steps(), case.answers.as_slice());
    match script.steps().get(last.place) {
        Some(step) => end_text(alloc, &last, step, end),
        None => Ok(None),
    }
}

/// Which message of a case's run is the last, and why.
pub fn run_hint(alloc: Global, number: u32, script: &[u8], text: &[u8]) -> HintText {
    if number == 0 {
        return say(alloc, "the first message of a run is number 1");
    }
    let Ok(script) = Script::read(alloc, script) else {
        return Ok(None);
    };
    match Case::read(alloc, text) {
        Ok(case) => run_text(alloc, &script, &case),
        Err(_) => Ok(None),
    }
}
