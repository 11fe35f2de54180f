//! What the refusal of a capture is about.
use crate::bad_elements::{BadSegment, CaptureSegment, Data, data_of, first_bad_segment, flat};
use crate::forms::form_text;
use crate::syntax::{IN_DATA, Numbered, Region, bad_start, trouble_at, whole};
use fints_cli_hints_words::places::{HintText, line_at, say};
use fints_cli_hints_words::quoting::Sample;
use fints_params::ParamFault;
use fints_syntax::{MAX_CAPTURE, Memory, Placed, SyntaxFault, SyntaxKind, parse_placed};
use std::alloc::Global;
use std::fmt;
use std::fmt::{Display, Formatter, Write};

// The first segment in the data of this one that can't be read.
fn data_text(alloc: Global, capture: &[u8], placed: &Placed<'_>) -> HintText {
    let Some(Data { bytes, base }) = data_of(placed) else {
        return Ok(None);
    };
    let Some(start) = bad_start(bytes) else {
        return Ok(None);
    };
    let region = Region {
        input: capture,
        bytes,
        base,
        within: IN_DATA,
    };
    trouble_at(alloc, &region, start)
}

fn inner_text(alloc: Global, capture: &[u8]) -> HintText {
    let Ok(all) = parse_placed(alloc, capture) else {
        return Ok(None);
    };
    for placed in all.iter() {
        let found = data_text(alloc, capture, placed)?;
        if found.is_some() {
            return Ok(found);
        }
    }
    Ok(None)
}

fn syntax_text(alloc: Global, fault: &SyntaxFault, capture: &[u8]) -> HintText {
    if fault.kind == SyntaxKind::CaptureTooLong {
        let len = capture.len();
        return say(
            alloc,
            format_args!("longer than {MAX_CAPTURE} bytes: it has {len}"),
        );
    }
    let window = capture.get(..MAX_CAPTURE).unwrap_or(capture);
    match bad_start(window) {
        Some(start) => trouble_at(alloc, &whole(window), start),
        None => inner_text(alloc, window),
    }
}

/// A segment of a capture by its number, its identifier and its line.
#[derive(Clone, Copy)]
pub struct InLine {
    pub name: Numbered,
    pub line: usize,
}

fn in_line(capture: &[u8], found: &CaptureSegment) -> InLine {
    let head = &found.segment.head;
    InLine {
        name: Numbered {
            number: u32::from(head.number),
            id: head.id,
        },
        line: line_at(capture, found.offset),
    }
}

impl Display for InLine {
    fn fmt<W: Write>(&self, f: &mut Formatter<W>) -> fmt::Result {
        let InLine { name, line } = *self;
        write!(f, "{name} in line {line}")
    }
}

fn element_text(alloc: Global, capture: &[u8], all: &[CaptureSegment]) -> HintText {
    let Some(BadSegment { found, element }) = first_bad_segment(all) else {
        return Ok(None);
    };
    let place = in_line(capture, found);
    say(alloc, format_args!("{place}, {element}"))
}

fn two_banks(alloc: Global, capture: &[u8], all: &[CaptureSegment]) -> HintText {
    let mut banks = all
        .iter()
        .filter(|found| found.segment.is_named(b"HIBPA", 3));
    let (Some(first), Some(second)) = (banks.next(), banks.next()) else {
        return Ok(None);
    };
    let (first, second) = (in_line(capture, first), in_line(capture, second));
    say(
        alloc,
        format_args!(
            "{second} is a second HIBPA version 3; the first is {first}. A capture has one bank's parameters, once"
        ),
    )
}

/// A segment that a capture must have.
#[derive(Clone, Copy)]
struct Needed {
    id: &'static [u8],
    version: u16,
    what: &'static str,
}

impl Display for Needed {
    fn fmt<W: Write>(&self, f: &mut Formatter<W>) -> fmt::Result {
        let shown = Sample(self.id);
        let Needed { version, what, .. } = *self;
        write!(f, "{shown} version {version}, {what}")
    }
}

fn of_kind<'a>(all: &'a [CaptureSegment], id: &[u8]) -> Option<&'a CaptureSegment> {
    all.iter()
        .find(|found| found.segment.head.id.as_bytes() == id)
}

// That no segment has this identifier and version.
fn none_text(alloc: Global, capture: &[u8], all: &[CaptureSegment], needed: Needed) -> HintText {
    let Some(other) = of_kind(all, needed.id) else {
        let count = all.len();
        return say(
            alloc,
            format_args!("none of the {count} segments is {needed}"),
        );
    };
    let place = in_line(capture, other);
    let version = other.segment.head.version;
    say(
        alloc,
        format_args!("no segment is {needed}; {place} has version {version}"),
    )
}

const BANK: Needed = Needed {
    id: b"HIBPA",
    version: 3,
    what: "the bank's parameters",
};

const PINS: Needed = Needed {
    id: b"HIPINS",
    version: 1,
    what: "which orders need a TAN",
};

fn segments_hint(alloc: Global, fault: &ParamFault, capture: &[u8]) -> HintText {
    let all = flat(alloc, capture)?;
    match fault {
        ParamFault::BadElement { .. } => element_text(alloc, capture, all.as_slice()),
        ParamFault::TwoBankParameters => two_banks(alloc, capture, all.as_slice()),
        ParamFault::NoBankParameters => none_text(alloc, capture, all.as_slice(), BANK),
        ParamFault::NoPinParameters => none_text(alloc, capture, all.as_slice(), PINS),
        _ => Ok(None),
    }
}

/// What the refusal of a capture is about.
pub fn params_hint(alloc: Global, fault: &ParamFault, capture: &[u8]) -> HintText {
    if *fault == ParamFault::Memory {
        return Ok(None);
    }
    if let Some(text) = form_text(capture) {
        return say(alloc, text);
    }
    match fault {
        ParamFault::Syntax(fault) => syntax_text(alloc, fault, capture),
        _ => segments_hint(alloc, fault, capture),
    }
}
