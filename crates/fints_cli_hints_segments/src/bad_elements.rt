//! Elements of a capture that can't be read.
use crate::syntax::wrapped;
use fints_cli_hints_words::quoting::Sample;
use fints_params::Code;
use fints_syntax::{
    ElementRef, HNVSD_VERSION, Item, Memory, OwnedSegment, Placed, SegmentView, parse_number,
    parse_placed,
};
use std::alloc::Global;
use std::fmt;
use std::fmt::{Display, Formatter, Write};

/// A segment of a capture, with its offset; whether it is in the data of an HNVSD.
#[derive(Drop)]
pub struct CaptureSegment {
    pub offset: usize,
    pub inner: bool,
    pub segment: OwnedSegment,
}

/// The data of an HNVSD, and where they begin in the capture.
#[derive(Clone, Copy)]
pub struct Data<'a> {
    pub bytes: &'a [u8],
    pub base: usize,
}

/// The bytes in the data of an HNVSD version 1.
pub fn data_in<'a>(view: &SegmentView<'a>) -> Option<&'a [u8]> {
    if !view.is_named(b"HNVSD", HNVSD_VERSION) {
        return None;
    }
    match view.item(2, 1) {
        Some(Item::Bin(bytes)) => Some(bytes),
        _ => None,
    }
}

/// The same, with the place where they begin.
pub fn data_of<'a>(placed: &Placed<'a>) -> Option<Data<'a>> {
    let view = &placed.segment;
    let bytes = data_in(view)?;
    let start = view.item_start(2, 1)?;
    Some(Data {
        bytes,
        base: placed.start.saturating_add(start),
    })
}

fn push_found(
    alloc: Global,
    all: &mut Vec<CaptureSegment>,
    base: usize,
    inner: bool,
    placed: &Placed<'_>,
) -> Result<(), Memory> {
    let segment = placed.segment.to_owned(alloc)?;
    all.push(CaptureSegment {
        offset: base.saturating_add(placed.start),
        inner,
        segment,
    })?;
    Ok(())
}

// Adds the segments of data; none where they can't be read.
fn push_data(alloc: Global, all: &mut Vec<CaptureSegment>, data: Data<'_>) -> Result<(), Memory> {
    if let Ok(inner) = parse_placed(alloc, data.bytes) {
        for placed in inner.iter() {
            push_found(alloc, all, data.base, true, placed)?;
        }
    }
    Ok(())
}

fn push_placed(
    alloc: Global,
    all: &mut Vec<CaptureSegment>,
    placed: &Placed<'_>,
) -> Result<(), Memory> {
    match data_of(placed) {
        Some(data) => push_data(alloc, all, data),
        None => push_found(alloc, all, 0, false, placed),
    }
}

/// The segments of a capture, an HNVSD version 1 replaced by those of its data.
pub fn flat(alloc: Global, capture: &[u8]) -> Result<Vec<CaptureSegment>, Memory> {
    let mut all = Vec::new(alloc);
    if let Ok(outer) = parse_placed(alloc, capture) {
        for placed in outer.iter() {
            push_placed(alloc, &mut all, placed)?;
        }
    }
    Ok(all)
}

/// What must be in an element or an item.
#[derive(Clone, Copy)]
enum Expected<'a> {
    /// What the words say.
    Words(&'static str),
    /// Whether orders of this kind need a TAN.
    Flag(&'a [u8]),
}

impl Display for Expected<'_> {
    fn fmt<W: Write>(&self, f: &mut Formatter<W>) -> fmt::Result {
        match *self {
            Expected::Words(words) => f.write_str(words),
            Expected::Flag(kind) => {
                let kind = Sample(kind);
                write!(f, "J or N: whether {kind} needs a TAN")
            }
        }
    }
}

/// An element that can't be read, or an item of it: its value, and what must be there.
#[derive(Clone, Copy)]
pub struct BadElement<'a> {
    element: usize,
    item: Option<usize>,
    value: &'a [u8],
    wanted: Expected<'a>,
}

impl Display for BadElement<'_> {
    fn fmt<W: Write>(&self, f: &mut Formatter<W>) -> fmt::Result {
        let BadElement {
            element,
            item,
            value,
            wanted,
        } = *self;
        let (shown, wrapped) = (Sample(value), wrapped(value));
        match item {
            Some(item) => write!(
                f,
                "element {element}, item {item} is {shown}, and must be {wanted}{wrapped}"
            ),
            None => write!(
                f,
                "element {element} is {shown}, and must be {wanted}{wrapped}"
            ),
        }
    }
}

/// An element that must be what the words say.
pub fn bad_element<'a>(element: usize, value: &'a [u8], words: &'static str) -> BadElement<'a> {
    BadElement {
        element,
        item: None,
        value,
        wanted: Expected::Words(words),
    }
}

/// Whether the bytes spell a number.
pub fn is_number(text: &[u8]) -> bool {
    parse_number(text).is_some()
}

fn is_number_or_empty(text: &[u8]) -> bool {
    text.is_empty() || is_number(text)
}

/// An item that must be what the words say.
pub fn bad_item<'a>(
    element: usize,
    item: usize,
    value: &'a [u8],
    words: &'static str,
) -> BadElement<'a> {
    BadElement {
        element,
        item: Some(item),
        value,
        wanted: Expected::Words(words),
    }
}

fn bad_protocol<'a>(items: &ElementRef<'a>) -> Option<BadElement<'a>> {
    for i in 0..items.len() {
        let item = i + 1;
        let value = items.value(item);
        if !is_number_or_empty(value) {
            let words = "a number of 1 to 9 digits, a protocol version";
            return Some(bad_item(7, item, value, words));
        }
    }
    None
}

fn bad_bank(segment: &OwnedSegment) -> Option<BadElement<'_>> {
    let (kinds, kilobytes) = (segment.value(5, 1), segment.value(8, 1));
    if !is_number(kinds) {
        let words = "a number of 1 to 9 digits, the most kinds of orders in a message";
        return Some(bad_element(5, kinds, words));
    }
    let protocol = bad_protocol(&segment.items(7));
    if protocol.is_some() || is_number_or_empty(kilobytes) {
        return protocol;
    }
    let words = "a number of 1 to 9 digits or empty, the most kilobytes of a message";
    Some(bad_element(8, kilobytes, words))
}

fn bad_usage(segment: &OwnedSegment) -> Option<BadElement<'_>> {
    let value = segment.value(4, 1);
    match parse_number(value) {
        Some(0) | Some(1) => None,
        _ => Some(bad_element(
            4,
            value,
            "0 or 1, whether orders that aren't listed are locked",
        )),
    }
}

fn is_good_pair(kind: &[u8], flag: &[u8]) -> bool {
    kind.is_empty() && flag.is_empty() || flag == b"J".as_slice() || flag == b"N".as_slice()
}

fn bad_pin<'a>(items: &ElementRef<'a>) -> Option<BadElement<'a>> {
    let mut place: usize = 5;
    for _ in 0..items.len() {
        if place >= items.len() {
            return None;
        }
        let kind = items.value(place + 1);
        let flag = items.value((place + 1).saturating_add(1));
        if !is_good_pair(kind, flag) {
            return Some(BadElement {
                element: 5,
                item: Some(place.saturating_add(2)),
                value: flag,
                wanted: Expected::Flag(kind),
            });
        }
        place = place.saturating_add(2);
    }
    None
}

// The first element that can't be read of a segment with parameters.
fn bad_params(found: &CaptureSegment) -> Option<BadElement<'_>> {
    let segment = &found.segment;
    if segment.is_named(b"HIBPA", 3) {
        return bad_bank(segment);
    }
    if segment.is_named(b"HIUPA", 4) {
        return bad_usage(segment);
    }
    if segment.is_named(b"HIPINS", 1) {
        return bad_pin(&segment.items(5));
    }
    if segment.is_named(b"HNVSD", HNVSD_VERSION) && !found.inner {
        let words = "a binary item, @length@ and as many bytes";
        return Some(bad_element(2, segment.value(2, 1), words));
    }
    None
}

fn is_no_code(text: &[u8]) -> bool {
    !text.is_empty() && Code::parse(text).is_none()
}

// The first element of feedback that begins with no code.
fn bad_feedback(found: &CaptureSegment) -> Option<BadElement<'_>> {
    let segment = &found.segment;
    if !segment.is_named(b"HIRMG", 2) && !segment.is_named(b"HIRMS", 2) {
        return None;
    }
    for i in 0..segment.elements.len() {
        let value = segment.elements.items(i).value(1);
        if is_no_code(value) {
            let element = i.saturating_add(2);
            return Some(bad_item(element, 1, value, "a code of four digits"));
        }
    }
    None
}

/// A segment with the first of its elements that can't be read.
#[derive(Clone, Copy)]
pub struct BadSegment<'a> {
    pub found: &'a CaptureSegment,
    pub element: BadElement<'a>,
}

fn first_bad_feedback(all: &[CaptureSegment]) -> Option<BadSegment<'_>> {
    for found in all {
        if let Some(element) = bad_feedback(found) {
            return Some(BadSegment { found, element });
        }
    }
    None
}

/// The first segment with an element that can't be read, as parameters, or else as feedback.
pub fn first_bad_segment(all: &[CaptureSegment]) -> Option<BadSegment<'_>> {
    for found in all {
        if let Some(element) = bad_params(found) {
            return Some(BadSegment { found, element });
        }
    }
    first_bad_feedback(all)
}
