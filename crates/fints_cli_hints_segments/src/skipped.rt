//! What is skipped of a capture that can be read, and why.
use crate::bad_elements::{BadElement, CaptureSegment, bad_element, bad_item, flat, is_number};
use crate::captures::InLine;
use crate::syntax::{Numbered, is_break};
use fints_cli_hints_words::places::{HintText, written};
use fints_syntax::{ElementRef, ItemRef, Kind, Memory, OwnedSegment};
use std::alloc::Global;

// Whether a line ends inside the segment.
fn has_break(segment: &OwnedSegment) -> bool {
    for i in 0..segment.elements.len() {
        let items = segment.elements.items(i);
        for item in 1..items.len().saturating_add(1) {
            if items.value(item).iter().any(|b| is_break(*b)) {
                return true;
            }
        }
    }
    false
}

// Whether the segment has parameters other than those of an order.
fn says_more(segment: &OwnedSegment) -> bool {
    segment.is_named(b"HIBPA", 3)
        || segment.is_named(b"HIPINS", 1)
        || segment.is_named(b"HIUPA", 4)
        || segment.is_named(b"HIUPD", 6)
}

// Whether the segment says what a bank allows of a kind of orders: HISALS, DIKAZS and so on.
fn says_order(segment: &OwnedSegment) -> bool {
    match segment.head.id.as_bytes() {
        [b'H', b'I', .., b'S'] | [b'D', b'I', .., b'S'] => {
            segment.head.id.as_bytes().len() == 6 && !segment.head.id.is(b"HIPINS")
        }
        _ => false,
    }
}

// The element for which a parameter segment is skipped.
fn bad_limit(segment: &OwnedSegment) -> Option<BadElement<'_>> {
    let (orders, signatures) = (segment.value(2, 1), segment.value(3, 1));
    if !is_number(orders) {
        let words = "a number of 1 to 9 digits, the most such orders in a message";
        return Some(bad_element(2, orders, words));
    }
    if !is_number(signatures) {
        let words = "a number of 1 to 9 digits, the least number of signatures";
        return Some(bad_element(3, signatures, words));
    }
    None
}

fn is_order_name(text: &[u8]) -> bool {
    (text.len() == 5 || text.len() == 6) && Kind::parse(text).is_some()
}

fn is_blank(items: &ElementRef<'_>) -> bool {
    match items.get(1) {
        Some(ItemRef::Text(text)) => items.len() == 1 && text.is_empty(),
        _ => false,
    }
}

// Why an element of an account is no entry.
fn bad_entry<'a>(element: usize, items: &ElementRef<'a>) -> Option<BadElement<'a>> {
    let (kind, signatures) = (items.value(1), items.value(2));
    if is_blank(items) {
        return None;
    }
    if !is_order_name(kind) {
        let words = "the identifier of an order, of 5 or 6 characters, in an entry";
        return Some(bad_item(element, 1, kind, words));
    }
    if !is_number(signatures) {
        let words = "a number of 1 to 9 digits, the signatures that the order needs";
        return Some(bad_item(element, 2, signatures, words));
    }
    None
}

fn add_note(
    text: &mut String,
    alloc: Global,
    place: &InLine,
    element: &BadElement<'_>,
    what: &str,
) -> Result<(), Memory> {
    let note = written(
        alloc,
        format_args!("note: {place}: {what} is skipped: {element}\n"),
    )?;
    text.push_str(note.as_str())?;
    Ok(())
}

// Adds a note for each entry of an account that is skipped: they begin with element 11, and after them an
// extension may come.
fn add_entries(
    text: &mut String,
    alloc: Global,
    place: &InLine,
    segment: &OwnedSegment,
) -> Result<(), Memory> {
    for i in 9..segment.elements.len() {
        let element = i.saturating_add(2);
        let what = if element > segment.elements.len() {
            "the last element, an extension or an entry,"
        } else {
            "an entry"
        };
        if let Some(bad) = bad_entry(element, &segment.elements.items(i)) {
            add_note(text, alloc, place, &bad, what)?;
        }
    }
    Ok(())
}

// Adds that a line ends inside the segment.
fn add_break(text: &mut String, alloc: Global, place: &InLine) -> Result<(), Memory> {
    let note = written(
        alloc,
        format_args!(
            "note: {place}: a line break is inside this segment: where the log was wrapped, join its lines\n"
        ),
    )?;
    text.push_str(note.as_str())?;
    Ok(())
}

fn add_segment(
    text: &mut String,
    alloc: Global,
    place: &InLine,
    segment: &OwnedSegment,
) -> Result<(), Memory> {
    if (says_order(segment) || says_more(segment)) && has_break(segment) {
        add_break(text, alloc, place)?;
    }
    if segment.is_named(b"HIUPD", 6) {
        return add_entries(text, alloc, place, segment);
    }
    if !says_order(segment) {
        return Ok(());
    }
    match bad_limit(segment) {
        Some(element) => add_note(text, alloc, place, &element, "the segment"),
        None => Ok(()),
    }
}

// How many lines end in the bytes from one offset to another.
fn breaks_between(capture: &[u8], from: usize, to: usize) -> usize {
    let bytes = capture.get(from..to).unwrap_or(&[]);
    bytes.iter().filter(|b| **b == b'\n').count()
}

fn place_of(found: &CaptureSegment, line: usize) -> InLine {
    let head = &found.segment.head;
    InLine {
        name: Numbered {
            number: u32::from(head.number),
            id: head.id,
        },
        line,
    }
}

/// A parameter segment of a capture that is skipped.
#[derive(Clone, Copy)]
pub struct Skipped {
    pub id: Kind,
    pub version: u16,
}

/// The parameter segments of a capture that are skipped.
pub fn skipped_segments(alloc: Global, capture: &[u8]) -> Result<Vec<Skipped>, Memory> {
    let all = flat(alloc, capture)?;
    let mut skipped: Vec<Skipped> = Vec::new(alloc);
    for found in all.as_slice() {
        let segment = &found.segment;
        if says_order(segment) && bad_limit(segment).is_some() {
            skipped.push(Skipped {
                id: segment.head.id,
                version: segment.head.version,
            })?;
        }
    }
    Ok(skipped)
}

/// A line for each parameter segment, and each entry of an account, that is skipped: which element can't
/// be read; and one for each segment that is read and has a line end in it. None where there
/// is no such.
pub fn skipped_notes(alloc: Global, capture: &[u8]) -> HintText {
    let all = flat(alloc, capture)?;
    let mut text = String::new(alloc);
    let mut at: usize = 0;
    let mut line: usize = 1;
    for found in all.as_slice() {
        line = line.saturating_add(breaks_between(capture, at, found.offset));
        at = found.offset;
        add_segment(&mut text, alloc, &place_of(found, line), &found.segment)?;
    }
    if text.is_empty() {
        return Ok(None);
    }
    Ok(Some(text))
}
