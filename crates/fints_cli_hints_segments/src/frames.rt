//! Segments that can't be at their place in a message.
use crate::syntax::{Rest, begin_of, named, trouble};
use fints_cli_hints_words::places::{HintText, say, written};
use fints_cli_hints_words::quoting::Sample;
use fints_rules_messages::{Inner, MessagePart, part_of};
use fints_syntax::{
    HNHBK_VERSION, HNHBS_VERSION, HNSHA_VERSION, HNSHK_VERSION, HNVSD_VERSION, HNVSK_NUMBER,
    HNVSK_VERSION, Kind, Memory, SegmentView, parse_number, parse_segment,
};
use std::alloc::Global;

fn frame_version(kind: Kind) -> Option<u16> {
    match kind.as_bytes() {
        b"HNHBK" => Some(HNHBK_VERSION),
        b"HNVSK" => Some(HNVSK_VERSION),
        b"HNSHK" => Some(HNSHK_VERSION),
        b"HNSHA" => Some(HNSHA_VERSION),
        b"HNVSD" => Some(HNVSD_VERSION),
        b"HNHBS" => Some(HNHBS_VERSION),
        _ => None,
    }
}

fn number_text(alloc: Global, view: &SegmentView<'_>, wanted: usize) -> Result<String, Memory> {
    let name = named(view);
    written(
        alloc,
        format_args!(
            "{name} must have the number {wanted}: segments are numbered 1, 2, 3 and so on"
        ),
    )
}

fn order_text(alloc: Global, view: &SegmentView<'_>, why: &str) -> Result<String, Memory> {
    let name = named(view);
    written(alloc, format_args!("{name} {why}"))
}

fn version_text(alloc: Global, view: &SegmentView<'_>, wanted: u16) -> Result<String, Memory> {
    let name = named(view);
    let version = view.version();
    written(
        alloc,
        format_args!("{name} has version {version}, and must have {wanted}"),
    )
}

// Why a segment of the frame can't be there.
fn frame_text(alloc: Global, view: &SegmentView<'_>) -> Result<String, Memory> {
    match frame_version(view.id()) {
        Some(wanted) if wanted != view.version() => version_text(alloc, view, wanted),
        _ if view.id().is(b"HNVSK") && view.number() != HNVSK_NUMBER => order_text(
            alloc,
            view,
            "can't be there: HNVSK has the number 998, and comes after HNHBK",
        ),
        _ => order_text(alloc, view, "can't be there, by the order of a message"),
    }
}

/// Why a segment can't follow inner segments.
pub fn order_slip(
    alloc: Global,
    view: &SegmentView<'_>,
    inner: &Inner<'_>,
) -> Result<String, Memory> {
    let wanted = inner.next_number();
    match part_of(view) {
        MessagePart::Other => frame_text(alloc, view),
        _ if usize::from(view.number()) != wanted => number_text(alloc, view, wanted),
        MessagePart::Opener => order_text(
            alloc,
            view,
            "must come before all other segments but HNHBK",
        ),
        MessagePart::Ender => order_text(
            alloc,
            view,
            "is one HNSHA too many: there are as many as there are HNSHK",
        ),
        MessagePart::Body => order_text(alloc, view, "can't come after HNSHA"),
    }
}

// What is wrong with the number of the message in HNHBS, if it isn't this one.
fn closing_text(alloc: Global, view: &SegmentView<'_>, number: u64) -> HintText {
    let segment = view.to_owned(alloc)?;
    let value = segment.value(2, 1);
    if parse_number(value).map(u64::from) == Some(number) {
        return Ok(None);
    }
    let shown = Sample(value);
    say(
        alloc,
        format_args!(
            "element 2 of HNHBS is {shown}, and must be {number}, the number of the message in HNHBK"
        ),
    )
}

fn counts_text(alloc: Global, inner: &Inner<'_>) -> Result<String, Memory> {
    let (openers, ends) = (inner.openers.len(), inner.ends.len());
    written(
        alloc,
        format_args!(
            "before HNHBS there are {openers} HNSHK and {ends} HNSHA; there must be as many of both"
        ),
    )
}

// Why a last segment, HNHBS version 1, is not in its place there.
fn last_slip(
    alloc: Global,
    view: &SegmentView<'_>,
    inner: &Inner<'_>,
    number: u64,
) -> Result<String, Memory> {
    let wanted = inner.next_number();
    match closing_text(alloc, view, number)? {
        Some(text) => Ok(text),
        None if usize::from(view.number()) != wanted => number_text(alloc, view, wanted),
        None => counts_text(alloc, inner),
    }
}

/// Why no segment can be read where this one must be.
pub fn unread_text(alloc: Global, rest: Rest<'_>, what: &str) -> Result<String, Memory> {
    if rest.bytes.is_empty() {
        return written(
            alloc,
            format_args!("the bytes end there, and {what} is missing"),
        );
    }
    let text = trouble(alloc, rest.bytes)?;
    let begin = begin_of(rest);
    written(
        alloc,
        format_args!("{what} must come there; {begin} there{text}"),
    )
}

// Why no segment of a message can be read after these inner segments.
fn unread_slip(alloc: Global, rest: Rest<'_>, inner: &Inner<'_>) -> Result<String, Memory> {
    if rest.bytes.is_empty() || inner.seal.is_some() {
        return unread_text(alloc, rest, "HNHBS");
    }
    let wanted = inner.next_number();
    let what = written(alloc, format_args!("segment {wanted}"))?;
    unread_text(alloc, rest, what.as_str())
}

// Why a segment can't follow inner segments as they are, or the HNVSD that has them in its data.
fn other_slip(alloc: Global, view: &SegmentView<'_>, inner: &Inner<'_>) -> Result<String, Memory> {
    if inner.seal.is_none() {
        return order_slip(alloc, view, inner);
    }
    let name = named(view);
    written(
        alloc,
        format_args!("after HNVSD must come HNHBS version 1, and this is {name}"),
    )
}

/// Why the front of bytes doesn't go on with inner segments of a message of this number, nor close it.
pub fn next_slip(
    alloc: Global,
    rest: Rest<'_>,
    inner: &Inner<'_>,
    number: u64,
) -> Result<String, Memory> {
    match parse_segment(rest.bytes) {
        Ok((view, _)) if view.is_named(b"HNHBS", HNHBS_VERSION) => {
            last_slip(alloc, &view, inner, number)
        }
        Ok((view, _)) => other_slip(alloc, &view, inner),
        Err(_) => unread_slip(alloc, rest, inner),
    }
}
