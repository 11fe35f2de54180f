//! Why bytes are no message.
use crate::forms::form_text;
use crate::frames::{next_slip, order_slip, unread_text};
use crate::syntax::{Begin, Rest, begin_of, is_break, named, rest_at, trouble, wrapped};
use fints_cli_hints_words::places::{HintText, say, written};
use fints_cli_hints_words::quoting::Sample;
use fints_rules_messages::{Inner, Slip, Unread, UnreadObserver};
use fints_syntax::{
    HNHBK_NUMBER, HNHBK_VERSION, HNVSD_NUMBER, HNVSD_VERSION, Memory, OwnedSegment, SegmentView,
    parse_segment,
};
use std::alloc::Global;

// The number that digits spell; more than twelve spell none.
fn size_of(text: &[u8]) -> Option<u64> {
    if text.len() != 12 || !text.iter().all(|b| b.is_ascii_digit()) {
        return None;
    }
    let mut size: u64 = 0;
    for digit in text {
        size = size
            .saturating_mul(10)
            .saturating_add(u64::from(digit.saturating_sub(b'0')));
    }
    Some(size)
}

fn size_text(alloc: Global, size: u64, bytes: &[u8]) -> Result<String, Memory> {
    let len = bytes.len();
    let breaks = bytes.iter().filter(|b| is_break(**b)).count();
    let ends_line = bytes.last() == Some(&b'\n');
    let last = match (ends_line, breaks) {
        (true, 1) => "; the last is a line feed",
        (_, 1..) if size.saturating_add(breaks as u64) == len as u64 => {
            ", as many more as there are line breaks in them: the log was wrapped; join its lines"
        }
        (true, _) => "; the last is a line feed",
        _ => "",
    };
    written(
        alloc,
        format_args!("HNHBK says {size} bytes, and there are {len}{last}"),
    )
}

fn value_text(alloc: Global, element: usize, value: &[u8], what: &str) -> Result<String, Memory> {
    let (shown, wrapped) = (Sample(value), wrapped(value));
    written(
        alloc,
        format_args!("element {element} of HNHBK is {shown}, and must be {what}{wrapped}"),
    )
}

fn head_slip(alloc: Global, segment: &OwnedSegment, bytes: &[u8]) -> Result<String, Memory> {
    let size = segment.value(2, 1);
    match size_of(size) {
        Some(size) if size != bytes.len() as u64 => size_text(alloc, size, bytes),
        Some(_) => value_text(
            alloc,
            5,
            segment.value(5, 1),
            "the number of the message, 1 to 9 digits",
        ),
        None => value_text(
            alloc,
            2,
            size,
            "the number of bytes of the message, in 12 digits",
        ),
    }
}

// Why the first segment is no HNHBK of this message.
fn first_slip(alloc: Global, view: &SegmentView<'_>, bytes: &[u8]) -> Result<String, Memory> {
    let name = named(view);
    let version = view.version();
    if !view.is_named(b"HNHBK", HNHBK_VERSION) {
        return written(
            alloc,
            format_args!(
                "a message begins with HNHBK version 3; these bytes begin with {name} version {version}"
            ),
        );
    }
    if view.number() != HNHBK_NUMBER {
        return written(alloc, format_args!("{name} must have the number 1"));
    }
    let segment = view.to_owned(alloc)?;
    head_slip(alloc, &segment, bytes)
}

fn no_segment(alloc: Global, bytes: &[u8]) -> Result<String, Memory> {
    if bytes.is_empty() {
        return written(alloc, "there are no bytes");
    }
    let text = trouble(alloc, bytes)?;
    let begin = begin_of(rest_at(bytes, 0));
    written(
        alloc,
        format_args!("a message begins with HNHBK; {begin} there{text}"),
    )
}

// Why bytes begin with no HNHBK of theirs.
fn start_text(alloc: Global, bytes: &[u8]) -> Result<String, Memory> {
    match parse_segment(bytes) {
        Ok((view, _)) => first_slip(alloc, &view, bytes),
        Err(_) => no_segment(alloc, bytes),
    }
}

fn left_text(alloc: Global, rest: Rest<'_>) -> Result<String, Memory> {
    let count = rest.bytes.len();
    match begin_of(rest) {
        Begin::Hidden => written(
            alloc,
            format_args!("after HNHBS, the last segment, come {count} more bytes"),
        ),
        begin => written(
            alloc,
            format_args!(
                "after HNHBS, the last segment, come {count} more bytes, which begin with {begin}"
            ),
        ),
    }
}

// Why what is left of the data of HNVSD goes on with no inner segment.
fn inner_slip(alloc: Global, rest: Rest<'_>, inner: &Inner<'_>) -> Result<String, Memory> {
    match parse_segment(rest.bytes) {
        Ok((view, _)) => order_slip(alloc, &view, inner),
        Err(_) => unread_text(alloc, rest, "a segment"),
    }
}

// Why the data of an HNVSD are no inner segments.
fn data_slip(alloc: Global, data: &[u8], inner: &Inner<'_>) -> Result<String, Memory> {
    let at = inner.at;
    let rest = rest_at(data, at);
    if rest.bytes.is_empty() {
        let (openers, ends) = (inner.openers.len(), inner.ends.len());
        return written(
            alloc,
            format_args!(
                "in the data of HNVSD there are {openers} HNSHK and {ends} HNSHA; there must be as many of both"
            ),
        );
    }
    let text = inner_slip(alloc, rest, inner)?;
    written(
        alloc,
        format_args!("in the data of HNVSD, at offset {at} of them, {text}"),
    )
}

// Why a segment after HNVSK is no HNVSD with data.
fn envelope_slip(alloc: Global, view: &SegmentView<'_>) -> Result<String, Memory> {
    let name = named(view);
    let version = view.version();
    if !view.is_named(b"HNVSD", HNVSD_VERSION) {
        return written(
            alloc,
            format_args!(
                "after HNVSK must come HNVSD version 1, and this is {name} version {version}"
            ),
        );
    }
    if view.number() != HNVSD_NUMBER {
        return written(alloc, format_args!("{name} must have the number 999"));
    }
    written(
        alloc,
        "element 2 of HNVSD must be a binary item: @length@ and the inner segments",
    )
}

fn no_envelope(alloc: Global, rest: Rest<'_>) -> Result<String, Memory> {
    match parse_segment(rest.bytes) {
        Ok((view, _)) => envelope_slip(alloc, &view),
        Err(_) => unread_text(alloc, rest, "HNVSD"),
    }
}

// Which part is missing where the bytes cease to be a message.
fn slip_text(alloc: Global, unread: &Unread<'_>, bytes: &[u8]) -> Result<String, Memory> {
    let rest = rest_at(bytes, unread.offset);
    match &unread.slip {
        Slip::First => start_text(alloc, bytes),
        Slip::Envelope => no_envelope(alloc, rest),
        Slip::Inside { data, inner } => data_slip(alloc, data, inner),
        Slip::Next { inner, number } => next_slip(alloc, rest, inner, *number),
        Slip::End => left_text(alloc, rest),
    }
}

/// Why bytes begin with no HNHBK of theirs.
pub fn front_hint(alloc: Global, bytes: &[u8]) -> HintText {
    match form_text(bytes) {
        Some(text) => say(alloc, text),
        None => Ok(Some(start_text(alloc, bytes)?)),
    }
}

// Why bytes are no message, where their reader found what is missing.
fn unread_hint(alloc: Global, bytes: &[u8], unread: &Unread<'_>) -> Result<String, Memory> {
    match form_text(bytes) {
        Some(text) => written(alloc, text),
        None => slip_text(alloc, unread, bytes),
    }
}

/// Looks on while messages are read, and says why bytes are none: what is where they cease to be one.
#[derive(Drop)]
pub struct UnreadHint {
    alloc: Global,
    wanted: bool,
    text: Option<String>,
}

impl UnreadHint {
    /// One that has seen nothing yet, and says nothing where no hint is wanted.
    pub fn new(alloc: Global, wanted: bool) -> UnreadHint {
        UnreadHint {
            alloc,
            wanted,
            text: None,
        }
    }

    /// What it says of the last bytes that were no message. None where there were none, or memory ran out.
    pub fn text(&self) -> Option<&str> {
        self.text.as_ref().map(|text| text.as_str())
    }

    /// The same, handed over.
    pub fn into_text(self) -> Option<String> {
        self.text
    }
}

impl UnreadObserver for UnreadHint {
    fn unread(&mut self, bytes: &[u8], unread: &Unread<'_>) {
        if self.wanted {
            self.text = unread_hint(self.alloc, bytes, unread).ok();
        }
    }
}
