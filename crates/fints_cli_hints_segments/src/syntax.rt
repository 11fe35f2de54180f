//! Segments that can't be read.
use crate::scanning::{Stop, binary_of, stop_of};
use fints_cli_hints_words::places::{HintText, line_at, say, written};
use fints_cli_hints_words::quoting::Sample;
use fints_syntax::{
    Kind, Memory, SegmentView, SyntaxKind, is_frame_kind, parse_number, parse_segment,
};
use fints_syntax_segments::MAX_BYTES;
use std::alloc::Global;
use std::fmt;
use std::fmt::{Display, Formatter, Write};

/// Bytes of an input: where they begin in it, and what they are in.
#[derive(Clone, Copy)]
pub struct Region<'a> {
    pub input: &'a [u8],
    pub bytes: &'a [u8],
    pub base: usize,
    /// Empty, or a remark that the bytes are the data of an HNVSD.
    pub within: &'static str,
}

/// The whole of an input.
pub fn whole(input: &[u8]) -> Region<'_> {
    Region {
        input,
        bytes: input,
        base: 0,
        within: "",
    }
}

// What is said of a segment that has a line end in it.
const WRAPPED: &str = "; a line break is inside this segment: the log was wrapped; join its lines";

/// Whether a line ends with the byte.
pub fn is_break(byte: u8) -> bool {
    byte == b'\r' || byte == b'\n'
}

/// That a line ends in these bytes of a segment, if one does.
pub fn wrapped(bytes: &[u8]) -> &'static str {
    if bytes.iter().any(|b| is_break(*b)) {
        WRAPPED
    } else {
        ""
    }
}

// That a line ends in the bytes of a segment with a binary item, if one does: it may belong to the data.
fn wrapped_data(bytes: &[u8]) -> &'static str {
    if bytes.iter().any(|b| is_break(*b)) {
        "; a line break is inside this segment: where the log was wrapped, join its lines"
    } else {
        ""
    }
}

/// The remark on segments in the data of an HNVSD.
pub const IN_DATA: &str = " (in the data of HNVSD)";

// How many line breaks are at the front.
fn breaks_len(bytes: &[u8]) -> usize {
    match bytes.iter().position(|b| !is_break(*b)) {
        Some(len) => len,
        None => bytes.len(),
    }
}

// Where the next segment starts, at the place or after line breaks.
fn skip_breaks(bytes: &[u8], at: usize) -> usize {
    at.saturating_add(breaks_len(bytes.get(at..).unwrap_or(&[])))
}

/// Where the first segment starts that can't be read.
pub fn bad_start(bytes: &[u8]) -> Option<usize> {
    let mut start = skip_breaks(bytes, 0);
    for _ in 0..bytes.len() {
        if start >= bytes.len() {
            return None;
        }
        match parse_segment(bytes.get(start..)?) {
            Ok((_, len)) => start = skip_breaks(bytes, start.saturating_add(len)),
            Err(_) => return Some(start),
        }
    }
    None
}

fn is_mark(byte: u8) -> bool {
    matches!(byte, b':' | b'+' | b'\'')
}

// The bytes to the first mark, and those after it.
fn first_word(bytes: &[u8]) -> (&[u8], &[u8]) {
    match bytes.iter().position(|b| is_mark(*b)) {
        Some(end) => (
            bytes.get(..end).unwrap_or(&[]),
            bytes.get(end.saturating_add(1)..).unwrap_or(&[]),
        ),
        None => (bytes, &[]),
    }
}

/// The number and the identifier of a segment.
#[derive(Clone, Copy)]
pub struct Numbered {
    pub number: u32,
    pub id: Kind,
}

impl Display for Numbered {
    fn fmt<W: Write>(&self, f: &mut Formatter<W>) -> fmt::Result {
        let number = self.number;
        let id = std::str::from_utf8(self.id.as_bytes()).unwrap_or("");
        write!(f, "segment {number} ({id})")
    }
}

/// The segment by its number and identifier.
pub fn named(view: &SegmentView<'_>) -> Numbered {
    Numbered {
        number: u32::from(view.number()),
        id: view.id(),
    }
}

// The bytes of a head: all before the second element.
fn head_bytes(bytes: &[u8]) -> &[u8] {
    match bytes.iter().position(|b| *b == b'+' || *b == b'\'') {
        Some(end) => bytes.get(..end).unwrap_or(&[]),
        None => bytes,
    }
}

// The bytes of the longest head, and of an apostrophe after it.
const LONGEST_HEAD: usize = 19;

// The segment of a head, where it is one as soon as the lines that end in it are joined.
fn joined_name(head: &[u8]) -> Option<Numbered> {
    let mut joined = [b'\''; LONGEST_HEAD];
    let mut len: usize = 0;
    for byte in head.iter().filter(|b| !is_break(**b)) {
        match joined.get_mut(len) {
            Some(place) => *place = *byte,
            None => return None,
        }
        len = len.saturating_add(1);
    }
    let end = len.saturating_add(1);
    match parse_segment(joined.get(..end).unwrap_or(&[])) {
        Ok((view, _)) => Some(named(&view)),
        Err(_) => None,
    }
}

// The segment that bytes begin with, where its head is there whole and can be read.
fn name_of(bytes: &[u8]) -> Option<Numbered> {
    let head = head_bytes(bytes);
    if head.len() == bytes.len() || head.iter().any(|b| is_break(*b)) {
        return None;
    }
    joined_name(head)
}

/// The head that bytes begin with, where it can be read.
pub fn head_of(bytes: &[u8]) -> Option<&[u8]> {
    match name_of(bytes) {
        Some(_) => Some(head_bytes(bytes)),
        None => None,
    }
}

/// Bytes that begin where a segment is due, and the bytes of the message or capture before them.
#[derive(Clone, Copy)]
pub struct Rest<'a> {
    pub front: &'a [u8],
    pub bytes: &'a [u8],
}

/// The bytes from an offset on.
pub fn rest_at(bytes: &[u8], offset: usize) -> Rest<'_> {
    let (front, bytes) = bytes.split_at(offset.min(bytes.len()));
    Rest { front, bytes }
}

// Whether a segment with PIN, TAN or new PIN begins there.
fn begins_secret(bytes: &[u8]) -> bool {
    bytes.starts_with(b"HNSHA:") || bytes.starts_with(b"HKPAE:")
}

impl Rest<'_> {
    // Whether the bytes may be the rest of a PIN, a TAN or a new PIN.
    fn follows_secret(self) -> bool {
        (0..self.front.len()).any(|at| begins_secret(self.front.get(at..).unwrap_or(&[])))
    }
}

/// A segment by what may be printed of its bytes. Where its head can't be read they may be the rest of a PIN
/// or a TAN in which an apostrophe isn't escaped: then at most an identifier is printed.
#[derive(Clone, Copy)]
pub enum Begin<'a> {
    Numbered(Numbered),
    /// An identifier of 2 to 6 capitals, before a colon. After a segment with a secret it is one of the frame.
    Id(&'a [u8]),
    Hidden,
}

fn is_identifier(word: &[u8]) -> bool {
    (2..=6).contains(&word.len()) && word.iter().all(|b| b.is_ascii_uppercase())
}

/// What may be printed of the segment that the bytes begin with.
pub fn begin_of(rest: Rest<'_>) -> Begin<'_> {
    let bytes = rest.bytes;
    let (id, _) = first_word(bytes);
    match name_of(bytes) {
        Some(name) => Begin::Numbered(name),
        None if !is_identifier(id) || bytes.get(id.len()) != Some(&b':') => Begin::Hidden,
        None if !is_frame_kind(id) && rest.follows_secret() => Begin::Hidden,
        None => Begin::Id(id),
    }
}

// The place follows: ` in line 2`, or ` there`.
impl Display for Begin<'_> {
    fn fmt<W: Write>(&self, f: &mut Formatter<W>) -> fmt::Result {
        match *self {
            Begin::Numbered(name) => name.fmt(f),
            Begin::Id(id) => {
                let id = Sample(id);
                write!(f, "a segment {id}")
            }
            Begin::Hidden => f.write_str("what is"),
        }
    }
}

// The length of a binary item that bytes begin with, and what is after its second @, where that may be
// said of the segment: a PIN or a TAN may begin so.
fn data_told<'a>(segment: &[u8], bytes: &'a [u8]) -> Option<(usize, &'a [u8])> {
    match name_of(segment) {
        Some(name) if !name.id.is(b"HNSHA") && !name.id.is(b"HKPAE") => binary_of(bytes),
        _ => None,
    }
}

// What is in an item where the bytes of a segment end.
fn cut_text(alloc: Global, bytes: &[u8], stop: &Stop<'_>) -> Result<String, Memory> {
    let (element, item) = (stop.element, stop.item);
    match data_told(bytes, stop.rest) {
        Some((len, data)) => {
            let there = data.len();
            written(
                alloc,
                format_args!(
                    " has no end: the bytes stop in element {element}, item {item}, a binary item of {len} bytes, and {there} are there"
                ),
            )
        }
        None => written(
            alloc,
            format_args!(" has no end: the bytes stop in element {element}, item {item}"),
        ),
    }
}

// A line break up to where an item was looked at: the bytes that a binary item says that it has, and its
// length, or the first ones after an @.
fn wrapped_before_stop(bytes: &[u8], stop: &Stop<'_>) -> &'static str {
    let len = binary_of(stop.rest).map_or(0, |(len, _)| len);
    let seen = stop.at.saturating_add(len).saturating_add(12);
    wrapped_data(bytes.get(..seen).unwrap_or(bytes))
}

fn binary_text(alloc: Global, bytes: &[u8], stop: &Stop<'_>) -> Result<String, Memory> {
    let (element, item) = (stop.element, stop.item);
    let wrapped = wrapped_before_stop(bytes, stop);
    match data_told(bytes, stop.rest) {
        Some((len, _)) => written(
            alloc,
            format_args!(
                ", element {element}, item {item}: after the {len} bytes of a binary item comes none of + : '; the length is wrong, or the bytes were changed{wrapped}"
            ),
        ),
        None => written(
            alloc,
            format_args!(
                ", element {element}, item {item}: an @ begins a binary item, written @length@ and as many bytes; a text that begins with @ is written ?@{wrapped}"
            ),
        ),
    }
}

fn long_text(alloc: Global, stop: &Stop<'_>) -> Result<String, Memory> {
    if stop.is_full {
        written(alloc, " has 20000 items or more")
    } else {
        written(alloc, format_args!(" has no end within {MAX_BYTES} bytes"))
    }
}

fn is_number(text: &[u8]) -> bool {
    text.len() <= 3 && parse_number(text).is_some()
}

fn parts_cause(id: &[u8], number: &[u8], version: &[u8]) -> &'static str {
    if Kind::parse(id).is_none() {
        return "its identifier must have 1 to 6 characters A to Z and 0 to 9";
    }
    if !is_number(number) {
        return "its number must have 1 to 3 digits";
    }
    if !is_number(version) {
        return "its version must have 1 to 3 digits";
    }
    "after the version may come a reference of 1 to 3 digits, and nothing else"
}

fn head_cause(head: &[u8]) -> &'static str {
    if head.contains(&b'?') || head.contains(&b'@') {
        return "it must be identifier:number:version, or that with :reference after it";
    }
    let colons = head.iter().filter(|b| **b == b':').count();
    if colons < 2 {
        return "it must have an identifier, a number and a version, with : between";
    }
    let (id, rest) = first_word(head);
    let (number, rest) = first_word(rest);
    let (version, _) = first_word(rest);
    parts_cause(id, number, version)
}

// That the bytes, which are no head, are one as soon as the lines that end in them are joined.
fn wrapped_head(head: &[u8]) -> &'static str {
    match joined_name(head) {
        Some(_) => WRAPPED,
        None => "",
    }
}

fn head_text(alloc: Global, bytes: &[u8]) -> Result<String, Memory> {
    let head = head_bytes(bytes);
    let cause = head_cause(head);
    let wrapped = wrapped_head(head);
    written(alloc, format_args!(" has a bad head: {cause}{wrapped}"))
}

/// Why no segment can be read at the front of the bytes, after what names it.
pub fn trouble(alloc: Global, bytes: &[u8]) -> Result<String, Memory> {
    let window = bytes.get(..MAX_BYTES).unwrap_or(bytes);
    let stop = stop_of(window);
    match parse_segment(bytes) {
        Ok(_) => Ok(String::new(alloc)),
        Err(fault) => match fault.kind {
            SyntaxKind::BadBinary => binary_text(alloc, window, &stop),
            SyntaxKind::TooLong => long_text(alloc, &stop),
            SyntaxKind::BadHead => head_text(alloc, window),
            _ => cut_text(alloc, window, &stop),
        },
    }
}

// Whether a line ends inside a segment before a place, up to which all can be read.
fn is_wrapped_before(bytes: &[u8], place: usize) -> bool {
    let mut start = skip_breaks(bytes, 0);
    for _ in 0..bytes.len() {
        match parse_segment(bytes.get(start..place).unwrap_or(&[])) {
            Ok((_, len)) => {
                let end = start.saturating_add(len);
                if bytes
                    .get(start..end)
                    .unwrap_or(&[])
                    .iter()
                    .any(|b| is_break(*b))
                {
                    return true;
                }
                start = skip_breaks(bytes, end);
            }
            Err(_) => return false,
        }
    }
    false
}

// What is said of bytes that begin with no head, where lines that were broken in the data of a segment
// before have moved its end.
fn wrapped_before(region: &Region<'_>, start: usize) -> &'static str {
    match region.bytes.get(start) {
        Some(first) if is_mark(*first) && is_wrapped_before(region.bytes, start) => {
            "; a line break is inside an earlier segment: where the log was wrapped, join its lines"
        }
        _ => "",
    }
}

/// Why no segment can be read at a place of a region.
pub fn trouble_at(alloc: Global, region: &Region<'_>, start: usize) -> HintText {
    let rest = rest_at(region.bytes, start);
    let line = line_at(region.input, region.base.saturating_add(start));
    let begin = begin_of(rest);
    let within = region.within;
    let text = trouble(alloc, rest.bytes)?;
    let wrapped = wrapped_before(region, start);
    say(
        alloc,
        format_args!("{begin} in line {line}{within}{text}{wrapped}"),
    )
}
