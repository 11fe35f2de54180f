//! The segments of a capture or an answer, one after the other, without a list of them.
use fints_cli_hints_segments::data_in;
use fints_syntax::{SegmentView, parse_segment};

// The bytes after the line breaks at their front.
fn after_breaks(bytes: &[u8]) -> &[u8] {
    let breaks = bytes
        .iter()
        .position(|b| *b != b'\r' && *b != b'\n')
        .unwrap_or(bytes.len());
    bytes.get(breaks..).unwrap_or(&[])
}

// The segment at the front of the bytes, and the bytes after it.
fn split_first(bytes: &[u8]) -> Option<(SegmentView<'_>, &[u8])> {
    let bytes = after_breaks(bytes);
    let (view, len) = parse_segment(bytes).ok()?;
    Some((view, bytes.get(len..).unwrap_or(&[])))
}

/// The segments of bytes that were read before, in order; in the place of an HNVSD come those of its data.
#[derive(Clone, Copy)]
pub struct Walk<'a> {
    outer: &'a [u8],
    inner: &'a [u8],
}

impl<'a> Walk<'a> {
    pub fn over(bytes: &'a [u8]) -> Walk<'a> {
        Walk {
            outer: bytes,
            inner: &[],
        }
    }

    fn step_inside(&mut self) -> Option<SegmentView<'a>> {
        let (view, rest) = split_first(self.inner)?;
        self.inner = rest;
        Some(view)
    }

    /// The next one; none where they are all passed.
    pub fn step(&mut self) -> Option<SegmentView<'a>> {
        if let Some(view) = self.step_inside() {
            return Some(view);
        }
        let (view, rest) = split_first(self.outer)?;
        self.outer = rest;
        self.inner = data_in(&view).unwrap_or(&[]);
        match self.step_inside() {
            Some(first) => Some(first),
            None => Some(view),
        }
    }
}
