//! Why a message that begins in a file is lost. Nothing is shown of what is there, since it may be a PIN or a TAN.
use fints_cli_hints_words::places::{HintText, line_at, say};
use std::alloc::Global;

// What a message begins with; its size follows.
const FRONT: &[u8] = b"HNHBK:1:3+";

// What its last segment begins with.
const END: &[u8] = b"HNHBS:";

// Where a text begins in bytes after the first one.
fn next_place(bytes: &[u8], text: &[u8]) -> Option<usize> {
    for at in 1..bytes.len() {
        if bytes.get(at..).unwrap_or(&[]).starts_with(text) {
            return Some(at);
        }
    }
    None
}

// Where the HNHBS of a message ends, if it has one.
fn end_of(bytes: &[u8]) -> Option<usize> {
    let start = next_place(bytes, END)?;
    let rest = bytes.get(start..).unwrap_or(&[]);
    let len = rest.iter().position(|b| *b == b'\'')?;
    Some(start + len + 1)
}

// The size that HNHBK says.
fn size_of(bytes: &[u8]) -> u64 {
    let digits = bytes.get(FRONT.len()..).unwrap_or(&[]);
    let mut size: u64 = 0;
    for digit in digits.get(..12).unwrap_or(&[]) {
        let digit = u64::from(digit.saturating_sub(b'0'));
        size = size.saturating_mul(10).saturating_add(digit);
    }
    size
}

// Whether a message has as many bytes too many as there are line breaks in it.
fn is_wrapped(bytes: &[u8], size: u64) -> bool {
    let breaks = bytes
        .iter()
        .filter(|b| **b == b'\r' || **b == b'\n')
        .count();
    breaks > 0 && size.saturating_add(breaks as u64) == bytes.len() as u64
}

// Why no message comes of an HNHBK.
fn plain_hint(alloc: Global, line: usize, bytes: &[u8]) -> HintText {
    let (own, next) = match next_place(bytes, FRONT) {
        Some(len) => (bytes.get(..len).unwrap_or(&[]), "the next HNHBK"),
        None => (bytes, "the end of the file"),
    };
    let size = size_of(bytes);
    match end_of(own) {
        Some(len) if len as u64 == size => say(
            alloc,
            format_args!(
                "line {line}: its HNHBS has another version than 1, or its numbers are no numbers"
            ),
        ),
        Some(len) if is_wrapped(own.get(..len).unwrap_or(&[]), size) => say(
            alloc,
            format_args!(
                "line {line}: HNHBK says {size} bytes, and its HNHBS ends after {len}, as many more as there are line breaks in them: the log was wrapped; join its lines"
            ),
        ),
        Some(len) => say(
            alloc,
            format_args!(
                "line {line}: HNHBK says {size} bytes, and its HNHBS ends after {len}: whoever wrote the file changed it (an HNVSD was opened, or a PIN was masked by another number of characters)"
            ),
        ),
        None => say(
            alloc,
            format_args!(
                "line {line}: HNHBK says {size} bytes, and no HNHBS ends it before {next}: it was cut off"
            ),
        ),
    }
}

/// Why the message that begins at an offset of a file is lost.
pub fn lost_hint(alloc: Global, file: &[u8], offset: usize) -> HintText {
    let line = line_at(file, offset);
    let bytes = file.get(offset..).unwrap_or(&[]);
    if bytes.starts_with(FRONT) {
        return plain_hint(alloc, line, bytes);
    }
    say(
        alloc,
        format_args!(
            "line {line}: the base64 begins as a message does, and no whole one comes of it: it was cut off or changed"
        ),
    )
}
