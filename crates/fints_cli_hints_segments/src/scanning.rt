//! Where bytes cease to be a segment.
use fints_syntax::parse_number;
use fints_syntax_segments::MAX_ITEMS;

/// The element and the item, from 1 on, in which bytes cease to be a segment, or after which it ends.
#[derive(Clone, Copy)]
pub struct Stop<'a> {
    pub element: usize,
    pub item: usize,
    /// What is from the item on, and after how many bytes.
    pub rest: &'a [u8],
    pub at: usize,
    /// Whether as many items are before it as a segment may have.
    pub is_full: bool,
}

fn is_separator(byte: u8) -> bool {
    matches!(byte, b'+' | b':' | b'\'')
}

/// How many bytes the binary item has that bytes begin with, and what is after its second `@`.
pub fn binary_of(bytes: &[u8]) -> Option<(usize, &[u8])> {
    let tail = bytes.strip_prefix(b"@")?;
    let end = tail.iter().position(|b| *b == b'@')?;
    let len = parse_number(tail.get(..end)?)?;
    Some((len as usize, tail.get(end.saturating_add(1)..)?))
}

// How many bytes are before the separator after a text.
fn text_len(bytes: &[u8]) -> usize {
    let mut escaped = false;
    for (i, byte) in bytes.iter().enumerate() {
        if !escaped && is_separator(*byte) {
            return i;
        }
        escaped = !escaped && *byte == b'?';
    }
    bytes.len()
}

// The length of the item that bytes begin with, and the separator after it.
fn item_of(bytes: &[u8]) -> Option<(usize, u8)> {
    let len = match bytes {
        [b'@', ..] => {
            let (len, data) = binary_of(bytes)?;
            bytes.len().saturating_sub(data.len()).saturating_add(len)
        }
        _ => text_len(bytes),
    };
    let after = *bytes.get(len)?;
    if is_separator(after) {
        Some((len, after))
    } else {
        None
    }
}

/// Where the bytes cease to be a segment.
pub fn stop_of(bytes: &[u8]) -> Stop<'_> {
    let mut stop = Stop {
        element: 1,
        item: 1,
        rest: bytes,
        at: 0,
        is_full: false,
    };
    for _ in 0..MAX_ITEMS {
        let Some((len, after)) = item_of(stop.rest) else {
            return stop;
        };
        let end = len.saturating_add(1);
        stop.rest = stop.rest.get(end..).unwrap_or(&[]);
        stop.at = stop.at.saturating_add(end);
        match after {
            b'\'' => return stop,
            b'+' => {
                stop.element = stop.element.saturating_add(1);
                stop.item = 1;
            }
            _ => stop.item = stop.item.saturating_add(1),
        }
    }
    stop.is_full = true;
    stop
}
