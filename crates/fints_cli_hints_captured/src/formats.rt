//! The formats of SEPA orders: `pain.001.001.03`, as it is in a longer name.
use crate::sent::Segment;

/// How many bytes a format has.
const LEN: usize = 15;

/// A format, as it is compared.
pub type Format = [u8; 15];

// The bytes of a format but for its digits.
const SHAPE: &[u8] = b"pain.ddd.ddd.dd";

fn fits(byte: u8, shape: u8) -> bool {
    if shape == b'd' {
        byte.is_ascii_digit()
    } else {
        byte == shape
    }
}

fn is_format(bytes: &[u8]) -> bool {
    bytes.len() == LEN && bytes.iter().zip(SHAPE.iter()).all(|(b, s)| fits(*b, *s))
}

fn copied(bytes: &[u8]) -> Format {
    let mut format = [0; 15];
    for (i, byte) in bytes.iter().enumerate() {
        if let Some(place) = format.get_mut(i) {
            *place = *byte;
        }
    }
    format
}

/// The bytes of a format.
pub fn bytes_of(format: &Format) -> &[u8] {
    format.as_slice()
}

/// The first format in a value; none where there is none.
pub fn format_in(value: &[u8]) -> Option<Format> {
    for start in 0..value.len() {
        let bytes = value.get(start..start.saturating_add(LEN)).unwrap_or(&[]);
        if is_format(bytes) {
            return Some(copied(bytes));
        }
    }
    None
}

/// The element in which a SEPA order names its format; none for another order, or in another version.
pub fn format_element(order: &Segment<'_>) -> Option<usize> {
    if order.version() != 1 {
        return None;
    }
    let id = order.kind();
    let one = [
        b"HKCCS", b"HKIPZ", b"HKCUM", b"HKDSE", b"HKDSC", b"HKBSE", b"HKCSE", b"HKCSA", b"HKCDE",
        b"HKCDN",
    ];
    let several = [b"HKCCM", b"HKCME", b"HKDME", b"HKDMC", b"HKBME"];
    if one.iter().any(|it| id.is(it.as_slice())) {
        return Some(3);
    }
    if several.iter().any(|it| id.is(it.as_slice())) {
        return Some(5);
    }
    None
}
