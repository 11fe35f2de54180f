//! The strings of a script: items as they are written in TOML; and its numbers.
ghost use Rattle.std.specs.Prelude.{◌≡◌, ◌++◌, OnOk, decimal, string_bytes};

use crate::place::{SegmentPlace, Undrafted};
use fints_script_fields::Alphabet;
use fints_syntax::{Bytes, ItemRef};
use itoa::Buffer;
use std::alloc::{AllocError, Global};

/// Writes a number in decimal digits.
pub fn write_number(text: &mut String, number: usize) -> Result<(), AllocError>
    ensures { OnOk result (string_bytes text.new ≡ string_bytes text.old ++ decimal number) }
{
    let mut digits = Buffer::new();
    text.push_str(digits.format(number))
}

// Writes a text, whose bytes are characters of ISO 8859-1, without what TOML would read otherwise.
fn write_characters(text: &mut String, value: &[u8]) -> Result<(), AllocError> {
    for b in value {
        if *b == b'"' || *b == b'\\' {
            text.push('\\')?;
        }
        text.push(char::from(*b))?;
    }
    Ok(())
}

fn write_literal(text: &mut String, value: &[u8], place: SegmentPlace) -> Result<(), Undrafted> {
    if !value.iter().all(|b| Alphabet::Latin.has(*b)) {
        return Err(place.refused());
    }
    // It would be read as a field, as hex digits or as another text.
    if matches!(value.first(), Some(b'$' | b'%' | b'=')) {
        text.push('=')?;
    }
    write_characters(text, value)?;
    Ok(())
}

/// Writes the string of an item as it was recorded. A text with a character that no script has is
/// refused.
pub fn write_item(
    alloc: Global,
    text: &mut String,
    item: &ItemRef<'_>,
    place: SegmentPlace,
) -> Result<(), Undrafted> {
    text.push('"')?;
    match item {
        ItemRef::Text(value) => write_literal(text, value, place)?,
        ItemRef::Bin(value) => {
            text.push('%')?;
            text.push_str(hex::encode(alloc, *value)?.as_str())?;
        }
    }
    text.push('"')?;
    Ok(())
}

/// Writes the texts of an account, as a row of a list; none of them has a character that no script has.
pub fn write_account(text: &mut String, items: &[Bytes]) -> Result<(), AllocError> {
    text.push_str("  [")?;
    for (i, item) in items.iter().enumerate() {
        if i > 0 {
            text.push_str(", ")?;
        }
        text.push('"')?;
        write_characters(text, item.as_slice())?;
        text.push('"')?;
    }
    text.push_str("],\n")
}
