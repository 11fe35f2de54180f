//! Strings, and arrays of them.
ghost use Rattle.std.specs.Prelude.{◌≡◌, ◌++◌, OnOk, decimal};
ghost use Rattle.std.specs.List.{flat_map, join_by};
ghost use Rattle.fints_cli_drafts_texts.specs.DraftText.{array_text, comma, escaped, quoted, text_string};

use fints_syntax_segments::{Bytes, Memory};
use itoa::Buffer;

/// Writes a number in decimal digits.
pub fn write_number(text: &mut Vec<u8>, number: usize) -> Result<(), Memory>
    ensures { OnOk result (text.new.items ≡ text.old.items ++ decimal number) }
{
    let mut digits = Buffer::new();
    text.extend_from_slice(digits.format(number).as_bytes())?;
    Ok(())
}

/// Writes a name, a kind or a pattern between quotes. None of them has a character that is written otherwise.
pub fn write_quoted(text: &mut Vec<u8>, name: &[u8]) -> Result<(), Memory>
    ensures { OnOk result (text.new.items ≡ text.old.items ++ quoted name.now) }
{
    text.push(b'"')?;
    text.extend_from_slice(name)?;
    text.push(b'"')?;
    Ok(())
}

#[tactic(auto, unfolding(crate::specs::DraftText::escaped))]
fn write_character(text: &mut Vec<u8>, b: u8) -> Result<(), Memory>
    ensures { OnOk result (text.new.items ≡ text.old.items ++ escaped b) }
{
    let mut bytes = [0; 4];
    if b == b'"' || b == b'\\' {
        text.push(b'\\')?;
    }
    text.extend_from_slice(char::from(b).encode_utf8(&mut bytes).as_bytes())?;
    Ok(())
}

/// Writes the characters of a text.
pub fn write_characters(text: &mut Vec<u8>, value: &[u8]) -> Result<(), Memory>
    ensures { OnOk result (text.new.items ≡ text.old.items ++ flat_map escaped value.now) }
{
    for b in value {
        write_character(text, *b)?;
    }
    Ok(())
}

fn write_string(text: &mut Vec<u8>, value: &Bytes) -> Result<(), Memory>
    ensures { OnOk result (text.new.items ≡ text.old.items ++ text_string value.now) }
{
    text.push(b'"')?;
    write_characters(text, value.as_slice())?;
    text.push(b'"')?;
    Ok(())
}

fn write_strings(text: &mut Vec<u8>, values: &[Bytes]) -> Result<(), Memory>
    ensures { OnOk result (text.new.items ≡ text.old.items ++ join_by text_string comma values.now) }
{
    match values {
        [] => {}
        [first, rest @ ..] => {
            write_string(text, first)?;
            for value in rest {
                text.extend_from_slice(b", ")?;
                write_string(text, value)?;
            }
        }
    }
    Ok(())
}

/// Writes texts as an array on one line.
pub fn write_array(text: &mut Vec<u8>, values: &[Bytes]) -> Result<(), Memory>
    ensures { OnOk result (text.new.items ≡ text.old.items ++ array_text text_string values.now) }
{
    text.push(b'[')?;
    write_strings(text, values)?;
    text.push(b']')?;
    Ok(())
}
