//! Texts of bytes: each byte is the character of ISO 8859-1 that has its number.
ghost use Rattle.std.specs.Prelude.{◌≡◌, ◌++◌, IfOk, OnOk, string_bytes};
ghost use Rattle.fints_cli_json.specs.Objects.{latin, text};
ghost use Rattle.fints_cli_json.specs.Tokens.{member_tokens};

use crate::writing::write_text;
use json::Writer;
use std::alloc::{AllocError, Global};

/// The text of bytes.
pub fn latin(alloc: Global, bytes: &[u8]) -> Result<String, AllocError>
    ensures { IfOk result (λ text. string_bytes text ≡ latin bytes.now) }
{
    let mut text = String::new(alloc);
    for byte in bytes {
        text.push(char::from(*byte))?;
    }
    Ok(text)
}

/// Writes a member whose value is the text of bytes.
pub fn write_latin(
    alloc: Global,
    out: &mut Writer,
    name: &str,
    bytes: &[u8],
) -> Result<(), AllocError>
    ensures tokens { OnOk result
        (out.new.tokens ≡ out.old.tokens ++ member_tokens (text name.now (latin bytes.now))) }
    ensures before { out.new.before ≡ out.old.before }
{
    let value = latin(alloc, bytes)?;
    write_text(out, name, value.as_str())
}
