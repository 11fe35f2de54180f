//! Texts of one byte a character.
ghost use Rattle.std.specs.Prelude.{◌≡◌, IfOk};
ghost use Rattle.fints_script_rows.specs.Texts.{byte_of, is_latin1, is_latin1_char, latin1};

use fints_syntax_segments::Memory;
use std::alloc::Global;

fn is_latin1_char(ch: char) -> bool
    ensures { result ≡ is_latin1_char ch }
{
    matches!(ch, ' '..='~' | '\u{a0}'..='\u{ff}')
}

/// Whether each character of the text is one byte of ISO 8859-1, and no control.
pub fn is_latin1(text: &str) -> bool
    ensures { result ≡ is_latin1 text.now }
{
    text.chars().all(|ch| is_latin1_char(ch))
}

fn byte_of(ch: char) -> u8
    ensures { result ≡ byte_of ch }
{
    (u32::from(ch) % 256) as u8
}

/// The bytes of a text of ISO 8859-1, one for each character.
pub fn latin1(alloc: Global, text: &str) -> Result<Vec<u8>, Memory>
    ensures { IfOk result (λ bytes. bytes.items ≡ latin1 text.now) }
{
    let bytes = text.chars().map(|ch| byte_of(ch)).collect(alloc)?;
    Ok(bytes)
}
