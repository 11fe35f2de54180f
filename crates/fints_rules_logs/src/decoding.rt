//! Bytes that a file holds as characters or as letters.
ghost use Rattle.std.specs.Prelude.{◌≡◌, ◌+◌, ◌<◌, ◌≤◌, ◌^◌, ◌++◌, ℕ, List, length, take, replicate, IfOk, IfSome, IfNone};
ghost use Rattle.base64.specs.Rfc4648.{padding_len, unpadded_len};
ghost use Rattle.fints_rules_logs.specs.Forms.{AreLettersOf, IsWritten};
ghost use Rattle.fints_rules_logs.specs.declared.form.Form.TheVariants.{Base64};

use crate::form::Form;
use crate::units::first_units;
use base64::DecodeAllocError;
use base64::engine::general_purpose::STANDARD;
use fints_syntax::Memory;
use std::alloc::Global;

// How many letters `len` bytes take, without padding.
fn unpadded_len(len: usize) -> usize
    requires { len < 10 ^ 12 }
    ensures { result ≡ unpadded_len len }
{
    (4 * len + 2) / 3
}

fn padding_len(len: usize) -> usize
    ensures { result ≡ padding_len len }
{
    (3 - len % 3) % 3
}

// The letters, and an A in the place of each padding.
fn filled(letters: Vec<u8>, padding: usize) -> Result<Vec<u8>, Memory>
    ensures { IfOk result (λ v. v.items ≡ letters.items ++ replicate padding 65) }
{
    let mut filled = letters;
    for _ in 0..padding {
        filled.push(b'A')?;
    }
    Ok(filled)
}

// The first `len` bytes, where exactly `padding` bytes follow them.
fn front_of(bytes: Vec<u8>, len: usize, padding: usize) -> Option<Vec<u8>>
    requires len { len < 10 ^ 12 }
    requires padding { padding < 3 }
    ensures some { IfSome result (λ v. (v.items ≡ take len bytes.items)
        × (length bytes.items ≡ len + padding)) }
    ensures none { IfNone result (length bytes.items ≡ len + padding → ⊥) }
{
    if bytes.len() != len + padding {
        return None;
    }
    let mut front = bytes;
    front.truncate(len);
    Some(front)
}

// The `len` bytes that these are the letters of.
fn bytes_of_letters(alloc: Global, letters: Vec<u8>, len: usize) -> Result<Option<Vec<u8>>, Memory>
    requires { len < 10 ^ 12 }
    ensures some { IfOk result (λ r. IfSome r (λ v. AreLettersOf v.items letters.items
        × (length v.items ≡ len))) }
    ensures none { IfOk result (λ r. IfNone r
        ((bytes : List ℕ) → length bytes ≡ len → AreLettersOf bytes letters.items → ⊥)) }
{
    let padding = padding_len(len);
    let filled = filled(letters, padding)?;
    match STANDARD.decode(alloc, filled.as_slice()) {
        Ok(bytes) => Ok(front_of(bytes, len, padding)),
        Err(DecodeAllocError::OutOfMemory) => Err(Memory),
        Err(DecodeAllocError::DecodeError(_)) => Ok(None),
    }
}

// The `len` bytes with which the text begins in base64, and what is left of it.
fn written_in_letters<'t>(
    alloc: Global,
    len: usize,
    text: &'t [u8],
) -> Result<Option<(Vec<u8>, &'t [u8])>, Memory>
    requires { len < 10 ^ 12 }
    ensures some { IfOk result (λ r. IfSome r (λ w. IsWritten Base64 text.now w.0.items w.1.now)) }
    ensures len { IfOk result (λ r. IfSome r (λ w. length w.0.items ≡ len)) }
    ensures shorter { IfOk result (λ r. IfSome r (λ w. length w.1.now + len ≤ length text.now)) }
    ensures none { IfOk result (λ r. IfNone r ((bytes left : List ℕ) → length bytes ≡ len
        → IsWritten Base64 text.now bytes left → ⊥)) }
{
    let Some((letters, left)) = first_units(alloc, Form::Base64, unpadded_len(len), text)? else {
        return Ok(None);
    };
    match bytes_of_letters(alloc, letters, len)? {
        Some(bytes) => Ok(Some((bytes, left))),
        None => Ok(None),
    }
}

/// The `len` bytes with which the text begins in that form, and what is left of it.
pub fn written<'t>(
    alloc: Global,
    form: Form,
    len: usize,
    text: &'t [u8],
) -> Result<Option<(Vec<u8>, &'t [u8])>, Memory>
    requires { len < 10 ^ 12 }
    ensures some { IfOk result (λ r. IfSome r (λ w. IsWritten form text.now w.0.items w.1.now)) }
    ensures len { IfOk result (λ r. IfSome r (λ w. length w.0.items ≡ len)) }
    ensures shorter { IfOk result (λ r. IfSome r (λ w. length w.1.now + len ≤ length text.now)) }
    ensures none { IfOk result (λ r. IfNone r ((bytes left : List ℕ) → length bytes ≡ len
        → IsWritten form text.now bytes left → ⊥)) }
{
    match form {
        Form::Raw => first_units(alloc, form, len, text),
        Form::Utf8 => first_units(alloc, form, len, text),
        Form::Base64 => written_in_letters(alloc, len, text),
    }
}
