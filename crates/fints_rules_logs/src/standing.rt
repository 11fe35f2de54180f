//! What is at the front of a text: a message, the begin of none, or neither.
ghost use Rattle.std.specs.Prelude.{◌≡◌, ◌<◌, ◌≤◌, ◌^◌, ℕ, true, false, length, IfOk, IfSome, IfNone};
ghost use Rattle.fints_rules_logs.specs.Forms.{begins_with};
ghost use Rattle.fints_rules_logs.specs.Scan.{IsAtFront};
ghost use Rattle.fints_rules_logs.specs.Standing.{mark, Begins, EndsWell, HeadSays, IsCoded, IsOwn, IsUpToNext, NoneAs, SaysSize, StandsAs};
ghost use Rattle.fints_rules_logs.specs.declared.form.Form.TheVariants.{Raw, Base64};

use crate::begin::said_size;
use crate::decoding::written;
use crate::end::ends_well;
use crate::find::Stored;
use crate::form::Form;
use fints_syntax::Memory;
use memchr::memmem;
use std::alloc::Global;

/// A message at the front of a text, its form, and how many bytes of the text it takes.
#[derive(Drop)]
pub struct Front<'t> {
    pub form: Form,
    pub stored: Stored<'t>,
    pub len: usize,
}

/// What is at the front of a text.
#[derive(Drop)]
pub enum AtFront<'t> {
    Nothing,
    Misfit,
    Message(Front<'t>),
}

// The bytes up to the next mark after their first.
fn up_to_next<'t>(text: &'t [u8], mark: &[u8]) -> &'t [u8]
    requires { 0 < length text.now }
    ensures { IsUpToNext mark.now text.now result.now }
{
    let (_, rest) = text.split_at(1);
    match memmem::find(rest, mark) {
        Some(at) => {
            let (own, _) = text.split_at(at + 1);
            own
        }
        None => text,
    }
}

// Whether bytes say this size, and end as a message does.
fn is_whole(bytes: &[u8], size: u64) -> bool
    ensures yes { result ≡ true → SaysSize bytes.now size × EndsWell bytes.now }
    ensures no { result ≡ false → SaysSize bytes.now size → EndsWell bytes.now → ⊥ }
{
    match said_size(bytes) {
        Some(said) => said == size && ends_well(bytes),
        None => false,
    }
}

// The raw message of this size at the front.
fn raw_message(text: &[u8], size: u64) -> Option<&[u8]>
    requires { SaysSize text.now size }
    ensures some { IfSome result (λ m. StandsAs Raw text.now m.now (length m.now)) }
    ensures none { IfNone result (NoneAs Raw text.now) }
{
    if (text.len() as u64) < size {
        return None;
    }
    let (bytes, _) = text.split_at(size as usize);
    if is_whole(bytes, size) {
        Some(bytes)
    } else {
        None
    }
}

// The message of this size that is written at the front in another form, and how many bytes it takes.
fn coded_message(
    alloc: Global,
    form: Form,
    text: &[u8],
    own: &[u8],
    size: u64,
) -> Result<Option<(Vec<u8>, usize)>, Memory>
    requires coded { IsCoded form }
    requires begins { Begins form text.now size }
    requires own { IsOwn form text.now own.now }
    requires below { size < 10 ^ 12 }
    ensures some { IfOk result (λ r. IfSome r (λ m. StandsAs form text.now m.0.items m.1)) }
    ensures takes { IfOk result (λ r. IfSome r (λ m. length m.0.items ≤ m.1)) }
    ensures none { IfOk result (λ r. IfNone r (NoneAs form text.now)) }
{
    let Some((bytes, left)) = written(alloc, form, size as usize, own)? else {
        return Ok(None);
    };
    if is_whole(bytes.as_slice(), size) {
        Ok(Some((bytes, own.len() - left.len())))
    } else {
        Ok(None)
    }
}

// What is at the front of a text that says its size there.
fn plain_standing(alloc: Global, text: &[u8], size: u64) -> Result<AtFront<'_>, Memory>
    requires says { SaysSize text.now size }
    requires below { size < 10 ^ 12 }
    ensures { IfOk result (λ s. IsAtFront text.now s) }
{
    if let Some(bytes) = raw_message(text, size) {
        return Ok(AtFront::Message(Front {
            form: Form::Raw,
            stored: Stored::InFile(bytes),
            len: bytes.len(),
        }));
    }
    let own = up_to_next(text, b"HNHBK:1:3+");
    match coded_message(alloc, Form::Utf8, text, own, size)? {
        Some((bytes, len)) => Ok(AtFront::Message(Front {
            form: Form::Utf8,
            stored: Stored::Decoded(bytes),
            len,
        })),
        None => Ok(AtFront::Misfit),
    }
}

// The size that the first letters say.
fn size_in_letters(alloc: Global, own: &[u8]) -> Result<Option<u64>, Memory>
    ensures some { IfOk result (λ r. IfSome r (λ n. HeadSays own.now n)) }
    ensures below { IfOk result (λ r. IfSome r (λ n. n < 10 ^ 12)) }
    ensures none { IfOk result (λ r. IfNone r ((n : ℕ) → HeadSays own.now n → ⊥)) }
{
    match written(alloc, Form::Base64, 24, own)? {
        Some((head, _)) => Ok(said_size(head.as_slice())),
        None => Ok(None),
    }
}

// What is at the front of a text that begins with letters of a begin.
fn coded_standing(alloc: Global, text: &[u8]) -> Result<AtFront<'_>, Memory>
    requires { begins_with (mark Base64) text.now ≡ true }
    ensures { IfOk result (λ s. IsAtFront text.now s) }
{
    let own = up_to_next(text, b"SE5IQks6");
    let Some(size) = size_in_letters(alloc, own)? else {
        return Ok(AtFront::Nothing);
    };
    match coded_message(alloc, Form::Base64, text, own, size)? {
        Some((bytes, len)) => Ok(AtFront::Message(Front {
            form: Form::Base64,
            stored: Stored::Decoded(bytes),
            len,
        })),
        None => Ok(AtFront::Misfit),
    }
}

/// What is at the front of a text.
pub fn read_front(alloc: Global, text: &[u8]) -> Result<AtFront<'_>, Memory>
    ensures { IfOk result (λ s. IsAtFront text.now s) }
{
    if text.starts_with(b"SE5IQks6") {
        return coded_standing(alloc, text);
    }
    match said_size(text) {
        Some(size) => plain_standing(alloc, text, size),
        None => Ok(AtFront::Nothing),
    }
}
