//! Characters and letters, one by one.
ghost use Rattle.std.specs.Prelude.{◌≡◌, ◌+◌, ◌<◌, ◌≤◌, length, drop, IfOk, IfSome, IsTrue};
ghost use Rattle.std.specs.Option.{option_map};
ghost use Rattle.fints_rules_logs.specs.declared.form.Form.TheVariants.{Raw};
ghost use Rattle.fints_rules_logs.specs.Forms.{after_gaps, char_at, escaped_letter, first_units, is_escaped_plus, is_escaped_slash, is_gap, is_gap_escape, is_letter, is_second, letter_here, unit_at};

use crate::form::Form;
use fints_syntax::Memory;
use std::alloc::Global;

fn is_second(b: u8) -> bool
    ensures { result ≡ is_second b }
{
    b >= 128 && b < 192
}

// The character at the front, as a byte, and what comes after it.
fn char_at(text: &[u8]) -> Option<(u8, &[u8])>
    ensures unit { option_map (λ r. (r.0, r.1.now)) result ≡ char_at text.now }
    ensures shorter { IfSome result (λ r. length r.1.now < length text.now) }
{
    let (first, rest) = text.split_first()?;
    if *first < 128 {
        return Some((*first, rest));
    }
    let (second, rest) = rest.split_first()?;
    match *first {
        194 if is_second(*second) => Some((*second, rest)),
        195 if is_second(*second) => Some((*second + 64, rest)),
        _ => None,
    }
}

fn is_letter(b: u8) -> bool
    ensures { result ≡ is_letter b }
{
    b.is_ascii_uppercase() || b.is_ascii_lowercase() || b.is_ascii_digit() || b == b'+' || b == b'/'
}

fn is_gap(b: u8) -> bool
    ensures { result ≡ is_gap b }
{
    b == b'\r' || b == b'\n' || b == b' ' || b == b'\t'
}

fn is_gap_escape(b: u8) -> bool
    ensures { result ≡ is_gap_escape b }
{
    b == b'r' || b == b'n' || b == b't'
}

// What comes after the first `len` bytes.
fn behind(text: &[u8], len: usize) -> &[u8]
    requires { len ≤ length text.now }
    ensures { result.now ≡ drop len text.now }
{
    let (_, rest) = text.split_at(len);
    rest
}

// How long the gap at the front is: 0 where none is there.
fn gap_len(text: &[u8]) -> usize
    ensures within { result ≤ length text.now }
    ensures gap { after_gaps (drop result text.now) ≡ after_gaps text.now }
    ensures none { result ≡ 0 → after_gaps text.now ≡ text.now }
{
    let Some((first, rest)) = text.split_first() else {
        return 0;
    };
    if is_gap(*first) {
        return 1;
    }
    let Some((second, _)) = rest.split_first() else {
        return 0;
    };
    if *first == b'\\' && is_gap_escape(*second) {
        return 2;
    }
    0
}

// What comes after the gaps at the front.
fn after_gaps(text: &[u8]) -> &[u8]
    ensures rest { result.now ≡ after_gaps text.now }
    ensures within { length result.now ≤ length text.now }
{
    let mut rest = text;
    loop {
        let len = gap_len(rest);
        if len == 0 {
            return rest;
        }
        rest = behind(rest, len);
    }
}

// Whether a plus is at the front, as JSON escapes it.
fn is_escaped_plus(text: &[u8]) -> bool
    ensures value { result ≡ is_escaped_plus text.now }
    ensures bound { IsTrue result → 6 ≤ length text.now }
{
    text.starts_with(b"\\u002b") || text.starts_with(b"\\u002B")
}

// Whether a slash is at the front, as JSON escapes it by its number.
fn is_escaped_slash(text: &[u8]) -> bool
    ensures value { result ≡ is_escaped_slash text.now }
    ensures bound { IsTrue result → 6 ≤ length text.now }
{
    text.starts_with(b"\\u002f") || text.starts_with(b"\\u002F")
}

// The letter at the front as JSON escapes it, and what comes after it.
fn escaped_letter(text: &[u8]) -> Option<(u8, &[u8])>
    ensures unit { option_map (λ r. (r.0, r.1.now)) result ≡ escaped_letter text.now }
    ensures shorter { IfSome result (λ r. length r.1.now < length text.now) }
{
    if text.starts_with(b"\\/") {
        return Some((b'/', behind(text, 2)));
    }
    if is_escaped_plus(text) {
        return Some((b'+', behind(text, 6)));
    }
    if is_escaped_slash(text) {
        return Some((b'/', behind(text, 6)));
    }
    None
}

// The letter at the front, as it is or escaped.
fn letter_here(text: &[u8]) -> Option<(u8, &[u8])>
    ensures unit { option_map (λ r. (r.0, r.1.now)) result ≡ letter_here text.now }
    ensures shorter { IfSome result (λ r. length r.1.now < length text.now) }
{
    let (first, rest) = text.split_first()?;
    if is_letter(*first) {
        return Some((*first, rest));
    }
    escaped_letter(text)
}

// The first byte, and what comes after it.
fn byte_at(text: &[u8]) -> Option<(u8, &[u8])>
    ensures unit { option_map (λ r. (r.0, r.1.now)) result ≡ unit_at Raw text.now }
    ensures shorter { IfSome result (λ r. length r.1.now < length text.now) }
{
    let (first, rest) = text.split_first()?;
    Some((*first, rest))
}

fn unit_at(form: Form, text: &[u8]) -> Option<(u8, &[u8])>
    ensures unit { option_map (λ r. (r.0, r.1.now)) result ≡ unit_at form text.now }
    ensures shorter { IfSome result (λ r. length r.1.now < length text.now) }
{
    match form {
        Form::Raw => byte_at(text),
        Form::Utf8 => char_at(text),
        Form::Base64 => letter_here(after_gaps(text)),
    }
}

/// The first units of a text, as many as there are to be, and what comes after them.
pub fn first_units<'t>(
    alloc: Global,
    form: Form,
    count: usize,
    text: &'t [u8],
) -> Result<Option<(Vec<u8>, &'t [u8])>, Memory>
    ensures units { IfOk result
        (λ r. option_map (λ u. (u.0.items, u.1.now)) r ≡ first_units form count text.now) }
    ensures len { IfOk result (λ r. IfSome r (λ u. length u.0.items ≡ count)) }
    ensures shorter { IfOk result (λ r. IfSome r (λ u. length u.1.now + count ≤ length text.now)) }
{
    let mut units = Vec::new(alloc);
    let mut rest = text;
    for _ in 0..count {
        let Some((unit, more)) = unit_at(form, rest) else {
            return Ok(None);
        };
        units.push(unit)?;
        rest = more;
    }
    Ok(Some((units, rest)))
}
