//! What is wrong with elements.
use crate::guessing::{Named, not_named};
use crate::keys::must_be;
use crate::places::{HintText, names_of, numbered, say, say_at, text_in};
use crate::quoting::{Character, Quoted};
use crate::tables::rows_of;
use fints_script_rows::text::is_latin1;
use fints_script_rows::{FaultKind, NamedRows};
use std::alloc::Global;
use toml::Value;

fn is_account(fields: &NamedRows<'_>, name: &str) -> bool {
    match fields.place_of(name) {
        Some(place) => match fields.as_slice().get(place) {
            Some(row) => text_in(row, "class") == Some("account"),
            None => false,
        },
        None => false,
    }
}

// The first character that is no hex digit.
fn bad_digit(digits: &str) -> Option<char> {
    digits.chars().find(|ch| !ch.is_digit(16))
}

fn unknown_text(alloc: Global, fields: &NamedRows<'_>, name: &str) -> HintText {
    let names = names_of(alloc, fields.as_slice(), &["dialog"])?;
    let named = Named {
        what: "field",
        names: names.as_slice(),
        remark: ". A text that begins with $ is written \"=$..\"",
    };
    not_named(alloc, "", &named, name)
}

// Why what is after `%` is no hex.
fn digits_text(alloc: Global, digits: &str) -> HintText {
    let count = digits.len();
    match bad_digit(digits) {
        Some(ch) => {
            let ch = Character(ch);
            say(
                alloc,
                format_args!(
                    ": the character {ch} after % is no hex digit. A text that begins with % is written \"=%..\""
                ),
            )
        }
        None if count % 2 == 1 => say(
            alloc,
            format_args!(": after % comes an odd number of hex digits, {count}; two make a byte"),
        ),
        None => Ok(None),
    }
}

/// What is wrong with a text that isn't of ISO 8859-1.
pub fn not_latin1(alloc: Global, text: &str) -> HintText {
    let shown = Quoted(text);
    let Some(ch) = text
        .chars()
        .find(|ch| !matches!(ch, ' '..='~' | '\u{a0}'..='\u{ff}'))
    else {
        return say(alloc, format_args!(": the text {shown}"));
    };
    let ch = Character(ch);
    say(
        alloc,
        format_args!(
            ": the text {shown} has the character {ch}; a text has U+0020 to U+007E and U+00A0 to U+00FF"
        ),
    )
}

fn account_text(alloc: Global, name: &str) -> HintText {
    let shown = Quoted(name);
    say(
        alloc,
        format_args!(
            ": the field {shown} is of class account; such a field is an element by itself (no array), in the segments of a step"
        ),
    )
}

// What is wrong with the name of a field, after `$`.
fn reference_slip(
    alloc: Global,
    kind: FaultKind,
    fields: &NamedRows<'_>,
    free: bool,
    name: &str,
) -> HintText {
    match kind {
        FaultKind::NoSuchName if name != "dialog" && !fields.has(name) => {
            unknown_text(alloc, fields, name)
        }
        FaultKind::WrongKind if !free && is_account(fields, name) => account_text(alloc, name),
        _ => Ok(None),
    }
}

fn text_slip(
    alloc: Global,
    kind: FaultKind,
    fields: &NamedRows<'_>,
    free: bool,
    text: &str,
) -> HintText {
    if let Some(name) = text.strip_prefix('$') {
        return reference_slip(alloc, kind, fields, free, name);
    }
    if let Some(digits) = text.strip_prefix('%') {
        return match kind {
            FaultKind::BadHex => digits_text(alloc, digits),
            _ => Ok(None),
        };
    }
    let literal = text.strip_prefix('=').unwrap_or(text);
    match kind {
        FaultKind::NotLatin1 if !is_latin1(literal) => not_latin1(alloc, literal),
        _ => Ok(None),
    }
}

// What is wrong with a string of an element, or with a value that must be one or what the words say.
fn item_slip(
    alloc: Global,
    kind: FaultKind,
    fields: &NamedRows<'_>,
    free: bool,
    value: &Value,
    what: &str,
) -> HintText {
    match value {
        Value::String(text) => text_slip(alloc, kind, fields, free, text.as_str()),
        _ if kind == FaultKind::WrongKind => must_be(alloc, "", value, what),
        _ => Ok(None),
    }
}

// The first bad item of an array, from 1 on.
fn array_slip(
    alloc: Global,
    kind: FaultKind,
    fields: &NamedRows<'_>,
    values: &[Value],
) -> HintText {
    if values.is_empty() && kind == FaultKind::WrongKind {
        return say(
            alloc,
            " is an empty array; an element without bytes is \"\"",
        );
    }
    for (i, value) in values.iter().enumerate() {
        let found = item_slip(alloc, kind, fields, false, value, "a text")?;
        if found.is_some() {
            return say_at(alloc, numbered(", item", i.saturating_add(1)), found);
        }
    }
    Ok(None)
}

fn element_slip(
    alloc: Global,
    kind: FaultKind,
    fields: &NamedRows<'_>,
    free: bool,
    value: &Value,
) -> HintText {
    match value {
        Value::Array(values) => array_slip(alloc, kind, fields, values.as_slice()),
        _ => {
            let what = "a text or an array of texts";
            item_slip(alloc, kind, fields, free, value, what)
        }
    }
}

/// The first element, from 2 on, of a list at a key, that has a fault of this kind;
/// account fields may be in it (`free`) or not.
pub fn elements_slip(
    alloc: Global,
    kind: FaultKind,
    fields: &NamedRows<'_>,
    free: bool,
    value: Option<&Value>,
) -> HintText {
    for (i, element) in rows_of(value).iter().enumerate() {
        let found = element_slip(alloc, kind, fields, free, element)?;
        if found.is_some() {
            return say_at(alloc, numbered(", element", i.saturating_add(2)), found);
        }
    }
    Ok(None)
}
