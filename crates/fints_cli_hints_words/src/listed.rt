//! What is wrong with the listed values of a field.
use crate::elements::not_latin1;
use crate::keys::must_be;
use crate::places::{HintText, numbered, say, say_at};
use fints_script_fields::{MAX_LEN, MAX_VALUES};
use fints_script_rows::FaultKind;
use fints_script_rows::text::is_latin1;
use fints_syntax::Memory;
use std::alloc::Global;
use std::collections::BTreeMap;
use toml::Value;

fn long_text(alloc: Global, text: &str) -> HintText {
    let count = text.chars().count();
    if count <= usize::from(MAX_LEN) {
        return Ok(None);
    }
    say(
        alloc,
        format_args!(" has {count} characters, and may have {MAX_LEN}"),
    )
}

// What is wrong with a text that is listed, or one of those of an account.
fn text_slip(alloc: Global, kind: FaultKind, value: &Value) -> HintText {
    match (kind, value) {
        (FaultKind::NotLatin1, Value::String(text)) if !is_latin1(text.as_str()) => {
            not_latin1(alloc, text.as_str())
        }
        (FaultKind::Limit, Value::String(text)) => long_text(alloc, text.as_str()),
        (_, Value::String(_)) => Ok(None),
        (FaultKind::WrongKind, _) => must_be(alloc, "", value, "a text"),
        _ => Ok(None),
    }
}

fn texts_slip(alloc: Global, kind: FaultKind, texts: &[Value]) -> HintText {
    let count = texts.len();
    if kind == FaultKind::WrongKind && (count == 0 || count > 6) {
        return say(
            alloc,
            format_args!(" has {count} texts; an account has 1 to 6, the items of its element"),
        );
    }
    for (i, value) in texts.iter().enumerate() {
        let found = text_slip(alloc, kind, value)?;
        if found.is_some() {
            return say_at(alloc, numbered(", text", i.saturating_add(1)), found);
        }
    }
    Ok(None)
}

fn account_slip(alloc: Global, kind: FaultKind, value: &Value) -> HintText {
    match value {
        Value::Array(texts) => texts_slip(alloc, kind, texts.as_slice()),
        _ if kind == FaultKind::WrongKind => must_be(alloc, "", value, "an array of 1 to 6 texts"),
        _ => Ok(None),
    }
}

fn entry_slip(alloc: Global, kind: FaultKind, accounts: bool, value: &Value) -> HintText {
    if accounts {
        account_slip(alloc, kind, value)
    } else {
        text_slip(alloc, kind, value)
    }
}

fn first_slip(alloc: Global, kind: FaultKind, accounts: bool, values: &[Value]) -> HintText {
    for (i, value) in values.iter().enumerate() {
        let found = entry_slip(alloc, kind, accounts, value)?;
        if found.is_some() {
            return say_at(
                alloc,
                numbered(", values, entry", i.saturating_add(1)),
                found,
            );
        }
    }
    Ok(None)
}

// What a listed value is, as one text: those of an account one after the other. No text has a line
// feed, since a character that is none of ISO 8859-1 is named first.
fn key_of(alloc: Global, value: &Value) -> Result<String, Memory> {
    let mut key = String::new(alloc);
    match value {
        Value::String(text) => key.push_str(text.as_str())?,
        Value::Array(texts) => {
            for text in texts.iter() {
                key.push_str(text.as_str().unwrap_or(""))?;
                key.push('\n')?;
            }
        }
        _ => {}
    }
    Ok(key)
}

fn twice_text(alloc: Global, values: &[Value]) -> HintText {
    let mut seen: BTreeMap<String, usize> = BTreeMap::new(alloc);
    for (i, value) in values.iter().enumerate() {
        let entry = i.saturating_add(1);
        let key = key_of(alloc, value)?;
        if let Some(first) = seen.insert(key, entry)? {
            return say(
                alloc,
                format_args!(", values, entry {entry} is the same as entry {first}"),
            );
        }
    }
    Ok(None)
}

fn limit_text(alloc: Global, accounts: bool, values: &[Value]) -> HintText {
    let count = values.len();
    if count == 0 || count > MAX_VALUES {
        return say(
            alloc,
            format_args!(": values has {count} entries, and must have 1 to {MAX_VALUES}"),
        );
    }
    first_slip(alloc, FaultKind::Limit, accounts, values)
}

/// The first listed value that has a fault of this kind; of class account (`accounts`) or not.
pub fn values_slip(
    alloc: Global,
    kind: FaultKind,
    accounts: bool,
    value: Option<&Value>,
) -> HintText {
    let Some(Value::Array(values)) = value else {
        return Ok(None);
    };
    let values = values.as_slice();
    match kind {
        FaultKind::Duplicate => twice_text(alloc, values),
        FaultKind::Limit => limit_text(alloc, accounts, values),
        _ => first_slip(alloc, kind, accounts, values),
    }
}
