//! Keys of tables: those that don't belong there, those that are missing, and what is at one where
//! something else must.
use crate::guessing::{Joined, guess_of};
use crate::places::{HintText, say};
use crate::quoting::{Quoted, Shown, misfit_of};
use crate::tables::{is_no_array, is_no_flag, is_no_integer, is_no_list, is_no_text, is_outside};
use fints_script_rows::names::parsed;
use fints_syntax_texts::document::member;
use std::alloc::Global;
use std::fmt::Display;
use toml::{Table, Value};

/// Whether the name is one of those.
pub fn is_among(names: &[&str], name: &str) -> bool {
    for other in names {
        if *other == name {
            return true;
        }
    }
    false
}

fn first_unknown<'a>(table: &'a Table, keys: &[&str]) -> Option<&'a str> {
    for key in table.keys() {
        if !is_among(&*keys, key.as_str()) {
            return Some(key.as_str());
        }
    }
    None
}

/// A key that isn't one of these, which are those of what the table is.
pub fn unknown_key(alloc: Global, table: &Table, keys: &[&str], whose: &str) -> HintText {
    let Some(key) = first_unknown(table, keys) else {
        return Ok(None);
    };
    let guess = guess_of(alloc, keys, key)?;
    let keys = Joined(keys);
    say(
        alloc,
        format_args!(": unknown key {guess}; the keys of {whose} are {keys}"),
    )
}

fn first_missing<'a>(table: &Table, keys: &[&'a str]) -> Option<&'a str> {
    for key in keys {
        if member(table, key).is_none() {
            return Some(*key);
        }
    }
    None
}

/// A key that is missing, of these, which are those that the table needs.
pub fn missing_key(alloc: Global, table: &Table, keys: &[&str], whose: &str) -> HintText {
    let Some(key) = first_missing(table, keys) else {
        return Ok(None);
    };
    let keys = Joined(keys);
    say(
        alloc,
        format_args!(": the key \"{key}\" is missing; {whose} needs {keys}"),
    )
}

/// That a value is at a place, and what must be there.
pub fn must_be<T: Display + Drop>(alloc: Global, place: T, value: &Value, what: &str) -> HintText {
    let shown = Shown(value);
    say(
        alloc,
        format_args!("{place} is {shown}, and must be {what}"),
    )
}

/// That a row is no table.
pub fn no_table(alloc: Global, row: &Value) -> HintText {
    must_be(alloc, "", row, "a table")
}

/// The form of the values that may be at a key.
#[derive(Clone, Copy)]
pub enum Form {
    Name,
    Text,
    Integer,
    Flag,
    Array,
    /// An array of at least one table.
    List,
    /// No integer outside of these two.
    Within(u16, u16),
}

/// A key, the form of what may be there, and the words for it.
#[derive(Clone, Copy)]
pub struct WantedKey {
    pub key: &'static str,
    pub form: Form,
    pub what: &'static str,
}

fn is_no_name(value: Option<&Value>) -> bool {
    match value {
        None => false,
        Some(Value::String(text)) => parsed(text.as_str()).is_none(),
        Some(_) => true,
    }
}

fn misfits(form: Form, value: Option<&Value>) -> bool {
    match form {
        Form::Name => is_no_name(value),
        Form::Text => is_no_text(value),
        Form::Integer => is_no_integer(value),
        Form::Flag => is_no_flag(value),
        Form::Array => is_no_array(value),
        Form::List => is_no_list(value),
        Form::Within(low, high) => is_outside(low, high, value),
    }
}

/// That an earlier row of this number has the name already.
pub fn name_taken(alloc: Global, what: &str, number: usize, name: &str) -> HintText {
    let shown = Quoted(name);
    say(
        alloc,
        format_args!(": the name {shown} is that of {what} {number} already"),
    )
}

fn bad_name(alloc: Global, name: &str) -> HintText {
    let bad = name
        .chars()
        .find(|ch| !matches!(ch, 'a'..='z' | '0'..='9' | '_' | '-'));
    let shown = Quoted(name);
    let misfit = misfit_of(name, bad);
    say(
        alloc,
        format_args!(
            ": the name {shown} has {misfit}; a name has 1 to 40 of a to z, 0 to 9, _ and -"
        ),
    )
}

fn wrong(alloc: Global, wanted: &WantedKey, value: &Value) -> HintText {
    let WantedKey { key, form, what } = *wanted;
    match (form, value) {
        (Form::Name, Value::String(name)) => bad_name(alloc, name.as_str()),
        _ => must_be(alloc, format_args!(": {key}"), value, what),
    }
}

/// The first of these keys that has another value than it may.
pub fn wrong_value(alloc: Global, table: &Table, all: &[WantedKey]) -> HintText {
    for wanted in all {
        let value = member(table, wanted.key);
        match value {
            Some(value) if misfits(wanted.form, Some(value)) => return wrong(alloc, wanted, value),
            _ => {}
        }
    }
    Ok(None)
}
