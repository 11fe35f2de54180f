//! What is wrong with a row of `field`.
use fints_cli_hints_words::guessing::guess_of;
use fints_cli_hints_words::keys::{
    Form, WantedKey, is_among, missing_key, name_taken, no_table, unknown_key, wrong_value,
};
use fints_cli_hints_words::listed::values_slip;
use fints_cli_hints_words::places::{HintText, row_at, row_named, say, say_at};
use fints_script_fields::MAX_LEN;
use fints_script_rows::keys::{BOUNDED_FIELD_KEYS, FIELD_KEYS, LISTED_FIELD_KEYS};
use fints_script_rows::{FaultKind, NamedRows};
use fints_syntax_texts::document::member;
use fints_syntax_texts::entries::text_at;
use std::alloc::Global;
use toml::{Table, Value};

/// The classes of fields.
const CLASSES: [&str; 6] = ["digits", "plain", "text", "bin", "oneof", "account"];

/// What is known of the class that a row names.
#[derive(Clone, Copy)]
enum Class {
    /// With `min` and `max`.
    Bounded,
    /// With `values`.
    Listed,
    /// There is no such class, or none is named.
    Unknown,
}

fn class_of(table: &Table) -> Class {
    match text_at(table, "class") {
        Some(text) if is_among(&["digits", "plain", "text", "bin"], text) => Class::Bounded,
        Some(text) if is_among(&["oneof", "account"], text) => Class::Listed,
        _ => Class::Unknown,
    }
}

const NAME: WantedKey = WantedKey {
    key: "name",
    form: Form::Name,
    what: "a text",
};

const CLASS: WantedKey = WantedKey {
    key: "class",
    form: Form::Text,
    what: "a text",
};

const MIN: WantedKey = WantedKey {
    key: "min",
    form: Form::Integer,
    what: "a number from 0 to 10000, without quotes",
};

const MAX: WantedKey = WantedKey {
    key: "max",
    form: Form::Integer,
    what: "a number from 0 to 10000, without quotes",
};

const VALUES: WantedKey = WantedKey {
    key: "values",
    form: Form::Array,
    what: "an array",
};

fn unknown(alloc: Global, table: &Table) -> HintText {
    match class_of(table) {
        Class::Bounded => unknown_key(
            alloc,
            table,
            &BOUNDED_FIELD_KEYS,
            "a field of class digits, plain, text or bin",
        ),
        Class::Listed => unknown_key(
            alloc,
            table,
            &LISTED_FIELD_KEYS,
            "a field of class oneof or account",
        ),
        Class::Unknown => unknown_key(alloc, table, &FIELD_KEYS, "a field"),
    }
}

fn missing(alloc: Global, table: &Table) -> HintText {
    match class_of(table) {
        Class::Bounded => missing_key(
            alloc,
            table,
            &BOUNDED_FIELD_KEYS,
            "a field of class digits, plain, text or bin",
        ),
        Class::Listed => missing_key(
            alloc,
            table,
            &LISTED_FIELD_KEYS,
            "a field of class oneof or account",
        ),
        Class::Unknown => missing_key(alloc, table, &["name", "class"], "a field"),
    }
}

fn wrong_key(alloc: Global, table: &Table) -> HintText {
    match class_of(table) {
        Class::Bounded => wrong_value(alloc, table, &[NAME, CLASS, MIN, MAX]),
        Class::Listed => wrong_value(alloc, table, &[NAME, CLASS, VALUES]),
        Class::Unknown => wrong_value(alloc, table, &[NAME, CLASS]),
    }
}

fn no_class(alloc: Global, text: &str) -> HintText {
    let guess = guess_of(alloc, &CLASSES, text)?;
    say(
        alloc,
        format_args!(
            ": there is no class {guess}; the classes are digits, plain, text, bin, oneof, account"
        ),
    )
}

// What is wrong with the listed values, where the class has some.
fn values_of(alloc: Global, kind: FaultKind, table: &Table) -> HintText {
    let accounts = match text_at(table, "class") {
        Some("account") => true,
        Some("oneof") => false,
        _ => return Ok(None),
    };
    values_slip(alloc, kind, accounts, member(table, "values"))
}

fn wrong_kind(alloc: Global, table: &Table) -> HintText {
    let found = wrong_key(alloc, table)?;
    if found.is_some() {
        return Ok(found);
    }
    match text_at(table, "class") {
        Some(text) if !is_among(&CLASSES, text) => no_class(alloc, text),
        _ => values_of(alloc, FaultKind::WrongKind, table),
    }
}

fn twice(alloc: Global, rows: &NamedRows<'_>, number: u16, table: &Table) -> HintText {
    let name = text_at(table, "name").unwrap_or("");
    if name == "dialog" {
        return say(
            alloc,
            ": the name \"dialog\" is that of the built-in field, the id of the dialogue",
        );
    }
    match rows.place_of(name) {
        Some(place) if place.saturating_add(1) < usize::from(number) => {
            name_taken(alloc, "field", place.saturating_add(1), name)
        }
        _ => values_of(alloc, FaultKind::Duplicate, table),
    }
}

fn number_at(table: &Table, key: &str) -> Option<i64> {
    member(table, key)?.as_integer()
}

fn is_past(number: i64) -> bool {
    !(0..=i64::from(MAX_LEN)).contains(&number)
}

fn past_text(alloc: Global, key: &str, number: i64) -> HintText {
    say(
        alloc,
        format_args!(": {key} is {number}, and must be from 0 to {MAX_LEN}"),
    )
}

fn bounds_text(alloc: Global, min: i64, max: i64) -> HintText {
    if is_past(min) {
        return past_text(alloc, "min", min);
    }
    if is_past(max) {
        return past_text(alloc, "max", max);
    }
    if max < min {
        return say(
            alloc,
            format_args!(": min is {min} and max is {max}; min may not be over max"),
        );
    }
    say(
        alloc,
        ": min is 0, and must be at least 1 for the class bin",
    )
}

fn past(alloc: Global, table: &Table) -> HintText {
    match (
        class_of(table),
        number_at(table, "min"),
        number_at(table, "max"),
    ) {
        (Class::Bounded, Some(min), Some(max)) => bounds_text(alloc, min, max),
        _ => values_of(alloc, FaultKind::Limit, table),
    }
}

fn table_slip(
    alloc: Global,
    kind: FaultKind,
    rows: &NamedRows<'_>,
    number: u16,
    table: &Table,
) -> HintText {
    match kind {
        FaultKind::UnknownKey => unknown(alloc, table),
        FaultKind::Missing => missing(alloc, table),
        FaultKind::WrongKind => wrong_kind(alloc, table),
        FaultKind::Duplicate => twice(alloc, rows, number, table),
        FaultKind::Limit => past(alloc, table),
        _ => values_of(alloc, kind, table),
    }
}

/// What the fault of this kind in a row of `field` is about.
pub fn field_hint(alloc: Global, kind: FaultKind, rows: &NamedRows<'_>, number: u16) -> HintText {
    let Some(row) = row_at(rows.as_slice(), number) else {
        return Ok(None);
    };
    let found = match row {
        Value::Table(table) => table_slip(alloc, kind, rows, number, table)?,
        _ => no_table(alloc, row)?,
    };
    say_at(
        alloc,
        row_named("field", usize::from(number), row, "name"),
        found,
    )
}
