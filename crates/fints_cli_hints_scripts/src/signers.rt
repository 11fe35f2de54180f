//! What is wrong with a row of `signer`, or with the seal.
use fints_cli_hints_words::elements::elements_slip;
use fints_cli_hints_words::keys::{
    Form, WantedKey, missing_key, must_be, name_taken, no_table, unknown_key, wrong_value,
};
use fints_cli_hints_words::places::{HintText, row_at, row_named, say, say_at};
use fints_script_rows::keys::SIGNER_KEYS;
use fints_script_rows::limits::MAX_TEMPLATE_ITEMS;
use fints_script_rows::{FaultKind, NamedRows};
use fints_syntax_texts::document::member;
use fints_syntax_texts::entries::{is_named, text_at};
use std::alloc::Global;
use toml::{Table, Value};

fn items_in(value: &Value) -> usize {
    match value {
        Value::Array(values) => values.len(),
        _ => 1,
    }
}

// How many items a list of elements has.
fn item_count(values: &[Value]) -> usize {
    let mut count: usize = 0;
    for value in values {
        count = count.saturating_add(items_in(value));
    }
    count
}

fn many(alloc: Global, value: Option<&Value>) -> HintText {
    let count = match value {
        Some(Value::Array(values)) => item_count(values.as_slice()),
        _ => 0,
    };
    if count as u64 <= MAX_TEMPLATE_ITEMS {
        return Ok(None);
    }
    say(
        alloc,
        format_args!(" has {count} items, and may have {MAX_TEMPLATE_ITEMS}"),
    )
}

// What is wrong with the elements at a place where no account field may be.
fn list_slip(
    alloc: Global,
    kind: FaultKind,
    fields: &NamedRows<'_>,
    value: Option<&Value>,
) -> HintText {
    match kind {
        FaultKind::Limit => many(alloc, value),
        _ => elements_slip(alloc, kind, fields, false, value),
    }
}

fn ends_slip(alloc: Global, kind: FaultKind, fields: &NamedRows<'_>, table: &Table) -> HintText {
    match list_slip(alloc, kind, fields, member(table, "head"))? {
        None => {
            let found = list_slip(alloc, kind, fields, member(table, "end"))?;
            say_at(alloc, ", end", found)
        }
        found => say_at(alloc, ", head", found),
    }
}

const KEYS: [WantedKey; 3] = [
    WantedKey {
        key: "name",
        form: Form::Name,
        what: "a text",
    },
    WantedKey {
        key: "head",
        form: Form::Array,
        what: "an array: the elements of HNSHK from element 2 on",
    },
    WantedKey {
        key: "end",
        form: Form::Array,
        what: "an array: the elements of HNSHA from element 2 on",
    },
];

fn wrong_kind(alloc: Global, fields: &NamedRows<'_>, table: &Table) -> HintText {
    match wrong_value(alloc, table, &KEYS)? {
        None => ends_slip(alloc, FaultKind::WrongKind, fields, table),
        found => Ok(found),
    }
}

fn twice(alloc: Global, rows: &[Value], table: &Table) -> HintText {
    let name = text_at(table, "name").unwrap_or("");
    for (i, row) in rows.iter().enumerate() {
        if is_named(name, row) {
            return name_taken(alloc, "signer", i.saturating_add(1), name);
        }
    }
    Ok(None)
}

fn table_slip(
    alloc: Global,
    kind: FaultKind,
    fields: &NamedRows<'_>,
    rows: &[Value],
    table: &Table,
) -> HintText {
    match kind {
        FaultKind::UnknownKey => unknown_key(alloc, table, &SIGNER_KEYS, "a signer"),
        FaultKind::Missing => missing_key(alloc, table, &SIGNER_KEYS, "a signer"),
        FaultKind::WrongKind => wrong_kind(alloc, fields, table),
        FaultKind::Duplicate => twice(alloc, rows, table),
        _ => ends_slip(alloc, kind, fields, table),
    }
}

/// What the fault of this kind in a row of `signer` is about.
pub fn signer_hint(
    alloc: Global,
    kind: FaultKind,
    fields: &NamedRows<'_>,
    rows: &[Value],
    number: u16,
) -> HintText {
    let Some(row) = row_at(rows, number) else {
        return Ok(None);
    };
    let found = match row {
        Value::Table(table) => table_slip(alloc, kind, fields, rows, table)?,
        _ => no_table(alloc, row)?,
    };
    say_at(
        alloc,
        row_named("signer", usize::from(number), row, "name"),
        found,
    )
}

/// What the fault of this kind in the seal is about.
pub fn seal_hint(
    alloc: Global,
    kind: FaultKind,
    fields: &NamedRows<'_>,
    value: Option<&Value>,
) -> HintText {
    match value {
        Some(Value::Array(_)) => {
            let found = list_slip(alloc, kind, fields, value)?;
            say_at(alloc, "seal", found)
        }
        Some(other) => must_be(
            alloc,
            "seal",
            other,
            "an array: the elements of HNVSK from element 2 on",
        ),
        None => Ok(None),
    }
}
