//! What is wrong with the segments of a step.
use fints_cli_hints_words::elements::elements_slip;
use fints_cli_hints_words::keys::{
    Form, WantedKey, missing_key, no_table, unknown_key, wrong_value,
};
use fints_cli_hints_words::places::{HintText, row_named, say, say_at};
use fints_cli_hints_words::quoting::Quoted;
use fints_script_rows::keys::SEGMENT_KEYS;
use fints_script_rows::{FaultKind, NamedRows};
use fints_syntax::{Kind, is_frame_kind};
use fints_syntax_texts::document::member;
use fints_syntax_texts::entries::text_at;
use std::alloc::Global;
use toml::{Table, Value};

const KEYS: [WantedKey; 3] = [
    WantedKey {
        key: "kind",
        form: Form::Text,
        what: "a text",
    },
    WantedKey {
        key: "version",
        form: Form::Integer,
        what: "a number from 1 to 999, without quotes",
    },
    WantedKey {
        key: "elements",
        form: Form::Array,
        what: "an array: the elements from element 2 on",
    },
];

const VERSION: WantedKey = WantedKey {
    key: "version",
    form: Form::Within(1, 999),
    what: "from 1 to 999",
};

// Why a segment of a step can't have the kind.
fn bad_kind(text: &str) -> Option<&'static str> {
    if is_frame_kind(text.as_bytes()) {
        return Some("is one of the frame, which the keys signers and sealed give a message");
    }
    if Kind::parse(text.as_bytes()).is_none() {
        return Some("is no identifier; one has 1 to 6 characters A to Z and 0 to 9");
    }
    None
}

// What is wrong with values of the right forms.
fn wrong_text(alloc: Global, fields: &NamedRows<'_>, table: &Table) -> HintText {
    let kind = text_at(table, "kind").unwrap_or("");
    match bad_kind(kind) {
        Some(why) => {
            let shown = Quoted(kind);
            say(alloc, format_args!(": the kind {shown} {why}"))
        }
        None => {
            let elements = member(table, "elements");
            elements_slip(alloc, FaultKind::WrongKind, fields, true, elements)
        }
    }
}

fn wrong_kind(alloc: Global, fields: &NamedRows<'_>, table: &Table) -> HintText {
    match wrong_value(alloc, table, &KEYS)? {
        None => wrong_text(alloc, fields, table),
        found => Ok(found),
    }
}

fn table_slip(alloc: Global, kind: FaultKind, fields: &NamedRows<'_>, table: &Table) -> HintText {
    match kind {
        FaultKind::UnknownKey => { unknown_key(alloc, table, &SEGMENT_KEYS, "a segment") }
        FaultKind::Missing => missing_key(alloc, table, &["kind", "version"], "a segment"),
        FaultKind::WrongKind => wrong_kind(alloc, fields, table),
        FaultKind::Limit => wrong_value(alloc, table, &[VERSION]),
        _ => elements_slip(alloc, kind, fields, true, member(table, "elements")),
    }
}

fn row_slip(alloc: Global, kind: FaultKind, fields: &NamedRows<'_>, row: &Value) -> HintText {
    match row {
        Value::Table(table) => table_slip(alloc, kind, fields, table),
        _ if kind == FaultKind::WrongKind => no_table(alloc, row),
        _ => Ok(None),
    }
}

/// The first segment of a step that has a fault of this kind.
pub fn segments_slip(
    alloc: Global,
    kind: FaultKind,
    fields: &NamedRows<'_>,
    rows: &[Value],
) -> HintText {
    for (i, row) in rows.iter().enumerate() {
        let found = row_slip(alloc, kind, fields, row)?;
        if found.is_some() {
            let place = row_named(", segment", i.saturating_add(1), row, "kind");
            return say_at(alloc, place, found);
        }
    }
    Ok(None)
}
