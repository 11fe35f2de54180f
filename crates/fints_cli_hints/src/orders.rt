//! What the refusal of an order table is about.
use fints_cli_hints_words::guessing::guess_of;
use fints_cli_hints_words::keys::{
    Form, WantedKey, missing_key, must_be, no_table, unknown_key, wrong_value,
};
use fints_cli_hints_words::places::{HintText, row_at, row_named, say, say_at, text_in};
use fints_cli_hints_words::quoting::Quoted;
use fints_cli_hints_words::tables::rows_of;
use fints_cli_hints_words::unread::why_no_toml;
use fints_rules::kinds::{is_plain_order, is_table_kind};
use fints_rules::{MAX_ROWS, TableFault};
use fints_syntax::Kind;
use fints_syntax_texts::document;
use fints_syntax_texts::document::member;
use fints_syntax_texts::entries::text_at;
use std::alloc::Global;
use toml::{Table, Value};

const WORDS: [&str; 3] = ["none", "national", "international"];

// Why an order can't have the kind.
fn bad_kind(text: &str) -> Option<&'static str> {
    match Kind::parse(text.as_bytes()) {
        Some(kind) if is_table_kind(kind) => None,
        Some(kind) if !is_plain_order(kind) => {
            Some("names no account, and may not be in an order table")
        }
        _ => Some(
            "is none of an order; one has five characters A to Z and 0 to 9, and begins with HK or DK",
        ),
    }
}

fn form_slip(alloc: Global, text: &str) -> HintText {
    let guess = guess_of(alloc, &WORDS, text)?;
    say(
        alloc,
        format_args!(
            ": account is {guess}, and must be \"none\", \"national\" or \"international\""
        ),
    )
}

const KEYS: [WantedKey; 4] = [
    WantedKey {
        key: "kind",
        form: Form::Text,
        what: "a text",
    },
    WantedKey {
        key: "version",
        form: Form::Integer,
        what: "a number from 1 to 999, without quotes",
    },
    WantedKey {
        key: "version",
        form: Form::Within(1, 999),
        what: "a number from 1 to 999, without quotes",
    },
    WantedKey {
        key: "account",
        form: Form::Text,
        what: "\"none\", \"national\" or \"international\"",
    },
];

// What is wrong with values of the right forms.
fn wrong_text(alloc: Global, table: &Table) -> HintText {
    let kind = text_at(table, "kind").unwrap_or("");
    match bad_kind(kind) {
        Some(why) => {
            let shown = Quoted(kind);
            say(alloc, format_args!(": the kind {shown} {why}"))
        }
        None => form_slip(alloc, text_at(table, "account").unwrap_or("")),
    }
}

fn table_slip(alloc: Global, table: &Table) -> HintText {
    let keys = ["kind", "version", "account"];
    let found = unknown_key(alloc, table, &keys, "an order")?;
    if found.is_some() {
        return Ok(found);
    }
    let found = missing_key(alloc, table, &keys, "an order")?;
    if found.is_some() {
        return Ok(found);
    }
    match wrong_value(alloc, table, &KEYS)? {
        None => wrong_text(alloc, table),
        found => Ok(found),
    }
}

fn bad_row(alloc: Global, rows: &[Value], number: u16) -> HintText {
    let Some(row) = row_at(rows, number) else {
        return Ok(None);
    };
    let found = match row {
        Value::Table(table) => table_slip(alloc, table)?,
        _ => no_table(alloc, row)?,
    };
    say_at(
        alloc,
        row_named("order", usize::from(number), row, "kind"),
        found,
    )
}

fn version_in(row: &Value) -> Option<i64> {
    match row {
        Value::Table(table) => member(table, "version")?.as_integer(),
        _ => None,
    }
}

fn is_same(a: &Value, b: &Value) -> bool {
    text_in(a, "kind") == text_in(b, "kind") && version_in(a) == version_in(b)
}

fn two_rows(alloc: Global, rows: &[Value], number: u16) -> HintText {
    let Some(row) = row_at(rows, number) else {
        return Ok(None);
    };
    let Some(earlier) = rows.iter().position(|other| is_same(row, other)) else {
        return Ok(None);
    };
    let place = row_named("order", usize::from(number), row, "kind");
    let earlier = earlier.saturating_add(1);
    let version = version_in(row).unwrap_or(0);
    say(
        alloc,
        format_args!("{place}: order {earlier} has the same kind and version ({version}) already"),
    )
}

fn no_rows(alloc: Global, table: &Table) -> HintText {
    match member(table, "order") {
        Some(value) => must_be(
            alloc,
            "order",
            value,
            "an array of tables: write [[order]], with two brackets",
        ),
        None => Ok(None),
    }
}

fn many_rows(alloc: Global, rows: &[Value]) -> HintText {
    let count = rows.len();
    say(
        alloc,
        format_args!("order has {count} rows, and may have {MAX_ROWS}"),
    )
}

fn rows_hint(alloc: Global, number: u16, table: &Table) -> HintText {
    let rows = rows_of(member(table, "order"));
    if number == 0 {
        return no_rows(alloc, table);
    }
    if rows.len() > MAX_ROWS {
        return many_rows(alloc, rows);
    }
    bad_row(alloc, rows, number)
}

fn table_hint(alloc: Global, fault: &TableFault, table: &Table) -> HintText {
    match fault {
        TableFault::UnknownKey => {
            let found = unknown_key(alloc, table, &["order"], "an order table")?;
            say_at(alloc, "top", found)
        }
        TableFault::BadRow { row } => rows_hint(alloc, *row, table),
        TableFault::TwoRows { row } => { two_rows(alloc, rows_of(member(table, "order")), *row) }
        _ => Ok(None),
    }
}

/// What the refusal of an order table is about.
pub fn orders_hint(alloc: Global, fault: &TableFault, text: &[u8]) -> HintText {
    if *fault == TableFault::NotToml {
        return why_no_toml(alloc, text);
    }
    match document::read(alloc, text) {
        Ok(table) => table_hint(alloc, fault, &table),
        Err(_) => Ok(None),
    }
}
