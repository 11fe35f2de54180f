//! What is wrong with a row of `step`.
use crate::branches::{branches_slip, is_word, target_slip};
use crate::counts::{Most, too_many};
use crate::segments::segments_slip;
use crate::weights::{Parts, size_slip};
use fints_cli_hints_words::guessing::{Named, not_named};
use fints_cli_hints_words::keys::{
    Form, WantedKey, missing_key, must_be, name_taken, no_table, unknown_key, wrong_value,
};
use fints_cli_hints_words::places::{HintText, names_of, row_at, row_named, say, say_at};
use fints_cli_hints_words::quoting::Quoted;
use fints_cli_hints_words::tables::{is_set, rows_of};
use fints_script_rows::keys::STEP_KEYS;
use fints_script_rows::limits::{MAX_BRANCHES, MAX_REPEAT, MAX_SEGMENTS, MAX_SIGNATURES};
use fints_script_rows::{FaultKind, NamedRows};
use fints_syntax_texts::document::member;
use fints_syntax_texts::entries::{some_is_named, text_at};
use std::alloc::Global;
use toml::{Table, Value};

/// What a script has besides the step that is looked at.
#[derive(Clone, Copy)]
pub struct Around<'a, 'r> {
    pub fields: &'a NamedRows<'r>,
    pub signers: &'a [Value],
    pub seal: Option<&'a Value>,
    pub steps: &'a NamedRows<'r>,
}

// The number of the step with a `seal` in its table, which belongs before all tables.
fn step_with_seal(steps: &[Value]) -> Option<usize> {
    for (i, step) in steps.iter().enumerate() {
        if let Value::Table(table) = step
            && member(table, "seal").is_some()
        {
            return Some(i.saturating_add(1));
        }
    }
    None
}

fn no_seal(alloc: Global, steps: &[Value]) -> HintText {
    match step_with_seal(steps) {
        Some(number) => say(
            alloc,
            format_args!(
                ": sealed is true, and \"seal\" is in step {number}, not in the script itself: write it at the top, before all tables"
            ),
        ),
        None => say(
            alloc,
            ": sealed is true, and the script has no key \"seal\" at its top",
        ),
    }
}

fn missing(alloc: Global, around: &Around<'_, '_>, table: &Table) -> HintText {
    match missing_key(alloc, table, &["name", "segments"], "a step")? {
        None if is_set(member(table, "sealed")) && around.seal.is_none() => {
            no_seal(alloc, around.steps.as_slice())
        }
        found => Ok(found),
    }
}

const KEYS: [WantedKey; 6] = [
    WantedKey {
        key: "name",
        form: Form::Name,
        what: "a text",
    },
    WantedKey {
        key: "sealed",
        form: Form::Flag,
        what: "true or false, without quotes",
    },
    WantedKey {
        key: "repeat",
        form: Form::Integer,
        what: "a number from 1 to 99, without quotes",
    },
    WantedKey {
        key: "segments",
        form: Form::List,
        what: "an array of at least one table",
    },
    WantedKey {
        key: "signers",
        form: Form::Array,
        what: "an array of names",
    },
    WantedKey {
        key: "branches",
        form: Form::Array,
        what: "an array of tables",
    },
];

const REPEAT: WantedKey = WantedKey {
    key: "repeat",
    form: Form::Within(1, MAX_REPEAT),
    what: "from 1 to 99",
};

const ENTRIES: [Most; 3] = [
    Most {
        key: "segments",
        most: MAX_SEGMENTS,
    },
    Most {
        key: "signers",
        most: MAX_SIGNATURES,
    },
    Most {
        key: "branches",
        most: MAX_BRANCHES,
    },
];

fn no_name(alloc: Global, word: &str) -> HintText {
    let shown = Quoted(word);
    say(
        alloc,
        format_args!(": no step may be named {shown}, a word that targets have"),
    )
}

fn twice(alloc: Global, steps: &NamedRows<'_>, row: usize, table: &Table) -> HintText {
    let name = text_at(table, "name").unwrap_or("");
    match steps.place_of(name) {
        _ if is_word(name) => no_name(alloc, name),
        Some(place) if place < row => name_taken(alloc, "step", place.saturating_add(1), name),
        _ => Ok(None),
    }
}

fn past(alloc: Global, table: &Table) -> HintText {
    match wrong_value(alloc, table, &[REPEAT])? {
        None => too_many(alloc, table, "entries", &ENTRIES),
        found => Ok(found),
    }
}

// What is wrong with the step's own keys.
fn own_slip(
    alloc: Global,
    kind: FaultKind,
    around: &Around<'_, '_>,
    row: usize,
    table: &Table,
) -> HintText {
    match kind {
        FaultKind::UnknownKey => unknown_key(alloc, table, &STEP_KEYS, "a step"),
        FaultKind::Missing => missing(alloc, around, table),
        FaultKind::WrongKind => wrong_value(alloc, table, &KEYS),
        FaultKind::Duplicate => twice(alloc, around.steps, row, table),
        FaultKind::Limit => past(alloc, table),
        _ => Ok(None),
    }
}

fn no_signer(alloc: Global, signers: &[Value], number: usize, name: &str) -> HintText {
    let names = names_of(alloc, signers, &[])?;
    let named = Named {
        what: "signer",
        names: names.as_slice(),
        remark: "",
    };
    not_named(
        alloc,
        format_args!(", signers, entry {number}"),
        &named,
        name,
    )
}

fn signature_slip(
    alloc: Global,
    kind: FaultKind,
    signers: &[Value],
    number: usize,
    entry: &Value,
) -> HintText {
    match (kind, entry) {
        (FaultKind::NoSuchName, Value::String(name)) if !some_is_named(name.as_str(), signers) => {
            no_signer(alloc, signers, number, name.as_str())
        }
        (_, Value::String(_)) => Ok(None),
        (FaultKind::WrongKind, _) => must_be(
            alloc,
            format_args!(", signers, entry {number}"),
            entry,
            "a text: the name of a signer",
        ),
        _ => Ok(None),
    }
}

fn signatures_slip(
    alloc: Global,
    kind: FaultKind,
    signers: &[Value],
    entries: &[Value],
) -> HintText {
    for (i, entry) in entries.iter().enumerate() {
        let found = signature_slip(alloc, kind, signers, i.saturating_add(1), entry)?;
        if found.is_some() {
            return Ok(found);
        }
    }
    Ok(None)
}

// What is wrong with the step's branches and its default.
fn ways_slip(
    alloc: Global,
    kind: FaultKind,
    steps: &NamedRows<'_>,
    row: usize,
    table: &Table,
) -> HintText {
    match branches_slip(alloc, kind, steps, row, rows_of(member(table, "branches")))? {
        None => {
            let found = target_slip(alloc, kind, steps, row, member(table, "default"))?;
            say_at(alloc, ", default", found)
        }
        found => Ok(found),
    }
}

// What is wrong with the parts of the step.
fn parts_slip(
    alloc: Global,
    kind: FaultKind,
    around: &Around<'_, '_>,
    row: usize,
    table: &Table,
) -> HintText {
    let segments = rows_of(member(table, "segments"));
    let found = segments_slip(alloc, kind, around.fields, segments)?;
    if found.is_some() {
        return Ok(found);
    }
    let entries = rows_of(member(table, "signers"));
    let found = signatures_slip(alloc, kind, around.signers, entries)?;
    if found.is_some() {
        return Ok(found);
    }
    ways_slip(alloc, kind, around.steps, row, table)
}

fn size_of(alloc: Global, around: &Around<'_, '_>, table: &Table) -> HintText {
    let seal = if is_set(member(table, "sealed")) {
        around.seal
    } else {
        None
    };
    let parts = Parts {
        fields: around.fields,
        signers: around.signers,
        seal,
        names: rows_of(member(table, "signers")),
        segments: rows_of(member(table, "segments")),
    };
    size_slip(alloc, &parts)
}

fn table_slip(
    alloc: Global,
    kind: FaultKind,
    around: &Around<'_, '_>,
    row: usize,
    table: &Table,
) -> HintText {
    let found = own_slip(alloc, kind, around, row, table)?;
    if found.is_some() {
        return Ok(found);
    }
    match parts_slip(alloc, kind, around, row, table)? {
        None if kind == FaultKind::Limit => size_of(alloc, around, table),
        found => Ok(found),
    }
}

/// What the fault of this kind in a row of `step` is about.
pub fn step_hint(alloc: Global, kind: FaultKind, around: &Around<'_, '_>, number: u16) -> HintText {
    let Some(row) = row_at(around.steps.as_slice(), number) else {
        return Ok(None);
    };
    let index = usize::from(number).saturating_sub(1);
    let found = match row {
        Value::Table(table) => table_slip(alloc, kind, around, index, table)?,
        _ => no_table(alloc, row)?,
    };
    say_at(
        alloc,
        row_named("step", usize::from(number), row, "name"),
        found,
    )
}
