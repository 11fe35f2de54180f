//! What is wrong with the branches of a step, and with targets.
use fints_cli_hints_words::guessing::{Named, not_named};
use fints_cli_hints_words::keys::{
    Form, WantedKey, missing_key, must_be, no_table, unknown_key, wrong_value,
};
use fints_cli_hints_words::places::{HintText, names_of, numbered, say, say_at};
use fints_cli_hints_words::quoting::{Quoted, misfit_of};
use fints_script_cases::Pattern;
use fints_script_rows::keys::BRANCH_KEYS;
use fints_script_rows::{FaultKind, NamedRows};
use fints_syntax_texts::document::member;
use fints_syntax_texts::entries::text_at;
use std::alloc::Global;
use toml::{Table, Value};

const TARGET: &str = "a text: the name of a later step, \"again\" or \"stop\"";

const KEYS: [WantedKey; 2] = [
    WantedKey {
        key: "on",
        form: Form::Text,
        what: "a text, as in \"0030\"",
    },
    WantedKey {
        key: "to",
        form: Form::Text,
        what: TARGET,
    },
];

/// Whether a target of this text is no name of a step.
pub fn is_word(text: &str) -> bool {
    text == "again" || text == "stop"
}

fn no_step(alloc: Global, steps: &NamedRows<'_>, text: &str) -> HintText {
    let names = names_of(alloc, steps.as_slice(), &["again", "stop"])?;
    let named = Named {
        what: "step",
        names: names.as_slice(),
        remark: "",
    };
    not_named(alloc, "", &named, text)
}

fn backward(alloc: Global, place: usize, row: usize, text: &str) -> HintText {
    let shown = Quoted(text);
    if place == row {
        return say(
            alloc,
            format_args!(
                ": {shown} is this step itself; to send it once more write \"again\", and give it the key repeat"
            ),
        );
    }
    let number = place.saturating_add(1);
    say(
        alloc,
        format_args!(
            ": {shown} is step {number}, an earlier one; a target is a later step, \"again\" or \"stop\""
        ),
    )
}

fn name_slip(
    alloc: Global,
    kind: FaultKind,
    steps: &NamedRows<'_>,
    row: usize,
    text: &str,
) -> HintText {
    if is_word(text) {
        return Ok(None);
    }
    match (kind, steps.place_of(text)) {
        (FaultKind::NoSuchName, None) => no_step(alloc, steps, text),
        (FaultKind::BackwardJump, Some(place)) if place <= row => {
            backward(alloc, place, row, text)
        }
        _ => Ok(None),
    }
}

/// The fault of this kind in a target of the step in this row, counted from 0, which is at a key.
pub fn target_slip(
    alloc: Global,
    kind: FaultKind,
    steps: &NamedRows<'_>,
    row: usize,
    target: Option<&Value>,
) -> HintText {
    match target {
        Some(Value::String(text)) => name_slip(alloc, kind, steps, row, text.as_str()),
        Some(value) if kind == FaultKind::WrongKind => must_be(alloc, "", value, TARGET),
        _ => Ok(None),
    }
}

fn pattern_slip(alloc: Global, text: &str) -> HintText {
    if Pattern::parse(text.as_bytes()).is_some() {
        return Ok(None);
    }
    let misfit = misfit_of(text, text.chars().find(|ch| !matches!(ch, '*' | '0'..='9')));
    let shown = Quoted(text);
    say(
        alloc,
        format_args!(": the pattern {shown} has {misfit}; a pattern has four, each a digit or *"),
    )
}

fn table_slip(
    alloc: Global,
    kind: FaultKind,
    steps: &NamedRows<'_>,
    row: usize,
    table: &Table,
) -> HintText {
    match kind {
        FaultKind::UnknownKey => unknown_key(alloc, table, &BRANCH_KEYS, "a branch"),
        FaultKind::Missing => missing_key(alloc, table, &BRANCH_KEYS, "a branch"),
        FaultKind::WrongKind => wrong_value(alloc, table, &KEYS),
        FaultKind::BadPattern => pattern_slip(alloc, text_at(table, "on").unwrap_or("****")),
        _ => target_slip(alloc, kind, steps, row, member(table, "to")),
    }
}

fn branch_slip(
    alloc: Global,
    kind: FaultKind,
    steps: &NamedRows<'_>,
    row: usize,
    branch: &Value,
) -> HintText {
    match branch {
        Value::Table(table) => table_slip(alloc, kind, steps, row, table),
        _ if kind == FaultKind::WrongKind => no_table(alloc, branch),
        _ => Ok(None),
    }
}

/// The first branch, of the step in this row, counted from 0, that has a fault of this kind.
pub fn branches_slip(
    alloc: Global,
    kind: FaultKind,
    steps: &NamedRows<'_>,
    row: usize,
    branches: &[Value],
) -> HintText {
    for (i, branch) in branches.iter().enumerate() {
        let found = branch_slip(alloc, kind, steps, row, branch)?;
        if found.is_some() {
            return say_at(alloc, numbered(", branch", i.saturating_add(1)), found);
        }
    }
    Ok(None)
}
