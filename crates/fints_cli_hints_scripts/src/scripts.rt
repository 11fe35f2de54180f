//! What the refusal of a script is about.
use crate::counts::{Most, too_many};
use crate::fields::field_hint;
use crate::signers::{seal_hint, signer_hint};
use crate::steps::{Around, step_hint};
use fints_cli_hints_words::keys::{Form, WantedKey, missing_key, unknown_key, wrong_value};
use fints_cli_hints_words::places::{HintText, say_at};
use fints_cli_hints_words::tables::rows_of;
use fints_cli_hints_words::unread::{too_long, why_no_toml};
use fints_script_rows::keys::SCRIPT_KEYS;
use fints_script_rows::limits::{MAX_FIELDS, MAX_SIGNERS, MAX_STEPS};
use fints_script_rows::{FaultKind, NamedRows, Place, ScriptFault};
use fints_syntax::Memory;
use fints_syntax_texts::document::member;
use fints_syntax_texts::{MAX_TEXT, document};
use std::alloc::Global;
use toml::Table;

const KEYS: [WantedKey; 3] = [
    WantedKey {
        key: "field",
        form: Form::Array,
        what: "an array of tables: write [[field]], with two brackets",
    },
    WantedKey {
        key: "signer",
        form: Form::Array,
        what: "an array of tables: write [[signer]], with two brackets",
    },
    WantedKey {
        key: "step",
        form: Form::List,
        what: "an array of at least one table: write [[step]], with two brackets",
    },
];

const ROWS: [Most; 3] = [
    Most {
        key: "field",
        most: MAX_FIELDS,
    },
    Most {
        key: "signer",
        most: MAX_SIGNERS,
    },
    Most {
        key: "step",
        most: MAX_STEPS,
    },
];

fn top_slip(alloc: Global, kind: FaultKind, table: &Table) -> HintText {
    match kind {
        FaultKind::UnknownKey => unknown_key(alloc, table, &SCRIPT_KEYS, "a script"),
        FaultKind::Missing => missing_key(alloc, table, &["step"], "a script"),
        FaultKind::WrongKind => wrong_value(alloc, table, &KEYS),
        FaultKind::Limit => too_many(alloc, table, "rows", &ROWS),
        _ => Ok(None),
    }
}

fn top_hint(alloc: Global, kind: FaultKind, table: &Table) -> HintText {
    let found = top_slip(alloc, kind, table)?;
    say_at(alloc, "top", found)
}

fn fields_of(alloc: Global, table: &Table) -> Result<NamedRows<'_>, Memory> {
    NamedRows::new(alloc, rows_of(member(table, "field")))
}

fn steps_hint(alloc: Global, kind: FaultKind, table: &Table, row: u16) -> HintText {
    let fields = fields_of(alloc, table)?;
    let steps = NamedRows::new(alloc, rows_of(member(table, "step")))?;
    let around = Around {
        fields: &fields,
        signers: rows_of(member(table, "signer")),
        seal: member(table, "seal"),
        steps: &steps,
    };
    step_hint(alloc, kind, &around, row)
}

// Too many rows are a fault of the top, so names are looked up among as many as a script may have.
fn table_hint(alloc: Global, fault: &ScriptFault, table: &Table) -> HintText {
    let ScriptFault { place, kind } = *fault;
    match place {
        Place::Top => top_hint(alloc, kind, table),
        Place::Field(row) => {
            let fields = fields_of(alloc, table)?;
            field_hint(alloc, kind, &fields, row)
        }
        Place::Signer(row) => {
            let fields = fields_of(alloc, table)?;
            let signers = rows_of(member(table, "signer"));
            signer_hint(alloc, kind, &fields, signers, row)
        }
        Place::Seal => {
            let fields = fields_of(alloc, table)?;
            seal_hint(alloc, kind, &fields, member(table, "seal"))
        }
        Place::Step(row) => steps_hint(alloc, kind, table, row),
    }
}

/// What the refusal of a script is about.
pub fn script_hint(alloc: Global, fault: &ScriptFault, text: &[u8]) -> HintText {
    if fault.kind == FaultKind::NotToml {
        return why_no_toml(alloc, text);
    }
    if text.len() > MAX_TEXT {
        return too_long(alloc, text);
    }
    match document::read(alloc, text) {
        Ok(table) => table_hint(alloc, fault, &table),
        Err(_) => Ok(None),
    }
}
