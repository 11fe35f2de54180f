//! The top of a script's table: its rows, and its seal's value.
ghost use Rattle.std.specs.Prelude.{◌≡◌, [], codes, map};
ghost use Rattle.toml.specs.View.{view, table_view};
ghost use Rattle.fints_script_rows.specs.Parts.{at_most, may, must, seen};
ghost use Rattle.fints_script.specs.Around.{seen_top};
ghost use Rattle.fints_script.specs.Scripts.{rows_in, step_rows, top_in};

use fints_script_rows::FaultKind;
use fints_script_rows::keys::SCRIPT_KEYS;
use fints_script_rows::limits::{MAX_FIELDS, MAX_SIGNERS, MAX_STEPS};
use fints_script_rows::parts::{both, entries_of, not_empty, required};
use fints_syntax_texts::document::{member, only_keys};
use toml::{Table, Value};

/// The rows of a script, and its seal's value if it has one.
#[derive(Clone, Copy)]
pub struct Top<'a> {
    pub fields: &'a [Value],
    pub signers: &'a [Value],
    pub seal: Option<&'a Value>,
    pub steps: &'a [Value],
}

fn few_rows(most: usize, rows: &[Value]) -> Result<&[Value], FaultKind>
    ensures { seen (λ v. map view v.now) result ≡ at_most most (map view rows.now) }
{
    if rows.len() > most {
        return Err(FaultKind::Limit);
    }
    Ok(rows)
}

fn rows_at<'a>(key: &str, most: usize, table: &'a Table) -> Result<&'a [Value], FaultKind>
    ensures { seen (λ v. map view v.now) result ≡ may (table_view table.now) key.now [] (rows_in most) }
{
    match member(table, key) {
        None => Ok(&[]),
        Some(value) => few_rows(most, entries_of(value)?),
    }
}

fn step_rows(table: &Table) -> Result<&[Value], FaultKind>
    ensures { seen (λ v. map view v.now) result ≡ must (table_view table.now) (codes "step") step_rows }
{
    few_rows(MAX_STEPS, not_empty(entries_of(required(table, "step")?)?)?)
}

/// The top of a script's table, or its first fault in the order of the kinds.
#[tactic(auto, unfolding(crate::specs::Scripts::top_in))]
pub fn top_in(table: &Table) -> Result<Top<'_>, FaultKind>
    ensures { seen seen_top result ≡ top_in (table_view table.now) }
{
    if !only_keys(table, &SCRIPT_KEYS) {
        return Err(FaultKind::UnknownKey);
    }
    let rows = both(
        rows_at("field", MAX_FIELDS, table),
        rows_at("signer", MAX_SIGNERS, table),
    );
    let ((fields, signers), steps) = both(rows, step_rows(table))?;
    Ok(Top {
        fields,
        signers,
        seal: member(table, "seal"),
        steps,
    })
}
