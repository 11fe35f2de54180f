//! Steps, read from the rows of `step`.
ghost use Rattle.std.specs.Prelude.{◌≡◌, ◌<◌, false, [], codes, length, map};
ghost use Rattle.toml.specs.View.{view, table_view};
ghost use Rattle.fints_syntax_texts.specs.Document.{only_keys};
ghost use Rattle.fints_script_rows.specs.Parts.{Gives, each, integer_in, may, must};
ghost use Rattle.fints_script_rows.specs.RowNames.{row_name};
ghost use Rattle.fints_script_templates.specs.Segments.{segment_in};
ghost use Rattle.fints_script.specs.Steps.{branches_in, is_taken_step, sealed_in, segments_in, signature_in, signatures_in, step_in, step_keys, table_step, target_in, with_seal};
ghost use Rattle.fints_script_cases.specs.declared.answers.Target.TheVariants as targets;
ghost use Rattle.fints_script.specs.Around.{seen_parts, surroundings_of};

use crate::around::Around;
use crate::branches::{StepRow, branches_in, is_word, target_in};
use crate::signers::Signers;
use crate::steps::{Parts, Step, sized_step, whole_step};
use fints_script_cases::{Branch, Target};
use fints_script_fields::Name;
use fints_script_rows::keys::STEP_KEYS;
use fints_script_rows::limits::{MAX_REPEAT, MAX_SEGMENTS, MAX_SIGNATURES};
use fints_script_rows::names::{name_text, new_name};
use fints_script_rows::parts::{
    at_most, both, entries_of, flag_in, integer_in, more, not_empty, required,
};
use fints_script_rows::{FaultKind, Fields, NamedRows};
use fints_script_templates::Template;
use fints_script_templates::segments::segment_in;
use fints_syntax_texts::document::{member, only_keys};
use std::alloc::Global;
use toml::{Table, Value};

// ---- what a step sends

fn each_segment(alloc: Global, fields: &Fields, rows: &[Value]) -> Result<Vec<Template>, FaultKind>
    ensures { Gives (λ v. v.items) result (each (segment_in fields.now) (map view rows.now)) }
{
    let mut segments = Ok(Vec::new(alloc));
    for row in rows {
        segments = more(segments, segment_in(alloc, fields, row));
    }
    segments
}

fn segments_in(alloc: Global, fields: &Fields, value: &Value) -> Result<Vec<Template>, FaultKind>
    ensures { Gives (λ v. v.items) result (segments_in fields.now (view value.now)) }
{
    let rows = not_empty(entries_of(value)?)?;
    at_most(MAX_SEGMENTS, each_segment(alloc, fields, rows)?)
}

fn segments_at(alloc: Global, fields: &Fields, table: &Table) -> Result<Vec<Template>, FaultKind>
    ensures { Gives (λ v. v.items) result
        (must (table_view table.now) (codes "segments") (segments_in fields.now)) }
{
    segments_in(alloc, fields, required(table, "segments")?)
}

fn with_seal(has_seal: bool, sealed: bool) -> Result<bool, FaultKind>
    ensures { result ≡ with_seal has_seal sealed }
{
    if sealed && !has_seal {
        return Err(FaultKind::Missing);
    }
    Ok(sealed)
}

fn sealed_in(has_seal: bool, value: &Value) -> Result<bool, FaultKind>
    ensures { result ≡ sealed_in has_seal (view value.now) }
{
    with_seal(has_seal, flag_in(value)?)
}

fn sealed_at(has_seal: bool, table: &Table) -> Result<bool, FaultKind>
    ensures { result ≡ may (table_view table.now) (codes "sealed") false (sealed_in has_seal) }
{
    match member(table, "sealed") {
        None => Ok(false),
        Some(value) => sealed_in(has_seal, value),
    }
}

fn signature_in(signers: &Signers<'_>, entry: &Value) -> Result<usize, FaultKind>
    ensures { result ≡ signature_in signers.now (view entry.now) }
{
    match entry {
        Value::String(name) => { signers.place_of(name.as_str()).ok_or(FaultKind::NoSuchName) }
        _ => Err(FaultKind::WrongKind),
    }
}

fn each_signature(
    alloc: Global,
    signers: &Signers<'_>,
    entries: &[Value],
) -> Result<Vec<usize>, FaultKind>
    ensures { Gives (λ v. v.items) result (each (signature_in signers.now) (map view entries.now)) }
{
    let mut places = Ok(Vec::new(alloc));
    for entry in entries {
        places = more(places, signature_in(signers, entry));
    }
    places
}

fn signatures_in(
    alloc: Global,
    signers: &Signers<'_>,
    value: &Value,
) -> Result<Vec<usize>, FaultKind>
    ensures { Gives (λ v. v.items) result (signatures_in signers.now (view value.now)) }
{
    at_most(
        MAX_SIGNATURES,
        each_signature(alloc, signers, entries_of(value)?)?,
    )
}

fn signatures_at(
    alloc: Global,
    signers: &Signers<'_>,
    table: &Table,
) -> Result<Vec<usize>, FaultKind>
    ensures { Gives (λ v. v.items) result
        (may (table_view table.now) (codes "signers") [] (signatures_in signers.now)) }
{
    match member(table, "signers") {
        None => Ok(Vec::new(alloc)),
        Some(value) => signatures_in(alloc, signers, value),
    }
}

// ---- how often it is sent, and where its answers lead

fn repeat_at(table: &Table) -> Result<u16, FaultKind>
    ensures { result ≡ may (table_view table.now) (codes "repeat") 1 (integer_in 1 MAX_REPEAT) }
{
    match member(table, "repeat") {
        None => Ok(1),
        Some(value) => integer_in(1, MAX_REPEAT, value),
    }
}

fn branches_at(alloc: Global, at: StepRow<'_, '_>, table: &Table) -> Result<Vec<Branch>, FaultKind>
    ensures { Gives (λ v. v.items) result
        (may (table_view table.now) (codes "branches") []
        (branches_in (map view at.entry.rows.now) at.entry.row)) }
{
    match member(table, "branches") {
        None => Ok(Vec::new(alloc)),
        Some(value) => branches_in(alloc, at, value),
    }
}

fn default_at(at: StepRow<'_, '_>, table: &Table) -> Result<Target, FaultKind>
    ensures { result ≡
        may (table_view table.now) (codes "default") targets.Stop
        (target_in (map view at.entry.rows.now) at.entry.row) }
{
    match member(table, "default") {
        None => Ok(Target::Stop),
        Some(value) => target_in(at, value),
    }
}

// ---- the whole step

fn step_name(rows: &NamedRows<'_>, row: usize, table: &Table) -> Result<Name, FaultKind>
    ensures { result ≡ row_name (is_taken_step (map view rows.now) row) (table_view table.now) }
{
    let text = name_text(table)?;
    new_name(text, is_word(text) || rows.has_before(text, row))
}

fn only_step_keys(table: &Table) -> bool
    ensures { result ≡ only_keys step_keys (table_view table.now) }
{
    only_keys(table, &STEP_KEYS)
}

#[tactic(auto, unfolding(crate::specs::Steps::table_step))]
fn parts_in(
    alloc: Global,
    around: &Around<'_, '_>,
    row: usize,
    table: &Table,
) -> Result<Parts, FaultKind>
    ensures { Gives seen_parts result (table_step (surroundings_of around.now) row (table_view table.now)) }
{
    if !only_step_keys(table) {
        return Err(FaultKind::UnknownKey);
    }
    let name = step_name(around.rows, row, table);
    let segments = segments_at(alloc, around.fields, table);
    let sealed = sealed_at(around.seal.is_some(), table);
    let signers = signatures_at(alloc, around.signers, table);
    let sent = both(both(both(name, segments), sealed), signers);
    let rows = around.rows;
    let branches = branches_at(alloc, StepRow { rows, row }, table);
    let otherwise = default_at(StepRow { rows, row }, table);
    both(both(both(sent, repeat_at(table)), branches), otherwise)
}

/// The step in this row, counted from 0, or its first fault in the order of the kinds.
pub fn step_in(
    alloc: Global,
    around: &Around<'_, '_>,
    row: usize,
    entry: &Value,
) -> Result<Step, FaultKind>
    ensures { Gives (λ s. s) result (step_in (surroundings_of around.now) row (view entry.now)) }
{
    match entry {
        Value::Table(table) => {
            let parts = parts_in(alloc, around, row, table)?;
            sized_step(around, whole_step(parts))
        }
        _ => Err(FaultKind::WrongKind),
    }
}
