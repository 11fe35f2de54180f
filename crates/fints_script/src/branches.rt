//! Branches of steps, and where they lead.
ghost use Rattle.std.specs.Prelude.{◌≡◌, ◌<◌, codes, length, map};
ghost use Rattle.toml.specs.View.{view, table_view};
ghost use Rattle.fints_script_rows.specs.Parts.{Gives, each, must};
ghost use Rattle.fints_script.specs.Steps.{branch_in, branches_in, is_word, on_in, table_branch, target_in, target_named};

use fints_script_cases::{Branch, Pattern, Target};
use fints_script_rows::keys::BRANCH_KEYS;
use fints_script_rows::limits::MAX_BRANCHES;
use fints_script_rows::parts::{at_most, both, entries_of, more, required};
use fints_script_rows::{FaultKind, NamedRows};
use fints_syntax_texts::document;
use std::alloc::Global;
use toml::{Table, Value};

/// Whether the text is `again` or `stop`, which no step may be called.
pub fn is_word(text: &str) -> bool
    ensures { result ≡ is_word text.now }
{
    text == "again" || text == "stop"
}

/// The row of a step, counted from 0, among all rows of `step`.
#[derive(Clone, Copy)]
pub struct StepRow<'a, 'r> {
    pub rows: &'a NamedRows<'r>,
    pub row: usize,
    pub ghost few: { length rows.now < 65535 },
}

fn target_named(at: StepRow<'_, '_>, text: &str) -> Result<Target, FaultKind>
    ensures { result ≡ target_named (map view at.entry.rows.now) at.entry.row text.now }
{
    match text {
        "again" => Ok(Target::Again),
        "stop" => Ok(Target::Stop),
        _ => match at.rows.place_of(text) {
            None => Err(FaultKind::NoSuchName),
            Some(place) if place <= at.row => Err(FaultKind::BackwardJump),
            Some(place) => Ok(Target::Step(place as u16 + 1)),
        },
    }
}

/// Where a target leads from the step in this row, counted from 0.
pub fn target_in(at: StepRow<'_, '_>, value: &Value) -> Result<Target, FaultKind>
    ensures { result ≡ target_in (map view at.entry.rows.now) at.entry.row (view value.now) }
{
    match value {
        Value::String(text) => target_named(at, text.as_str()),
        _ => Err(FaultKind::WrongKind),
    }
}

fn on_in(value: &Value) -> Result<Pattern, FaultKind>
    ensures { result ≡ on_in (view value.now) }
{
    match value {
        Value::String(text) => Pattern::parse(text.as_bytes()).ok_or(FaultKind::BadPattern),
        _ => Err(FaultKind::WrongKind),
    }
}

fn on_at(table: &Table) -> Result<Pattern, FaultKind>
    ensures { result ≡ must (table_view table.now) (codes "on") on_in }
{
    on_in(required(table, "on")?)
}

fn target_at(at: StepRow<'_, '_>, table: &Table) -> Result<Target, FaultKind>
    ensures { result ≡
        must (table_view table.now) (codes "to") (target_in (map view at.entry.rows.now) at.entry.row) }
{
    target_in(at, required(table, "to")?)
}

#[tactic(auto, unfolding(crate::specs::Steps::table_branch))]
fn table_branch(at: StepRow<'_, '_>, table: &Table) -> Result<Branch, FaultKind>
    ensures { result ≡ table_branch (map view at.entry.rows.now) at.entry.row (table_view table.now) }
{
    if !document::only_keys(table, &BRANCH_KEYS) {
        return Err(FaultKind::UnknownKey);
    }
    let (on, to) = both(on_at(table), target_at(at, table))?;
    Ok(Branch { on, to })
}

fn branch_in(at: StepRow<'_, '_>, branch: &Value) -> Result<Branch, FaultKind>
    ensures { result ≡ branch_in (map view at.entry.rows.now) at.entry.row (view branch.now) }
{
    match branch {
        Value::Table(table) => table_branch(at, table),
        _ => Err(FaultKind::WrongKind),
    }
}

fn each_branch(
    alloc: Global,
    at: StepRow<'_, '_>,
    branches: &[Value],
) -> Result<Vec<Branch>, FaultKind>
    ensures { Gives (λ v. v.items) result
        (each (branch_in (map view at.entry.rows.now) at.entry.row) (map view branches.now)) }
{
    let mut read = Ok(Vec::new(alloc));
    for branch in branches {
        read = more(read, branch_in(at, branch));
    }
    read
}

/// The branches of the step in this row, counted from 0.
pub fn branches_in(
    alloc: Global,
    at: StepRow<'_, '_>,
    value: &Value,
) -> Result<Vec<Branch>, FaultKind>
    ensures { Gives (λ v. v.items) result
        (branches_in (map view at.entry.rows.now) at.entry.row (view value.now)) }
{
    at_most(MAX_BRANCHES, each_branch(alloc, at, entries_of(value)?)?)
}
