//! Segments of steps.
ghost use Rattle.std.specs.Prelude.{◌≡◌, true, [], codes};
ghost use Rattle.toml.specs.View.{view, table_view};
ghost use Rattle.fints_script_rows.specs.Parts.{Gives, integer_in, may, must};
ghost use Rattle.fints_script_templates.specs.Elements.{elements_in};
ghost use Rattle.fints_script_templates.specs.Segments.{body_kind, kind_in, segment_in, table_segment};

use crate::elements::elements_in;
use crate::template::{Template, TemplateElements};
use fints_script_rows::keys::SEGMENT_KEYS;
use fints_script_rows::parts::{both, integer_in, required};
use fints_script_rows::{FaultKind, Fields};
use fints_syntax_segments::{Kind, is_frame_kind};
use fints_syntax_texts::document;
use std::alloc::Global;
use toml::{Table, Value};

fn body_kind(text: &str) -> Result<Kind, FaultKind>
    ensures { result ≡ body_kind text.now }
{
    if is_frame_kind(text.as_bytes()) {
        return Err(FaultKind::WrongKind);
    }
    Kind::parse(text.as_bytes()).ok_or(FaultKind::WrongKind)
}

fn kind_in(value: &Value) -> Result<Kind, FaultKind>
    ensures { result ≡ kind_in (view value.now) }
{
    match value {
        Value::String(text) => body_kind(text.as_str()),
        _ => Err(FaultKind::WrongKind),
    }
}

fn kind_at(table: &Table) -> Result<Kind, FaultKind>
    ensures { result ≡ must (table_view table.now) (codes "kind") kind_in }
{
    kind_in(required(table, "kind")?)
}

fn version_at(table: &Table) -> Result<u16, FaultKind>
    ensures { result ≡ must (table_view table.now) (codes "version") (integer_in 1 999) }
{
    integer_in(1, 999, required(table, "version")?)
}

fn elements_at(alloc: Global, fields: &Fields, table: &Table) -> Result<TemplateElements, FaultKind>
    ensures { Gives (λ e. e) result
        (may (table_view table.now) (codes "elements") [] (elements_in fields.now true)) }
{
    match document::member(table, "elements") {
        None => Ok(TemplateElements::new(alloc)),
        Some(value) => elements_in(alloc, fields, true, value),
    }
}

#[tactic(auto, using(fints_script_rows::specs::PartLaws::three_keys), unfolding(crate::specs::Segments::table_segment))]
fn table_segment(alloc: Global, fields: &Fields, table: &Table) -> Result<Template, FaultKind>
    ensures { Gives (λ t. t) result (table_segment fields.now (table_view table.now)) }
{
    if !document::only_keys(table, &SEGMENT_KEYS) {
        return Err(FaultKind::UnknownKey);
    }
    let head = both(kind_at(table), version_at(table));
    let ((kind, version), elements) = both(head, elements_at(alloc, fields, table))?;
    Ok(Template {
        kind,
        version,
        elements,
    })
}

/// The template of a segment's table, or its first fault in the order of the kinds.
pub fn segment_in(alloc: Global, fields: &Fields, row: &Value) -> Result<Template, FaultKind>
    ensures { Gives (λ t. t) result (segment_in fields.now (view row.now)) }
{
    match row {
        Value::Table(table) => table_segment(alloc, fields, table),
        _ => Err(FaultKind::WrongKind),
    }
}
