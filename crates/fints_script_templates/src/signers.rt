//! Signers and the seal.
ghost use Rattle.std.specs.Prelude.{◌≡◌, map};
ghost use Rattle.std.specs.List.{list_any};
ghost use Rattle.toml.specs.View.{view, table_view};
ghost use Rattle.fints_syntax_texts.specs.Entries.{is_called};
ghost use Rattle.fints_script_rows.specs.Parts.{Gives, must};
ghost use Rattle.fints_script_rows.specs.RowNames.{row_name};
ghost use Rattle.fints_script_templates.specs.Signers.{few_items, frame_in, signer_in, table_signer};

use crate::elements::elements_in;
use crate::template::{Signer, TemplateElements};
use crate::weights::has_many_items;
use fints_script_fields::Name;
use fints_script_rows::keys::SIGNER_KEYS;
use fints_script_rows::names::{name_text, new_name};
use fints_script_rows::parts::{both, required};
use fints_script_rows::{FaultKind, Fields};
use fints_syntax_texts::document;
use fints_syntax_texts::entries::some_is_named;
use std::alloc::Global;
use toml::{Table, Value};

fn few_items(elements: TemplateElements) -> Result<TemplateElements, FaultKind>
    ensures { result ≡ few_items elements }
{
    if has_many_items(&elements) {
        return Err(FaultKind::Limit);
    }
    Ok(elements)
}

/// The elements of a signer's segment or of the seal, or the first fault in them in the order of the
/// kinds.
pub fn frame_in(
    alloc: Global,
    fields: &Fields,
    value: &Value,
) -> Result<TemplateElements, FaultKind>
    ensures { Gives (λ e. e) result (frame_in fields.now (view value.now)) }
{
    few_items(elements_in(alloc, fields, false, value)?)
}

fn frame_at(
    alloc: Global,
    key: &str,
    fields: &Fields,
    table: &Table,
) -> Result<TemplateElements, FaultKind>
    ensures { Gives (λ e. e) result (must (table_view table.now) key.now (frame_in fields.now)) }
{
    frame_in(alloc, fields, required(table, key)?)
}

fn signer_name(earlier: &[Value], table: &Table) -> Result<Name, FaultKind>
    ensures { result ≡ row_name (λ name. list_any (is_called name) (map view earlier.now))
        (table_view table.now) }
{
    let text = name_text(table)?;
    new_name(text, some_is_named(text, earlier))
}

#[tactic(auto, unfolding(crate::specs::Signers::table_signer))]
fn table_signer(
    alloc: Global,
    fields: &Fields,
    earlier: &[Value],
    table: &Table,
) -> Result<Signer, FaultKind>
    ensures { Gives (λ s. s) result (table_signer fields.now (map view earlier.now) (table_view table.now)) }
{
    if !document::only_keys(table, &SIGNER_KEYS) {
        return Err(FaultKind::UnknownKey);
    }
    let head = frame_at(alloc, "head", fields, table);
    let end = frame_at(alloc, "end", fields, table);
    let ((name, head), end) = both(both(signer_name(earlier, table), head), end)?;
    Ok(Signer { name, head, end })
}

/// The signer of a row after earlier ones, or its first fault in the order of the kinds.
pub fn signer_in(
    alloc: Global,
    fields: &Fields,
    earlier: &[Value],
    row: &Value,
) -> Result<Signer, FaultKind>
    ensures { Gives (λ s. s) result (signer_in fields.now (map view earlier.now) (view row.now)) }
{
    match row {
        Value::Table(table) => table_signer(alloc, fields, earlier, table),
        _ => Err(FaultKind::WrongKind),
    }
}
