//! Fields read from the entries of `field`.
ghost use Rattle.std.specs.Prelude.{◌≡◌, map};
ghost use Rattle.toml.specs.View.{table_view, view};
ghost use Rattle.fints_script_rows.specs.Fields.{class_in, class_value, class_with, field_in, field_value, is_taken_field, table_field};
ghost use Rattle.fints_script_rows.specs.Parts.{Gives};
ghost use Rattle.fints_script_rows.specs.RowNames.{row_name};

use crate::fault::FaultKind;
use crate::field_class::{ClassName, class_of, only_field_keys};
use crate::field_values::{
    accounts_class, accounts_in, lengths_in, listed_in, texts_class, texts_in,
};
use crate::fields::NamedField;
use crate::names::{name_text, new_name};
use crate::parts::both;
use fints_script_fields::{Bin, Field, Name, Text};
use fints_syntax_texts::entries::some_is_named;
use std::alloc::Global;
use toml::{Table, Value};

fn is_taken_field(earlier: &[Value], name: &str) -> bool
    ensures { result ≡ is_taken_field (map view earlier.now) name.now }
{
    name == "dialog" || some_is_named(name, earlier)
}

fn field_name(earlier: &[Value], table: &Table) -> Result<Name, FaultKind>
    ensures { result ≡ row_name (is_taken_field (map view earlier.now)) (table_view table.now) }
{
    let text = name_text(table)?;
    new_name(text, is_taken_field(earlier, text))
}

/// The class of this name that a table's keys give.
#[tactic(auto, unfolding(crate::specs::Fields::class_with))]
fn class_with(alloc: Global, table: &Table, class: ClassName) -> Result<Field, FaultKind>
    ensures { Gives class_value result (class_with (table_view table.now) class) }
{
    match class {
        ClassName::Text(alphabet) => {
            let (min, max) = lengths_in(table)?;
            let class = Text::new(alphabet, min, max).ok_or(FaultKind::Limit)?;
            Ok(Field::Text(class))
        }
        ClassName::Bin => {
            let (min, max) = lengths_in(table)?;
            let class = Bin::new(min, max).ok_or(FaultKind::Limit)?;
            Ok(Field::Bin(class))
        }
        ClassName::OneOf => texts_class(alloc, texts_in(alloc, listed_in(table)?)?),
        ClassName::Account => accounts_class(alloc, accounts_in(alloc, listed_in(table)?)?),
    }
}

fn class_in(alloc: Global, table: &Table) -> Result<Field, FaultKind>
    ensures { Gives class_value result (class_in (table_view table.now)) }
{
    class_with(alloc, table, class_of(table)?)
}

#[tactic(auto, unfolding(crate::specs::Fields::table_field))]
fn table_field(alloc: Global, earlier: &[Value], table: &Table) -> Result<NamedField, FaultKind>
    ensures { Gives field_value result (table_field (map view earlier.now) (table_view table.now)) }
{
    if !only_field_keys(class_of(table), table) {
        return Err(FaultKind::UnknownKey);
    }
    let (name, class) = both(field_name(earlier, table), class_in(alloc, table))?;
    Ok(NamedField { name, class })
}

/// The name and the class of an entry of `field` after earlier ones, or its first fault in the
/// order of the kinds.
pub fn field_in(alloc: Global, earlier: &[Value], entry: &Value) -> Result<NamedField, FaultKind>
    ensures { Gives field_value result (field_in (map view earlier.now) (view entry.now)) }
{
    match entry {
        Value::Table(table) => table_field(alloc, earlier, table),
        _ => Err(FaultKind::WrongKind),
    }
}
