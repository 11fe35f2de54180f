//! The class that a field's table names.
ghost use Rattle.std.specs.Prelude.{◌≡◌};
ghost use Rattle.toml.specs.View.{table_view, view};
ghost use Rattle.fints_syntax_texts.specs.Document.{only_keys};
ghost use Rattle.fints_script_rows.specs.Fields.{class_name_in, class_named, class_of, field_keys, is_sized};

use crate::fault::FaultKind;
use crate::keys::{BOUNDED_FIELD_KEYS, FIELD_KEYS, LISTED_FIELD_KEYS};
use crate::parts::required;
use fints_script_fields::Alphabet;
use fints_syntax_texts::document::only_keys;
use toml::{Table, Value};

/// The name of a class.
#[derive(Clone, Copy)]
pub enum ClassName {
    Text(Alphabet),
    Bin,
    OneOf,
    Account,
}

fn class_named(text: &str) -> Result<ClassName, FaultKind>
    ensures { result ≡ class_named text.now }
{
    match text {
        "digits" => Ok(ClassName::Text(Alphabet::Digits)),
        "plain" => Ok(ClassName::Text(Alphabet::Plain)),
        "text" => Ok(ClassName::Text(Alphabet::Latin)),
        "bin" => Ok(ClassName::Bin),
        "oneof" => Ok(ClassName::OneOf),
        "account" => Ok(ClassName::Account),
        _ => Err(FaultKind::WrongKind),
    }
}

fn class_name_in(value: &Value) -> Result<ClassName, FaultKind>
    ensures { result ≡ class_name_in (view value.now) }
{
    match value {
        Value::String(text) => class_named(text.as_str()),
        _ => Err(FaultKind::WrongKind),
    }
}

/// The class of a field's table.
#[tactic(auto, unfolding(crate::specs::Fields::class_of))]
pub fn class_of(table: &Table) -> Result<ClassName, FaultKind>
    ensures { result ≡ class_of (table_view table.now) }
{
    class_name_in(required(table, "class")?)
}

fn is_sized(class: ClassName) -> bool
    ensures { result ≡ is_sized class }
{
    !matches!(class, ClassName::OneOf | ClassName::Account)
}

/// Whether the table has no keys but those of its class.
pub fn only_field_keys(class: Result<ClassName, FaultKind>, table: &Table) -> bool
    ensures { result ≡ only_keys (field_keys class) (table_view table.now) }
{
    match class {
        Err(_) => only_keys(table, &FIELD_KEYS),
        Ok(class) if is_sized(class) => only_keys(table, &BOUNDED_FIELD_KEYS),
        Ok(_) => only_keys(table, &LISTED_FIELD_KEYS),
    }
}
