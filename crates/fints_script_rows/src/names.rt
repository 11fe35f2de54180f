//! Names in the rows of a script.
ghost use Rattle.std.specs.Prelude.{◌≡◌, codes};
ghost use Rattle.toml.specs.View.{table_view, view};
ghost use Rattle.fints_script_rows.specs.Parts.{seen};
ghost use Rattle.fints_script_rows.specs.RowNames.{name_text, new_name, parsed, text_of_name};

use crate::fault::FaultKind;
use crate::parts::required;
use fints_script_fields::Name;
use toml::{Table, Value};

/// The name that the text is, if it is one.
pub fn parsed(text: &str) -> Option<Name>
    ensures { result ≡ parsed text.now }
{
    Name::parse(text.as_bytes())
}

/// The name `dialog`.
pub fn dialog() -> Name
    ensures { result ≡ codes "dialog" }
{
    Name::parse(b"dialog").unwrap()
}

fn text_of_name(value: &Value) -> Result<&str, FaultKind>
    ensures { seen (λ text. text.now) result ≡ text_of_name (view value.now) }
{
    match value {
        Value::String(text) => Ok(text.as_str()),
        _ => Err(FaultKind::WrongKind),
    }
}

/// The text at `name`.
pub fn name_text(table: &Table) -> Result<&str, FaultKind>
    ensures { seen (λ text. text.now) result ≡ name_text (table_view table.now) }
{
    text_of_name(required(table, "name")?)
}

/// The name that the text is, unless it is taken.
pub fn new_name(text: &str, is_taken: bool) -> Result<Name, FaultKind>
    ensures { result ≡ new_name is_taken text.now }
{
    match parsed(text) {
        None => Err(FaultKind::WrongKind),
        Some(_) if is_taken => Err(FaultKind::Duplicate),
        Some(name) => Ok(name),
    }
}
