//! The fields of a script, read row by row.
ghost use Rattle.std.specs.Prelude.{◌≡◌, ◌≤◌, ◌⊎◌, length, map, Err, IfErr, IfOk};
ghost use Rattle.toml.specs.View.{view};
ghost use Rattle.fints_script_rows.specs.Fields.{field_value};
ghost use Rattle.fints_script_rows.specs.Rows.{no_memory};
ghost use Rattle.fints_script.specs.Scripts.{DenoteFields, dialog_value, fields_from};

use fints_script_fields::{Alphabet, Field, Text};
use fints_script_rows::limits::MAX_FIELDS;
use fints_script_rows::names::dialog;
use fints_script_rows::{Fields, NamedField, Place, ScriptFault, field_in, placed};
use std::alloc::Global;
use toml::Value;

// The built-in field `dialog`: a text of 1 to 30 bytes.
fn dialog_field() -> NamedField
    ensures { field_value result ≡ dialog_value }
{
    NamedField {
        name: dialog(),
        class: Field::Text(Text {
            alphabet: Alphabet::Latin,
            min: 1,
            max: 30,
        }),
    }
}

/// The fields of the rows, after the built-in `dialog`.
pub fn read_fields(alloc: Global, rows: &[Value]) -> Result<Fields, ScriptFault>
    requires { length rows.now ≤ MAX_FIELDS }
    ensures fields { IfOk result (DenoteFields (map view rows.now)) }
    ensures fault { IfErr result (λ f. (f ≡ no_memory) ⊎ (fields_from (map view rows.now) ≡ Err f)) }
{
    let mut fields = Vec::new(alloc);
    fields.push(dialog_field())?;
    for i in 0..rows.len() {
        let field = field_in(alloc, &rows[..i], &rows[i]);
        fields.push(placed(Place::Field(i as u16 + 1), field)?)?;
    }
    Ok(Fields::new(alloc, fields)?)
}
