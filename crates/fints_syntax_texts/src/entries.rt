//! What a table has at its keys.
ghost use Rattle.std.specs.Prelude.{◌≡◌, map, option_map};
ghost use Rattle.std.specs.List.{list_any};
ghost use Rattle.toml.specs.View.{table_view, view};
ghost use Rattle.fints_syntax_texts.specs.Entries.{is_called, text_at};

use crate::document;
use toml::{Table, Value};

/// The text at a key, where it holds a text.
pub fn text_at<'a>(table: &'a Table, key: &str) -> Option<&'a str>
    ensures { option_map (λ text. text.now) result ≡ text_at key.now (table_view table.now) }
{
    document::member(table, key)?.as_str()
}

/// Whether the entry is a table with this name.
pub fn is_named(name: &str, entry: &Value) -> bool
    ensures { result ≡ is_called name.now (view entry.now) }
{
    match entry {
        Value::Table(table) => match document::member(table, "name") {
            Some(Value::String(other)) => name == other.as_str(),
            _ => false,
        },
        _ => false,
    }
}

/// Whether some entry is a table with this name.
pub fn some_is_named(name: &str, entries: &[Value]) -> bool
    ensures { result ≡ list_any (is_called name.now) (map view entries.now) }
{
    for entry in entries {
        if is_named(&*name, entry) {
            return true;
        }
    }
    false
}
