//! TOML tables of bytes, and look-ups in them.
ghost use Rattle.std.specs.Prelude.{◌≡◌, option_map, map};
ghost use Rattle.toml.specs.Data.{get_member};
ghost use Rattle.toml.specs.View.{view, table_view};
ghost use Rattle.fints_syntax_texts.specs.Document.{Reads, document, is_among, only_keys, number_between};

use crate::lines::MAX_TEXT;
use std::alloc::Global;
use toml::{Table, Value};

/// Why bytes gave no table.
#[derive(Clone, Copy, PartialEq, Eq)]
pub enum Unread {
    NotToml,
    Memory,
}

/// The table that the bytes are.
#[tactic(auto, using(crate::proofs::DocumentLemmas::document_some, crate::proofs::DocumentLemmas::document_long, crate::proofs::DocumentLemmas::document_none))]
pub fn read(alloc: Global, text: &[u8]) -> Result<Table, Unread>
    ensures { Reads result (document text.now) }
{
    if text.len() > MAX_TEXT {
        return Err(Unread::NotToml);
    }
    match toml::table_from_slice(alloc, text) {
        Ok(table) => Ok(table),
        Err(e) => {
            if e.is_memory() {
                Err(Unread::Memory)
            } else {
                Err(Unread::NotToml)
            }
        }
    }
}

/// The value at a key.
pub fn member<'a>(table: &'a Table, key: &str) -> Option<&'a Value>
    ensures { option_map (λ v. view v.now) result ≡ get_member key.now (table_view table.now) }
{
    table.get(key)
}

/// Whether the name is one of those.
fn is_among(names: &[&str], name: &str) -> bool
    ensures { result ≡ is_among (map (λ n. n.now) names.now) name.now }
{
    for n in names {
        if *n == name {
            return true;
        }
    }
    false
}

/// Whether each key of the table is one of the names.
pub fn only_keys(table: &Table, names: &[&str]) -> bool
    ensures { result ≡ only_keys (map (λ name. name.now) names.now) (table_view table.now) }
{
    for key in table.keys() {
        if !is_among(&*names, key.as_str()) {
            return false;
        }
    }
    true
}

/// An integer from low to high.
pub fn number_between(low: u16, high: u16, value: &Value) -> Option<u16>
    ensures { result ≡ number_between low high (view value.now) }
{
    match value {
        Value::Integer(n) if i64::from(low) <= *n && *n <= i64::from(high) => Some(*n as u16),
        _ => None,
    }
}
