//! The rows of the steps by their names.
ghost use Rattle.std.specs.Prelude.{◌≡◌, ℕ, List, length, map, option_map, position, take, IfOk};
ghost use Rattle.std.specs.List.{list_any};
ghost use Rattle.toml.specs.View.{view};
ghost use Rattle.fints_syntax_texts.specs.Entries.{is_called, name_in};
ghost use Rattle.fints_script_rows.specs.Places.{HoldsPlaces, place_in};

use crate::places::{NamePlaces, note};
use fints_syntax_hashing::{KeyDigest, KeyedHashing};
use fints_syntax_segments::Memory;
use fints_syntax_texts::entries::text_at;
use indexmap::IndexMap;
use std::alloc::Global;
use std::marker::Model;
use toml::Value;

/// Rows in order, with a map from each name to the place of the first row that has it; a contract
/// sees the rows.
#[derive(Drop)]
pub struct NamedRows<'a> {
    rows: &'a [Value],
    places: NamePlaces<'a>,
}

impl<'a> Model for NamedRows<'a> {
    ghost use Rattle.std.specs.Prelude.{List, map};
    ghost use Rattle.toml.specs.declared.value.Value.{Value as Row};
    ghost use Rattle.toml.specs.View.{view as data_of};
    ghost use Rattle.fints_syntax_texts.specs.Entries.{is_called};
    ghost use Rattle.fints_script_rows.specs.Places.{HoldsPlaces, place_in};
    ghost use Rattle.std.specs.Coded.{codes};
    ghost use Rattle.toml.specs.contracts.value.Value as value;

    ghost Value = { List Row };

    ghost coded = { Prim.hlevel (codes, value.the_row.coded) };

    ghost view = { λ r. r.rows.now };

    ghost invariant = { λ r. HoldsPlaces is_called (map data_of r.rows.now) (place_in r.places) };
}

fn name_in<'a>(row: &'a Value) -> Option<&'a str>
    ensures { option_map (λ name. name.now) result ≡ name_in (view row.now) }
{
    match row {
        Value::Table(table) => text_at(table, "name"),
        _ => None,
    }
}

// The hashing by the names of the rows.
fn name_hashing(rows: &[Value]) -> KeyedHashing {
    let mut names = KeyDigest::new();
    for name in rows.iter().filter_map(|row| name_in(row)) {
        names.add_text(name.as_bytes());
    }
    KeyedHashing::by(names)
}

fn places_of<'a>(alloc: Global, rows: &'a [Value]) -> Result<NamePlaces<'a>, Memory>
    ensures { IfOk result (λ m. HoldsPlaces is_called (map view rows.now) (place_in m)) }
{
    let mut places = IndexMap::with_hasher(alloc, name_hashing(rows));
    for i in 0..rows.len() {
        if let Some(name) = name_in(&rows[i]) {
            note(&mut places, name.as_bytes(), i)?;
        }
    }
    Ok(places)
}

impl<'a> NamedRows<'a> {
    /// The rows of a list.
    pub fn new(alloc: Global, rows: &'a [Value]) -> Result<NamedRows<'a>, Memory>
        ensures { IfOk result (λ r. r ≡ rows.now) }
    {
        let places = places_of(alloc, rows)?;
        Ok(NamedRows { rows, places })
    }

    /// The rows in order.
    pub fn as_slice(&self) -> &'a [Value]
        ensures { result.now ≡ self.now }
    {
        self.rows
    }

    /// The place of the first row of this name, counted from 0.
    pub fn place_of(&self, name: &str) -> Option<usize>
        ensures { result ≡ position (is_called name.now) (map view self.now) }
    {
        self.places.get(name.as_bytes()).copied()
    }

    /// Whether some row has this name.
    pub fn has(&self, name: &str) -> bool
        ensures { result ≡ list_any (is_called name.now) (map view self.now) }
    {
        self.place_of(name).is_some()
    }

    /// Whether one of the first `end` rows has this name.
    pub fn has_before(&self, name: &str, end: usize) -> bool
        ensures { result ≡ list_any (is_called name.now) (take end (map view self.now)) }
    {
        match self.place_of(name) {
            Some(place) => place < end,
            None => false,
        }
    }
}
