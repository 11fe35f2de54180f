//! The fields of a script by their names.
ghost use Rattle.std.specs.Prelude.{◌≡◌, ℕ, List, IfOk, OnOk};
ghost use Rattle.indexmap.specs.IndexMap.{get};
ghost use Rattle.std.specs.Str.{bytes_eq};
ghost use Rattle.fints_script_rows.specs.NamedFields.{place_of_field, is_field_named, is_account_named, has_accounts, AreNamed};
ghost use Rattle.fints_script_rows.specs.Places.{first_place, HoldsPlaces};

use fints_script_fields::{Field, Name};
use fints_syntax_hashing::{KeyDigest, KeyedHashing};
use fints_syntax_segments::Memory;
use indexmap::IndexMap;
use std::alloc::Global;
use std::marker::Model;

/// A field with its name.
#[derive(Drop)]
pub struct NamedField {
    pub name: Name,
    pub class: Field,
}

/// Whether the field is one of listed accounts.
pub fn is_account(class: &Field) -> bool
    ensures { result ≡ has_accounts class.now }
{
    matches!(class, Field::Account(_))
}

type FieldPlaces = IndexMap<Name, usize, KeyedHashing>;

/// Fields in order, with a map from each name to the place of the first field that has it; a
/// contract sees the fields.
#[derive(Drop)]
pub struct Fields {
    list: Vec<NamedField>,
    places: FieldPlaces,
}

impl Model for Fields {
    ghost use Rattle.std.specs.Prelude.{List};
    ghost use Rattle.std.specs.Str.{bytes_eq};
    ghost use Rattle.indexmap.specs.IndexMap.{get};
    ghost use Rattle.fints_script_rows.specs.NamedFields.{is_field_named, AreNamed};
    ghost use Rattle.fints_script_rows.specs.Places.{HoldsPlaces};
    ghost use Rattle.fints_script_rows.specs.declared.fields.NamedField.{NamedField};

    ghost Value = { List NamedField };

    ghost view = { λ f. f.list.items };

    ghost invariant = { λ f. HoldsPlaces is_field_named f.list.items (get bytes_eq f.places)
        × AreNamed f.list.items };
}

// Notes the place of a name, unless one is there.
fn note(places: &mut FieldPlaces, name: Name, place: usize) -> Result<(), Memory>
    ensures { OnOk result ((q : List ℕ)
        → get bytes_eq places.new q ≡ first_place (get bytes_eq places.old q) (bytes_eq q name) place) }
{
    if !places.contains_key(&name) {
        places.insert(name, place)?;
    }
    Ok(())
}

// The hashing by the names of the fields. The name of each is a `Name`.
fn name_hashing(fields: &[NamedField]) -> KeyedHashing
    ensures { AreNamed fields.now }
{
    let mut names = KeyDigest::new();
    for field in fields {
        names.add_text(field.name.as_bytes());
    }
    KeyedHashing::by(names)
}

// The place of each name. A text that can't be a name names no field.
fn places_of(alloc: Global, fields: &[NamedField]) -> Result<FieldPlaces, Memory>
    ensures places { IfOk result (λ m. HoldsPlaces is_field_named fields.now (get bytes_eq m)) }
    ensures named { IfOk result (λ m. AreNamed fields.now) }
{
    let hashing = name_hashing(fields);
    let mut places = IndexMap::with_hasher(alloc, hashing);
    for i in 0..fields.len() {
        let name = fields[i].name;
        note(&mut places, name, i)?;
    }
    Ok(places)
}

impl Fields {
    /// The fields of a list.
    pub fn new(alloc: Global, list: Vec<NamedField>) -> Result<Fields, Memory>
        ensures { IfOk result (λ f. f ≡ list.items) }
    {
        let places = places_of(alloc, list.as_slice())?;
        Ok(Fields { list, places })
    }

    /// The fields in order.
    pub fn as_slice(&self) -> &[NamedField]
        ensures { result.now ≡ self.now }
    {
        self.list.as_slice()
    }

    /// The place of the first field of this name, counted from 0.
    pub fn place_of(&self, name: &str) -> Option<usize>
        ensures { result ≡ place_of_field self.now name.now }
    {
        let places = &self.places;
        match Name::parse(name.as_bytes()) {
            Some(name) => places.get(&name).copied(),
            None => None,
        }
    }

    /// Whether the first field of this name is one of listed accounts.
    pub fn has_account(&self, name: &str) -> bool
        ensures { result ≡ is_account_named self.now name.now }
    {
        match self.place_of(name) {
            Some(place) => is_account(&self.list[place].class),
            None => false,
        }
    }
}
