//! The signers of a script by their names.
ghost use Rattle.std.specs.Prelude.{◌≡◌, IfOk};
ghost use Rattle.fints_script_rows.specs.Places.{HoldsPlaces, place_in};
ghost use Rattle.fints_script.specs.Steps.{is_signer_named, place_of_signer};

use fints_script_rows::places::{NamePlaces, note};
use fints_script_templates::Signer;
use fints_syntax::Memory;
use fints_syntax_hashing::{KeyDigest, KeyedHashing};
use indexmap::IndexMap;
use std::alloc::Global;
use std::marker::Model;

/// Signers in order, with a map from each name to the place of the first signer that has it; a
/// contract sees the signers.
#[derive(Drop)]
pub struct Signers<'a> {
    list: &'a [Signer],
    places: NamePlaces<'a>,
}

impl<'a> Model for Signers<'a> {
    ghost use Rattle.std.specs.Prelude.{List};
    ghost use Rattle.fints_script_rows.specs.Places.{HoldsPlaces, place_in};
    ghost use Rattle.fints_script_templates.specs.declared.template.Signer.{Signer};
    ghost use Rattle.fints_script.specs.Steps.{is_signer_named};

    ghost Value = { List Signer };

    ghost view = { λ s. s.list.now };

    ghost invariant = { λ s. HoldsPlaces is_signer_named s.list.now (place_in s.places) };
}

// The hashing by the names of the signers.
fn name_hashing(signers: &[Signer]) -> KeyedHashing {
    let mut names = KeyDigest::new();
    for signer in signers {
        names.add_text(signer.name.as_bytes());
    }
    KeyedHashing::by(names)
}

fn places_of<'a>(alloc: Global, signers: &'a [Signer]) -> Result<NamePlaces<'a>, Memory>
    ensures { IfOk result (λ m. HoldsPlaces is_signer_named signers.now (place_in m)) }
{
    let mut places = IndexMap::with_hasher(alloc, name_hashing(signers));
    for i in 0..signers.len() {
        note(&mut places, signers[i].name.as_bytes(), i)?;
    }
    Ok(places)
}

impl<'a> Signers<'a> {
    /// The signers of a list.
    pub fn new(alloc: Global, list: &'a [Signer]) -> Result<Signers<'a>, Memory>
        ensures { IfOk result (λ s. s ≡ list.now) }
    {
        let places = places_of(alloc, list)?;
        Ok(Signers { list, places })
    }

    /// The signers in order.
    pub fn as_slice(&self) -> &'a [Signer]
        ensures { result.now ≡ self.now }
    {
        self.list
    }

    /// The place of the first signer of this name, counted from 0.
    pub fn place_of(&self, name: &str) -> Option<usize>
        ensures { result ≡ place_of_signer self.now name.now }
    {
        self.places.get(name.as_bytes()).copied()
    }
}
