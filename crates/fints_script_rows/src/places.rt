//! The places of names.
ghost use Rattle.std.specs.Prelude.{◌≡◌, ℕ, List, OnOk};
ghost use Rattle.std.specs.Str.{bytes_eq};
ghost use Rattle.fints_script_rows.specs.Places.{first_place, place_in};

use fints_syntax_hashing::KeyedHashing;
use fints_syntax_segments::Memory;
use indexmap::IndexMap;

/// The place of the first item of each name, counted from 0.
pub type NamePlaces<'a> = IndexMap<&'a [u8], usize, KeyedHashing>;

/// Notes the place of a name, unless one is there.
pub fn note<'a>(places: &mut NamePlaces<'a>, name: &'a [u8], place: usize) -> Result<(), Memory>
    ensures { OnOk result ((q : List ℕ)
        → place_in places.new q ≡ first_place (place_in places.old q) (bytes_eq q name.now) place) }
{
    if !places.contains_key(name) {
        places.insert(name, place)?;
    }
    Ok(())
}
