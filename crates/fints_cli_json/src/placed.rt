//! Findings with their reasons.
ghost use Rattle.std.specs.Prelude.{◌≡◌, ◌++◌, ◌∷◌, [], map, IfOk, OnOk};
ghost use Rattle.fints_cli_json.specs.Placed.{AreWithoutCase, here, placed_in};
ghost use Rattle.fints_cli_json.specs.declared.found.FindingPlace.TheVariants as places;

use crate::found::{FindingPlace, JsonFinding, PlacedFinding, Reason};
use fints_rules::Broken;
use fints_rules_dialogues::Audited;
use fints_syntax::Memory;
use std::alloc::Global;

/// What says why rules are broken. No contract says what it says.
pub trait GivesReasons {
    /// Why the rule of the finding at this place in its list, which counts from 0, is broken.
    fn why(&mut self, place: usize) -> Result<Reason, Memory>;
}

/// Each finding with its reason.
pub fn with_reasons<R: GivesReasons>(
    alloc: Global,
    placed: &[PlacedFinding],
    reasons: &mut R,
) -> Result<Vec<JsonFinding>, Memory>
    ensures findings { IfOk result (λ founds. map (λ f. f.placed) founds.items ≡ placed.now) }
    ensures cases { IfOk result (λ founds. AreWithoutCase founds.items) }
{
    let mut founds = Vec::new(alloc);
    for (i, one) in placed.iter().enumerate() {
        let why = reasons.why(i)?;
        founds.push(JsonFinding {
            placed: *one,
            why,
            case: None,
        })?;
    }
    Ok(founds)
}

fn push_placed(
    out: &mut Vec<PlacedFinding>,
    place: &FindingPlace,
    broken: &[Broken],
) -> Result<(), Memory>
    ensures { OnOk result (out.new.items ≡ out.old.items ++ map (here place.now) broken.now) }
{
    for one in broken {
        out.push(PlacedFinding {
            place: *place,
            broken: *one,
        })?;
    }
    Ok(())
}

/// The rules that one message breaks.
pub fn placed_here(alloc: Global, broken: &[Broken]) -> Result<Vec<PlacedFinding>, Memory>
    ensures { IfOk result (λ placed. placed.items ≡ map (here places.Itself) broken.now) }
{
    let mut out = Vec::new(alloc);
    push_placed(&mut out, &FindingPlace::Itself, broken)?;
    Ok(out)
}

/// The rules that the messages of a recorded dialogue break, by their numbers from 1 on.
pub fn placed_in(alloc: Global, audited: &[Audited<'_>]) -> Result<Vec<PlacedFinding>, Memory>
    ensures { IfOk result (λ placed. placed.items ≡ placed_in 1 audited.now) }
{
    let mut out = Vec::new(alloc);
    for (i, one) in audited.iter().enumerate() {
        let place = FindingPlace::Message(i as u64 + 1);
        push_placed(&mut out, &place, one.broken.as_slice())?;
    }
    Ok(out)
}
