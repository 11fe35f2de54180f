//! What `judge` answers.
ghost use Rattle.std.specs.Prelude.{◌≡◌, map, IfOk};
ghost use Rattle.fints_cli_json.specs.Placed.{AreWithoutCase, here};
ghost use Rattle.fints_cli_json.specs.declared.found.FindingPlace.TheVariants as places;
ghost use Rattle.fints_cli_json.specs.Verdicts.{found_status, judge_members};

use crate::found::JsonFinding;
use crate::objects::{Object, write_list};
use crate::placed::{GivesReasons, placed_here, with_reasons};
use crate::words::judge_word;
use crate::writing::write_heading;
use fints_rules::Broken;
use fints_syntax::Memory;
use json::Writer;
use std::alloc::{AllocError, Global};

/// The rules that a message breaks, in their order.
#[derive(Drop)]
pub struct JsonVerdict {
    pub founds: Vec<JsonFinding>,
}

impl JsonVerdict {
    /// That of the rules that a message breaks, with a reason for each.
    pub fn of<R: GivesReasons>(
        alloc: Global,
        broken: &[Broken],
        reasons: &mut R,
    ) -> Result<JsonVerdict, Memory>
        ensures findings { IfOk result (λ v.
            map (λ f. f.placed) v.founds.items ≡ map (here places.Itself) broken.now) }
        ensures cases { IfOk result (λ v. AreWithoutCase v.founds.items) }
    {
        let placed = placed_here(alloc, broken)?;
        let founds = with_reasons(alloc, placed.as_slice(), reasons)?;
        Ok(JsonVerdict { founds })
    }

    /// The exit status: 0 where nothing is broken, else 1.
    pub fn status(&self) -> u8
        ensures { result ≡ found_status self.now.founds.items }
    {
        if self.founds.is_empty() { 0 } else { 1 }
    }
}

impl Object for JsonVerdict {
    ghost members = { λ v. judge_members v.founds.items };

    #[tactic(auto, using(crate::proofs::ObjectLemmas::then_member))]
    fn write_members(&self, alloc: Global, out: &mut Writer) -> Result<(), AllocError> {
        let status = self.status();
        write_heading(out, "judge", status, judge_word(status))?;
        write_list(alloc, out, "findings", self.founds.as_slice())
    }
}
