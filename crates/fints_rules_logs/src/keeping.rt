//! The messages that were sent, among those that are found.
ghost use Rattle.std.specs.Prelude.{◌≡◌, ◌+◌, ◌<◌, ◌^◌, length, IfOk, OnOk};
ghost use Rattle.fints_rules_logs.specs.Kept.{IsKept, IsRelationToLast, IsSettled};

use crate::find::{Find, Found};
use crate::relating::{Relation, relation_of};
use fints_syntax::Memory;
use std::alloc::Global;

/// How many finds are passed over: copies of the message before them, unsealed twins of the message beside
/// them, and messages that a logger changed.
#[derive(Clone, Copy, Debug, PartialEq, Eq)]
pub struct Passed {
    pub copies: usize,
    pub twins: usize,
    pub changed: usize,
}

// How the next message is related to the last of these.
fn relation_to_last(alloc: Global, kept: &[Found<'_>], next: &Found<'_>) -> Result<Relation, Memory>
    ensures { IfOk result (λ r. IsRelationToLast kept.now next.now r) }
{
    match kept.last() {
        Some(last) => relation_of(alloc, last.bytes(), next.bytes()),
        None => Ok(Relation::Apart),
    }
}

// Takes the next message to those that are kept, or passes it over; its unsealed twins at their end give way to
// it.
fn settle<'a>(
    alloc: Global,
    kept: &mut Vec<Found<'a>>,
    passed: &mut Passed,
    next: Found<'a>,
) -> Result<(), Memory>
    requires { length kept.old.items
        + passed.old.copies + passed.old.twins + passed.old.changed + 1 < 2 ^ 64 }
    ensures settled { OnOk result (IsSettled kept.old.items passed.old next.entry kept.new.items passed.new) }
    ensures counted { OnOk result
        (length kept.new.items + passed.new.copies + passed.new.twins + passed.new.changed
        ≡ length kept.old.items + passed.old.copies + passed.old.twins + passed.old.changed + 1) }
{
    loop {
        match relation_to_last(alloc, kept.as_slice(), &next)? {
            Relation::Copy => {
                passed.copies += 1;
                return Ok(());
            }
            Relation::Unsealed => {
                passed.twins += 1;
                return Ok(());
            }
            Relation::Sealed => {
                passed.twins += 1;
                kept.pop();
            }
            Relation::Apart => {
                kept.push(next)?;
                return Ok(());
            }
        }
    }
}

/// The messages that were sent, and how many finds are passed over. A misfit counts as changed.
pub fn keep<'a>(alloc: Global, finds: Vec<Find<'a>>) -> Result<(Vec<Found<'a>>, Passed), Memory>
    ensures { IfOk result (λ r. IsKept finds.entry.items r.0.items r.1) }
{
    let mut kept = Vec::new(alloc);
    let mut passed = Passed {
        copies: 0,
        twins: 0,
        changed: 0,
    };
    for find in finds {
        match find {
            Find::Message(found) => settle(alloc, &mut kept, &mut passed, found)?,
            Find::Misfit(_) => passed.changed += 1,
        }
    }
    Ok((kept, passed))
}
