//! Messages that are lost, and those that a logger changed.
ghost use Rattle.std.specs.Prelude.{◌≡◌, ◌∷◌, ◌+◌, ◌-◌, ◌<◌, ℕ, List, false, length, get_or, IfOk, IfSome, IfNone};
ghost use Rattle.fints_rules_logs.specs.Kept.{head_of, is_beside, is_message, IsBesideAfter, IsBesideBefore, IsFirstLost, IsLostBy, NoneLost};
ghost use Rattle.fints_rules_logs.specs.declared.find.Find.{Find as FindValue};

use crate::find::{Find, head_text};
use fints_syntax::Memory;
use std::alloc::Global;

// HNHBK after the size.
fn head_of<'f>(find: &'f Find<'_>) -> &'f [u8]
    ensures { result.now ≡ head_of find.now }
{
    match find {
        Find::Message(found) => head_text(found.bytes()),
        Find::Misfit(misfit) => misfit.head(),
    }
}

fn is_message(find: &Find<'_>) -> bool
    ensures { result ≡ is_message find.now }
{
    match find {
        Find::Message(_) => true,
        Find::Misfit(_) => false,
    }
}

// Whether a message is beside the find: its neighbour, or one beside that.
fn has_beside(find: &Find<'_>, neighbour: &Find<'_>, beside_neighbour: bool) -> bool
    ensures { (further : List FindValue) → beside_neighbour ≡ is_beside (head_of neighbour.now) further
        → result ≡ is_beside (head_of find.now) (neighbour.now ∷ further) }
{
    if head_of(neighbour) != head_of(find) {
        return false;
    }
    is_message(neighbour) || beside_neighbour
}

// The same of the find at a place, of those before it.
fn has_before(finds: &[Find<'_>], place: usize, beside_last: bool) -> bool
    requires { place < length finds.now }
    ensures { (0 < place → IsBesideBefore finds.now (place - 1) beside_last)
        → IsBesideBefore finds.now place result }
{
    if place == 0 {
        return false;
    }
    has_beside(&finds[place], &finds[place - 1], beside_last)
}

// The same of those after it.
fn has_after(finds: &[Find<'_>], place: usize, beside_next: bool) -> bool
    requires { place < length finds.now }
    ensures { (place + 1 < length finds.now → IsBesideAfter finds.now (place + 1) beside_next)
        → IsBesideAfter finds.now place result }
{
    if finds.len() - place == 1 {
        return false;
    }
    has_beside(&finds[place], &finds[place + 1], beside_next)
}

// Whether a message is beside each find, before it.
fn beside_before(alloc: Global, finds: &[Find<'_>]) -> Result<Vec<bool>, Memory>
    ensures len { IfOk result (λ v. length v.items ≡ length finds.now) }
    ensures each { IfOk result (λ v. (place : ℕ) → place < length finds.now
        → IsBesideBefore finds.now place (get_or v.items place false)) }
{
    let mut flags = Vec::new(alloc);
    let mut flag = false;
    for place in 0..finds.len() {
        flag = has_before(finds, place, flag);
        flags.push(flag)?;
    }
    Ok(flags)
}

// The offset at which the find at a place begins, where it is a misfit that is lost.
fn lost_at(find: &Find<'_>, before: bool, after: bool) -> Option<usize>
    ensures some { IfSome result (λ start. IsLostBy find.now before after start) }
    ensures none { IfNone result ((start : ℕ) → IsLostBy find.now before after start → ⊥) }
{
    match find {
        Find::Misfit(misfit) if !before && !after => Some(misfit.start()),
        _ => None,
    }
}

/// The offset at which the first message begins that is lost.
pub fn first_lost(alloc: Global, finds: &[Find<'_>]) -> Result<Option<usize>, Memory>
    ensures some { IfOk result (λ r. IfSome r (λ offset. IsFirstLost finds.now offset)) }
    ensures none { IfOk result (λ r. IfNone r (NoneLost finds.now 0 (length finds.now))) }
{
    let before = beside_before(alloc, finds)?;
    let mut lost = None;
    let mut after = false;
    let mut place = finds.len();
    while place > 0 {
        place -= 1;
        after = has_after(finds, place, after);
        lost = lost_at(&finds[place], before[place], after).or(lost);
    }
    Ok(lost)
}
