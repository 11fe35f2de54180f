//! Which branch of a step an answer fires, and which branches some answer fires.
ghost use Rattle.std.specs.Prelude.{◌≡◌, ◌↔◌, ℕ, ◌+◌, ◌-◌, ◌*◌, ◌<◌, ◌≤◌, length, take, slice_get, All, IsTrue, IsFalse, IsSome, IfSome, MatchOption};
ghost use Rattle.std.specs.List.{find, list_any};
ghost use Rattle.std.specs.Option.{ForSome};
ghost use Rattle.fints_script_cases.specs.CodeBlocks.{HasFree, IsBarren, size_at, has_digit};
ghost use Rattle.fints_script_cases.specs.Patterns.{matches};
ghost use Rattle.fints_script_cases.specs.Answers.{matches_some, leads, target_of, IsOpen, IsOpener, IsLeastOpener};

use crate::branch_at::BranchAt;
use crate::pattern::{EarlierPlace, Pattern, digits_of, size_at};
use fints_params::Code;

/// Where a branch leads.
#[derive(Clone, Copy, PartialEq, Eq)]
pub enum Target {
    /// The step of this number, from 1.
    Step(u16),
    /// The same step.
    Again,
    /// Nowhere: the run is over.
    Stop,
}

/// An answer with a code that the pattern matches leads to the target.
#[derive(Clone, Copy, PartialEq, Eq)]
pub struct Branch {
    pub on: Pattern,
    pub to: Target,
}

/// The first branch that matches one of the codes.
fn first_match(branches: &[Branch], codes: &[Code]) -> Option<Branch>
    ensures { result ≡ find (matches_some codes.now) branches.now }
{
    branches
        .iter()
        .copied()
        .find(|branch| branch.on.matches_any(codes))
}

/// Where an answer leads: to the target of the first branch that matches one of its codes.
pub fn choose(branches: &[Branch], otherwise: Target, codes: &[Code]) -> Target
    ensures { result ≡ leads branches.now otherwise codes.now }
{
    first_match(branches, codes).map_or(otherwise, |branch| branch.to)
}

/// Where a branch leads, counted from 1; the default counts as the last.
pub fn target_of(at: BranchAt<'_>, otherwise: Target) -> Target
    ensures { result ≡ target_of at.entry.branches.now otherwise at.entry.branch }
{
    at.branches
        .get(at.branch - 1)
        .map_or(otherwise, |own| own.to)
}

/// Whether the branch, counted from 1, has no pattern, or `*` at a place of it.
fn is_free(at: BranchAt<'_>, place: EarlierPlace) -> bool
    ensures { IsTrue result → HasFree at.entry.branches.now at.entry.branch place.index }
{
    match at.branches.get(at.branch - 1) {
        Some(own) => own.on.is_free(place),
        None => true,
    }
}

/// Whether one of these has the digit at a place, and fits the digits before it.
fn is_told(earlier: &[Branch], digits: [u8; 4], place: EarlierPlace, digit: u8) -> bool
    ensures { result ≡ list_any (λ branch. has_digit branch.on digits place.index digit) earlier.now }
{
    earlier
        .iter()
        .any(|branch| branch.on.has_digit(digits, place, digit))
}

/// Whether no code of those with the same digits before a place opens the branch, if none below this
/// one does: no earlier pattern singles out the digit before its digit there.
fn is_spent(at: BranchAt<'_>, code: Code, place: EarlierPlace) -> bool
    ensures { IsTrue result → IsBarren at.entry.branches.now at.entry.branch code (10 * size_at place.index) }
{
    let digits = digits_of(code);
    if digits[place.index] == b'0'
        || code.number() % size_at(place.index) != 0
        || !is_free(at, place)
    {
        return false;
    }
    let below = digits[place.index] - 1;
    !is_told(&at.branches[..at.branch - 1], digits, place, below)
}

/// The greatest block about the code that is spent so, if one is.
fn spent_block(at: BranchAt<'_>, code: Code) -> Option<u16>
    ensures { IfSome result (IsBarren at.entry.branches.now at.entry.branch code) }
{
    for index in 0..3 {
        let place = EarlierPlace { index };
        if is_spent(at, code, place) {
            return Some(10 * size_at(index));
        }
    }
    None
}

/// A block about the code in which the branch's own pattern matches no code.
fn missed_block(at: BranchAt<'_>, code: Code) -> Option<u16>
    ensures { MatchOption result
        (ForSome (slice_get at.entry.branches.now (at.entry.branch - 1))
        (λ own. IsTrue (matches own.on code)))
        (IsBarren at.entry.branches.now at.entry.branch code) }
{
    if at.branches.len() < at.branch {
        return None;
    }
    at.branches[at.branch - 1].on.missed(code)
}

/// A block about the code in which an earlier pattern matches every code.
fn taken_block(at: BranchAt<'_>, code: Code) -> Option<u16>
    ensures { MatchOption result
        (All (λ earlier. IsFalse (matches earlier.on code))
        (take (at.entry.branch - 1) at.entry.branches.now))
        (IsBarren at.entry.branches.now at.entry.branch code) }
{
    for earlier in &at.branches[..at.branch - 1] {
        if earlier.on.matches(code) {
            return Some(earlier.on.block());
        }
    }
    None
}

/// A block about the code in which none opens the branch, if none below it does; none if the code
/// opens it.
fn barren_block(at: BranchAt<'_>, code: Code) -> Option<u16>
    ensures { MatchOption result
        (IsOpener at.entry.branches.now at.entry.branch code)
        (IsBarren at.entry.branches.now at.entry.branch code) }
{
    if let Some(size) = spent_block(at, code) {
        return Some(size);
    }
    if let Some(size) = missed_block(at, code) {
        return Some(size);
    }
    taken_block(at, code)
}

/// The least code that matches a branch and no earlier one. Branches count from 1, and the default
/// counts as the last. It passes over blocks of codes, so that few are looked at, whatever the
/// patterns.
pub fn opener(at: BranchAt<'_>) -> Option<Code>
    ensures open { IsSome result ↔ IsOpen at.entry.branches.now at.entry.branch }
    ensures least { IfSome result (IsLeastOpener at.entry.branches.now at.entry.branch) }
{
    let mut number = 0;
    while let Some(code) = Code::from_number(number) {
        let Some(size) = barren_block(at, code) else {
            return Some(code);
        };
        number = (number / size + 1) * size;
    }
    None
}
