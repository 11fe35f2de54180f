//! What the open branches of a step lead to: those that some answer fires. Flags say which are open,
//! so that no branch is asked again whether an answer fires it.
ghost use Rattle.std.specs.Prelude.{◌≡◌, ◌↔◌, ◌≤◌, ◌-◌, length, slice_get, Some, true, IsTrue, MatchOption};
ghost use Rattle.fints_script_cases.specs.declared.answers.Target.{Target};
ghost use Rattle.fints_check_reach.specs.Leading.{Leads};
ghost use Rattle.fints_check_reach.specs.Passes.{AreOpen, IsOpenAt, IsSpare, IsWay, IsNoWay, target_at};

use fints_script::{Step, Target};

fn is_open(flags: &[bool], b: usize) -> bool
    ensures { IsTrue result ↔ (slice_get flags.now b ≡ Some true) }
{
    match flags.get(b) {
        Some(flag) => *flag,
        None => false,
    }
}

/// A branch of a step by its place, counted from 0, with the flags of the step's branches.
#[derive(Clone, Copy)]
pub struct FlaggedBranch<'a> {
    pub step: &'a Step,
    pub flags: &'a [bool],
    pub b: usize,
    pub ghost to: { b ≤ length step.now.branches },
}

// Where a branch leads, if it is open.
fn open_target(at: FlaggedBranch<'_>) -> Option<Target>
    requires { AreOpen at.step.now at.flags.now }
    ensures { MatchOption result
        (IsOpenAt at.entry.step.now at.entry.b → ⊥)
        (λ to. IsOpenAt at.entry.step.now at.entry.b × (target_at at.entry.step.now at.entry.b ≡ to)) }
{
    if !is_open(at.flags, at.b) {
        return None;
    }
    Some(at.step.target(at.b + 1))
}

/// The later step that a branch leads to, if it is open.
pub fn later_step(at: FlaggedBranch<'_>) -> Option<u16>
    requires { AreOpen at.step.now at.flags.now }
    ensures { MatchOption result (IsNoWay at.entry.step.now at.entry.b) (IsWay at.entry.step.now at.entry.b) }
{
    match open_target(at) {
        Some(Target::Step(to)) => Some(to),
        _ => None,
    }
}

// Whether a branch is open and has the same step sent again.
fn is_again(at: FlaggedBranch<'_>) -> bool
    requires { AreOpen at.step.now at.flags.now }
    ensures { IsTrue result ↔ IsOpenAt at.entry.step.now at.entry.b
        × (target_at at.entry.step.now at.entry.b ≡ Target.Again) }
{
    match open_target(at) {
        None => false,
        Some(target) => matches!(target, Target::Again),
    }
}

/// How many more messages of a step than one may be sent in a row.
pub fn spare(step: &Step, flags: &[bool]) -> u32
    requires flags { AreOpen step.now flags.now }
    requires once { 1 ≤ step.now.repeat }
    ensures { IsSpare step.now result }
{
    for b in 0..step.branches().len() + 1 {
        if is_again(FlaggedBranch { step, flags, b }) {
            return step.repeat() as u32 - 1;
        }
    }
    0
}
