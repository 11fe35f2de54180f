//! The release rule: which steps leave an order unreleased, and which step's order.
ghost use Rattle.std.specs.Prelude.{◌≡◌, ◌↔◌, ◌<◌, ◌≤◌, ◌+◌, ℕ, length, Some, None, cond, IfOk, IsTrue, MatchOption};
ghost use Rattle.fints_check_reach.specs.Following.{AreBehind};
ghost use Rattle.fints_check_reach.specs.Numbers.{Has};
ghost use Rattle.fints_script.specs.Numbered.{numbered};
ghost use Rattle.fints_script.specs.Plans.{IsClosed};
ghost use Rattle.fints_script.specs.Scripts.{IsRead};
ghost use Rattle.fints_rules.specs.declared.release.TheConstants.{RELEASE};
ghost use Rattle.fints_check_findings.specs.Releases.{AreHolders, AreSubmittingTo, IsHeld, IsUnreleased, IsUnreleasedAt, releases, submits};

use crate::kinds::some_ends;
use crate::tans::some_has_process;
use fints_check_reach::{Numbers, PlanStep, StepBranch, next_step};
use fints_params::Code;
use fints_rules::RELEASE;
use fints_script::{Plan, Step};
use fints_syntax::Memory;
use std::alloc::Global;

/// The code of an answer that has an order wait for its TAN.
pub fn release_code() -> Code
    ensures { result ≡ RELEASE }
{
    Code::from_number(RELEASE).unwrap()
}

// Whether an HKTAN of process 4 submits an order.
fn submits(step: &Step) -> bool
    ensures { result ≡ submits step.now }
{
    some_has_process(step.templates(), b"4")
}

// Whether an HKTAN of process 2 sends a TAN, or an HKEND ends the dialogue.
fn releases(step: &Step) -> bool
    ensures { result ≡ releases step.now }
{
    some_has_process(step.templates(), b"2") || some_ends(step.templates())
}

// The step that a branch of step t leads to after 0030, where it releases nothing. What costs most
// is asked last.
fn unreleased_at(plan: &Plan<'_>, t: usize, at: StepBranch<'_>) -> Option<usize>
    requires { numbered plan.now.script.steps t ≡ Some at.step.now }
    ensures { MatchOption result
        ((s : ℕ) → IsUnreleasedAt plan.now.script.steps t at.entry.step.now at.entry.branch s → ⊥)
        (IsUnreleasedAt plan.now.script.steps t at.entry.step.now at.entry.branch) }
{
    let StepBranch { step, branch } = at;
    let steps = plan.steps();
    match next_step(step, t, step.target(branch)) {
        None => None,
        Some(s) => {
            if releases(&steps[s - 1]) {
                return None;
            }
            if !step.carries(branch, release_code()) {
                return None;
            }
            Some(s)
        }
    }
}

/// For each step whether it submits an order.
pub fn submitting(alloc: Global, plan: &Plan<'_>) -> Result<Vec<bool>, Memory>
    ensures { IfOk result (λ marks.
        AreSubmittingTo plan.now.script.steps (length plan.now.script.steps) marks.items) }
{
    let count = plan.step_count();
    let mut marks = Vec::with_capacity(alloc, count)?;
    for i in 0..count {
        marks.push(submits(plan.step(i + 1)))?;
    }
    Ok(marks)
}

// The step that is kept beside this one, unless it releases what that submits.
fn holder(step: &Step, kept: Option<u16>) -> Option<u16>
    ensures { result ≡ cond (releases step.now) None kept }
{
    if releases(step) { None } else { kept }
}

/// For each step the first step that some run sends and whose order it leaves unreleased, if
/// there is one: the one that the pass has kept for it, unless it releases something.
pub fn holders(
    alloc: Global,
    plan: &Plan<'_>,
    marks: &[bool],
    numbers: &Numbers,
) -> Result<Vec<Option<u16>>, Memory>
    requires marks { AreSubmittingTo plan.now.script.steps (length plan.now.script.steps) marks.now }
    requires behind { AreBehind plan.now.script.steps numbers.now.greatest.items marks.now RELEASE
        numbers.now.behind.items }
    ensures { IfOk result (λ holders.
        AreHolders plan.now.script.steps numbers.now.greatest.items holders.items) }
{
    let count = plan.step_count();
    let mut holders = Vec::with_capacity(alloc, count)?;
    for i in 0..count {
        holders.push(holder(plan.step(i + 1), numbers.behind[i]))?;
    }
    Ok(holders)
}

/// The step that is kept beside step s.
pub fn holder_of(holders: &[Option<u16>], s: usize) -> u16
    requires { (t : ℕ) × Has holders.now s t }
    ensures { Has holders.now s result }
{
    match holders[s - 1] {
        Some(t) => t,
        None => 0,
    }
}

// Whether no step leaves an order of the step unreleased, by heads and literals.
fn is_never_held(at: PlanStep<'_, '_>) -> bool
    ensures read { IsRead at.entry.plan.now.script }
    ensures closed { IsClosed at.entry.plan.now.script at.entry.plan.now.orders }
    ensures none { IsTrue result ↔ ((s : ℕ) → IsHeld at.entry.plan.now.script.steps at.entry.n s → ⊥) }
{
    let PlanStep { plan, n: t } = at;
    let step = plan.step(t);
    if !submits(step) {
        return true;
    }
    for branch in 1..step.branches().len() + 2 {
        if unreleased_at(plan, t, StepBranch { step, branch }).is_some() {
            return false;
        }
    }
    true
}

/// Whether no step leaves an order of the step unreleased. It takes no memory.
pub fn is_released_step(at: PlanStep<'_, '_>) -> bool
    ensures { IsTrue result ↔ ((s : ℕ) → IsUnreleased at.entry.plan.now.script at.entry.n s → ⊥) }
{
    is_never_held(at)
}
