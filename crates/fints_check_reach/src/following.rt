//! Which step an answer with a code may have sent next after a step's message, and answers that do.
ghost use Rattle.std.specs.Prelude.{◌≡◌, ◌↔◌, ◌<◌, ◌≤◌, ◌+◌, ◌++◌, ◌∷◌, [], ℕ, length, Some, IsTrue, MatchOption, IfOk, IfSome};
ghost use Rattle.fints_script_cases.specs.declared.answers.Target.{Target};
ghost use Rattle.fints_script_cases.specs.Answers.{IsOpen};
ghost use Rattle.fints_script.specs.Numbered.{numbered};
ghost use Rattle.fints_script.specs.Steps.{StepValue};
ghost use Rattle.fints_check_reach.specs.Following.{CarriesTo, GoesTo, IsCarriedTo, LeadsByFirstBranch, LeadsToward};
ghost use Rattle.fints_check_reach.specs.Numbers.{Has};
ghost use Rattle.fints_check_reach.specs.Sources.{AreSources};

use crate::plan_step::{StepBranch, WayTo};
use crate::way::{longest_way, way_into};
use fints_params::Code;
use fints_script::{Answer, Step, Target};
use fints_syntax::Memory;
use std::alloc::Global;

/// The step that a target has sent next after a message of step t.
pub fn next_step(step: &Step, t: usize, target: Target) -> Option<usize>
    ensures { (s : ℕ) → GoesTo step.now t target s ↔ (result ≡ Some s) }
{
    match target {
        Target::Step(to) => Some(to as usize),
        Target::Again => { if step.repeat() >= 2 { Some(t) } else { None } }
        Target::Stop => None,
    }
}

/// The step that a branch of step n goes to, if the branch, which some answer fires, carries the code.
/// Branches count from 1.
pub fn carried_step(at: StepBranch<'_>, n: usize, code: Code) -> Option<usize>
    requires { IsOpen at.step.now.branches at.branch }
    ensures { MatchOption result
        ((s : ℕ) → IsCarriedTo at.entry.step.now n at.entry.branch code s → ⊥)
        (λ s. IsCarriedTo at.entry.step.now n at.entry.branch code s) }
{
    let StepBranch { step, branch } = at;
    match next_step(step, n, step.target(branch)) {
        Some(s) => {
            if step.passes(branch, code) {
                Some(s)
            } else {
                None
            }
        }
        None => None,
    }
}

/// The first branch of step t that carries the code and goes to step s, if one does: so a step may
/// follow itself only where it may be sent more than once in a row. Branches count from 1, and the
/// default counts as the last.
pub fn branch_to(step: &Step, t: usize, code: Code, s: usize) -> Option<usize>
    ensures carried { MatchOption result
        (CarriesTo step.now t code s → ⊥)
        (λ branch. IsCarriedTo step.now t branch code s) }
    ensures first { IfSome result (λ branch. (earlier : ℕ) → 1 ≤ earlier → earlier < branch
        → IsCarriedTo step.now t earlier code s → ⊥) }
{
    for branch in 1..step.branches().len() + 2 {
        if next_step(step, t, step.target(branch)) == Some(s) && step.carries(branch, code) {
            return Some(branch);
        }
    }
    None
}

// Answers that lead to step t: to its greatest number, or to the first message of the row that ends
// with it where the step is to follow itself.
fn way_toward(alloc: Global, way: WayTo<'_, '_>, target: Target) -> Result<Vec<Answer>, Memory>
    requires sources { AreSources way.plan.now.script.steps way.numbers.now.greatest.items
        way.numbers.now.sources.items }
    requires reached { (number : ℕ) × Has way.numbers.now.greatest.items way.n number }
    ensures { IfOk result (λ answers.
        LeadsToward way.entry.plan.now.script.steps way.entry.numbers.now.greatest.items way.entry.n
        target answers.items) }
{
    match target {
        Target::Again => way_into(alloc, way),
        _ => longest_way(alloc, way),
    }
}

/// Answers after which a run ends with a message of step s after one of step t, the last of them with
/// the code; steps count from 1. They take the first branch that carries the code there, and lead to
/// step t as the longest way does; where it is to follow itself, to the first message of the row that
/// ends with its greatest number. The last answer is only the code where that fires the branch, else
/// the branch's opener and the code.
pub fn way_behind(
    alloc: Global,
    way: WayTo<'_, '_>,
    code: Code,
    s: usize,
) -> Result<Vec<Answer>, Memory>
    requires sources { AreSources way.plan.now.script.steps way.numbers.now.greatest.items
        way.numbers.now.sources.items }
    requires reached { (number : ℕ) × Has way.numbers.now.greatest.items way.n number }
    requires carries { (step : StepValue) → numbered way.plan.now.script.steps way.n ≡ Some step
        → CarriesTo step way.n code s }
    ensures { IfOk result (λ answers.
        LeadsByFirstBranch way.entry.plan.now.script.steps way.entry.numbers.now.greatest.items
        way.entry.n code s answers.items) }
{
    let step = way.plan.step(way.n as usize);
    let branch = branch_to(step, way.n as usize, code, s).unwrap();
    let mut answers = way_toward(alloc, way, step.target(branch))?;
    answers.push(step.carrying(alloc, branch, code)?)?;
    Ok(answers)
}
