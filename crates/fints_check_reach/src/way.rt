//! Ways: answers of the bank after which a run ends with a step's message of greatest number.
ghost use Rattle.std.specs.Prelude.{◌≡◌, ◌↔◌, ◌<◌, ◌≤◌, ◌+◌, ◌∷◌, ◌++◌, [], ℕ, length, Some, IsTrue, MatchOption, IfOk, OnOk};
ghost use Rattle.fints_script_cases.specs.declared.answers.Target.{Target};
ghost use Rattle.fints_script.specs.Numbered.{numbered};
ghost use Rattle.fints_script.specs.Steps.{StepValue};
ghost use Rattle.fints_check_reach.specs.Leading.{Leads};
ghost use Rattle.fints_check_reach.specs.Numbers.{Has};
ghost use Rattle.fints_check_reach.specs.Sources.{AreSources};
ghost use Rattle.fints_check_reach.specs.Walking.{EndsTheRow, HasWay, IsCodeTo, IsWayBack, LeadsOn};
ghost use Rattle.fints_check_reach.specs.Ways.{EntersTo, LeadsTo};

use crate::plan_step::{PlanStep, WayTo};
use fints_params::Code;
use fints_script::{Answer, Plan, Step, Target};
use fints_syntax::Memory;
use std::alloc::Global;

// The code that fires the first open branch to the target.
fn code_to(step: &Step, to: Target) -> Option<Code>
    ensures { MatchOption result (Leads step.now to → ⊥) (IsCodeTo step.now to) }
{
    for b in 0..step.branches().len() + 1 {
        if step.target(b + 1) == to {
            if let Some(code) = step.opener(b + 1) {
                return Some(code);
            }
        }
    }
    None
}

fn push_code(alloc: Global, answers: &mut Vec<Answer>, code: Code) -> Result<(), Memory>
    ensures { OnOk result (answers.new.items ≡ answers.old.items ++ (code ∷ []) ∷ []) }
{
    let answer = Answer::single(alloc, code)?;
    answers.push(answer)?;
    Ok(())
}

// Adds the answers that have step n sent as often as it may be.
fn push_row(alloc: Global, at: PlanStep<'_, '_>, answers: &mut Vec<Answer>) -> Result<(), Memory>
    ensures { OnOk result (
        EndsTheRow at.entry.plan.now.script.steps at.entry.n answers.old.items answers.new.items) }
{
    let step = at.plan.step(at.n);
    if let Some(code) = code_to(step, Target::Again) {
        for _k in 0..step.repeat() - 1 {
            push_code(alloc, answers, code)?;
        }
    }
    Ok(())
}

#[tactic(auto, using(fints_wire::proofs::RunLawLemmas::routes_grow_more))]
// Adds the answer that leads from step n to a later one.
fn push_onward(
    alloc: Global,
    at: PlanStep<'_, '_>,
    to: u16,
    answers: &mut Vec<Answer>,
) -> Result<(), Memory>
    requires { (step : StepValue) → numbered at.plan.now.script.steps at.n ≡ Some step
        → Leads step (Target.Step to) }
    ensures { OnOk result (
        LeadsOn at.entry.plan.now.script.steps at.entry.n to answers.old.items answers.new.items) }
{
    let code = code_to(at.plan.step(at.n), Target::Step(to)).unwrap();
    push_code(alloc, answers, code)
}

// The steps of the way to step n that come after step 1, from the last to the first.
fn way_back(alloc: Global, sources: &[Option<u16>], n: u16) -> Result<Vec<u16>, Memory>
    requires { HasWay sources.now n }
    ensures { IfOk result (λ later. IsWayBack sources.now n later.items 1) }
{
    let mut later = Vec::new(alloc);
    let mut at = n;
    while let Some(source) = sources[at as usize - 1] {
        later.push(at)?;
        at = source;
    }
    Ok(later)
}

/// Answers that lead to the first message of a row of step n that ends with its greatest number; steps
/// count from 1. Each step on the way before it is repeated as often as it may be.
pub fn way_into(alloc: Global, way: WayTo<'_, '_>) -> Result<Vec<Answer>, Memory>
    requires sources { AreSources way.plan.now.script.steps way.numbers.now.greatest.items
        way.numbers.now.sources.items }
    requires reached { (number : ℕ) × Has way.numbers.now.greatest.items way.n number }
    ensures { IfOk result (λ answers.
        EntersTo way.entry.plan.now.script.steps way.entry.numbers.now.greatest.items way.entry.n
        answers.items) }
{
    let WayTo { plan, numbers, n } = way;
    let mut later = way_back(alloc, numbers.sources.as_slice(), n)?;
    let mut answers = Vec::new(alloc);
    let mut at = 1;
    while let Some(next) = later.pop() {
        let step = PlanStep { plan, n: at };
        push_row(alloc, step, &mut answers)?;
        push_onward(alloc, step, next, &mut answers)?;
        at = next as usize;
    }
    Ok(answers)
}

/// Answers after which a run ends with a message of step n that has its greatest number; steps count
/// from 1. Each step on the way is repeated as often as it may be. An answer is one code: the least
/// that fires, by itself, the first open branch that leads on.
pub fn longest_way(alloc: Global, way: WayTo<'_, '_>) -> Result<Vec<Answer>, Memory>
    requires sources { AreSources way.plan.now.script.steps way.numbers.now.greatest.items
        way.numbers.now.sources.items }
    requires reached { (number : ℕ) × Has way.numbers.now.greatest.items way.n number }
    ensures { IfOk result (λ answers.
        LeadsTo way.entry.plan.now.script.steps way.entry.numbers.now.greatest.items way.entry.n
        answers.items) }
{
    let mut answers = way_into(alloc, way)?;
    let step = PlanStep {
        plan: way.plan,
        n: way.n as usize,
    };
    push_row(alloc, step, &mut answers)?;
    Ok(answers)
}
