//! A step of a plan and a branch of a step, by their numbers.
ghost use Rattle.std.specs.Prelude.{◌≤◌, ◌+◌, length};

use crate::passing::Numbers;
use fints_script::{Plan, Step};

/// A step of a plan by its number; steps count from 1.
#[derive(Clone, Copy)]
pub struct PlanStep<'p, 's> {
    pub plan: &'p Plan<'s>,
    pub n: usize,
    pub ghost from: { 1 ≤ n },
    pub ghost to: { n ≤ length plan.now.script.steps },
}

/// A step of a plan by its number, counted from 1, with the greatest numbers of all steps.
#[derive(Clone, Copy)]
pub struct WayTo<'p, 's> {
    pub plan: &'p Plan<'s>,
    pub numbers: &'p Numbers,
    pub n: u16,
    pub ghost from: { 1 ≤ n },
    pub ghost to: { n ≤ length plan.now.script.steps },
}

/// A branch of a step by its number; branches count from 1, and the default counts as the last.
#[derive(Clone, Copy)]
pub struct StepBranch<'a> {
    pub step: &'a Step,
    pub branch: usize,
    pub ghost from: { 1 ≤ branch },
    pub ghost to: { branch ≤ length step.now.branches + 1 },
}
