//! The greatest figures of the steps of a plan, which depend on no bank.
ghost use Rattle.std.specs.Prelude.{IfOk};
ghost use Rattle.fints_check_findings.specs.Figures.{AreFigures};

use crate::finding::Reached;
use crate::releasing::release_code;
use crate::report::figures_at;
use fints_check_reach::{PlanStep, greatest_numbers};
use fints_script::Plan;
use fints_syntax::Memory;
use std::alloc::Global;

/// The greatest number and length of each step's messages over all runs and all values, or none for a
/// step that no run sends.
pub fn greatest_figures(alloc: Global, plan: &Plan<'_>) -> Result<Vec<Option<Reached>>, Memory>
    ensures { IfOk result (λ figures. AreFigures plan.now.script figures.items) }
{
    let count = plan.step_count();
    let numbers = greatest_numbers(alloc, plan, &[], release_code())?;
    let mut figures = Vec::with_capacity(alloc, count)?;
    for i in 0..count {
        let reached = match numbers.greatest[i] {
            None => None,
            Some(number) => Some(figures_at(PlanStep { plan, n: i + 1 }, number)),
        };
        figures.push(reached)?;
    }
    Ok(figures)
}
