//! What a report has, as parts of objects.
ghost use Rattle.std.specs.Prelude.{◌≡◌, ◌++◌, ◌∷◌, [], map, IfOk, OnOk};
ghost use Rattle.fints_cli_json.specs.Reported.{figures_of, placed_at, placed_by};

use crate::found::{FindingPlace, PlacedFinding};
use crate::reports::StepFigures;
use fints_check_findings::{Finding, Report};
use fints_rules::Broken;
use fints_script_fields::Name;
use fints_syntax::Memory;
use std::alloc::Global;

/// The steps, each with its figures.
pub fn steps_of(alloc: Global, report: &Report<'_>) -> Result<Vec<StepFigures>, Memory>
    ensures { IfOk result (λ steps. steps.items
        ≡ figures_of report.now.plan.script.steps report.now.figures) }
{
    let mut steps = Vec::new(alloc);
    for i in 0..report.plan().step_count() {
        let step = report.plan().step(i + 1);
        steps.push(StepFigures {
            name: step.name(),
            reached: report.reached(i + 1),
        })?;
    }
    Ok(steps)
}

// Adds a finding, at the step of this name.
fn push_finding(out: &mut Vec<PlacedFinding>, name: Name, finding: &Finding) -> Result<(), Memory>
    ensures { OnOk result (out.new.items ≡ out.old.items ++ placed_at name finding.now ∷ []) }
{
    let broken = Broken {
        rule: finding.rule,
        segment: finding.segment,
    };
    out.push(PlacedFinding {
        place: FindingPlace::Step(name),
        broken,
    })?;
    Ok(())
}

/// The findings, each at its step.
pub fn placed_in_report(alloc: Global, report: &Report<'_>) -> Result<Vec<PlacedFinding>, Memory>
    ensures { IfOk result (λ placed. placed.items
        ≡ map (placed_by report.now.plan.script.steps) report.now.findings) }
{
    let plan = report.plan();
    let mut placed = Vec::new(alloc);
    for finding in report.findings() {
        let step = plan.step(usize::from(finding.step));
        push_finding(&mut placed, step.name(), finding)?;
    }
    Ok(placed)
}
