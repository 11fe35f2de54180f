//! The values of a case: with them the message of the finding's step, of its greatest number, breaks
//! the finding's rule at its segment.
ghost use Rattle.std.specs.Prelude.{◌≡◌, ◌≤◌, IfOk, length};
ghost use Rattle.fints_check_findings.specs.Searching.{AreCaseValues};
ghost use Rattle.fints_check_findings.specs.StepFacts.{AreFactsAt};

use crate::choosing::{CaseValues, chosen_sort, step_choice, values_of};
use crate::finding::Finding;
use crate::step_facts::{facts_asked, wants_tan};
use fints_rules::{MessageFacts, Permissions, Rule};
use fints_script::{Plan, Values};
use fints_syntax::Memory;
use std::alloc::Global;

/// A finding of a step of a plan, under permissions that were made with the same order table.
#[derive(Clone, Copy)]
pub struct FindingAt<'a> {
    pub permissions: &'a Permissions<'a>,
    pub plan: &'a Plan<'a>,
    pub finding: Finding,
    pub ghost from: { 1 ≤ finding.step },
    pub ghost to: { finding.step ≤ length plan.now.script.steps },
    pub ghost orders: { permissions.now.orders ≡ plan.now.orders },
}

/// The values of a real finding's case: the worst ones for P3 and P12, and else the least ones, where
/// P8 and P9 are asked of listed accounts with the first of them that breaks. P11 depends on no values. The
/// facts are those of the step's message, with a TAN where no choice leaves it empty.
pub fn case_values(alloc: Global, at: FindingAt<'_>, facts: MessageFacts) -> Result<Values, Memory>
    requires { AreFactsAt at.permissions.now at.plan.now.script at.finding.step facts }
    ensures { IfOk result (λ values.
        AreCaseValues at.entry.permissions.now at.entry.plan.now.script at.entry.finding values) }
{
    let FindingAt {
        permissions,
        plan,
        finding,
    } = at;
    let step = plan.step(finding.step as usize);
    match finding.rule {
        Rule::Size => values_of(alloc, plan, CaseValues::Worst),
        Rule::Number => values_of(alloc, plan, CaseValues::Least),
        Rule::Release => values_of(alloc, plan, CaseValues::Least),
        _ => {
            let asked = facts_asked(permissions, plan, step, facts, finding.rule);
            let choice = step_choice(
                permissions,
                plan.fields(),
                step,
                &asked,
                finding.rule,
                finding.segment as usize,
            );
            values_of(alloc, plan, chosen_sort(wants_tan(finding.rule), choice))
        }
    }
}
