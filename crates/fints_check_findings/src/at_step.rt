//! A step as the rules are asked of it, other than P2 and P3, for all admitted values and all
//! numbers.
ghost use Rattle.std.specs.Prelude.{◌≡◌, ◌↔◌, ◌≤◌, ◌+◌, ℕ, List, IsTrue, Some, false, length};
ghost use Rattle.fints_script_cases.specs.declared.values.NamedValue.{NamedValue};
ghost use Rattle.fints_rules.specs.Breaks.{BreaksByContent};
ghost use Rattle.fints_script.specs.Numbered.{numbered};
ghost use Rattle.fints_script.specs.Plans.{Admits};
ghost use Rattle.fints_wire.specs.Views.{message_view};
ghost use Rattle.fints_check_findings.specs.AtStep.{IsOfScript};
ghost use Rattle.fints_check_findings.specs.Breakable.{CanBreak, IsCleanStep, NeverBreaks};
ghost use Rattle.fints_check_findings.specs.StepFacts.{AreMessageFacts};

use crate::step_facts::{StepFacts, step_facts};
use crate::templates::step_breaks;
use fints_check_reach::PlanStep;
use fints_rules::{MessageFacts, Permissions, Rule};
use fints_script::{Plan, Step};
use std::marker::Model;

/// A step of a plan under permissions, with what the rules ask of its message, found once. A contract
/// sees the permissions, the script, the step's number and the step.
#[derive(Drop)]
pub struct AtStep<'a> {
    permissions: &'a Permissions<'a>,
    plan: &'a Plan<'a>,
    step: &'a Step,
    n: usize,
    facts: StepFacts,
}

impl<'a> Model for AtStep<'a> {
    ghost use Rattle.fints_check_findings.specs.AtStep.{AtStepValue, IsAtStep};

    ghost Value = { AtStepValue };

    ghost view = { λ s. record {
      granted = s.permissions.now;
      script = s.plan.now.script;
      n = s.n;
      step = s.step.now;
    } };

    ghost invariant = { λ s. IsAtStep s.permissions.now s.plan.now.script s.n s.step.now s.facts };
}

impl<'a> AtStep<'a> {
    /// The step of this number. It takes no memory.
    pub fn new(permissions: &'a Permissions<'a>, at: PlanStep<'a, 'a>) -> AtStep<'a>
        requires { permissions.now.orders ≡ at.plan.now.orders }
        ensures granted { result.granted ≡ permissions.now }
        ensures script { result.script ≡ at.entry.plan.now.script }
        ensures number { result.n ≡ at.entry.n }
        ensures step { numbered at.entry.plan.now.script.steps at.entry.n ≡ Some result.step }
    {
        let PlanStep { plan, n } = at;
        let step = plan.step(n);
        AtStep {
            permissions,
            plan,
            step,
            n,
            facts: step_facts(permissions, plan, step),
        }
    }

    /// Under what the rules are asked.
    pub(crate) fn permissions(&self) -> &Permissions<'a>
        ensures { result.now ≡ self.now.granted }
    {
        self.permissions
    }

    /// The step's number, counted from 1.
    pub(crate) fn number(&self) -> usize
        ensures { result ≡ self.now.n }
    {
        self.n
    }

    /// The facts of its message, with a TAN where no choice leaves it empty.
    pub(crate) fn message_facts(&self) -> MessageFacts
        ensures { AreMessageFacts self.now.granted self.now.script self.now.step false result }
    {
        self.facts.least
    }

    /// How many places its message has: the whole message, and the segments before those of the end.
    pub(crate) fn place_count(&self) -> usize
        ensures kept { IsOfScript self.now }
        ensures count { result ≡ 2 + length self.now.step.signers + length self.now.step.templates }
    {
        2 + self.step.signers().len() + self.step.templates().len()
    }

    /// Whether what its message holds can break the rule at the place: 0 is the whole message, another
    /// place the number of a segment. It takes no memory.
    pub(crate) fn breaks(&self, rule: Rule, place: usize) -> bool

        // Then for some admitted values it does, at every number..
        ensures some { IsTrue result → CanBreak self.now.granted self.now.script self.now.step rule place }

        // ..and else for none, at any.
        ensures each { (number : ℕ) (values : List NamedValue) → Admits self.now.script.fields values
            → BreaksByContent self.now.granted (message_view self.now.script self.now.step number values)
            rule place → IsTrue result }
        ensures kept { IsOfScript self.now }
    {
        step_breaks(
            self.permissions,
            self.plan.fields(),
            self.step,
            &self.facts,
            rule,
            place,
        )
    }

    // Whether it can't break the rule anywhere.
    fn never_breaks(&self, rule: Rule) -> bool
        ensures { IsTrue result ↔ NeverBreaks self.now.granted self.now.script self.now.step rule }
    {
        for place in 0..self.place_count() {
            if self.breaks(rule, place) {
                return false;
            }
        }
        true
    }

    /// Whether what its message holds breaks no rule, for all admitted values and at all numbers. It
    /// takes no memory.
    pub fn is_clean(&self) -> bool
        ensures { IsTrue result ↔ IsCleanStep self.now.granted self.now.script self.now.step }
    {
        for rule in Rule::ALL {
            if !self.never_breaks(rule) {
                return false;
            }
        }
        true
    }
}
