//! What the rules ask of a step's message, found once for the step.
ghost use Rattle.std.specs.Prelude.{◌≡◌, ◌<◌, ◌≤◌, true, false, length, slice_index};
ghost use Rattle.fints_check_findings.specs.Elements.{wants_tan};
ghost use Rattle.fints_check_findings.specs.StepFacts.{AreMessageFacts, AreStepFacts, message_for};

use crate::kinds::{count_demanding, count_kinds, kind_counts, some_ends, some_tan_order};
use crate::tans::{some_has_process, some_has_tan, some_may_have_tan};
use fints_rules::{MessageFacts, Permissions, Rule};
use fints_script::{Plan, Step};
use fints_script_rows::limits::MAX_SEGMENTS;

/// Whether a TAN breaks the rule: it is asked of values with the most TANs, and another of those with
/// the fewest.
pub fn wants_tan(rule: Rule) -> bool
    ensures { result ≡ wants_tan rule }
{
    matches!(rule, Rule::Procedure)
}

/// The facts of a step's message that follow from the step.
#[derive(Drop)]
pub struct StepFacts {
    /// Those of the whole message, with a TAN where no choice leaves it empty.
    pub least: MessageFacts,
    /// The same, with a TAN where some choice fills it.
    pub most: MessageFacts,
    /// Beside each segment how many have its kind.
    pub counts: [usize; MAX_SEGMENTS],
}

impl StepFacts {
    /// Those of the whole message that the rule is asked of.
    pub fn message(&self, rule: Rule) -> &MessageFacts
        ensures { result.now ≡ message_for self.now (wants_tan rule) }
    {
        if wants_tan(rule) {
            &self.most
        } else {
            &self.least
        }
    }

    /// How many segments have the kind of this one, counted from 0.
    pub fn count(&self, i: usize) -> usize
        requires { i < length self.now.counts }
        ensures { result ≡ slice_index self.now.counts i }
    {
        self.counts[i]
    }
}

fn message_facts(permissions: &Permissions<'_>, plan: &Plan<'_>, step: &Step) -> MessageFacts
    ensures { AreMessageFacts permissions.now plan.now.script step.now false result }
{
    let templates = step.templates();
    MessageFacts {
        protocol: Some(300),
        kinds: count_kinds(templates),
        signatures: step.signers().len(),
        submits: some_has_process(templates, b"4"),
        sends: some_has_process(templates, b"2"),
        ends: some_ends(templates),
        has_tan: some_has_tan(plan.fields(), plan.signers(), step.signers()),
        has_tan_order: some_tan_order(templates),
        demanding: count_demanding(permissions, templates),
    }
}

// The same, with a TAN where some choice fills it.
fn with_most_tans(
    permissions: &Permissions<'_>,
    plan: &Plan<'_>,
    step: &Step,
    least: MessageFacts,
) -> MessageFacts
    requires { AreMessageFacts permissions.now plan.now.script step.now false least }
    ensures { AreMessageFacts permissions.now plan.now.script step.now true result }
{
    let mut most = least;
    most.has_tan = some_may_have_tan(plan.fields(), plan.signers(), step.signers());
    most
}

/// The facts of a step's message that the rule is asked of, from those with a TAN where no choice leaves
/// it empty.
pub fn facts_asked(
    permissions: &Permissions<'_>,
    plan: &Plan<'_>,
    step: &Step,
    least: MessageFacts,
    rule: Rule,
) -> MessageFacts
    requires { AreMessageFacts permissions.now plan.now.script step.now false least }
    ensures { AreMessageFacts permissions.now plan.now.script step.now (wants_tan rule) result }
{
    if wants_tan(rule) {
        with_most_tans(permissions, plan, step, least)
    } else {
        least
    }
}

/// The facts of a step, also those of each of its segments. It takes no memory.
pub fn step_facts(permissions: &Permissions<'_>, plan: &Plan<'_>, step: &Step) -> StepFacts
    requires few { length step.now.templates ≤ MAX_SEGMENTS }
    ensures { AreStepFacts permissions.now plan.now.script step.now result }
{
    let least = message_facts(permissions, plan, step);
    StepFacts {
        least,
        most: with_most_tans(permissions, plan, step, least),
        counts: kind_counts(step.templates()),
    }
}
