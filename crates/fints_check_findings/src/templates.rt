//! The rules over the facts of templates.
ghost use Rattle.std.specs.Prelude.{◌≡◌, ◌↔◌, IsTrue, Any, option_map, slice_get};
ghost use Rattle.fints_rules.specs.Rules.{SegmentBreaks};
ghost use Rattle.fints_check_findings.specs.Elements.{accounts_asked, asks_account, template_facts, wants_tan};
ghost use Rattle.fints_check_findings.specs.Kinds.{AreCounts};
ghost use Rattle.fints_check_findings.specs.StepFacts.{StepBreaks, TemplateBreaks, TemplateBreaksAt, message_for};

use crate::elements::{element_two, listed_facts, listed_in, literal_facts};
use crate::step_facts::StepFacts;
use fints_rules::{MessageFacts, Permissions, Rule, message_breaks, segment_breaks};
use fints_script::{AccountValue, NamedField, Step, Template};

// Whether the rule asks which account an order names.
fn asks_account(rule: Rule) -> bool
    ensures { result ≡ asks_account rule }
{
    matches!(rule, Rule::Signatures | Rule::Account)
}

/// The accounts for which the rule is asked: each listed one, where the rule asks for any.
pub fn accounts_asked<'a>(
    fields: &'a [NamedField],
    rule: Rule,
    template: &Template,
) -> &'a [AccountValue]
    ensures { result.now ≡ accounts_asked fields.now rule template.now }
{
    if asks_account(rule) {
        listed_in(fields, element_two(template))
    } else {
        &[]
    }
}

/// Whether the template's segment breaks the rule with this account.
pub fn account_breaks(
    permissions: &Permissions<'_>,
    facts: &MessageFacts,
    rule: Rule,
    template: &Template,
    count: usize,
    account: &AccountValue,
) -> bool
    ensures { IsTrue result ↔ SegmentBreaks permissions.now facts.now rule
        (template_facts template.now count account.now) }
{
    let segment = listed_facts(template, count, account);
    segment_breaks(permissions, facts, rule, &segment)
}

fn template_breaks(
    permissions: &Permissions<'_>,
    fields: &[NamedField],
    facts: &MessageFacts,
    rule: Rule,
    template: &Template,
    count: usize,
) -> bool
    ensures { IsTrue result ↔ TemplateBreaks permissions.now fields.now facts.now rule template.now count }
{
    let accounts = accounts_asked(fields, rule, template);
    if accounts.is_empty() {
        segment_breaks(permissions, facts, rule, &literal_facts(template, count))
    } else {
        accounts.iter().any(|account| account_breaks(
            permissions,
            facts,
            rule,
            template,
            count,
            account,
        ))
    }
}

/// The template at a place from 0 on.
pub fn template_at(step: &Step, i: usize) -> Option<&Template>
    ensures { option_map (λ t. t.now) result ≡ slice_get step.now.templates i }
{
    step.templates().get(i)
}

// Whether the segment of this number breaks the rule.
fn template_breaks_at(
    permissions: &Permissions<'_>,
    fields: &[NamedField],
    step: &Step,
    facts: &StepFacts,
    rule: Rule,
    number: usize,
) -> bool
    requires { AreCounts step.now.templates facts.now.counts }
    ensures { IsTrue result ↔ TemplateBreaksAt permissions.now fields.now step.now
        (message_for facts.now (wants_tan rule)) rule number }
{
    let first = 2 + step.signers().len();
    if number < first {
        return false;
    }
    let i = number - first;
    match template_at(step, i) {
        None => false,
        Some(template) => {
            template_breaks(
                permissions,
                fields,
                facts.message(rule),
                rule,
                template,
                facts.count(i),
            )
        }
    }
}

/// Whether the step's facts break the rule at the place: 0 is the whole message, another place the
/// number of a segment.
pub fn step_breaks(
    permissions: &Permissions<'_>,
    fields: &[NamedField],
    step: &Step,
    facts: &StepFacts,
    rule: Rule,
    place: usize,
) -> bool
    requires { AreCounts step.now.templates facts.now.counts }
    ensures { IsTrue result ↔ StepBreaks permissions.now fields.now step.now
        (message_for facts.now (wants_tan rule)) rule place }
{
    (place == 0 && message_breaks(permissions, facts.message(rule), rule))
        || template_breaks_at(permissions, fields, step, facts, rule, place)
}
