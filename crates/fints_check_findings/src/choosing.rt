//! The values of a case: the worst ones for a rule that a TAN breaks, and else the least ones, at
//! most one of them another listed account.
ghost use Rattle.std.specs.Prelude.{◌≡◌, ◌≢◌, ◌∷◌, ◌++◌, [], ℕ, MatchOption, IfOk, OnOk};
ghost use Rattle.std.specs.List.{slice_get};
ghost use Rattle.fints_script_templates.specs.declared.template.TemplateItem.TheVariants as template_item;
ghost use Rattle.fints_wire.specs.Choices.{value_of};
ghost use Rattle.fints_check_findings.specs.Choosing.{AreOfSort, IsBreakingPlace, IsChoiceWith, chosen_sort, value_with};
ghost use Rattle.fints_check_findings.specs.StepFacts.{IsStepChoice, IsTemplateChoice};

use crate::elements::element_two;
use crate::kinds::count_kind;
use crate::templates::{account_breaks, accounts_asked, template_at};
use fints_rules::{MessageFacts, Permissions, Rule};
use fints_script::{AccountValue, NamedField, Plan, Step, Template, TemplateItem, Values};
use fints_script_fields::FieldClass;
use fints_syntax::Memory;
use fints_wire::{least_values, worst_values};
use std::alloc::Global;

/// Which listed account a field is set to: the place of the field among the plan's, and that of the
/// account among the field's, both from 0 on.
#[derive(Clone, Copy, PartialEq, Eq)]
pub struct SetAccount {
    pub field: usize,
    pub account: usize,
}

impl SetAccount {
    // The account of the field at a place, if it is the one that is set.
    fn account_of(self, field: usize) -> Option<usize>
        ensures { MatchOption result
            (field ≢ self.field)
            (λ account. (field ≡ self.field) × (account ≡ self.account)) }
    {
        if field == self.field {
            Some(self.account)
        } else {
            None
        }
    }
}

/// Which values a case has.
#[derive(Clone, Copy, PartialEq, Eq)]
pub enum CaseValues {
    /// Each field's shortest value.
    Least,
    /// These, but for one field, which has a listed account.
    LeastWithAccount(SetAccount),
    /// Each field's longest value.
    Worst,
}

// ---- which account

// The place of the first of these accounts with which the template's segment breaks the rule.
fn first_account(
    permissions: &Permissions<'_>,
    facts: &MessageFacts,
    rule: Rule,
    template: &Template,
    count: usize,
    accounts: &[AccountValue],
) -> Option<usize>
    ensures { IsBreakingPlace permissions.now facts.now rule template.now count accounts.now result }
{
    for i in 0..accounts.len() {
        if account_breaks(permissions, facts, rule, template, count, &accounts[i]) {
            return Some(i);
        }
    }
    None
}

// The place of the field that an element is by itself, and else 0.
fn field_place(items: &[TemplateItem]) -> usize
    ensures { (place : ℕ) → items.now ≡ template_item.Field place ∷ [] → result ≡ place }
{
    match items {
        [TemplateItem::Field(place)] => *place,
        _ => 0,
    }
}

// The account that a template's field is set to, where the rule is asked for each that is listed.
fn template_choice(
    permissions: &Permissions<'_>,
    fields: &[NamedField],
    facts: &MessageFacts,
    rule: Rule,
    template: &Template,
    count: usize,
) -> Option<SetAccount>
    ensures { IsTemplateChoice permissions.now fields.now facts.now rule template.now count result }
{
    let accounts = accounts_asked(fields, rule, template);
    match first_account(permissions, facts, rule, template, count, accounts) {
        None => None,
        Some(account) => Some(SetAccount {
            field: field_place(element_two(template)),
            account,
        }),
    }
}

/// With which account set, if with any, the facts of the step's message break the rule at the place,
/// where they break it at all: the first that is listed. Of the segments it looks at the one there.
pub fn step_choice(
    permissions: &Permissions<'_>,
    fields: &[NamedField],
    step: &Step,
    facts: &MessageFacts,
    rule: Rule,
    place: usize,
) -> Option<SetAccount>
    ensures { IsStepChoice permissions.now fields.now step.now facts.now rule place result }
{
    let first = 2 + step.signers().len();
    if place < first {
        return None;
    }
    match template_at(step, place - first) {
        None => None,
        Some(template) => {
            let count = count_kind(step.templates(), template.kind);
            template_choice(permissions, fields, facts, rule, template, count)
        }
    }
}

// ---- the values

// Adds the text of the field's account at the place, and where there is none its shortest value.
fn push_value(
    alloc: Global,
    values: &mut Values,
    field: &NamedField,
    account: Option<usize>,
) -> Result<(), Memory>
    ensures { OnOk result (
        values.new ≡ values.old ++ value_of field.now (value_with field.now account) ∷ []) }
{
    if let Some(place) = account {
        if let Some(account) = field.class.accounts().get(place) {
            return values.push(field.name, account.text());
        }
    }
    let shortest = field.class.shortest(alloc)?;
    values.push(field.name, shortest.as_slice())
}

fn values_with(alloc: Global, fields: &[NamedField], set: SetAccount) -> Result<Values, Memory>
    ensures { IfOk result (λ values. IsChoiceWith fields.now set values) }
{
    let mut values = Values::new(alloc);
    for i in 0..fields.len() {
        push_value(alloc, &mut values, &fields[i], set.account_of(i))?;
    }
    Ok(values)
}

/// Which values a case has for a rule: the least ones, with this account set where one is; and where
/// none is and the rule wants a TAN the worst ones.
pub fn chosen_sort(wants_tan: bool, choice: Option<SetAccount>) -> CaseValues
    ensures { result ≡ chosen_sort wants_tan choice }
{
    match choice {
        Some(set) => CaseValues::LeastWithAccount(set),
        None => {
            if wants_tan {
                CaseValues::Worst
            } else {
                CaseValues::Least
            }
        }
    }
}

/// The values of this sort.
pub fn values_of(alloc: Global, plan: &Plan<'_>, sort: CaseValues) -> Result<Values, Memory>
    ensures { IfOk result (λ values. AreOfSort plan.now.script.fields sort values) }
{
    match sort {
        CaseValues::Least => least_values(alloc, plan),
        CaseValues::LeastWithAccount(set) => values_with(alloc, plan.fields(), set),
        CaseValues::Worst => worst_values(alloc, plan),
    }
}
