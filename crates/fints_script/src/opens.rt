//! Accounts and TAN processes that a script leaves open.
ghost use Rattle.std.specs.Prelude.{◌≡◌, ◌≤◌, length, slice_get};
ghost use Rattle.std.specs.List.{list_all};
ghost use Rattle.fints_script.specs.FaultText.{plan_text};
ghost use Rattle.fints_script.specs.Plans.{is_literal, is_account_field, element_two, names_account, is_open_account, is_open_process, open_of, open_fault, faults_in_step, faults_in_steps};
ghost use Rattle.fints_script_rows.specs.NamedFields.{is_account_at};

use crate::steps::Step;
use fints_rules::{AccountForm, OrderTable};
use fints_script_rows::{NamedField, is_account};
use fints_script_templates::{Template, TemplateItem};
use fints_syntax::FaultText;
use thiserror::Error;

/// What a segment leaves open.
#[derive(Clone, Copy, PartialEq, Eq)]
pub enum OpenPart {
    Account,
    Process,
}

/// Why a script can't be planned with an order table. Steps count from 1, and segments as they are
/// numbered in the message.
#[derive(Clone, Copy, Debug, PartialEq, Eq, Error)]
#[error("{}", self.text())]
pub enum PlanFault {
    /// Element 2 of an order that names an account is neither literal nor one account field.
    OpenAccount { step: usize, segment: usize },
    /// Element 2 of an HKTAN, the TAN process, isn't literal.
    OpenProcess { step: usize, segment: usize },
}

impl PlanFault {
    /// What is left open, and where.
    pub fn text(&self) -> FaultText
        ensures text { result ≡ plan_text self.now }
        ensures short { length result ≤ 66 }
    {
        let (what, step, segment) = match self {
            PlanFault::OpenAccount { step, segment } => ("OpenAccount step ", *step, *segment),
            PlanFault::OpenProcess { step, segment } => ("OpenProcess step ", *step, *segment),
        };
        FaultText::numbered(what, step as u64, " segment ", segment as u64)
    }
}

fn is_literal(item: &TemplateItem) -> bool
    ensures { result ≡ is_literal item.now }
{
    matches!(item, TemplateItem::Literal(_))
}

fn are_literal(items: &[TemplateItem]) -> bool
    ensures { result ≡ list_all is_literal items.now }
{
    items.iter().all(|item| is_literal(item))
}

fn is_account_at(fields: &[NamedField], place: usize) -> bool
    ensures { result ≡ is_account_at (slice_get fields.now place) }
{
    match fields.get(place) {
        Some(field) => is_account(&field.class),
        None => false,
    }
}

fn is_account_field(fields: &[NamedField], items: &[TemplateItem]) -> bool
    ensures { result ≡ is_account_field fields.now items.now }
{
    match items {
        [TemplateItem::Field(place)] => is_account_at(fields, *place),
        _ => false,
    }
}

fn element_two(template: &Template) -> &[TemplateItem]
    ensures { result.now ≡ element_two template.now }
{
    match template.elements.as_slice() {
        [first, ..] => first.as_slice(),
        [] => &[],
    }
}

fn names_account(form: Option<AccountForm>) -> bool
    ensures { result ≡ names_account form }
{
    matches!(
        form,
        Some(AccountForm::National) | Some(AccountForm::International)
    )
}

fn is_open_account(fields: &[NamedField], orders: &OrderTable, template: &Template) -> bool
    ensures { result ≡ is_open_account fields.now orders.now template.now }
{
    let items = element_two(template);
    names_account(orders.form(template.kind, template.version))
        && !(are_literal(items) || is_account_field(fields, items))
}

fn is_open_process(template: &Template) -> bool
    ensures { result ≡ is_open_process template.now }
{
    template.kind.as_bytes() == b"HKTAN".as_slice() && !are_literal(element_two(template))
}

fn open_of(fields: &[NamedField], orders: &OrderTable, template: &Template) -> Option<OpenPart>
    ensures { result ≡ open_of fields.now orders.now template.now }
{
    if is_open_account(fields, orders, template) {
        return Some(OpenPart::Account);
    }
    if is_open_process(template) {
        return Some(OpenPart::Process);
    }
    None
}

// The fault of what is left open.
fn open_fault(left: OpenPart, step: usize, segment: usize) -> PlanFault
    ensures { result ≡ open_fault left step segment }
{
    match left {
        OpenPart::Account => PlanFault::OpenAccount { step, segment },
        OpenPart::Process => PlanFault::OpenProcess { step, segment },
    }
}

// The first fault of step n.
fn first_in_step(
    fields: &[NamedField],
    orders: &OrderTable,
    n: usize,
    step: &Step,
) -> Option<PlanFault>
    ensures { result ≡ slice_get (faults_in_step fields.now orders.now n step.now) 0 }
{
    let first = step.signers().len() + 2;
    let templates = step.templates();
    for i in 0..templates.len() {
        if let Some(left) = open_of(fields, orders, &templates[i]) {
            return Some(open_fault(left, n, first + i));
        }
    }
    None
}

/// The fault of the first segment, in order of step and segment, that leaves something open.
pub fn first_fault(fields: &[NamedField], orders: &OrderTable, steps: &[Step]) -> Option<PlanFault>
    ensures { result ≡ slice_get (faults_in_steps fields.now orders.now steps.now) 0 }
{
    for i in 0..steps.len() {
        if let Some(fault) = first_in_step(fields, orders, i + 1, &steps[i]) {
            return Some(fault);
        }
    }
    None
}
