//! Plans: scripts with an order table, and nothing left open.
ghost use Rattle.std.specs.Prelude.{◌≡◌, ◌↔◌, ◌<◌, ◌≤◌, ◌-◌, length, map, option_map, slice_get, Some, All, zip, IsTrue, IfOk, IfErr};
ghost use Rattle.fints_script.specs.Plans.{IsClosed, IsPlanFault, IsChosen, Admits};
ghost use Rattle.fints_script.specs.Scripts.{IsRead};
ghost use Rattle.fints_script.specs.Numbered.{numbered};

use crate::opens::{PlanFault, first_fault};
use crate::script::Script;
use crate::steps::Step;
use fints_rules::OrderTable;
use fints_script_cases::{NamedValue, Values};
use fints_script_fields::FieldClass;
use fints_script_rows::NamedField;
use fints_script_templates::{Signer, TemplateElements};
use std::marker::Model;

/// A script with an order table: every order that names an account has a literal one or one from a
/// list, and every HKTAN a literal TAN process. A contract sees the script and the table.
#[derive(Drop)]
pub struct Plan<'a> {
    script: &'a Script,
    orders: &'a OrderTable,
}

impl<'a> Model for Plan<'a> {
    ghost use Rattle.fints_script.specs.Plans.{PlanValue, IsClosed};

    ghost Value = { PlanValue };

    ghost view = { λ p. record { script = p.script.now; orders = p.orders.now } };

    ghost invariant = { λ p. IsClosed p.script.now p.orders.now };
}

impl Script {
    /// The plan of the script with an order table, or the first segment, in order of step and
    /// segment, that leaves an account or a TAN process open. It takes no memory.
    pub fn plan<'a>(&'a self, orders: &'a OrderTable) -> Result<Plan<'a>, PlanFault>
        ensures script { IfOk result (λ p. p.script ≡ self.now) }
        ensures orders { IfOk result (λ p. p.orders ≡ orders.now) }
        ensures closed { IfOk result (λ p. IsClosed self.now orders.now) }
        ensures fault { IfErr result (IsPlanFault self.now orders.now) }
    {
        if let Some(fault) = first_fault(self.fields(), orders, self.steps()) {
            return Err(fault);
        }
        Ok(Plan {
            script: self,
            orders,
        })
    }
}

fn is_chosen(field: &NamedField, value: &NamedValue) -> bool
    ensures { IsTrue result ↔ IsChosen field.now value.now }
{
    value.name == field.name && field.class.admits(value.value.as_slice())
}

fn are_chosen(fields: &[NamedField], values: &[NamedValue]) -> bool
    requires { length values.now ≡ length fields.now }
    ensures { IsTrue result ↔ All (λ p. IsChosen p.0 p.1) (zip fields.now values.now) }
{
    for i in 0..fields.len() {
        if !is_chosen(&fields[i], &values[i]) {
            return false;
        }
    }
    true
}

impl<'a> Plan<'a> {
    /// How many steps the script has.
    pub fn step_count(&self) -> usize
        ensures count { result ≡ length self.now.script.steps }
        ensures read { IsRead self.now.script }
        ensures closed { IsClosed self.now.script self.now.orders }
    {
        self.script.steps().len()
    }

    /// A step by its number, counted from 1.
    pub fn step(&self, n: usize) -> &Step
        requires from { 1 ≤ n }
        requires to { n ≤ length self.now.script.steps }
        ensures step { slice_get self.now.script.steps (n - 1) ≡ Some result.now }
        ensures numbered { numbered self.now.script.steps n ≡ Some result.now }
        ensures read { IsRead self.now.script }
        ensures closed { IsClosed self.now.script self.now.orders }
    {
        &self.script.steps()[n - 1]
    }

    /// The steps in order.
    pub fn steps(&self) -> &[Step]
        ensures steps { result.now ≡ self.now.script.steps }
        ensures read { IsRead self.now.script }
    {
        self.script.steps()
    }

    /// The fields in order, the built-in `dialog` first.
    pub fn fields(&self) -> &[NamedField]
        ensures { result.now ≡ self.now.script.fields }
    {
        self.script.fields()
    }

    /// The signers in order.
    pub fn signers(&self) -> &[Signer]
        ensures { result.now ≡ self.now.script.signers }
    {
        self.script.signers()
    }

    /// The elements of HNVSK from element 2 on, if the script has a seal.
    pub fn seal(&self) -> Option<&TemplateElements>
        ensures { option_map (λ s. s.now) result ≡ self.now.script.seal }
    {
        self.script.seal()
    }

    /// The order table with which the plan was made.
    pub fn orders(&self) -> &OrderTable
        ensures orders { result.now ≡ self.now.orders }
        ensures closed { IsClosed self.now.script self.now.orders }
    {
        self.orders
    }

    /// What each plan keeps: its script was read, and with its order table it leaves no account and no
    /// TAN process open.
    pub fn keeps(&self)
        ensures read { IsRead self.now.script }
        ensures closed { IsClosed self.now.script self.now.orders }
    {
        let _ = self.script.steps();
    }

    /// Whether the values are exactly the fields' in order, `dialog` first, each of its domain.
    pub fn admits(&self, values: &Values) -> bool
        ensures { IsTrue result ↔ Admits self.now.script.fields values.now }
    {
        let fields = self.fields();
        let pairs = values.pairs();
        pairs.len() == fields.len() && are_chosen(fields, pairs)
    }
}
