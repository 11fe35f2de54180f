//! An order table and a script, read from their texts.
ghost use Rattle.std.specs.Prelude.{IfOk, IfErr};
ghost use Rattle.fints_rules_permissions.specs.Orders.{DenotesTable};
ghost use Rattle.fints_script.specs.Scripts.{Denotes};
ghost use Rattle.fints_cli_scripts.specs.Plans.{IsPlanRefusal};

use fints_cli_texts::Fault;
use fints_rules::OrderTable;
use fints_script::Script;
use std::alloc::Global;

/// An order table and a script, for a plan.
#[derive(Drop)]
pub struct Inputs {
    pub orders: OrderTable,
    pub script: Script,
}

/// Reads both texts. Of the refusals that of the order table comes first.
pub fn read_inputs(alloc: Global, orders: &[u8], script: &[u8]) -> Result<Inputs, Fault>
    ensures table { IfOk result (λ it. DenotesTable orders.now it.orders) }
    ensures script { IfOk result (λ it. Denotes script.now it.script) }
    ensures refused { IfErr result (λ f. IsPlanRefusal orders.now script.now f) }
{
    let orders = OrderTable::read(alloc, orders)?;
    match Script::read(alloc, script) {
        Ok(script) => Ok(Inputs { orders, script }),
        Err(fault) => Err(Fault::from(fault)),
    }
}
