//! Which HKTAN take one order at a time, and whether no TAN may go with its order.
ghost use Rattle.std.specs.Prelude.{◌↔◌, List, IfOk, IsTrue};
ghost use Rattle.fints_params.specs.declared.rows.TanRow.{TanRow as TanRowValue};
ghost use Rattle.fints_rules_permissions.specs.Permits.{LetsOneStep, NeedsTwoSteps, TakesOneOrder};
ghost use Rattle.fints_rules_permissions.specs.Tans.{HoldsTans};

use fints_params::TanRow;
use fints_syntax::Memory;
use std::alloc::Global;
use std::collections::BTreeSet;

/// What the rows of HITANS say of TAN procedures, found once.
#[derive(Drop)]
pub struct TanTable {
    /// The versions with some row that takes one order at a time.
    pub single: BTreeSet<u16>,
    /// Whether rows are there, and none lets a TAN go with its order.
    pub two_steps: bool,
}

fn some_one_step(rows: &[TanRow]) -> bool
    ensures { IsTrue result ↔ LetsOneStep rows.now }
{
    rows.iter().any(|row| row.one_step)
}

fn needs_two_steps(rows: &[TanRow]) -> bool
    ensures { IsTrue result ↔ NeedsTwoSteps rows.now }
{
    !rows.is_empty() && !some_one_step(rows)
}

impl TanTable {
    /// The table of the rows.
    pub fn of(alloc: Global, rows: &[TanRow]) -> Result<TanTable, Memory>
        ensures { IfOk result (λ table. HoldsTans rows.now table) }
    {
        let mut single = BTreeSet::new(alloc);
        for row in rows {
            if !row.several {
                single.insert(row.version)?;
            }
        }
        let two_steps = needs_two_steps(rows);
        Ok(TanTable { single, two_steps })
    }

    /// Whether some row of the version takes one order at a time.
    pub fn takes_one(&self, version: u16) -> bool
        ensures { (rows : List TanRowValue) → HoldsTans rows self.now
            → IsTrue result ↔ TakesOneOrder rows version }
    {
        self.single.contains(&version)
    }
}
