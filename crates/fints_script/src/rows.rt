//! The signers and the steps of a script, read row by row.
ghost use Rattle.std.specs.Prelude.{◌≤◌, length, map};
ghost use Rattle.toml.specs.View.{view};
ghost use Rattle.fints_script_rows.specs.Rows.{Finds};
ghost use Rattle.fints_script.specs.Around.{surroundings_of};
ghost use Rattle.fints_script.specs.Scripts.{signers_from, steps_from};

use crate::around::Around;
use crate::step_reading::step_in;
use crate::steps::Step;
use fints_script_rows::limits::MAX_SIGNERS;
use fints_script_rows::{Fields, Place, ScriptFault, placed};
use fints_script_templates::Signer;
use fints_script_templates::signers::signer_in;
use std::alloc::Global;
use toml::Value;

/// The signers of the rows.
pub fn read_signers(
    alloc: Global,
    fields: &Fields,
    rows: &[Value],
) -> Result<Vec<Signer>, ScriptFault>
    requires { length rows.now ≤ MAX_SIGNERS }
    ensures { Finds (λ v. v.items) result (signers_from fields.now (map view rows.now)) }
{
    let mut signers = Vec::new(alloc);
    for i in 0..rows.len() {
        let signer = signer_in(alloc, fields, &rows[..i], &rows[i]);
        signers.push(placed(Place::Signer(i as u16 + 1), signer)?)?;
    }
    Ok(signers)
}

/// The steps of the rows.
pub fn read_steps(alloc: Global, around: &Around<'_, '_>) -> Result<Vec<Step>, ScriptFault>
    ensures { Finds (λ v. v.items) result (steps_from (surroundings_of around.now)) }
{
    let mut steps = Vec::new(alloc);
    let rows = around.rows.as_slice();
    for i in 0..rows.len() {
        let step = step_in(alloc, around, i, &rows[i]);
        steps.push(placed(Place::Step(i as u16 + 1), step)?)?;
    }
    Ok(steps)
}
