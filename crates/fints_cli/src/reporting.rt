//! The report on a script, as a text.
ghost use Rattle.std.specs.Prelude.{ℕ, IfOk, IfErr};
ghost use Rattle.fints_cli_scripts.specs.Plans.{IsPlanRefusal};
ghost use Rattle.fints_cli_scripts.specs.Told.{IsRefused, IsToldOf, IsToldOn};
ghost use Rattle.fints_cli_scripts.specs.declared.telling.Wanted.TheVariants as wanted_is;

use fints_cli_scripts::{Wanted, tell, tell_script};
use fints_cli_texts::{Fault, Unobserved};
use fints_params::Params;
use std::alloc::Global;

/// The text of the report on a script by good parameters. Of the refusals that of the order table
/// comes first, then that of the script, and then what the script leaves open with the order table.
pub fn report_text(
    alloc: Global,
    params: &Params,
    orders: &[u8],
    script: &[u8],
) -> Result<Vec<u8>, Fault>
    ensures told { IfOk result (λ text. (status : ℕ)
        × IsToldOn wanted_is.Report params.now orders.now script.now status text.items) }
    ensures refused { IfErr result (λ f. IsPlanRefusal orders.now script.now f) }
{
    let reply = tell(
        alloc,
        params,
        orders,
        script,
        Wanted::Report,
        &mut Unobserved,
    )?;
    Ok(reply.text)
}

/// The text of the report on a script by a capture. The refusal of the capture comes before the
/// others.
pub fn check_text(
    alloc: Global,
    params: &[u8],
    orders: &[u8],
    script: &[u8],
) -> Result<Vec<u8>, Fault>
    ensures told { IfOk result (λ text. (status : ℕ)
        × IsToldOf wanted_is.Report params.now orders.now script.now status text.items) }
    ensures refused { IfErr result (λ f. IsRefused params.now orders.now script.now f) }
{
    let reply = tell_script(alloc, params, orders, script, Wanted::Report)?;
    Ok(reply.text)
}
