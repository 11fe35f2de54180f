//! What is said of a script, from the texts of its inputs.
ghost use Rattle.std.specs.Prelude.{◌≤◌, ℕ, List, IfOk, IfErr, ◌≡◌};
ghost use Rattle.fints_params.specs.declared.fault.ParamFault.{ParamFault as ParamFaultValue};
ghost use Rattle.fints_cli_texts.specs.Fault.{fault_of};
ghost use Rattle.fints_params.specs.Captures.{IsReadOf};
ghost use Rattle.fints_cli_scripts.specs.Told.{IsToldBy, IsToldOf, IsToldOn, IsTellRefusal, IsTellRefusalBy, IsTellRefusalOn};

use crate::certifying::certify;
use crate::explaining::{explain, explain_one};
use crate::inputs::read_inputs;
use crate::writing::reply;
use fints_check::{Report, check};
use fints_cli_texts::{Fault, Reply, Unobserved};
use fints_params::{ParamFault, Params};
use fints_rules::Permissions;
use fints_script::Plan;
use std::alloc::Global;

/// What is to be said of a script.
#[derive(Clone, Copy, Debug, PartialEq, Eq)]
pub enum Wanted {
    /// The report.
    Report,
    /// The report, and then a case of each finding.
    Cases,
    /// The report, and then only the case of the finding of this number; numbers count from 1.
    OneCase(u32),
    /// The certificate where nothing is found, else the report.
    Certificate,
}

/// What looks on while a script is checked. No contract says what it makes of it.
pub trait ReportObserver {
    /// Looks at the report.
    fn reported(&mut self, report: &Report<'_>);
}

impl ReportObserver for Unobserved {
    fn reported(&mut self, _report: &Report<'_>) {}
}

// What is said of a report.
fn tell_report(alloc: Global, report: &Report<'_>, wanted: Wanted) -> Result<Reply, Fault>
    ensures told { IfOk result (λ reply.
        IsToldBy wanted report.now.granted report.now.plan.script reply.status reply.text.items) }
    ensures refused { IfErr result (λ f.
        IsTellRefusalBy wanted report.now.granted report.now.plan.script f) }
{
    match wanted {
        Wanted::Report => Ok(reply(alloc, report)?),
        Wanted::Cases => Ok(explain(alloc, report)?),
        Wanted::OneCase(number) => explain_one(alloc, report, number),
        Wanted::Certificate => Ok(certify(alloc, report)?),
    }
}

// What is said of a plan, by good parameters.
fn tell_plan<O: ReportObserver>(
    alloc: Global,
    params: &Params,
    plan: &Plan<'_>,
    wanted: Wanted,
    observer: &mut O,
) -> Result<Reply, Fault>
    ensures told { IfOk result (λ reply.
        IsToldBy wanted (record { rows = params.now; orders = plan.now.orders }) plan.now.script
        reply.status reply.text.items) }
    ensures refused { IfErr result (λ f.
        IsTellRefusalBy wanted (record { rows = params.now; orders = plan.now.orders }) plan.now.script f) }
{
    let permissions = Permissions::build(alloc, params, plan.orders())?;
    let report = check(alloc, &permissions, plan)?;
    observer.reported(&report);
    tell_report(alloc, &report, wanted)
}

/// What is said of a script by good parameters. The status is 0 where nothing is found, else 1. Of
/// the refusals that of the order table comes first, then that of the script, then what the script
/// leaves open with the order table, and then that of the number of a finding that isn't there.
pub fn tell<O: ReportObserver>(
    alloc: Global,
    params: &Params,
    orders: &[u8],
    script: &[u8],
    wanted: Wanted,
    observer: &mut O,
) -> Result<Reply, Fault>
    ensures told { IfOk result (λ reply.
        IsToldOn wanted params.now orders.now script.now reply.status reply.text.items) }
    ensures refused { IfErr result (λ f. IsTellRefusalOn wanted params.now orders.now script.now f) }
{
    let inputs = read_inputs(alloc, orders, script)?;
    let plan = inputs.script.plan(&inputs.orders)?;
    let reply = tell_plan(alloc, params, &plan, wanted, observer)?;
    Ok(reply)
}

/// What is said of a script by what was read of a capture, with the same statuses. The refusal of the
/// capture comes before the others.
pub fn tell_read<O: ReportObserver>(
    alloc: Global,
    params: Result<Params, ParamFault>,
    orders: &[u8],
    script: &[u8],
    wanted: Wanted,
    observer: &mut O,
) -> Result<Reply, Fault>
    ensures status { IfOk result (λ reply. reply.status ≤ 1) }
    ensures told { IfOk result (λ reply. (capture : List ℕ) → IsReadOf capture params
        → IsToldOf wanted capture orders.now script.now reply.status reply.text.items) }
    ensures refused { IfErr result (λ f.
        (capture : List ℕ) → IsReadOf capture params
        → IsTellRefusal wanted capture orders.now script.now f) }
    ensures params_first { (f : ParamFaultValue) → params ≡ Err f → result ≡ Err (fault_of f) }
{
    let params = match params {
        Ok(params) => params,
        Err(fault) => return Err(Fault::from(fault)),
    };
    let reply = tell(alloc, &params, orders, script, wanted, observer)?;
    Ok(reply)
}

/// What is said of a script by a capture, with the same statuses and refusals.
pub fn tell_script(
    alloc: Global,
    params: &[u8],
    orders: &[u8],
    script: &[u8],
    wanted: Wanted,
) -> Result<Reply, Fault>
    ensures told { IfOk result (λ reply.
        IsToldOf wanted params.now orders.now script.now reply.status reply.text.items) }
    ensures refused { IfErr result (λ f. IsTellRefusal wanted params.now orders.now script.now f) }
{
    let params = Params::read(alloc, params);
    tell_read(alloc, params, orders, script, wanted, &mut Unobserved)
}
