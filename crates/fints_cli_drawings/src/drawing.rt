//! The picture of a script by itself, and with what its runs break.
ghost use Rattle.std.specs.Prelude.{◌≡◌, ◌≤◌, ◌++◌, ℕ, List, length, AllPairs, OnOk, IfOk, IfErr, Err};
ghost use Rattle.fints_params.specs.Captures.{IsReadOf};
ghost use Rattle.fints_params.specs.declared.fault.ParamFault.{ParamFault as ParamFaultValue};
ghost use Rattle.fints_cli_texts.specs.Fault.{fault_of};
ghost use Rattle.fints_check_findings.specs.Findings.{IsBefore};
ghost use Rattle.fints_cli_scripts.specs.Plans.{IsPlanRefusal};
ghost use Rattle.fints_cli_scripts.specs.Told.{IsRefused};
ghost use Rattle.fints_cli_drawings.specs.Drawn.{no_orders, IsDrawnBy, IsDrawnOf, IsDrawnOn, IsPictureOf};
ghost use Rattle.fints_cli_drawings.specs.Picture.{opening, picture_text, steps_text, IsStepWritten};

use crate::edges::write_edges;
use crate::finding::found_at;
use crate::nodes::write_node;
use fints_check::{Finding, Reached, Report, check, greatest_figures};
use fints_cli_scripts::{ReportObserver, read_inputs, report_status};
use fints_cli_texts::{Fault, Reply};
use fints_params::{ParamFault, Params};
use fints_rules::Permissions;
use fints_script::Plan;
use fints_syntax::Memory;
use std::alloc::Global;

// What is before the steps: the end of the runs is a node too.
const OPENING: &[u8] = b"digraph fints {
  node [shape=box];
  \"stop\" [shape=doublecircle];
";

// Writes the line of step n and those of its branches.
fn write_step(
    text: &mut Vec<u8>,
    plan: &Plan<'_>,
    n: usize,
    reached: Option<Reached>,
    findings: &[Finding],
) -> Result<(), Memory>
    requires from { 1 ≤ n }
    requires to { n ≤ length plan.now.script.steps }
    requires in_order { AllPairs IsBefore findings.now }
    ensures { OnOk result (IsStepWritten plan.now.script.steps n reached findings.now
        text.old.items text.new.items) }
{
    let step = plan.step(n);
    write_node(text, step, reached, found_at(findings, n))?;
    write_edges(text, plan, step)
}

// Writes those of all steps.
fn write_steps(
    text: &mut Vec<u8>,
    plan: &Plan<'_>,
    figures: &[Option<Reached>],
    findings: &[Finding],
) -> Result<(), Memory>
    requires figures { length figures.now ≡ length plan.now.script.steps }
    requires in_order { AllPairs IsBefore findings.now }
    ensures { OnOk result (text.new.items
        ≡ text.old.items
        ++ steps_text plan.now.script.steps 1 plan.now.script.steps figures.now findings.now) }
{
    for i in 0..figures.len() {
        write_step(text, plan, i + 1, figures[i], findings)?;
    }
    Ok(())
}

// The picture of a plan with what was found of it, with these figures of its steps.
#[tactic(auto, unfolding(crate::specs::Picture::opening))]
fn picture(
    alloc: Global,
    plan: &Plan<'_>,
    figures: &[Option<Reached>],
    findings: &[Finding],
) -> Result<Vec<u8>, Memory>
    requires figures { length figures.now ≡ length plan.now.script.steps }
    requires in_order { AllPairs IsBefore findings.now }
    ensures { IfOk result (λ text.
        text.items ≡ picture_text plan.now.script.steps figures.now findings.now) }
{
    let mut text = Vec::new(alloc);
    text.extend_from_slice(OPENING)?;
    write_steps(&mut text, plan, figures, findings)?;
    text.extend_from_slice(b"}\n")?;
    Ok(text)
}

/// The picture of a script by itself, as of a plan with an order table without orders. Of the refusals
/// that of the script comes first, and then what it leaves open with that table.
pub fn draw_script(alloc: Global, script: &[u8]) -> Result<Vec<u8>, Fault>
    ensures drawn { IfOk result (λ text. IsPictureOf script.now text.items) }
    ensures refused { IfErr result (λ f. IsPlanRefusal no_orders script.now f) }
{
    let inputs = read_inputs(alloc, b"", script)?;
    let plan = inputs.script.plan(&inputs.orders)?;
    let figures = greatest_figures(alloc, &plan)?;
    let text = picture(alloc, &plan, figures.as_slice(), &[])?;
    Ok(text)
}

// The picture of a report's plan with what was found, with its status.
fn draw_report(alloc: Global, report: &Report<'_>) -> Result<Reply, Memory>
    ensures { IfOk result (λ reply.
        IsDrawnBy report.now.granted report.now.plan.script reply.status reply.text.items) }
{
    let plan = report.plan();
    let figures = greatest_figures(alloc, plan)?;
    let findings = report.findings();
    let text = picture(alloc, plan, figures.as_slice(), findings)?;
    Ok(Reply {
        status: report_status(findings),
        text,
    })
}

// The picture of a plan with what its runs break, by good parameters.
fn draw_plan<O: ReportObserver>(
    alloc: Global,
    params: &Params,
    plan: &Plan<'_>,
    observer: &mut O,
) -> Result<Reply, Memory>
    ensures { IfOk result (λ reply.
        IsDrawnBy (record { rows = params.now; orders = plan.now.orders }) plan.now.script
        reply.status reply.text.items) }
{
    let permissions = Permissions::build(alloc, params, plan.orders())?;
    let report = check(alloc, &permissions, plan)?;
    observer.reported(&report);
    draw_report(alloc, &report)
}

// The picture of a script with what its runs break, by good parameters.
fn draw_found<O: ReportObserver>(
    alloc: Global,
    params: &Params,
    orders: &[u8],
    script: &[u8],
    observer: &mut O,
) -> Result<Reply, Fault>
    ensures drawn { IfOk result (λ reply.
        IsDrawnOn params.now orders.now script.now reply.status reply.text.items) }
    ensures refused { IfErr result (λ f. IsPlanRefusal orders.now script.now f) }
{
    let inputs = read_inputs(alloc, orders, script)?;
    let plan = inputs.script.plan(&inputs.orders)?;
    let reply = draw_plan(alloc, params, &plan, observer)?;
    Ok(reply)
}

/// The picture of a script with what its runs break, by what was read of a capture: with status 0 where
/// nothing is found, else 1. Of the refusals that of the capture comes first, then that of the order
/// table, that of the script, and what the script leaves open with the order table.
pub fn draw_read<O: ReportObserver>(
    alloc: Global,
    params: Result<Params, ParamFault>,
    orders: &[u8],
    script: &[u8],
    observer: &mut O,
) -> Result<Reply, Fault>
    ensures status { IfOk result (λ reply. reply.status ≤ 1) }
    ensures drawn { IfOk result (λ reply. (capture : List ℕ) → IsReadOf capture params
        → IsDrawnOf capture orders.now script.now reply.status reply.text.items) }
    ensures refused { IfErr result (λ f. (capture : List ℕ) → IsReadOf capture params
        → IsRefused capture orders.now script.now f) }
    ensures params_first { (f : ParamFaultValue) → params ≡ Err f → result ≡ Err (fault_of f) }
{
    let params = match params {
        Ok(params) => params,
        Err(fault) => return Err(Fault::from(fault)),
    };
    let reply = draw_found(alloc, &params, orders, script, observer)?;
    Ok(reply)
}
