//! Checks a script of a dialogue, and says in words of its own what some run of it would break.
#![tactic(auto)]

use anyhow::Result;
use fints_check::{Report, check};
use fints_params::Params;
use fints_rules::{OrderTable, Permissions};
use fints_script::{Script, Step};
use std::fs;

// Prints what is found of step n, and how many answers of the bank lead there.
fn print_step(rt: &HostRuntime, report: &Report<'_>, n: usize, step: &Step) -> Result<()> {
    let name = step.name();
    for (i, finding) in report.findings().iter().enumerate() {
        if usize::from(finding.step) == n {
            let case = report.case(rt.alloc(), i)?;
            let answers = case.answers.len();
            println!(rt;
                "{name}, segment {}: {}, answers before it: {answers}",
                finding.segment, finding.rule
            )?;
        }
    }
    Ok(())
}

fn print_report(rt: &HostRuntime, report: &Report<'_>, steps: &[Step]) -> Result<()> {
    if report.is_clean() {
        println!(rt; "whatever the bank answers, each message is permitted")?;
    }
    for (i, step) in steps.iter().enumerate() {
        print_step(rt, report, i + 1, step)?;
    }
    Ok(())
}

fn report(rt: &HostRuntime, params: &Params, orders: &OrderTable, script: &Script) -> Result<()> {
    let plan = script.plan(orders)?;
    let permissions = Permissions::build(rt.alloc(), params, orders)?;
    let report = check(rt.alloc(), &permissions, &plan)?;
    print_report(rt, &report, script.steps())
}

fn main(rt: HostRuntime) -> Result<()> {
    let params = Params::read(rt.alloc(), fs::read(&rt, "bank.fints")?.as_slice())?;
    let orders = OrderTable::read(rt.alloc(), fs::read(&rt, "orders.toml")?.as_slice())?;
    let script = Script::read(rt.alloc(), fs::read(&rt, "script.toml")?.as_slice())?;
    report(&rt, &params, &orders, &script)
}
