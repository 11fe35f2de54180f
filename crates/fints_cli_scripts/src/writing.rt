//! The lines of a report.
ghost use Rattle.std.specs.Prelude.{◌≡◌, ◌++◌, IfOk, OnOk};
ghost use Rattle.std.specs.List.{All, flat_map};
ghost use Rattle.fints_cli_scripts.specs.StepNames.{IsFindingOf};
ghost use Rattle.fints_cli_scripts.specs.ReportText.{found_line, reached_text, finding_line, finding_text, outcome_line, report_status, report_text, step_line, step_lines, IsReportBy};

use fints_check::{Finding, Reached, Report};
use fints_cli_texts::Reply;
use fints_script::{Name, Plan};
use fints_syntax::Memory;
use itoa::Buffer;
use std::alloc::Global;

#[tactic(auto, unfolding(crate::specs::ReportText::reached_text))]
fn write_reached(text: &mut Vec<u8>, reached: Option<Reached>) -> Result<(), Memory>
    ensures { OnOk result (text.new.items ≡ text.old.items ++ reached_text reached) }
{
    let Some(reached) = reached else {
        text.extend_from_slice(b" unreached")?;
        return Ok(());
    };
    let mut number = Buffer::new();
    let mut size = Buffer::new();
    text.extend_from_slice(b" number ")?;
    text.extend_from_slice(number.format(reached.number).as_bytes())?;
    text.extend_from_slice(b" size ")?;
    text.extend_from_slice(size.format(reached.size).as_bytes())?;
    Ok(())
}

// Writes the line of a step of this name.
#[tactic(auto, unfolding(crate::specs::ReportText::step_line))]
fn write_step(text: &mut Vec<u8>, name: Name, reached: Option<Reached>) -> Result<(), Memory>
    ensures { OnOk result (text.new.items ≡ text.old.items ++ step_line name reached) }
{
    text.extend_from_slice(b"step ")?;
    text.extend_from_slice(name.as_bytes())?;
    write_reached(text, reached)?;
    text.push(b'\n')?;
    Ok(())
}

fn write_steps(text: &mut Vec<u8>, report: &Report<'_>) -> Result<(), Memory>
    ensures { OnOk result (text.new.items
        ≡ text.old.items ++ step_lines report.now.plan.script.steps report.now.figures) }
{
    for i in 0..report.plan().step_count() {
        let step = report.plan().step(i + 1);
        write_step(text, step.name(), report.reached(i + 1))?;
    }
    Ok(())
}

/// Writes the step by its name, the rule and the segment of a finding.
#[tactic(auto, unfolding(crate::specs::ReportText::finding_text))]
pub fn write_finding_text(text: &mut Vec<u8>, name: Name, finding: &Finding) -> Result<(), Memory>
    ensures { OnOk result (text.new.items ≡ text.old.items ++ finding_text name finding.now) }
{
    let mut segment = Buffer::new();
    text.extend_from_slice(name.as_bytes())?;
    text.push(b' ')?;
    text.extend_from_slice(finding.rule.name().as_bytes())?;
    text.extend_from_slice(b" segment ")?;
    text.extend_from_slice(segment.format(finding.segment).as_bytes())?;
    text.push(b'\n')?;
    Ok(())
}

// Writes what was found of a step of this name.
#[tactic(auto, unfolding(crate::specs::ReportText::found_line))]
fn write_broken(text: &mut Vec<u8>, name: Name, finding: &Finding) -> Result<(), Memory>
    ensures { OnOk result (text.new.items ≡ text.old.items ++ found_line name finding.now) }
{
    text.extend_from_slice(b"broken ")?;
    write_finding_text(text, name, finding)
}

#[tactic(auto, using(crate::proofs::StepLemmas::named))]
fn write_finding(text: &mut Vec<u8>, plan: &Plan<'_>, finding: &Finding) -> Result<(), Memory>
    requires { IsFindingOf plan.now.script.steps finding.now }
    ensures { OnOk result (text.new.items
        ≡ text.old.items ++ finding_line plan.now.script.steps finding.now) }
{
    let step = plan.step(usize::from(finding.step));
    write_broken(text, step.name(), finding)
}

fn write_findings(text: &mut Vec<u8>, plan: &Plan<'_>, findings: &[Finding]) -> Result<(), Memory>
    requires { All (IsFindingOf plan.now.script.steps) findings.now }
    ensures { OnOk result (text.new.items
        ≡ text.old.items ++ flat_map (finding_line plan.now.script.steps) findings.now) }
{
    for finding in findings {
        write_finding(text, plan, finding)?;
    }
    Ok(())
}

#[tactic(auto, unfolding(crate::specs::ReportText::outcome_line))]
fn write_last(text: &mut Vec<u8>, findings: &[Finding]) -> Result<(), Memory>
    ensures { OnOk result (text.new.items ≡ text.old.items ++ outcome_line findings.now) }
{
    if findings.is_empty() {
        text.extend_from_slice(b"clean\n")?;
        return Ok(());
    }
    let mut count = Buffer::new();
    text.extend_from_slice(b"findings ")?;
    text.extend_from_slice(count.format(findings.len()).as_bytes())?;
    text.push(b'\n')?;
    Ok(())
}

/// Writes the report.
pub fn write_report(text: &mut Vec<u8>, report: &Report<'_>) -> Result<(), Memory>
    ensures { OnOk result (text.new.items ≡ text.old.items
        ++ report_text report.now.plan.script.steps report.now.figures report.now.findings) }
{
    write_steps(text, report)?;
    write_findings(text, report.plan(), report.findings())?;
    write_last(text, report.findings())
}

/// 0 where nothing is found, else 1.
pub fn report_status(findings: &[Finding]) -> u8
    ensures { result ≡ report_status findings.now }
{
    if findings.is_empty() { 0 } else { 1 }
}

/// The report, with its status.
pub fn reply(alloc: Global, report: &Report<'_>) -> Result<Reply, Memory>
    ensures report { IfOk result (λ reply.
        IsReportBy report.now.granted report.now.plan.script reply.status reply.text.items) }
    ensures status { IfOk result (λ reply. reply.status ≡ report_status report.now.findings) }
{
    let mut text = Vec::new(alloc);
    write_report(&mut text, report)?;
    Ok(Reply {
        status: report_status(report.findings()),
        text,
    })
}
