//! The cases of a report's findings.
ghost use Rattle.std.specs.Prelude.{◌≡◌, ◌<◌, ◌≤◌, ◌-◌, ◌++◌, [], length, slice_get, Some, IfOk, IfErr, IfSome, IsTrue, OnOk};
ghost use Rattle.fints_script_cases.specs.Cases.{case_text};
ghost use Rattle.fints_check_findings.specs.Reports.{LeadsFor};
ghost use Rattle.fints_rules.specs.declared.rule.Rule.TheVariants.{Release};
ghost use Rattle.fints_script.specs.Numbered.{numbered};
ghost use Rattle.fints_cli_scripts.specs.ExplainText.{case_line, IsExplainedAt, IsExplainedBy};
ghost use Rattle.fints_cli_scripts.specs.Explaining.{AreCasesWritten, IsCaseWritten, IsUnfound, IsWayTo};
ghost use Rattle.fints_cli_scripts.specs.StepNames.{IsFindingOf};

use crate::writing::{report_status, write_finding_text, write_report};
use fints_check::{Finding, Report};
use fints_cli_texts::{Fault, Reply};
use fints_rules::Rule;
use fints_script::{Answer, Case, Name, Values};
use fints_syntax::Memory;
use itoa::Buffer;
use std::alloc::Global;

// Writes the line of a finding of a step of this name; findings count from 1 here.
#[tactic(auto, unfolding(crate::specs::ExplainText::case_line))]
fn write_case_line(
    text: &mut Vec<u8>,
    number: usize,
    name: Name,
    finding: &Finding,
) -> Result<(), Memory>
    ensures { OnOk result (text.new.items ≡ text.old.items ++ case_line number name finding.now) }
{
    let mut count = Buffer::new();
    text.extend_from_slice(b"case ")?;
    text.extend_from_slice(count.format(number).as_bytes())?;
    text.push(b' ')?;
    write_finding_text(text, name, finding)
}

// The step to whose greatest number a finding's way leads; that of P11 is one of its own.
fn way_step(finding: Finding) -> Option<u16>
    ensures { IfSome result (λ n. (n ≡ finding.step) × (finding.rule ≡ Release → ⊥)) }
{
    match finding.rule {
        Rule::Release => None,
        _ => Some(finding.step),
    }
}

// Whether the way to this step is the finding's.
fn is_way_of(at: Option<u16>, finding: Finding) -> bool
    ensures { IsTrue result → (at ≡ Some finding.step) × (finding.rule ≡ Release → ⊥) }
{
    match way_step(finding) {
        None => false,
        Some(step) => at == Some(step),
    }
}

// The answers at hand, if they are the finding's way, and else others that are.
fn way_to(
    alloc: Global,
    report: &Report<'_>,
    i: usize,
    finding: Finding,
    at: Option<u16>,
    way: Vec<Answer>,
) -> Result<Vec<Answer>, Memory>
    requires finding { slice_get report.now.findings i ≡ Some finding }
    requires within { i < length report.now.findings }
    requires at_hand { IsWayTo report.now.plan.script.steps report.now.figures at way.items }
    ensures { IfOk result (λ way. LeadsFor report.now.plan.script report.now.figures finding way.items) }
{
    if is_way_of(at, finding) {
        return Ok(way);
    }
    report.way(alloc, i)
}

// Writes the case of values and answers, and hands back the answers.
fn write_values(
    alloc: Global,
    text: &mut Vec<u8>,
    values: Values,
    answers: Vec<Answer>,
) -> Result<Vec<Answer>, Memory>
    ensures kept { IfOk result (λ kept. kept.items ≡ answers.items) }
    ensures written { OnOk result (text.new.items ≡ text.old.items ++ case_text values answers.items) }
{
    let case = Case { values, answers };
    let written = case.write(alloc)?;
    text.extend_from_slice(written.as_slice())?;
    Ok(case.answers)
}

// Writes the line and the case of a finding, which counts from 1 here, and hands back the answers.
#[tactic(auto, using(crate::proofs::StepLemmas::named))]
fn write_case(
    alloc: Global,
    text: &mut Vec<u8>,
    report: &Report<'_>,
    number: usize,
    finding: Finding,
    way: Vec<Answer>,
) -> Result<Vec<Answer>, Memory>
    requires number { 1 ≤ number }
    requires finding { slice_get report.now.findings (number - 1) ≡ Some finding }
    requires within { number ≤ length report.now.findings }
    requires of_step { IsFindingOf report.now.plan.script.steps finding }
    requires way { LeadsFor report.now.plan.script report.now.figures finding way.items }
    ensures kept { IfOk result (λ kept. kept.items ≡ way.items) }
    ensures written { OnOk result (IsCaseWritten report.now.granted report.now.plan.script
        report.now.figures number finding text.old.items text.new.items) }
{
    let step = report.plan().step(finding.step as usize);
    write_case_line(text, number, step.name(), &finding)?;
    let values = report.values(alloc, number - 1)?;
    write_values(alloc, text, values, way)
}

fn write_cases(alloc: Global, text: &mut Vec<u8>, report: &Report<'_>) -> Result<(), Memory>
    ensures { OnOk result (AreCasesWritten report.now.granted report.now.plan.script report.now.figures
        report.now.findings text.old.items text.new.items) }
{
    let findings = report.findings();
    let mut way = Vec::new(alloc);
    let mut at = None;
    for i in 0..findings.len() {
        let finding = findings[i];
        way = way_to(alloc, report, i, finding, at, way)?;
        at = way_step(finding);
        way = write_case(alloc, text, report, i + 1, finding, way)?;
    }
    Ok(())
}

/// The report and the cases of its findings, with its status.
pub fn explain(alloc: Global, report: &Report<'_>) -> Result<Reply, Memory>
    ensures { IfOk result (λ reply.
        IsExplainedBy report.now.granted report.now.plan.script reply.status reply.text.items) }
{
    let mut text = Vec::new(alloc);
    write_report(&mut text, report)?;
    write_cases(alloc, &mut text, report)?;
    Ok(Reply {
        status: report_status(report.findings()),
        text,
    })
}

// The finding of this number, counted from 1.
fn finding_of(findings: &[Finding], number: u32) -> Option<Finding>
    ensures { result ≡ numbered findings.now number }
{
    if number == 0 {
        return None;
    }
    findings.get(number as usize - 1).copied()
}

/// The report and only the case of the finding of this number, with its status; findings count
/// from 1.
pub fn explain_one(alloc: Global, report: &Report<'_>, number: u32) -> Result<Reply, Fault>
    ensures told { IfOk result (λ reply.
        IsExplainedAt report.now.granted report.now.plan.script number reply.status reply.text.items) }
    ensures refused { IfErr result (λ f.
        IsUnfound report.now.granted report.now.plan.script number f) }
{
    let Some(finding) = finding_of(report.findings(), number) else {
        return Err(Fault::NoFinding { number });
    };
    let mut text = Vec::new(alloc);
    write_report(&mut text, report)?;
    let number = number as usize;
    let way = report.way(alloc, number - 1)?;
    write_case(alloc, &mut text, report, number, finding, way)?;
    Ok(Reply {
        status: report_status(report.findings()),
        text,
    })
}
