//! Why the runs of a script break the rules that a report names.
use crate::captured::add_captured;
use crate::notes::add_notes;
use crate::steps::{figures_of, step_at};
use fints_check::{Finding, Report};
use fints_check_reach::branch_to;
use fints_cli_hints_reasons::bank::{AccountIndex, Bank, BankIndex};
use fints_cli_hints_reasons::branches::BranchOf;
use fints_cli_hints_reasons::elements::{Elements, Filled};
use fints_cli_hints_reasons::kinds::Kinds;
use fints_cli_hints_reasons::lines::{Where, add_why, name_of};
use fints_cli_hints_reasons::segment::{Seen, SegmentWhy};
use fints_cli_hints_reasons::tans::no_tan;
use fints_cli_hints_reasons::whole::{Before, Whole, WholeWhy, is_of_whole};
use fints_cli_hints_words::places::HintText;
use fints_cli_scripts::ReportObserver;
use fints_params::Code;
use fints_rules::{Figures, Permissions, RELEASE, Rule};
use fints_script::{Plan, Step, Template, Values};
use fints_syntax::{Kind, Memory};
use std::alloc::Global;

// ---- the step before

// The branch of step t that an answer with 0030 fires where step n comes next.
fn branch_behind(step: &Step, t: usize, n: usize) -> Option<BranchOf> {
    let branch = branch_to(step, t, Code::from_number(RELEASE)?, n)?;
    Some(BranchOf::at(step, branch))
}

// ---- a finding

// A step with a finding.
#[derive(Clone, Copy)]
struct StepFinding<'a> {
    bank: &'a Bank<'a>,
    plan: &'a Plan<'a>,
    step: &'a Step,
    kinds: &'a Kinds,
    finding: Finding,
}

fn place_of<'a>(name: &'a str, finding: Finding) -> Where<'a> {
    Where {
        sent: name,
        segment: finding.segment,
    }
}

// The segment of a template under the finding's values.
fn seen_in<'a>(found: &StepFinding<'a>, template: &'a Template, values: &'a Values) -> Seen<'a> {
    let StepFinding {
        plan,
        step,
        kinds,
        ..
    } = *found;
    Seen {
        kind: template.kind,
        version: template.version,
        elements: Elements::Filled(Filled {
            fields: plan.fields(),
            values,
            elements: template.elements.as_slice(),
        }),
        count: kinds.count(template.kind),
        signatures: step.signers().len(),
        demanding: kinds.demanding(),
        no_tan: no_tan(plan.signers(), step),
    }
}

fn add_segment(
    text: &mut String,
    alloc: Global,
    found: &StepFinding<'_>,
    template: &Template,
    values: &Values,
) -> Result<(), Memory> {
    let seen = seen_in(found, template, values);
    let Some(cause) = seen.cause(found.bank.permissions, found.finding.rule) else {
        return Ok(());
    };
    let why = SegmentWhy {
        bank: found.bank,
        seen: &seen,
        cause,
    };
    let name = found.step.name();
    add_why(text, alloc, place_of(name_of(&name), found.finding), why)
}

fn add_whole(
    text: &mut String,
    alloc: Global,
    found: &StepFinding<'_>,
    figures: Figures,
    before: Before<'_>,
) -> Result<(), Memory> {
    let rule = found.finding.rule;
    if !is_of_whole(rule) {
        return Ok(());
    }
    let whole = Whole {
        is_one: false,
        protocol: Some(300),
        number: figures.number,
        size: figures.size,
        kinds: found.kinds.plain(),
        before,
    };
    let why = WholeWhy {
        bank: found.bank.permissions.bank(),
        whole: &whole,
        rule,
    };
    let name = found.step.name();
    add_why(text, alloc, place_of(name_of(&name), found.finding), why)
}

// Adds why an order of step t is left unreleased.
fn add_release(
    text: &mut String,
    alloc: Global,
    found: &StepFinding<'_>,
    figures: Figures,
    t: usize,
) -> Result<(), Memory> {
    let Some(step) = step_at(found.plan, t) else {
        return add_whole(text, alloc, found, figures, Before::Unsaid);
    };
    let name = step.name();
    let before = match branch_behind(step, t, usize::from(found.finding.step)) {
        Some(branch) => Before::Step {
            name: &name,
            branch,
        },
        None => Before::Unsaid,
    };
    add_whole(text, alloc, found, figures, before)
}

// The values of a finding's case, where its reason names one of them: the account that an order names.
fn values_of(alloc: Global, report: &Report<'_>, i: usize) -> Result<Values, Memory> {
    if i < report.findings().len()
        && matches!(report.findings()[i].rule, Rule::Signatures | Rule::Account)
    {
        return report.values(alloc, i);
    }
    Ok(Values::new(alloc))
}

// The segment of a step that a finding is of.
fn template_of<'a>(step: &'a Step, finding: Finding) -> Option<&'a Template> {
    let first = step.signers().len().saturating_add(2);
    let place = usize::from(finding.segment).checked_sub(first)?;
    step.templates().get(place)
}

// The kinds of the segments of step n, if it is one.
fn kinds_at(
    alloc: Global,
    permissions: &Permissions<'_>,
    plan: &Plan<'_>,
    n: usize,
) -> Result<Kinds, Memory> {
    let mut kinds: Vec<Kind> = Vec::new(alloc);
    let Some(step) = step_at(plan, n) else {
        return Ok(Kinds::of(kinds, permissions));
    };
    for template in step.templates() {
        kinds.push(template.kind)?;
    }
    Ok(Kinds::of(kinds, permissions))
}

// ---- all findings

fn add_finding(
    text: &mut String,
    alloc: Global,
    bank: &Bank<'_>,
    report: &Report<'_>,
    kinds: &Kinds,
    i: usize,
) -> Result<(), Memory> {
    if i >= report.findings().len() {
        return Ok(());
    }
    let finding = report.findings()[i];
    let n = usize::from(finding.step);
    let Some(reached) = figures_of(report, n) else {
        return Ok(());
    };
    let plan = report.plan();
    let Some(step) = step_at(plan, n) else {
        return Ok(());
    };
    let found = StepFinding {
        bank,
        plan,
        step,
        kinds,
        finding,
    };
    match (template_of(step, finding), report.step_left(i)) {
        (Some(template), _) => {
            let values = values_of(alloc, report, i)?;
            add_segment(text, alloc, &found, template, &values)
        }
        (None, Some(t)) => add_release(text, alloc, &found, reached.figures(), usize::from(t)),
        (None, None) => add_whole(text, alloc, &found, reached.figures(), Before::Unsaid),
    }
}

// Adds a line for each finding.
fn add_findings(
    text: &mut String,
    alloc: Global,
    bank: &Bank<'_>,
    report: &Report<'_>,
) -> Result<(), Memory> {
    let (plan, permissions) = (report.plan(), bank.permissions);
    let mut at: usize = 0;
    let mut kinds = kinds_at(alloc, permissions, plan, at)?;
    for i in 0..report.findings().len() {
        let n = usize::from(report.findings()[i].step);
        if n != at {
            kinds = kinds_at(alloc, permissions, plan, n)?;
            at = n;
        }
        add_finding(text, alloc, bank, report, &kinds, i)?;
    }
    Ok(())
}

fn lines_of(alloc: Global, capture: &[u8], report: &Report<'_>) -> Result<String, Memory> {
    let mut text = String::new(alloc);
    if !report.findings().is_empty() {
        let permissions = report.permissions();
        let index = BankIndex::of(alloc, permissions, capture)?;
        let accounts = AccountIndex::of(alloc, permissions)?;
        let bank = Bank {
            permissions,
            index: &index,
            accounts: &accounts,
        };
        add_findings(&mut text, alloc, &bank, report)?;
    }
    add_notes(&mut text, alloc, report)?;
    add_captured(&mut text, alloc, capture, report)?;
    Ok(text)
}

/// The reasons of a report: a line for each finding, in its order: why some run breaks the rule, and what
/// to change; and then the notes on the script, last those by what the capture says. None where they aren't wanted.
#[derive(Drop)]
pub struct ReportReasons<'c> {
    alloc: Global,
    wanted: bool,
    capture: &'c [u8],
    text: HintText,
}

impl<'c> ReportReasons<'c> {
    /// Those by the parameters that were read in this capture.
    pub fn new(alloc: Global, wanted: bool, capture: &'c [u8]) -> ReportReasons<'c> {
        ReportReasons {
            alloc,
            wanted,
            capture,
            text: Ok(None),
        }
    }

    /// The lines. An error where memory ran out while they were made.
    pub fn into_text(self) -> HintText {
        self.text
    }
}

impl ReportObserver for ReportReasons<'_> {
    fn reported(&mut self, report: &Report<'_>) {
        if self.wanted {
            self.text = match lines_of(self.alloc, self.capture, report) {
                Ok(text) => Ok(Some(text)),
                Err(memory) => Err(memory),
            };
        }
    }
}
