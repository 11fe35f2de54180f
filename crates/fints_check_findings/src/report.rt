//! Reports: what the runs of a plan break, and the greatest figures of its steps.
ghost use Rattle.std.specs.Prelude.{◌≡◌, ◌↔◌, ◌<◌, ◌≤◌, [], length, map, is_some, slice_get, Some, AllPairs, Contains, IfOk, IsTrue, MatchOption};
ghost use Rattle.fints_check_reach.specs.Numbers.{looked_at};
ghost use Rattle.fints_script.specs.Numbered.{numbered};
ghost use Rattle.fints_script.specs.Steps.{StepValue};
ghost use Rattle.fints_check_findings.specs.Figures.{AreFigures, FiguresAre};
ghost use Rattle.fints_check_findings.specs.Findings.{AreFindings, EachIsPermitted, IsBefore, IsReal, SentStepsAreClean, SentStepsAreReleased};
ghost use Rattle.fints_check_findings.specs.Releases.{IsFirstLeft, LeadsFromFirst};
ghost use Rattle.fints_check_findings.specs.Reports.{AreChosenOf, AreValuesOf, IsWayOf, ShowsFindingAt};
ghost use Rattle.fints_check_findings.specs.Searching.{AreFiguresAt, IsFindingOf, IsGreatestAt};
ghost use Rattle.fints_check_findings.specs.StepFacts.{AreFactsAt};
ghost use Rattle.fints_check_findings.specs.declared.finding.Finding.{Finding as FindingValue};
ghost use Rattle.fints_wire.specs.declared.building.TheConstants.{MAX_NUMBER};
ghost use Rattle.fints_rules.specs.declared.rule.Rule.TheVariants.{Release};

use crate::at_step::AtStep;
use crate::casing::{FindingAt, case_values};
use crate::finding::{Finding, Reached};
use crate::releasing::{holder_of, holders, release_code, submitting};
use crate::searching::SentStep;
use fints_check_reach::{Numbers, PlanStep, WayTo, greatest_numbers, longest_way, way_behind};
use fints_rules::{MessageFacts, Permissions, Rule};
use fints_script::{Answer, Case, Plan, Values};
use fints_syntax::Memory;
use fints_wire::worst_size;
use std::alloc::Global;
use std::marker::Model;

/// What a check of a plan found.
#[derive(Drop)]
pub struct Report<'a> {
    permissions: &'a Permissions<'a>,
    plan: &'a Plan<'a>,
    figures: Vec<Option<Reached>>,
    findings: Vec<Finding>,
    // Those of each step's message, with a TAN where no choice leaves it empty.
    facts: Vec<MessageFacts>,
    numbers: Numbers,
    holders: Vec<Option<u16>>,
}

impl<'a> Model for Report<'a> {
    ghost use Rattle.std.specs.Prelude.{◌≡◌, is_some, map};
    ghost use Rattle.fints_check_reach.specs.Numbers.{AreGreatest, looked_at};
    ghost use Rattle.fints_check_reach.specs.Sources.{AreSources};
    ghost use Rattle.fints_check_findings.specs.Figures.{AreFigures};
    ghost use Rattle.fints_check_findings.specs.Findings.{AreFindings};
    ghost use Rattle.fints_check_findings.specs.Releases.{AreHolders};
    ghost use Rattle.fints_check_findings.specs.Reports.{ReportValue};
    ghost use Rattle.fints_check_findings.specs.StepFacts.{AreFactsOf};
    ghost use Rattle.fints_script.specs.Plans.{IsClosed};
    ghost use Rattle.fints_script.specs.Scripts.{IsRead};

    ghost Value = { ReportValue };

    ghost view = { λ r. record {
      plan = r.plan.now;
      granted = r.permissions.now;
      figures = r.figures.items;
      findings = r.findings.items;
      visits = r.numbers.visits;
    } };

    ghost invariant = { λ r. (r.permissions.now.orders ≡ r.plan.now.orders)
        × AreFindings r.permissions.now r.plan.now.script r.findings.items
        × AreFigures r.plan.now.script r.figures.items
        × (r.numbers.visits ≡ looked_at r.plan.now.script.steps (map is_some r.figures.items))
        × AreGreatest r.plan.now.script.steps r.numbers.greatest.items
        × AreSources r.plan.now.script.steps r.numbers.greatest.items r.numbers.sources.items
        × AreHolders r.plan.now.script.steps r.numbers.greatest.items r.holders.items
        × AreFactsOf r.permissions.now r.plan.now.script r.facts.items
        × IsRead r.plan.now.script
        × IsClosed r.plan.now.script r.plan.now.orders };
}

impl<'a> Report<'a> {
    /// The plan that was checked.
    pub fn plan(&self) -> &Plan<'a>
        ensures { result.now ≡ self.now.plan }
    {
        self.plan
    }

    /// What the bank permits, by which it was checked.
    pub fn permissions(&self) -> &Permissions<'a>
        ensures { result.now ≡ self.now.granted }
    {
        self.permissions
    }

    /// The findings in order of step, rule and segment.
    pub fn findings(&self) -> &[Finding]
        ensures findings { result.now ≡ self.now.findings }
        ensures exactly { AreFindings self.now.granted self.now.plan.script self.now.findings }
        ensures clean { self.now.findings ≡ [] → SentStepsAreClean self.now.granted self.now.plan.script }
        ensures released { self.now.findings ≡ [] → SentStepsAreReleased self.now.plan.script }
        ensures permitted { self.now.findings ≡ [] → EachIsPermitted self.now.granted self.now.plan.script }
        ensures figures { AreFigures self.now.plan.script self.now.figures }
    {
        self.findings.as_slice()
    }

    /// What each report keeps: its findings are exactly the real ones, and its figures the greatest.
    /// Without findings each message of each run is permitted; and what the messages of steps hold that
    /// runs send breaks no rule, at any number, and none of these steps leaves an order of another
    /// unreleased.
    pub fn keeps(&self)
        ensures exactly { AreFindings self.now.granted self.now.plan.script self.now.findings }
        ensures clean { self.now.findings ≡ [] → SentStepsAreClean self.now.granted self.now.plan.script }
        ensures released { self.now.findings ≡ [] → SentStepsAreReleased self.now.plan.script }
        ensures permitted { self.now.findings ≡ [] → EachIsPermitted self.now.granted self.now.plan.script }
        ensures figures { AreFigures self.now.plan.script self.now.figures }
    {
        let _ = &self.findings;
    }

    /// Whether nothing was found.
    pub fn is_clean(&self) -> bool
        ensures { IsTrue result ↔ (self.now.findings ≡ []) }
    {
        self.findings.is_empty()
    }

    /// The greatest number and length of a step's messages over all runs and all values, or none
    /// where no run sends it; steps count from 1.
    pub fn reached(&self, n: usize) -> Option<Reached>
        requires from { 1 ≤ n }
        requires to { n ≤ length self.now.plan.script.steps }
        ensures told { numbered self.now.figures n ≡ Some result }
        ensures greatest { FiguresAre self.now.plan.script n result }
    {
        self.figures[n - 1]
    }

    /// How many steps and branches were looked at for the figures: each step once, and each branch of
    /// a step that some run sends once; a default is a branch.
    pub fn visits(&self) -> u64
        ensures visits { result ≡ looked_at self.now.plan.script.steps (map is_some self.now.figures) }
    {
        self.numbers.visits
    }

    // A finding, counted from 0.
    fn finding(&self, i: usize) -> Finding
        requires { i < length self.now.findings }
        ensures { IsFindingOf self.now i result }
    {
        self.findings[i]
    }

    // The facts of a step's message, with a TAN where no choice leaves it empty; steps count from 1.
    fn facts(&self, n: usize) -> MessageFacts
        requires from { 1 ≤ n }
        requires to { n ≤ length self.now.plan.script.steps }
        ensures { AreFactsAt self.now.granted self.now.plan.script n result }
    {
        self.facts[n - 1]
    }

    // Answers after which a run ends with a message of the finding's step that leaves an order
    // unreleased, of the first step that it can be.
    fn unreleased_way(&self, alloc: Global, finding: Finding) -> Result<Vec<Answer>, Memory>
        requires release { finding.rule ≡ Release }
        requires real { IsReal self.now.granted self.now.plan.script finding }
        ensures { IfOk result (λ answers. LeadsFromFirst self.now.plan.script finding.step answers.items) }
    {
        let s = finding.step as usize;
        let t = holder_of(self.holders.as_slice(), s);
        let way = WayTo {
            plan: self.plan,
            numbers: &self.numbers,
            n: t,
        };
        way_behind(alloc, way, release_code(), s)
    }

    /// The step whose order a finding of P11 leaves unreleased, the first that runs send: its case
    /// sends it last but one. None for another rule. Findings count from 0.
    pub fn step_left(&self, i: usize) -> Option<u16>
        requires { i < length self.now.findings }
        ensures { (f : FindingValue) → slice_get self.now.findings i ≡ Some f
            → MatchOption result (f.rule ≡ Release → ⊥)
            (λ t. IsFirstLeft self.now.plan.script t f.step) }
    {
        let finding = self.finding(i);
        match finding.rule {
            Rule::Release => Some(holder_of(self.holders.as_slice(), finding.step as usize)),
            _ => None,
        }
    }

    /// Answers after which a run ends with a message of a finding's step that has the step's greatest
    /// number; where P11 is found, with one that leaves an order unreleased, that of `step_left`.
    /// Findings count from 0. It is the same for all findings of a step but that of P11.
    pub fn way(&self, alloc: Global, i: usize) -> Result<Vec<Answer>, Memory>
        requires { i < length self.now.findings }
        ensures { IfOk result (λ answers. IsWayOf self.now i answers.items) }
    {
        let finding = self.finding(i);
        match finding.rule {
            Rule::Release => self.unreleased_way(alloc, finding),
            _ => {
                let way = WayTo {
                    plan: self.plan,
                    numbers: &self.numbers,
                    n: finding.step,
                };
                longest_way(alloc, way)
            }
        }
    }

    /// The values of a finding's case, for any answers that lead as its way does: the longest ones for
    /// P3 and P12, and else the shortest, where P8 and P9 are asked of listed accounts with the first of
    /// them that breaks; findings count from 0.
    pub fn values(&self, alloc: Global, i: usize) -> Result<Values, Memory>
        requires { i < length self.now.findings }
        ensures shown { IfOk result (λ values. AreValuesOf self.now i values) }
        ensures chosen { IfOk result (λ values. AreChosenOf self.now i values) }
    {
        let finding = self.finding(i);
        let facts = self.facts(finding.step as usize);
        let at = FindingAt {
            permissions: self.permissions,
            plan: self.plan,
            finding,
        };
        case_values(alloc, at, facts)
    }

    /// A run that a finding speaks of: its answers are those of `way`, and its values those of `values`.
    /// Findings count from 0.
    pub fn case(&self, alloc: Global, i: usize) -> Result<Case, Memory>
        requires { i < length self.now.findings }
        ensures shows { IfOk result (λ case. ShowsFindingAt self.now i case.values case.answers.items) }
        ensures way { IfOk result (λ case. IsWayOf self.now i case.answers.items) }
        ensures chosen { IfOk result (λ case. AreChosenOf self.now i case.values) }
    {
        let answers = self.way(alloc, i)?;
        let values = self.values(alloc, i)?;
        Ok(Case { values, answers })
    }
}

/// The figures of a step of this greatest number.
pub fn figures_at(at: PlanStep<'_, '_>, number: u32) -> Reached
    requires least { 1 ≤ number }
    requires most { number ≤ MAX_NUMBER }
    ensures number { result.number ≡ number }
    ensures figures { (step : StepValue) → numbered at.entry.plan.now.script.steps at.entry.n ≡ Some step
        → AreFiguresAt at.entry.plan.now.script step result }
{
    let size = worst_size(at.plan, at.n, number);
    Reached { number, size }
}

/// What runs of the plan break under these permissions, over all values that the plan admits and all
/// answers of the bank. Both were made with order tables of the same rows.
pub fn check<'a>(
    alloc: Global,
    permissions: &'a Permissions<'a>,
    plan: &'a Plan<'a>,
) -> Result<Report<'a>, Memory>
    requires { permissions.now.orders ≡ plan.now.orders }
    ensures plan { IfOk result (λ report. report.plan ≡ plan.now) }
    ensures granted { IfOk result (λ report. report.granted ≡ permissions.now) }
    ensures exactly { IfOk result (λ report.
        (f : FindingValue) → Contains report.findings f ↔ IsReal permissions.now plan.now.script f) }
    ensures in_order { IfOk result (λ report. AllPairs IsBefore report.findings) }
    ensures figures { IfOk result (λ report. AreFigures plan.now.script report.figures) }
    ensures visits { IfOk result (λ report.
        report.visits ≡ looked_at plan.now.script.steps (map is_some report.figures)) }
    ensures permitted { IfOk result (λ report.
        report.findings ≡ [] → EachIsPermitted permissions.now plan.now.script) }
{
    let count = plan.step_count();
    let marks = submitting(alloc, plan)?;
    let numbers = greatest_numbers(alloc, plan, marks.as_slice(), release_code())?;
    let holders = holders(alloc, plan, marks.as_slice(), &numbers)?;
    let mut findings = Vec::new(alloc);
    let mut figures = Vec::with_capacity(alloc, count)?;
    let mut facts = Vec::with_capacity(alloc, count)?;
    for i in 0..count {
        let at = PlanStep { plan, n: i + 1 };
        let step = AtStep::new(permissions, at);
        facts.push(step.message_facts())?;
        let cell = match numbers.greatest[i] {
            None => None,
            Some(number) => {
                let reached = figures_at(at, number);
                SentStep::new(step, reached, holders[i].is_some()).search(&mut findings)?;
                Some(reached)
            }
        };
        figures.push(cell)?;
    }
    Ok(Report {
        permissions,
        plan,
        figures,
        findings,
        facts,
        numbers,
        holders,
    })
}
