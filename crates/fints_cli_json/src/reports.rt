//! What `check`, `explain` and `certify` answer, and `verify`.
ghost use Rattle.std.specs.Prelude.{◌≡◌, ◌++◌, codes, map, IfOk, OnOk};
ghost use Rattle.fints_cli_json.specs.Placed.{AreWithoutCase};
ghost use Rattle.fints_cli_json.specs.Reported.{figures_of, placed_by};
ghost use Rattle.fints_cli_json.specs.Reports.{certificate_members, certified_part, reached_members, report_members, step_members, verified_members, verified_status};
ghost use Rattle.fints_cli_json.specs.Tokens.{all_members};
ghost use Rattle.fints_cli_json.specs.Verdicts.{found_status};

use crate::findings::write_findings;
use crate::found::JsonFinding;
use crate::latin::write_latin;
use crate::note::JsonNote;
use crate::objects::{Object, write_list};
use crate::placed::{GivesReasons, with_reasons};
use crate::reported::{placed_in_report, steps_of};
use crate::words::{clean_word, valid_word};
use crate::writing::{write_count, write_heading, write_some_text};
use fints_check_findings::{Reached, Report};
use fints_script_fields::Name;
use fints_syntax::Memory;
use json::Writer;
use std::alloc::{AllocError, Global};

/// A step, and the greatest number and size of its messages; none where no run sends it.
#[derive(Clone, Copy)]
pub struct StepFigures {
    pub name: Name,
    pub reached: Option<Reached>,
}

#[tactic(auto, using(crate::proofs::ObjectLemmas::no_members, crate::proofs::ObjectLemmas::two_members))]
fn write_reached(out: &mut Writer, reached: Option<Reached>) -> Result<(), AllocError>
    ensures tokens { OnOk result (out.new.tokens ≡ out.old.tokens ++ all_members (reached_members reached)) }
    ensures before { out.new.before ≡ out.old.before }
{
    let Some(reached) = reached else {
        return Ok(());
    };
    write_count(out, "number", u64::from(reached.number))?;
    write_count(out, "size", reached.size)
}

impl Object for StepFigures {
    ghost members = { step_members };

    #[tactic(auto, using(crate::proofs::ObjectLemmas::members_append, crate::proofs::ObjectLemmas::one_member))]
    fn write_members(&self, alloc: Global, out: &mut Writer) -> Result<(), AllocError> {
        write_latin(alloc, out, "step", self.name.as_bytes())?;
        write_reached(out, self.reached)
    }
}

/// What is found of a script's runs, for the command of this name: its steps, the rules that some run breaks, and
/// notes.
#[derive(Drop)]
pub struct RunsReport {
    pub command: &'static str,
    pub steps: Vec<StepFigures>,
    pub founds: Vec<JsonFinding>,
    pub notes: Vec<JsonNote>,
}

impl RunsReport {
    /// That of a report, with a reason for each finding.
    pub fn of<R: GivesReasons>(
        alloc: Global,
        command: &'static str,
        report: &Report<'_>,
        reasons: &mut R,
        notes: Vec<JsonNote>,
    ) -> Result<RunsReport, Memory>
        ensures command { IfOk result (λ r. r.command.now ≡ command.now) }
        ensures steps { IfOk result (λ r. r.steps.items
            ≡ figures_of report.now.plan.script.steps report.now.figures) }
        ensures findings { IfOk result (λ r. map (λ f. f.placed) r.founds.items
            ≡ map (placed_by report.now.plan.script.steps) report.now.findings) }
        ensures cases { IfOk result (λ r. AreWithoutCase r.founds.items) }
        ensures notes { IfOk result (λ r. r.notes.items ≡ notes.items) }
    {
        let steps = steps_of(alloc, report)?;
        let placed = placed_in_report(alloc, report)?;
        let founds = with_reasons(alloc, placed.as_slice(), reasons)?;
        Ok(RunsReport {
            command,
            steps,
            founds,
            notes,
        })
    }

    /// The exit status: 0 where nothing is broken, else 1.
    pub fn status(&self) -> u8
        ensures { result ≡ found_status self.now.founds.items }
    {
        if self.founds.is_empty() { 0 } else { 1 }
    }
}

impl Object for RunsReport {
    ghost members = { λ r. report_members r.command.now r.steps.items r.founds.items r.notes.items };

    #[tactic(auto, using(crate::proofs::ObjectLemmas::members_append, crate::proofs::ObjectLemmas::one_member))]
    fn write_members(&self, alloc: Global, out: &mut Writer) -> Result<(), AllocError> {
        let status = self.status();
        write_heading(out, self.command, status, clean_word(status))?;
        write_list(alloc, out, "steps", self.steps.as_slice())?;
        write_findings(alloc, out, self.founds.as_slice(), self.notes.as_slice())
    }
}

/// A certificate of a script without findings, and notes.
#[derive(Drop)]
pub struct JsonCertificate {
    pub certificate: Vec<u8>,
    pub notes: Vec<JsonNote>,
}

#[tactic(auto, using(crate::proofs::ObjectLemmas::two_members))]
fn write_certificate(
    alloc: Global,
    out: &mut Writer,
    certified: &JsonCertificate,
) -> Result<(), AllocError>
    ensures tokens { OnOk result (out.new.tokens ≡ out.old.tokens
        ++ all_members (certified_part certified.now.certificate.items certified.now.notes.items)) }
    ensures before { out.new.before ≡ out.old.before }
{
    write_latin(alloc, out, "certificate", certified.certificate.as_slice())?;
    write_list(alloc, out, "notes", certified.notes.as_slice())
}

impl Object for JsonCertificate {
    ghost members = { λ c. certificate_members c.certificate.items c.notes.items };

    #[tactic(auto, using(crate::proofs::ObjectLemmas::then_members))]
    fn write_members(&self, alloc: Global, out: &mut Writer) -> Result<(), AllocError> {
        write_heading(out, "certify", 0, clean_word(0))?;
        write_certificate(alloc, out, self)
    }
}

/// Whether a certificate holds, and if it doesn't, why.
#[derive(Drop)]
pub struct Verified {
    pub holds: bool,
    pub why: Option<String>,
}

impl Verified {
    /// The exit status: 0 where it holds, else 1.
    pub fn status(&self) -> u8
        ensures { result ≡ verified_status self.now.holds }
    {
        if self.holds { 0 } else { 1 }
    }
}

impl Object for Verified {
    ghost members = { λ v. verified_members v.holds v.why };

    #[tactic(auto, using(crate::proofs::ObjectLemmas::then_members))]
    fn write_members(&self, _alloc: Global, out: &mut Writer) -> Result<(), AllocError> {
        let status = self.status();
        write_heading(out, "verify", status, valid_word(status))?;
        write_some_text(out, "why", &self.why)
    }
}
