//! What is found, and why: an object of the list `findings`.
ghost use Rattle.std.specs.Prelude.{◌≡◌, ◌++◌, OnOk};
ghost use Rattle.fints_cli_json.specs.Tokens.{all_members};
ghost use Rattle.fints_cli_json.specs.Findings.{broken_members, case_member, found_members, place_members, segment_members, why_members};

use crate::latin::write_latin;
use crate::objects::{Object, write_nested};
use crate::words::{cause_in, rule_code, rule_word};
use crate::writing::{write_count, write_text};
use fints_rules::{Broken, Cause, Rule};
use fints_script_cases::Case;
use fints_script_fields::Name;
use json::Writer;
use std::alloc::{AllocError, Global};

/// The kind and the version of a segment.
#[derive(Drop)]
pub struct SegmentName {
    pub kind: String,
    pub version: u16,
}

/// Why a rule is broken. The segment is none where the rule is one of the whole message.
#[derive(Drop)]
pub struct Reason {
    pub segment: Option<SegmentName>,
    /// The cause, for a rule of a segment.
    pub cause: Option<Cause>,
    /// For a person; no contract says what the words are.
    pub words: String,
}

/// What a finding is about.
#[derive(Clone, Copy)]
pub enum FindingPlace {
    /// The one message that is judged.
    Itself,
    /// The message of the client that has this number, which counts from 1.
    Message(u64),
    /// The step of this name.
    Step(Name),
}

/// A rule that is broken, and where: a finding without its reason.
#[derive(Clone, Copy)]
pub struct PlacedFinding {
    pub place: FindingPlace,
    pub broken: Broken,
}

/// A finding, why the rule is broken, and a run that breaks it, if one is asked for.
#[derive(Drop)]
pub struct JsonFinding {
    pub placed: PlacedFinding,
    pub why: Reason,
    pub case: Option<Case>,
}

#[tactic(auto, using(crate::proofs::ObjectLemmas::no_members, crate::proofs::ObjectLemmas::one_member))]
fn write_place(alloc: Global, out: &mut Writer, place: FindingPlace) -> Result<(), AllocError>
    ensures tokens { OnOk result (out.new.tokens ≡ out.old.tokens ++ all_members (place_members place)) }
    ensures before { out.new.before ≡ out.old.before }
{
    match place {
        FindingPlace::Itself => Ok(()),
        FindingPlace::Message(number) => write_count(out, "message", number),
        FindingPlace::Step(name) => write_latin(alloc, out, "step", name.as_bytes()),
    }
}

#[tactic(auto, using(crate::proofs::ObjectLemmas::three_members))]
fn write_broken(out: &mut Writer, broken: &Broken) -> Result<(), AllocError>
    ensures tokens { OnOk result
        (out.new.tokens ≡ out.old.tokens ++ all_members (broken_members broken.now)) }
    ensures before { out.new.before ≡ out.old.before }
{
    write_text(out, "rule", rule_code(broken.rule))?;
    write_text(out, "name", rule_word(broken.rule))?;
    write_count(out, "segment", u64::from(broken.segment))
}

#[tactic(auto, using(crate::proofs::ObjectLemmas::no_members, crate::proofs::ObjectLemmas::two_members))]
fn write_segment(out: &mut Writer, segment: &Option<SegmentName>) -> Result<(), AllocError>
    ensures tokens { OnOk result
        (out.new.tokens ≡ out.old.tokens ++ all_members (segment_members segment.now)) }
    ensures before { out.new.before ≡ out.old.before }
{
    let Some(named) = segment else {
        return Ok(());
    };
    write_text(out, "kind", named.kind.as_str())?;
    write_count(out, "version", u64::from(named.version))
}

#[tactic(auto, using(crate::proofs::ObjectLemmas::two_members))]
fn write_why(out: &mut Writer, rule: Rule, why: &Reason) -> Result<(), AllocError>
    ensures tokens { OnOk result (out.new.tokens ≡ out.old.tokens ++ all_members (why_members rule why.now)) }
    ensures before { out.new.before ≡ out.old.before }
{
    write_text(out, "cause", cause_in(rule, why.cause))?;
    write_text(out, "why", why.words.as_str())
}

#[tactic(auto, using(crate::proofs::ObjectLemmas::no_members, crate::proofs::ObjectLemmas::one_member))]
fn write_case(alloc: Global, out: &mut Writer, case: &Option<Case>) -> Result<(), AllocError>
    ensures tokens { OnOk result (out.new.tokens ≡ out.old.tokens ++ all_members (case_member case.now)) }
    ensures before { out.new.before ≡ out.old.before }
{
    match case {
        None => Ok(()),
        Some(case) => write_nested(alloc, out, "case", case),
    }
}

impl Object for JsonFinding {
    ghost members = { found_members };

    #[tactic(auto, using(crate::proofs::ObjectLemmas::members_append))]
    fn write_members(&self, alloc: Global, out: &mut Writer) -> Result<(), AllocError> {
        write_place(alloc, out, self.placed.place)?;
        write_broken(out, &self.placed.broken)?;
        write_segment(out, &self.why.segment)?;
        write_why(out, self.placed.broken.rule, &self.why)?;
        write_case(alloc, out, &self.case)
    }
}
