//! Steps and their size.
ghost use Rattle.std.specs.Prelude.{◌≡◌, ◌≤◌, ◌+◌, ◌↔◌, length, option_map, IfOk, IfSome, IsSome, IsTrue};
ghost use Rattle.fints_script_cases.specs.Answers.{leads, target_of, IsOpen, IsLeastOpener};
ghost use Rattle.fints_script_cases.specs.Carrying.{Carries, IsChosenCarrying};
ghost use Rattle.fints_script_templates.specs.Weights.{Spends, total, segment_weight};
ghost use Rattle.fints_script.specs.Steps.{seal_weight, signature_weight, sized_step, step_weight, has_large_segment, is_too_large};
ghost use Rattle.fints_script.specs.Around.{seen_parts, surroundings_of};

use crate::around::Around;
use fints_params::Code;
use fints_script_cases::{
    Answer, Branch, BranchAt, Target, carries, carrying, choose, opener, passes, target_of,
};
use fints_script_fields::Name;
use fints_script_rows::FaultKind;
use fints_script_rows::limits::MAX_WEIGHT;
use fints_script_templates::weights::{
    FieldWeight, has_too_many_items, spend_segment, spend_signer,
};
use fints_script_templates::{Signer, Template, TemplateElements};
use fints_syntax::Memory;
use std::alloc::Global;
use std::marker::Model;

/// What a step sends, in the order of its keys: its name, its segments, whether it is sealed, and its
/// signers.
pub type SentParts = (((Name, Vec<Template>), bool), Vec<usize>);

/// The parts of a step: what it sends, then how often it is sent in a row at most, its branches, and
/// its default.
pub type Parts = (((SentParts, u16), Vec<Branch>), Target);

/// A step of a script: its segments, who signs them, and where answers lead; a contract sees its
/// parts.
#[derive(Drop)]
pub struct Step {
    name: Name,
    templates: Vec<Template>,
    sealed: bool,
    signers: Vec<usize>,
    repeat: u16,
    branches: Vec<Branch>,
    otherwise: Target,
}

impl Model for Step {
    ghost use Rattle.fints_script.specs.Steps.{StepValue};

    ghost Value = { StepValue };

    ghost view = { λ s. record {
      name = s.name;
      templates = s.templates.items;
      sealed = s.sealed;
      signers = s.signers.items;
      repeat = s.repeat;
      branches = s.branches.items;
      otherwise = s.otherwise;
    } };
}

impl Step {
    /// The name of the step.
    pub fn name(&self) -> Name
        ensures { result ≡ self.now.name }
    {
        self.name
    }

    /// The segments between those of the signers.
    pub fn templates(&self) -> &[Template]
        ensures { result.now ≡ self.now.templates }
    {
        self.templates.as_slice()
    }

    /// Whether the message goes into the PIN/TAN envelope.
    pub fn sealed(&self) -> bool
        ensures { result ≡ self.now.sealed }
    {
        self.sealed
    }

    /// The signers in order, by their places among those of the script, counted from 0.
    pub fn signers(&self) -> &[usize]
        ensures { result.now ≡ self.now.signers }
    {
        self.signers.as_slice()
    }

    /// The most messages of the step in a row in a run, the first counted: with 1, `again` makes
    /// none.
    pub fn repeat(&self) -> u16
        ensures { result ≡ self.now.repeat }
    {
        self.repeat
    }

    /// The branches in order.
    pub fn branches(&self) -> &[Branch]
        ensures { result.now ≡ self.now.branches }
    {
        self.branches.as_slice()
    }

    /// Where an answer of these codes leads: to the target of the first branch whose pattern matches
    /// one of them, or of the default.
    pub fn choose(&self, codes: &[Code]) -> Target
        ensures { result ≡ leads self.now.branches self.now.otherwise codes.now }
    {
        choose(self.branches.as_slice(), self.otherwise, codes)
    }

    /// The least code that matches this branch and no earlier one, where some answer fires it.
    /// Branches count from 1; the default counts as the last, and its opener matches none.
    pub fn opener(&self, branch: usize) -> Option<Code>
        requires from { 1 ≤ branch }
        requires to { branch ≤ length self.now.branches + 1 }
        ensures open { IsSome result ↔ IsOpen self.now.branches branch }
        ensures least { IfSome result (IsLeastOpener self.now.branches branch) }
    {
        let branches = self.branches.as_slice();
        opener(BranchAt { branches, branch })
    }

    /// Whether some answer that has the code fires this branch: that is where some answer fires it, and
    /// no earlier pattern matches the code. Branches count from 1; the default counts as the last.
    pub fn carries(&self, branch: usize, code: Code) -> bool
        requires from { 1 ≤ branch }
        requires to { branch ≤ length self.now.branches + 1 }
        ensures { IsTrue result ↔ Carries self.now.branches branch code }
    {
        let branches = self.branches.as_slice();
        carries(BranchAt { branches, branch }, code)
    }

    /// Of a branch that some answer fires, whether one that has the code does: that is where no earlier
    /// pattern matches the code. Branches count from 1; the default counts as the last.
    pub fn passes(&self, branch: usize, code: Code) -> bool
        requires from { 1 ≤ branch }
        requires to { branch ≤ length self.now.branches + 1 }
        requires fired { IsOpen self.now.branches branch }
        ensures { IsTrue result ↔ Carries self.now.branches branch code }
    {
        let branches = self.branches.as_slice();
        passes(BranchAt { branches, branch }, code)
    }

    /// An answer that has the code and fires this branch: only the code where that fires it, else the
    /// branch's opener and the code.
    pub fn carrying(&self, alloc: Global, branch: usize, code: Code) -> Result<Answer, Memory>
        requires from { 1 ≤ branch }
        requires to { branch ≤ length self.now.branches + 1 }
        requires carries { Carries self.now.branches branch code }
        ensures { IfOk result (λ answer. IsChosenCarrying self.now.branches branch code answer) }
    {
        let branches = self.branches.as_slice();
        carrying(alloc, BranchAt { branches, branch }, code)
    }

    /// Where a branch leads, counted from 1; the default counts as the last.
    pub fn target(&self, branch: usize) -> Target
        requires from { 1 ≤ branch }
        requires to { branch ≤ length self.now.branches + 1 }
        ensures { result ≡ target_of self.now.branches self.now.otherwise branch }
    {
        let branches = self.branches.as_slice();
        target_of(BranchAt { branches, branch }, self.otherwise)
    }

    /// Where an answer leads that no branch matches.
    pub fn otherwise(&self) -> Target
        ensures { result ≡ self.now.otherwise }
    {
        self.otherwise
    }
}

fn spend_templates(allowance: u64, figures: &[FieldWeight], templates: &[Template]) -> Option<u64>
    ensures { Spends allowance (total (λ t. segment_weight figures.now t.elements) templates.now) result }
{
    let mut left = allowance;
    for template in templates {
        left = spend_segment(left, figures, &template.elements)?;
    }
    Some(left)
}

fn spend_signature(left: u64, around: &Around<'_, '_>, place: usize) -> Option<u64>
    ensures { Spends left (signature_weight around.now.figures.now around.now.signers.now place) result }
{
    match around.signers.as_slice().get(place) {
        Some(signer) => spend_signer(left, around.figures, signer),
        None => Some(left),
    }
}

fn spend_signatures(allowance: u64, around: &Around<'_, '_>, places: &[usize]) -> Option<u64>
    ensures { Spends allowance
        (total (signature_weight around.now.figures.now around.now.signers.now) places.now) result }
{
    let mut left = allowance;
    for place in places {
        left = spend_signature(left, around, *place)?;
    }
    Some(left)
}

fn spend_seal(
    left: u64,
    figures: &[FieldWeight],
    sealed: bool,
    seal: Option<&TemplateElements>,
) -> Option<u64>
    ensures { Spends left (seal_weight figures.now sealed (option_map (λ s. s.now) seal.entry)) result }
{
    match (sealed, seal) {
        (true, Some(seal)) => spend_segment(left, figures, seal),
        _ => Some(left),
    }
}

fn spend_step(left: u64, around: &Around<'_, '_>, step: &Step) -> Option<u64>
    ensures { Spends left (step_weight (surroundings_of around.now) step.now) result }
{
    let left = spend_templates(left, around.figures, step.templates())?;
    let left = spend_signatures(left, around, step.signers())?;
    spend_seal(left, around.figures, step.sealed(), around.seal)
}

fn has_large_segment(figures: &[FieldWeight], templates: &[Template]) -> bool
    ensures { result ≡ has_large_segment figures.now templates.now }
{
    templates
        .iter()
        .any(|template| has_too_many_items(figures, &template.elements))
}

fn is_too_large(around: &Around<'_, '_>, step: &Step) -> bool
    ensures { result ≡ is_too_large (surroundings_of around.now) step.now }
{
    has_large_segment(around.figures, step.templates())
        || spend_step(MAX_WEIGHT, around, step).is_none()
}

/// The step of these parts.
pub fn whole_step(parts: Parts) -> Step
    ensures { result ≡ seen_parts parts }
{
    let (((sent, repeat), branches), otherwise) = parts;
    let (((name, templates), sealed), signers) = sent;
    Step {
        name,
        templates,
        sealed,
        signers,
        repeat,
        branches,
        otherwise,
    }
}

/// The step, unless it is too large for the script that it is in.
pub fn sized_step(around: &Around<'_, '_>, step: Step) -> Result<Step, FaultKind>
    ensures { result ≡ sized_step (surroundings_of around.now) step }
{
    if is_too_large(around, &step) {
        return Err(FaultKind::Limit);
    }
    Ok(step)
}
