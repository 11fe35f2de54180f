//! The segments of a step before they are filled.
ghost use Rattle.std.specs.Prelude.{◌≡◌, ◌<◌, ◌≤◌, ◌+◌, codes, get_or, length, All};
ghost use Rattle.fints_script_templates.specs.declared.template.Template.{Template};
ghost use Rattle.fints_script.specs.Scripts.{ScriptValue};
ghost use Rattle.fints_wire.specs.Messages.{templates_of, signer_at, head_template, end_template};

use fints_script::{Plan, Signer, Step, TemplateElements};
use fints_syntax::Kind;
use fints_syntax_segments::{HNSHA_VERSION, HNSHK_VERSION};
use std::marker::Model;

/// A segment of a step's message before it is filled; a contract sees the template.
#[derive(Drop)]
pub struct UnfilledSegment<'a> {
    pub kind: Kind,
    pub version: u16,
    pub elements: &'a TemplateElements,
}

impl<'a> Model for UnfilledSegment<'a> {
    ghost use Rattle.fints_script_templates.specs.declared.template.Template.{Template};

    ghost Value = { Template };

    ghost view = { λ p. record { kind = p.kind; version = p.version; elements = p.elements.now } };
}

fn head_kind() -> Kind
    ensures { result ≡ codes "HNSHK" }
{
    Kind::parse(b"HNSHK").unwrap()
}

fn end_kind() -> Kind
    ensures { result ≡ codes "HNSHA" }
{
    Kind::parse(b"HNSHA").unwrap()
}

fn head_part<'a>(signers: &'a [Signer], place: usize) -> UnfilledSegment<'a>
    requires { place < length signers.now }
    ensures { result ≡ head_template (signer_at signers.now place) }
{
    UnfilledSegment {
        kind: head_kind(),
        version: HNSHK_VERSION,
        elements: &signers[place].head,
    }
}

fn end_part<'a>(signers: &'a [Signer], place: usize) -> UnfilledSegment<'a>
    requires { place < length signers.now }
    ensures { result ≡ end_template (signer_at signers.now place) }
{
    UnfilledSegment {
        kind: end_kind(),
        version: HNSHA_VERSION,
        elements: &signers[place].end,
    }
}

/// A step of few signers and segments, as those of scripts are.
#[derive(Clone, Copy)]
pub struct FewParts<'a> {
    pub step: &'a Step,
    pub ghost signers: { length step.now.signers ≤ 9 },
    pub ghost templates: { length step.now.templates ≤ 100 },
}

/// How many segments come between the first and the last, before they are sealed.
pub fn part_count(few: FewParts<'_>) -> usize
    ensures few { result ≤ 118 }
    ensures count { (script : ScriptValue) → result ≡ length (templates_of script few.entry.step.now) }
{
    let step = few.step;
    step.signers().len() + (step.templates().len() + step.signers().len())
}

/// The segment at this place, counted from 0.
pub fn part_at<'a>(plan: &'a Plan, step: &'a Step, i: usize) -> UnfilledSegment<'a>
    requires within { i < length (templates_of plan.now.script step.now) }
    requires signers { All (λ place. place < length plan.now.script.signers) step.now.signers }
    ensures { (none : Template) → result ≡ get_or (templates_of plan.now.script step.now) i none }
{
    let places = step.signers();
    let templates = step.templates();
    if i < places.len() {
        return head_part(plan.signers(), places[i]);
    }
    let i = i - places.len();
    if i < templates.len() {
        let template = &templates[i];
        return UnfilledSegment {
            kind: template.kind,
            version: template.version,
            elements: &template.elements,
        };
    }
    end_part(plan.signers(), places[i - templates.len()])
}
