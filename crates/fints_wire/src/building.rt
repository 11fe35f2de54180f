//! The bytes of a step's message.
ghost use Rattle.std.specs.Prelude.{◌≡◌, ◌<◌, ◌≤◌, ◌++◌, length, All, IfOk, OnOk};
ghost use Rattle.fints_syntax_segments.specs.Written.{written_segment};
ghost use Rattle.fints_rules_messages.specs.Messages.{IsMessage};
ghost use Rattle.fints_script.specs.Plans.{Admits};
ghost use Rattle.fints_script.specs.Sound.{IsSoundStep};
ghost use Rattle.fints_wire.specs.Filling.{AreFilled, TemplatesAreFilled, filled_elements, filled_segment};
ghost use Rattle.fints_wire.specs.Messages.{OfStep, between_segments, envelope_text, first_segment, inner_segments, later_segments, message_bytes, seal_of, segments_text, size_under, templates_of, text_with_first};
ghost use Rattle.fints_wire.specs.Views.{message_view};
ghost use Rattle.fints_syntax_segments.specs.declared.limits.TheConstants.{MAX_BYTES};

use crate::filling::{Filling, filled_elements};
use crate::frame::{data_segment, first_segment, last_segment, seal_segment, segment};
use crate::part::{FewParts, UnfilledSegment, part_at, part_count};
use fints_script::{Plan, Step, Values};
use fints_syntax::{Elements, Memory, OwnedSegment, write_segment};
use std::alloc::Global;

/// The greatest number of a message that is built. Runs send none above 99 times the most steps of a
/// script, and the weight of a step allows for this many digits.
pub const MAX_NUMBER: u32 = 99_999;

fn write_part(
    alloc: Global,
    out: &mut Vec<u8>,
    filling: &Filling,
    part: &UnfilledSegment,
    number: u16,
) -> Result<(), Memory>
    requires { AreFilled filling.now part.now.elements }
    ensures { OnOk result (
        out.new.items ≡ out.old.items ++ written_segment (filled_segment filling.now number part.now)) }
{
    let elements = filled_elements(alloc, filling, part.elements.as_slice())?;
    write_segment(out, &segment(part.kind, number, part.version, elements))?;
    Ok(())
}

// The text of the segments between the first and the last of the plain form.
fn inner_text<'a>(
    alloc: Global,
    plan: &'a Plan<'a>,
    step: &'a Step,
    filling: &Filling,
) -> Result<Vec<u8>, Memory>
    requires step { IsSoundStep plan.now.script step.now }
    requires filled { TemplatesAreFilled filling.now (templates_of plan.now.script step.now) }
    ensures { IfOk result (λ v.
        v.items ≡ segments_text (inner_segments plan.now.script step.now filling.now)) }
{
    let mut out = Vec::new(alloc);
    for i in 0..part_count(FewParts { step }) {
        let part = part_at(plan, step, i);
        write_part(alloc, &mut out, filling, &part, i as u16 + 2)?;
    }
    Ok(out)
}

fn seal_elements(alloc: Global, plan: &Plan, filling: &Filling) -> Result<Elements, Memory>
    requires { AreFilled filling.now (seal_of plan.now.script) }
    ensures { IfOk result (λ e. e ≡ filled_elements filling.now (seal_of plan.now.script)) }
{
    match plan.seal() {
        Some(seal) => filled_elements(alloc, filling, seal.as_slice()),
        None => Ok(Elements::new(alloc)),
    }
}

// HNVSK, and HNVSD with the inner segments.
fn envelope_text(
    alloc: Global,
    plan: &Plan,
    filling: &Filling,
    inner: Vec<u8>,
) -> Result<Vec<u8>, Memory>
    requires { AreFilled filling.now (seal_of plan.now.script) }
    ensures { IfOk result (λ v.
        v.items ≡ envelope_text (filled_elements filling.now (seal_of plan.now.script)) inner.items) }
{
    let seal = seal_segment(seal_elements(alloc, plan, filling)?);
    let data = data_segment(alloc, inner)?;
    let mut out = Vec::new(alloc);
    write_segment(&mut out, &seal)?;
    write_segment(&mut out, &data)?;
    Ok(out)
}

// The text between the first segment and the last.
fn middle_text(
    alloc: Global,
    plan: &Plan,
    step: &Step,
    filling: &Filling,
) -> Result<Vec<u8>, Memory>
    requires step { IsSoundStep plan.now.script step.now }
    requires filled { TemplatesAreFilled filling.now (templates_of plan.now.script step.now) }
    requires seal { AreFilled filling.now (seal_of plan.now.script) }
    ensures { IfOk result (λ v.
        v.items ≡ segments_text (between_segments plan.now.script step.now filling.now)) }
{
    let inner = inner_text(alloc, plan, step, filling)?;
    if !step.sealed() {
        return Ok(inner);
    }
    envelope_text(alloc, plan, filling, inner)
}

// The text of what follows the first segment.
fn later_text(
    alloc: Global,
    plan: &Plan,
    step: &Step,
    filling: &Filling,
    number: u32,
) -> Result<Vec<u8>, Memory>
    requires step { IsSoundStep plan.now.script step.now }
    requires filled { TemplatesAreFilled filling.now (templates_of plan.now.script step.now) }
    requires seal { AreFilled filling.now (seal_of plan.now.script) }
    ensures { IfOk result (λ v.
        v.items ≡ segments_text (later_segments plan.now.script step.now filling.now number)) }
{
    let mut out = middle_text(alloc, plan, step, filling)?;
    let last = last_segment(alloc, part_count(FewParts { step }) as u16 + 2, number)?;
    write_segment(&mut out, &last)?;
    Ok(out)
}

fn first_text(alloc: Global, size: u64, filling: &Filling, number: u32) -> Result<Vec<u8>, Memory>
    requires { 0 < length filling.now.dialog }
    ensures { IfOk result (λ v. v.items ≡ written_segment (first_segment size filling.now.dialog number)) }
{
    let mut out = Vec::new(alloc);
    let first = first_segment(alloc, size, filling.dialog(), number)?;
    write_segment(&mut out, &first)?;
    Ok(out)
}

// The first segment, with the size of the whole, before what follows it. Whatever the size, its
// text is as long.
fn message_text(
    alloc: Global,
    filling: &Filling,
    number: u32,
    later: &[u8],
) -> Result<Vec<u8>, Memory>
    requires { 0 < length filling.now.dialog }
    ensures { IfOk result (λ v. v.items ≡ text_with_first filling.now.dialog number later.now) }
{
    let size = first_text(alloc, 0, filling, number)?.len() + later.len();
    let mut out = first_text(alloc, size as u64, filling, number)?;
    out.extend_from_slice(later)?;
    Ok(out)
}

/// The bytes of a step's message of this number, for values that the plan admits; steps count
/// from 1.
pub fn build(
    alloc: Global,
    plan: &Plan,
    step: usize,
    number: u32,
    values: &Values,
) -> Result<Vec<u8>, Memory>
    requires from { 1 ≤ step }
    requires to { step ≤ length plan.now.script.steps }
    requires first { 1 ≤ number }
    requires last { number ≤ MAX_NUMBER }
    requires admits { Admits plan.now.script.fields values.now }
    ensures bytes { OfStep plan.now.script.steps step (λ s. IfOk result (λ bytes.
        bytes.items ≡ message_bytes plan.now.script s number values.now)) }
    ensures size { OfStep plan.now.script.steps step (λ s. IfOk result (λ bytes.
        length bytes.items ≡ size_under plan.now.script s number values.now)) }
    ensures short { IfOk result (λ bytes. length bytes.items < MAX_BYTES) }
    ensures view { OfStep plan.now.script.steps step (λ s. IfOk result (λ bytes.
        IsMessage bytes.items (message_view plan.now.script s number values.now))) }
{
    let step = plan.step(step);
    let filling = Filling::new(alloc, plan.fields(), values.pairs(), number)?;
    let later = later_text(alloc, plan, step, &filling, number)?;
    let message = message_text(alloc, &filling, number, later.as_slice())?;
    Ok(message)
}
