//! How long a step's messages are at most.
ghost use Rattle.std.specs.Prelude.{codes, ◌≡◌, ◌<◌, ◌≤◌, ◌+◌, ◌^◌, Some, get_or, length, map};
ghost use Rattle.std.specs.Fmt.{decimal};
ghost use Rattle.fints_syntax.specs.Kind.{IsKindText};
ghost use Rattle.fints_syntax_segments.specs.Spelling.{written};
ghost use Rattle.fints_script.specs.Numbered.{numbered};
ghost use Rattle.fints_script.specs.Scripts.{ScriptValue};
ghost use Rattle.fints_script.specs.Sound.{IsSound, IsSoundStep};
ghost use Rattle.fints_script.specs.Steps.{StepValue};
ghost use Rattle.fints_wire.specs.Choices.{NoneIsLonger, longest_message};
ghost use Rattle.fints_wire.specs.Lengths.{between_len, binary_size, element_len, elements_len, head_len, item_len, longest_size, longest_sizes, message_len, number_len, segment_len, segments_len};
ghost use Rattle.fints_wire.specs.declared.building.TheConstants.{MAX_NUMBER};
ghost use Rattle.fints_wire.specs.Messages.{seal_of, templates_of};
ghost use Rattle.fints_syntax_segments.specs.declared.limits.TheConstants.{MAX_BYTES};

use crate::part::{FewParts, UnfilledSegment, part_at, part_count};
use fints_script::{FieldClass, Plan, Step, TemplateItem};
use fints_syntax::{Kind, OwnedItem, decimal_len, written_binary_len, written_len};
use fints_syntax_segments::{
    HNHBK_NUMBER, HNHBK_VERSION, HNHBS_VERSION, HNVSD_NUMBER, HNVSD_VERSION, HNVSK_NUMBER,
    HNVSK_VERSION,
};

fn written_size(item: &OwnedItem) -> u64
    requires { length (written item.now) < 2 ^ 63 }
    ensures { result ≡ length (written item.now) }
{
    match item {
        OwnedItem::Text(bytes) => written_len(bytes.as_slice()),
        OwnedItem::Bin(bytes) => written_binary_len(bytes.as_slice().len() as u64),
    }
}

// A field's longest value, and the byte after it.
fn class_size<F: FieldClass>(class: &F) -> u64
    requires { F.written class.now (F.longest class.now) < 2 ^ 63 }
    ensures { result ≡ 1 + F.written class.now (F.longest class.now) }
{
    class.longest_written() + 1
}

fn field_size(plan: &Plan, place: usize) -> u64
    requires { get_or (map longest_size plan.now.script.fields) place 0 < 2 ^ 63 }
    ensures { result ≡ get_or (map longest_size plan.now.script.fields) place 0 }
{
    match plan.fields().get(place) {
        Some(field) => class_size(&field.class),
        None => 0,
    }
}

fn dialog_size(plan: &Plan, number: u32) -> u64
    requires { (longest_sizes plan.now.script.fields number).dialog < 2 ^ 63 }
    ensures { result ≡ (longest_sizes plan.now.script.fields number).dialog }
{
    if number == 1 { 2 } else { field_size(plan, 0) }
}

fn item_size(plan: &Plan, number: u32, item: &TemplateItem) -> u64
    requires { item_len (longest_sizes plan.now.script.fields number) item.now < 2 ^ 63 }
    ensures { result ≡ item_len (longest_sizes plan.now.script.fields number) item.now }
{
    match item {
        TemplateItem::Literal(item) => written_size(item) + 1,
        TemplateItem::Dialog => dialog_size(plan, number),
        TemplateItem::Field(place) => field_size(plan, *place),
    }
}

// What an element adds to what was counted before it.
fn count_element(plan: &Plan, number: u32, items: &[TemplateItem], before: u64) -> u64
    requires { before + element_len (longest_sizes plan.now.script.fields number) items.now < 2 ^ 63 }
    ensures { result ≡ before + element_len (longest_sizes plan.now.script.fields number) items.now }
{
    let mut size = before;
    for item in items {
        size += item_size(plan, number, item);
    }
    size
}

fn count_elements(plan: &Plan, number: u32, elements: &[Vec<TemplateItem>], before: u64) -> u64
    requires { before + elements_len (longest_sizes plan.now.script.fields number)
        (map (λ v. v.items) elements.now) < 2 ^ 63 }
    ensures { result ≡ before + elements_len (longest_sizes plan.now.script.fields number)
        (map (λ v. v.items) elements.now) }
{
    let mut size = before;
    for items in elements {
        size = count_element(plan, number, items.as_slice(), size);
    }
    size
}

fn digit_count(n: u64) -> u64
    ensures is { result ≡ length (decimal n) }
    ensures small { result ≤ 20 }
{
    u64::from(decimal_len(n))
}

fn head_size(kind: Kind, n: u64, version: u64) -> u64
    requires { IsKindText kind }
    ensures is { result ≡ head_len kind n version }
    ensures small { result ≤ 60 }
{
    written_len(kind.as_bytes()) + digit_count(n) + digit_count(version) + 3
}

// What a segment of this number adds to what was counted before it.
fn count_part(plan: &Plan, number: u32, part: &UnfilledSegment, n: u64, before: u64) -> u64
    requires kind { IsKindText part.now.kind }
    requires small { before + segment_len (longest_sizes plan.now.script.fields number) n part.now < 2 ^ 63 }
    ensures { result ≡ before + segment_len (longest_sizes plan.now.script.fields number) n part.now }
{
    let head = head_size(part.kind, n, u64::from(part.version));
    count_elements(plan, number, part.elements.as_slice(), before + head)
}

// A number that a message can have.
#[derive(Clone, Copy)]
struct MessageNumber {
    number: u32,
    ghost most: { number ≤ MAX_NUMBER },
}

fn segments_size<'a>(plan: &'a Plan<'a>, step: &'a Step, number: MessageNumber) -> u64
    requires sound { IsSound plan.now.script }
    requires step { IsSoundStep plan.now.script step.now }
    ensures { result ≡ segments_len (longest_sizes plan.now.script.fields number.number) 2
        (templates_of plan.now.script step.now) }
{
    let mut size = 0u64;
    for i in 0..part_count(FewParts { step }) {
        let part = part_at(plan, step, i);
        size = count_part(plan, number.number, &part, i as u64 + 2, size);
    }
    size
}

fn seal_size(plan: &Plan, number: u32, before: u64) -> u64
    requires { before + elements_len (longest_sizes plan.now.script.fields number)
        (seal_of plan.now.script) < 2 ^ 63 }
    ensures { result ≡ before + elements_len (longest_sizes plan.now.script.fields number)
        (seal_of plan.now.script) }
{
    match plan.seal() {
        Some(seal) => count_elements(plan, number, seal.as_slice(), before),
        None => before,
    }
}

// The envelope around inner segments of this size, without the seal's elements.
fn envelope_size(inner: u64) -> u64
    requires { inner < 2 ^ 62 }
    ensures { result ≡ head_len (codes "HNVSK") HNVSK_NUMBER HNVSK_VERSION
        + head_len (codes "HNVSD") HNVSD_NUMBER HNVSD_VERSION + binary_size inner }
{
    let head = head_size(
        Kind::parse(b"HNVSK").unwrap(),
        u64::from(HNVSK_NUMBER),
        u64::from(HNVSK_VERSION),
    );
    let data = head_size(
        Kind::parse(b"HNVSD").unwrap(),
        u64::from(HNVSD_NUMBER),
        u64::from(HNVSD_VERSION),
    );
    head + data + digit_count(inner) + 3 + inner
}

fn middle_size<'a>(plan: &'a Plan<'a>, step: &'a Step, number: MessageNumber) -> u64
    requires sound { IsSound plan.now.script }
    requires step { IsSoundStep plan.now.script step.now }
    ensures { result ≡ between_len plan.now.script step.now
        (longest_sizes plan.now.script.fields number.number) }
{
    let inner = segments_size(plan, step, number);
    if !step.sealed() {
        return inner;
    }
    let envelope = envelope_size(inner);
    seal_size(plan, number.number, envelope)
}

// The first segment and the last, but for the dialogue id.
fn frame_size(few: FewParts<'_>, number: u32) -> u64
    ensures is { (script : ScriptValue)
        → result ≡ head_len (codes "HNHBK") HNHBK_NUMBER HNHBK_VERSION + 17 + number_len number
        + (head_len (codes "HNHBS") (2 + length (templates_of script few.entry.step.now)) HNHBS_VERSION
        + number_len number) }
    ensures small { result ≤ 200 }
{
    let digits = digit_count(u64::from(number)) + 1;
    let first = head_size(
        Kind::parse(b"HNHBK").unwrap(),
        u64::from(HNHBK_NUMBER),
        u64::from(HNHBK_VERSION),
    );
    let parts = part_count(few) as u64;
    let last = head_size(
        Kind::parse(b"HNHBS").unwrap(),
        parts + 2,
        u64::from(HNHBS_VERSION),
    );
    first + last + digits + digits + 17
}

fn message_size<'a>(plan: &'a Plan<'a>, step: &'a Step, number: MessageNumber) -> u64
    requires sound { IsSound plan.now.script }
    requires step { IsSoundStep plan.now.script step.now }
    ensures { result ≡ message_len plan.now.script step.now
        (longest_sizes plan.now.script.fields number.number) number.number }
{
    let middle = middle_size(plan, step, number);
    let dialog = dialog_size(plan, number.number);
    frame_size(FewParts { step }, number.number) + dialog + middle
}

/// The length in bytes of the longest of a step's messages of this number, and of those of a lower one; steps count from 1.
pub fn worst_size(plan: &Plan, step: usize, number: u32) -> u64
    requires from { 1 ≤ step }
    requires to { step ≤ length plan.now.script.steps }
    requires first { 1 ≤ number }
    requires last { number ≤ MAX_NUMBER }
    ensures attained { (s : StepValue) → numbered plan.now.script.steps step ≡ Some s
        → result ≡ length (longest_message plan.now.script s number) }
    ensures most { NoneIsLonger plan.now.script step number result }
    ensures short { result < MAX_BYTES }
{
    message_size(plan, plan.step(step), MessageNumber { number })
}
