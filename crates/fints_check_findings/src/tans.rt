//! TANs: which signers always have one, which may have one, and which HKTAN a step has.
ghost use Rattle.std.specs.Prelude.{◌≡◌, ◌≢◌, ◌↔◌, IsTrue, [], option_map, slice_get};
ghost use Rattle.std.specs.List.{list_any};
ghost use Rattle.fints_syntax_segments.specs.Segment.{item_value};
ghost use Rattle.fints_check_findings.specs.Elements.{has_process};
ghost use Rattle.fints_check_findings.specs.Tans.{AdmitsEmpty, AdmitsFilled, AlwaysHasTan, HasTanAt, MayBeEmpty, MayBeFilled, MayHaveTanAt, MaybeTan, SomeTan, tan_item};

use crate::elements::{element_two, literal_at};
use fints_rules::kinds::is_tan_order;
use fints_script::{FieldClass, NamedField, Signer, Template, TemplateItem};
use fints_syntax::OwnedItem;

// ---- TANs of signers

fn admits_empty(fields: &[NamedField], place: usize) -> bool
    ensures { IsTrue result ↔ AdmitsEmpty (slice_get fields.now place) }
{
    match fields.get(place) {
        None => true,
        Some(field) => field.class.admits(&[]),
    }
}

fn is_empty(item: &OwnedItem) -> bool
    ensures { IsTrue result ↔ (item_value item.now ≡ []) }
{
    match item {
        OwnedItem::Text(bytes) => bytes.as_slice().is_empty(),
        OwnedItem::Bin(bytes) => bytes.as_slice().is_empty(),
    }
}

fn may_be_empty(fields: &[NamedField], item: Option<&TemplateItem>) -> bool
    ensures { IsTrue result ↔ MayBeEmpty fields.now (option_map (λ i. i.now) item.entry) }
{
    match item {
        None => true,
        Some(TemplateItem::Literal(item)) => is_empty(item),
        Some(TemplateItem::Dialog) => false,
        Some(TemplateItem::Field(place)) => admits_empty(fields, *place),
    }
}

// Item 2 of element 4 of the signer's HNSHA.
fn tan_item(signer: &Signer) -> Option<&TemplateItem>
    ensures { option_map (λ i. i.now) result ≡ tan_item signer.now }
{
    match signer.end.as_slice() {
        [_, _, third, ..] => third.as_slice().get(1),
        _ => None,
    }
}

fn always_has_tan(fields: &[NamedField], signer: &Signer) -> bool
    ensures { IsTrue result ↔ AlwaysHasTan fields.now signer.now }
{
    !may_be_empty(fields, tan_item(signer))
}

fn has_tan_at(fields: &[NamedField], signers: &[Signer], place: usize) -> bool
    ensures { IsTrue result ↔ HasTanAt fields.now (slice_get signers.now place) }
{
    match signers.get(place) {
        None => false,
        Some(signer) => always_has_tan(fields, signer),
    }
}

/// Whether under every choice a signer has a TAN, of those at these places.
pub fn some_has_tan(fields: &[NamedField], signers: &[Signer], places: &[usize]) -> bool
    ensures { IsTrue result ↔ SomeTan fields.now signers.now places.now }
{
    places
        .iter()
        .any(|place| has_tan_at(fields, signers, *place))
}

fn admits_filled(fields: &[NamedField], place: usize) -> bool
    ensures { IsTrue result ↔ AdmitsFilled (slice_get fields.now place) }
{
    match fields.get(place) {
        None => false,
        Some(field) => field.class.longest_written() != 0,
    }
}

fn may_be_filled(fields: &[NamedField], item: Option<&TemplateItem>) -> bool
    ensures { IsTrue result ↔ MayBeFilled fields.now (option_map (λ i. i.now) item.entry) }
{
    match item {
        None => false,
        Some(TemplateItem::Literal(item)) => !is_empty(item),
        Some(TemplateItem::Dialog) => true,
        Some(TemplateItem::Field(place)) => admits_filled(fields, *place),
    }
}

fn may_have_tan_at(fields: &[NamedField], signers: &[Signer], place: usize) -> bool
    ensures { IsTrue result ↔ MayHaveTanAt fields.now (slice_get signers.now place) }
{
    match signers.get(place) {
        None => false,
        Some(signer) => may_be_filled(fields, tan_item(signer)),
    }
}

/// Whether under some choice a signer has a TAN, of those at these places.
pub fn some_may_have_tan(fields: &[NamedField], signers: &[Signer], places: &[usize]) -> bool
    ensures { IsTrue result ↔ MaybeTan fields.now signers.now places.now }
{
    places
        .iter()
        .any(|place| may_have_tan_at(fields, signers, *place))
}

// ---- HKTAN

fn has_process(template: &Template, process: &[u8]) -> bool
    ensures { result ≡ has_process process.now template.now }
{
    is_tan_order(template.kind) && literal_at(element_two(template), 0) == process
}

/// Whether an HKTAN of the process is among the segments.
pub fn some_has_process(templates: &[Template], process: &[u8]) -> bool
    ensures { result ≡ list_any (has_process process.now) templates.now }
{
    templates
        .iter()
        .any(|template| has_process(template, process))
}
