//! Element 2 of a template: the account that an order names, or the process of an HKTAN.
ghost use Rattle.std.specs.Prelude.{◌≡◌, [], get_or, map, slice_get};
ghost use Rattle.fints_script.specs.Plans.{element_two};
ghost use Rattle.fints_check_findings.specs.Elements.{accounts_at, listed_in, literal_value, literals, template_facts};

use fints_rules::SegmentFacts;
use fints_script::{AccountValue, NamedField, Template, TemplateItem};
use fints_syntax::{Bytes, OwnedItem};

/// The items of element 2.
pub fn element_two(template: &Template) -> &[TemplateItem]
    ensures { result.now ≡ element_two template.now }
{
    match template.elements.as_slice() {
        [first, ..] => first.as_slice(),
        [] => &[],
    }
}

fn accounts_at(fields: &[NamedField], place: usize) -> &[AccountValue]
    ensures { result.now ≡ accounts_at (slice_get fields.now place) }
{
    match fields.get(place) {
        Some(field) => field.class.accounts(),
        None => &[],
    }
}

/// The listed accounts of an element that is one account field, and else none.
pub fn listed_in<'a>(fields: &'a [NamedField], items: &[TemplateItem]) -> &'a [AccountValue]
    ensures { result.now ≡ listed_in fields.now items.now }
{
    match items {
        [TemplateItem::Field(place)] => accounts_at(fields, *place),
        _ => &[],
    }
}

/// The literal at a place from 0 on; what is no literal is empty.
pub fn literal_at(items: &[TemplateItem], i: usize) -> &[u8]
    ensures { result.now ≡ get_or (map literal_value items.now) i [] }
{
    match items.get(i) {
        Some(TemplateItem::Literal(item)) => match item {
            OwnedItem::Text(bytes) => bytes.as_slice(),
            OwnedItem::Bin(bytes) => bytes.as_slice(),
        },
        _ => &[],
    }
}

fn text_at(items: &[Bytes], i: usize) -> &[u8]
    ensures { result.now ≡ get_or items.now i [] }
{
    match items.get(i) {
        Some(item) => item.as_slice(),
        None => &[],
    }
}

/// The facts of the template's segment with its literals in element 2.
pub fn literal_facts(template: &Template, count: usize) -> SegmentFacts<'_>
    ensures { result ≡ template_facts template.now count (literals template.now) }
{
    let items = element_two(template);
    let items = [
        literal_at(items, 0),
        literal_at(items, 1),
        literal_at(items, 2),
        literal_at(items, 3),
        literal_at(items, 4),
        literal_at(items, 5),
    ];
    SegmentFacts::new(template.kind, template.version, items, count)
}

/// The facts of the template's segment with a listed account in element 2.
pub fn listed_facts<'a>(
    template: &Template,
    count: usize,
    account: &'a AccountValue,
) -> SegmentFacts<'a>
    ensures { result ≡ template_facts template.now count account.now }
{
    let texts = account.items();
    let items = [
        text_at(texts, 0),
        text_at(texts, 1),
        text_at(texts, 2),
        text_at(texts, 3),
        text_at(texts, 4),
        text_at(texts, 5),
    ];
    SegmentFacts::new(template.kind, template.version, items, count)
}
