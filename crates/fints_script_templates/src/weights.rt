//! How much templates weigh, and how many items they have.
ghost use Rattle.std.specs.Prelude.{◌≡◌, ◌↔◌, ◌+◌, ◌<◌, ◌≤◌, IsTrue, IfOk, length, map, get_or};
ghost use Rattle.std.specs.Fmt.{decimal};
ghost use Rattle.fints_script_templates.specs.Weights.{Spends, total, item_weight, element_weight, segment_weight, signer_weight, item_count, element_count, most_items, no_figures};
ghost use Rattle.fints_script_templates.specs.Figures.{figures_of};

use crate::template::{Signer, TemplateElements, TemplateItem};
use fints_script_fields::FieldClass;
use fints_script_rows::NamedField;
use fints_script_rows::limits::MAX_TEMPLATE_ITEMS;
use fints_syntax_segments::{Memory, OwnedItem, decimal_len, written_len};
use std::alloc::Global;

/// How many bytes the longest value of a field takes when it is written, and how many items its
/// value with the most items has.
#[derive(Clone, Copy, PartialEq, Eq)]
pub struct FieldWeight {
    pub written: u64,
    pub items: u32,
}

const NO_FIGURES: FieldWeight = FieldWeight {
    written: 0,
    items: 0,
};

// The figures of a field.
fn figures_of(field: &NamedField) -> FieldWeight
    ensures { result ≡ figures_of field.now }
{
    FieldWeight {
        written: field.class.longest_written(),
        items: field.class.most_items(),
    }
}

/// The figures of each field, in order.
pub fn all_figures(alloc: Global, fields: &[NamedField]) -> Result<Vec<FieldWeight>, Memory>
    ensures { IfOk result (λ v. v.items ≡ map figures_of fields.now) }
{
    let mut figures = Vec::new(alloc);
    for field in fields {
        figures.push(figures_of(field))?;
    }
    Ok(figures)
}

fn figures_at(figures: &[FieldWeight], place: usize) -> FieldWeight
    ensures { result ≡ get_or figures.now place no_figures }
{
    figures.get(place).copied().unwrap_or(NO_FIGURES)
}

// What is left of an allowance after a binary item of `len` bytes.
fn spend_binary(left: u64, len: usize) -> Option<u64>
    ensures { Spends left (len + length (decimal len) + 2) result }
{
    let left = left.checked_sub(len as u64)?;
    let left = left.checked_sub(u64::from(decimal_len(len as u64)))?;
    left.checked_sub(2)
}

// What is left of an allowance after an item.
fn spend_item(left: u64, figures: &[FieldWeight], item: &TemplateItem) -> Option<u64>
    ensures { Spends left (item_weight figures.now item.now) result }
{
    let left = left.checked_sub(1)?;
    match item {
        TemplateItem::Literal(OwnedItem::Text(bytes)) => left.checked_sub(written_len(
            bytes.as_slice(),
        )),
        TemplateItem::Literal(OwnedItem::Bin(bytes)) => spend_binary(left, bytes.as_slice().len()),
        TemplateItem::Dialog => left.checked_sub(60),
        TemplateItem::Field(place) => { left.checked_sub(figures_at(figures, *place).written) }
    }
}

fn spend_element(allowance: u64, figures: &[FieldWeight], items: &[TemplateItem]) -> Option<u64>
    ensures { Spends allowance (element_weight figures.now items.now) result }
{
    let mut left = allowance;
    for item in items {
        left = spend_item(left, figures, item)?;
    }
    Some(left)
}

/// What is left of an allowance after a segment of these elements.
pub fn spend_segment(
    allowance: u64,
    figures: &[FieldWeight],
    elements: &TemplateElements,
) -> Option<u64>
    ensures { Spends allowance (segment_weight figures.now elements.now) result }
{
    let mut left = allowance.checked_sub(15)?;
    for items in elements.as_slice() {
        left = spend_element(left, figures, items.as_slice())?;
    }
    Some(left)
}

/// What is left of an allowance after the segments of a signer.
pub fn spend_signer(left: u64, figures: &[FieldWeight], signer: &Signer) -> Option<u64>
    ensures { Spends left (signer_weight figures.now signer.now) result }
{
    let left = spend_segment(left, figures, &signer.head)?;
    spend_segment(left, figures, &signer.end)
}

fn item_count(figures: &[FieldWeight], item: &TemplateItem) -> u64
    ensures { result ≡ item_count figures.now item.now }
{
    match item {
        TemplateItem::Field(place) => u64::from(figures_at(figures, *place).items),
        _ => 1,
    }
}

fn spend_items(allowance: u64, figures: &[FieldWeight], items: &[TemplateItem]) -> Option<u64>
    ensures { Spends allowance (element_count figures.now items.now) result }
{
    let mut left = allowance;
    for item in items {
        left = left.checked_sub(item_count(figures, item))?;
    }
    Some(left)
}

/// What is left of an allowance after the items of the elements, a field counting as its value with the
/// most items.
pub fn spend_elements(
    allowance: u64,
    figures: &[FieldWeight],
    elements: &TemplateElements,
) -> Option<u64>
    ensures { Spends allowance (most_items figures.now elements.now) result }
{
    let mut left = allowance;
    for items in elements.as_slice() {
        left = spend_items(left, figures, items.as_slice())?;
    }
    Some(left)
}

/// Whether the elements have more items than a list may, a field counting as its value with the
/// most items.
pub fn has_too_many_items(figures: &[FieldWeight], elements: &TemplateElements) -> bool
    ensures { IsTrue result ↔ (MAX_TEMPLATE_ITEMS < most_items figures.now elements.now) }
{
    spend_elements(MAX_TEMPLATE_ITEMS, figures, elements).is_none()
}

fn spend_entries(allowance: u64, elements: &TemplateElements) -> Option<u64>
    ensures { Spends allowance (total length elements.now) result }
{
    let mut left = allowance;
    for items in elements.as_slice() {
        left = left.checked_sub(items.as_slice().len() as u64)?;
    }
    Some(left)
}

/// Whether the elements have more items than a list may, each counted once.
pub fn has_many_items(elements: &TemplateElements) -> bool
    ensures { IsTrue result ↔ (MAX_TEMPLATE_ITEMS < total length elements.now) }
{
    spend_entries(MAX_TEMPLATE_ITEMS, elements).is_none()
}
