//! Segments without their secrets (FinTS 3.0, Security, PIN/TAN: HNSHA, the user defined signature; HKPAE).
ghost use Rattle.std.specs.Prelude.{◌≡◌, ◌-◌, ◌<◌, ◌≤◌, ◌++◌, ◌∷◌, [], length, drop, OnOk, IfOk};
ghost use Rattle.std.specs.Char.{is_ascii_alphanumeric};
ghost use Rattle.std.specs.List.{AllByRecursion, list_all};
ghost use Rattle.fints_syntax_segments.specs.Lent.{item_of_ref};
ghost use Rattle.fints_syntax_segments.specs.declared.item.OwnedItem.TheVariants.{Text};
ghost use Rattle.fints_cli_texts.specs.Masked.{emptied_at, has_reference, mask, masked_from, masked_items, secrets_from, with_items};

use fints_syntax::{Bytes, ElementRef, Elements, ItemRef, Memory, OwnedItem, OwnedSegment};
use std::alloc::Global;

// A secret, masked.
fn mask(alloc: Global, value: &[u8]) -> Result<OwnedItem, Memory>
    ensures { IfOk result (λ item. item ≡ mask value.now) }
{
    match value {
        [] => Ok(OwnedItem::Text(Bytes::new(Vec::new(alloc)))),
        [_, ..] => Ok(OwnedItem::Text(Bytes::copied(alloc, b"***")?)),
    }
}

// The items of an element, each masked.
fn masked_items(alloc: Global, items: &ElementRef<'_>) -> Result<Vec<OwnedItem>, Memory>
    ensures { IfOk result (λ masked. masked.items ≡ masked_items items.now) }
{
    let mut masked = Vec::new(alloc);
    for i in 0..items.len() {
        masked.push(mask(alloc, items.value(i + 1))?)?;
    }
    Ok(masked)
}

fn copied(alloc: Global, item: &ItemRef<'_>) -> Result<OwnedItem, Memory>
    ensures { IfOk result (λ copy. copy ≡ item_of_ref item.now) }
{
    match item {
        ItemRef::Text(value) => Ok(OwnedItem::Text(Bytes::copied(alloc, value)?)),
        ItemRef::Bin(value) => Ok(OwnedItem::Bin(Bytes::copied(alloc, value)?)),
    }
}

// Adds copies of the items of an element, but for the first `skipped` ones.
fn copy_items(
    alloc: Global,
    out: &mut Vec<OwnedItem>,
    items: &ElementRef<'_>,
    skipped: usize,
) -> Result<(), Memory>
    ensures { OnOk result (out.new.items ≡ out.old.items ++ drop skipped items.now) }
{
    for i in skipped..items.len() {
        let Some(item) = items.get(i + 1) else {
            unreachable!()
        };
        out.push(copied(alloc, &item)?)?;
    }
    Ok(())
}

// Adds a copy of an element.
fn copy_element(
    alloc: Global,
    elements: &mut Elements,
    items: &ElementRef<'_>,
) -> Result<(), Memory>
    requires { 0 < length items.now }
    ensures { OnOk result (elements.new ≡ elements.old ++ items.now ∷ []) }
{
    let mut copies = Vec::new(alloc);
    copy_items(alloc, &mut copies, items, 0)?;
    elements.push(copies.as_slice())
}

// Adds an element with its items masked.
fn mask_element(
    alloc: Global,
    elements: &mut Elements,
    items: &ElementRef<'_>,
) -> Result<(), Memory>
    requires { 0 < length items.now }
    ensures { OnOk result (elements.new ≡ elements.old ++ masked_items items.now ∷ []) }
{
    let masked = masked_items(alloc, items)?;
    elements.push(masked.as_slice())
}

fn is_plain(value: &[u8]) -> bool
    ensures { result ≡ list_all is_ascii_alphanumeric value.now }
{
    value.iter().all(|b| b.is_ascii_alphanumeric())
}

/// Whether element 2 of an HNSHA is a control reference, one item of letters and digits, or is absent. If it
/// is neither, a part of a PIN may be in it.
pub fn has_reference(segment: &OwnedSegment) -> bool
    ensures { result ≡ has_reference segment.now }
{
    segment.items(2).len() <= 1 && is_plain(segment.value(2, 1))
}

/// The element of an HNSHA from which on all may be PIN and TAN, or a part of them.
pub fn secrets_from(segment: &OwnedSegment) -> usize
    ensures from { result ≡ secrets_from segment.now }
    ensures after_head { 2 ≤ result }
{
    if has_reference(segment) { 3 } else { 2 }
}

/// A copy of the segment, with each item masked of the elements from this one on.
pub fn masked_from(
    alloc: Global,
    segment: &OwnedSegment,
    from: usize,
) -> Result<OwnedSegment, Memory>
    requires { 2 ≤ from }
    ensures { IfOk result (λ copy. copy ≡ masked_from segment.now from) }
{
    let mut elements = Elements::new(alloc);
    for i in 0..segment.elements.len() {
        let items = segment.elements.items(i);
        if i < from - 2 {
            copy_element(alloc, &mut elements, &items)?;
        } else {
            mask_element(alloc, &mut elements, &items)?;
        }
    }
    Ok(OwnedSegment {
        head: segment.head,
        elements,
    })
}

// A copy of the segment, with these items in an element.
fn with_items(
    alloc: Global,
    segment: &OwnedSegment,
    element: usize,
    items: &[OwnedItem],
) -> Result<OwnedSegment, Memory>
    requires after_head { 2 ≤ element }
    requires some { element - 2 < length segment.now.elements → 0 < length items.now }
    ensures { IfOk result (λ copy. copy ≡ with_items segment.now element items.now) }
{
    let mut elements = Elements::new(alloc);
    for i in 0..segment.elements.len() {
        if i == element - 2 {
            elements.push(items)?;
        } else {
            copy_element(alloc, &mut elements, &segment.elements.items(i))?;
        }
    }
    Ok(OwnedSegment {
        head: segment.head,
        elements,
    })
}

/// A copy of the segment, with item 1 of an element empty.
pub fn emptied_at(
    alloc: Global,
    segment: &OwnedSegment,
    element: usize,
) -> Result<OwnedSegment, Memory>
    requires { 2 ≤ element }
    ensures { IfOk result (λ copy. copy ≡ emptied_at segment.now element) }
{
    let mut items = Vec::new(alloc);
    items.push(OwnedItem::Text(Bytes::new(Vec::new(alloc))))?;
    copy_items(alloc, &mut items, &segment.items(element), 1)?;
    with_items(alloc, segment, element, items.as_slice())
}
