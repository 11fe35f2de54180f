//! The items of a recorded element 2.
ghost use Rattle.std.specs.Prelude.{◌≡◌, ◌↔◌, ◌≤◌, ◌-◌, All, IfOk, IfSome, IsTrue, map, slice_get};
ghost use Rattle.fints_syntax_segments.specs.Segment.{item_value};
ghost use Rattle.fints_cli_drafts_accounts.specs.Accounts.{IsText};
ghost use Rattle.fints_cli_drafts_accounts.specs.Recorded.{RecordedIs};

use crate::filling::are_listable;
use fints_script_fields::MAX_ITEMS;
use fints_syntax::{Bytes, ElementRef, ItemRef, Memory, OwnedSegment};
use std::alloc::Global;

// Whether an item, from 1 on, is a text.
fn is_text(items: &ElementRef<'_>, item: usize) -> bool
    requires { 1 ≤ item }
    ensures { IsTrue result ↔ IfSome (slice_get items.now (item - 1)) IsText }
{
    match items.get(item) {
        Some(ItemRef::Text(_)) => true,
        Some(ItemRef::Bin(_)) => false,
        None => true,
    }
}

// Whether no item is binary.
fn are_texts(items: &ElementRef<'_>) -> bool
    ensures { IsTrue result ↔ All IsText items.now }
{
    for i in 0..items.len() {
        if !is_text(items, i + 1) {
            return false;
        }
    }
    true
}

// The values of the items.
fn values_of(alloc: Global, items: &ElementRef<'_>) -> Result<Vec<Bytes>, Memory>
    ensures { IfOk result (λ values. values.items ≡ map item_value items.now) }
{
    let mut values = Vec::new(alloc);
    for i in 0..items.len() {
        values.push(Bytes::copied(alloc, items.value(i + 1))?)?;
    }
    Ok(values)
}

/// The values of the items of element 2, where a script can list them as an account.
pub fn recorded_items(alloc: Global, segment: &OwnedSegment) -> Result<Option<Vec<Bytes>>, Memory>
    ensures { IfOk result (RecordedIs segment.now) }
{
    let items = segment.items(2);
    if items.is_empty() || items.len() > MAX_ITEMS || !are_texts(&items) {
        return Ok(None);
    }
    let values = values_of(alloc, &items)?;
    if are_listable(values.as_slice()) {
        Ok(Some(values))
    } else {
        Ok(None)
    }
}
