//! Copies of items.
ghost use Rattle.std.specs.Prelude.{◌≡◌, ◌++◌, IfOk, OnOk};

use fints_syntax::{Bytes, Memory, OwnedItem};
use std::alloc::Global;

/// A copy of an item.
pub fn copy_item(alloc: Global, item: &OwnedItem) -> Result<OwnedItem, Memory>
    ensures { IfOk result (λ copy. copy ≡ item.now) }
{
    match item {
        OwnedItem::Text(bytes) => Ok(OwnedItem::Text(Bytes::copied(alloc, bytes.as_slice())?)),
        OwnedItem::Bin(bytes) => Ok(OwnedItem::Bin(Bytes::copied(alloc, bytes.as_slice())?)),
    }
}

/// Adds copies of items at the end.
pub fn push_copies(
    alloc: Global,
    out: &mut Vec<OwnedItem>,
    items: &[OwnedItem],
) -> Result<(), Memory>
    ensures { OnOk result (out.new.items ≡ out.old.items ++ items.now) }
{
    for item in items {
        out.push(copy_item(alloc, item)?)?;
    }
    Ok(())
}

/// Copies of items.
pub fn copy_items(alloc: Global, items: &[OwnedItem]) -> Result<Vec<OwnedItem>, Memory>
    ensures { IfOk result (λ copies. copies.items ≡ items.now) }
{
    let mut copies = Vec::new(alloc);
    push_copies(alloc, &mut copies, items)?;
    Ok(copies)
}
