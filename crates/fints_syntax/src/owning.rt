//! Items by their values, and the first items of elements.
ghost use Rattle.std.specs.Prelude.{◌≡◌, ◌++◌, OnOk, OnErr};
ghost use Rattle.fints_syntax_segments.specs.Spelling.{text_value};
ghost use Rattle.fints_syntax_segments.specs.Written.{KeepsFront};
ghost use Rattle.fints_syntax.specs.Owned.{owned_item_of};
ghost use Rattle.fints_syntax.specs.Cursor.{after_element, first_of};
ghost use Rattle.fints_syntax.specs.ItemIs.{ItemIs};

use crate::cursor::Cursor;
use crate::text::{Item, RawText, has_escape};
use fints_syntax_segments::Valued;
use std::alloc::AllocError;

fn append_raw(out: &mut Vec<u8>, raw: &RawText<'_>) -> Result<(), AllocError>
    ensures added { OnOk result (out.new.items ≡ out.old.items ++ text_value raw.now) }
    ensures kept { OnErr result (KeepsFront out.old.items out.new.items) }
{
    if !has_escape(raw.as_bytes()) {
        return out.extend_from_slice(raw.as_bytes());
    }
    for b in raw.bytes() {
        out.push(b)?;
    }
    Ok(())
}

impl Valued for Item<'_> {
    ghost owned = { owned_item_of };

    fn append_value(&self, out: &mut Vec<u8>) -> Result<(), AllocError> {
        match self {
            Item::Text(raw) => append_raw(out, raw),
            Item::Bin(data) => out.extend_from_slice(data),
        }
    }

    fn is_binary(&self) -> bool {
        matches!(self, Item::Bin(_))
    }
}

// Past the items of the element at the front.
fn skip_element(cursor: &mut Cursor<'_>)
    ensures { cursor.new ≡ after_element cursor.old }
{
    while let Some(found) = cursor.step() {
        if found.after != b':' {
            return;
        }
    }
}

/// The first item of the element at the front, and past its items.
#[inline(always)]
pub fn first_item<'a>(cursor: &mut Cursor<'a>) -> Option<Item<'a>>
    ensures item { ItemIs result (first_of cursor.old) }
    ensures rest { cursor.new ≡ after_element cursor.old }
{
    let Some(found) = cursor.step() else {
        return None;
    };
    if found.after == b':' {
        skip_element(cursor);
    }
    Some(found.item)
}
