//! The items of a segment one after the other.
ghost use Rattle.std.specs.Prelude.{◌≡◌, ◌≤◌, [], IfNone, IfSome, OnOk};
ghost use Rattle.fints_syntax_segments.specs.Segment.{segment_tokens, values_of};
ghost use Rattle.fints_syntax.specs.Reader.{read_elements, read_segment};
ghost use Rattle.fints_syntax.specs.Window.{IsFrameText};
ghost use Rattle.fints_syntax.specs.Cursor.{ends_left, IsTaken};

use crate::scan::{Scan, scan_item};
use crate::text::{Item, item_from};
use fints_syntax_segments::{Filling, MAX_ITEMS, Memory};
use std::marker::Model;

/// An item, and the byte after it: `:`, `+` or `'`.
#[derive(Drop)]
pub struct NextItem<'a> {
    pub item: Item<'a>,
    pub after: u8,
}

/// The items of a segment that are left, at most 20,000; a contract sees them, each with the byte
/// after it.
#[derive(Drop)]
pub struct Cursor<'a> {
    rest: &'a [u8],
}

impl<'a> Model for Cursor<'a> {
    ghost use Rattle.std.specs.Prelude.{List};
    ghost use Rattle.fints_syntax_segments.specs.Segment.{Token};

    ghost Value = { List Token };

    ghost use Rattle.fints_syntax.specs.Cursor.{tokens_of, IsCursor};

    ghost view = { tokens_of };

    ghost invariant = { IsCursor };
}

/// A cursor before the first item.
#[inline(always)]
pub fn cursor_over(source: &[u8]) -> Cursor<'_>
    requires { IsFrameText source.now }
    ensures { result ≡ segment_tokens (read_segment source.now) }
{
    Cursor { rest: source }
}

impl<'a> Cursor<'a> {
    /// A cursor at the same place.
    #[inline(always)]
    pub fn again(&self) -> Cursor<'a>
        ensures { result ≡ self.now }
    {
        Cursor { rest: self.rest }
    }

    /// How many of the items end an element.
    pub fn element_count(&self) -> usize
        ensures value { result ≡ ends_left self.now }
        ensures few { result ≤ MAX_ITEMS }
    {
        let mut cursor = Cursor { rest: self.rest };
        let mut count = 0;
        while let Some(found) = cursor.step() {
            if found.after != b':' {
                count += 1;
            }
        }
        count
    }

    /// The values of the elements that the items make, in one pass, in place of what was held.
    pub fn fill(&self, filling: &mut Filling) -> Result<(), Memory>
        ensures { OnOk result (filling.new
            ≡ record { elements = values_of (read_elements self.now); items = [] }) }
    {
        filling.clear();
        let mut cursor = Cursor { rest: self.rest };
        while let Some(found) = cursor.step() {
            filling.add(&found.item)?;
            if found.after != b':' {
                filling.close()?;
            }
        }
        Ok(())
    }

    /// The next item.
    #[inline(always)]
    pub fn step(&mut self) -> Option<NextItem<'a>>
        ensures end { IfNone result ((self.old ≡ []) × (self.new ≡ [])) }
        ensures taken { IfSome result (λ f. IsTaken self.old f self.new) }
    {
        if self.rest.is_empty() {
            return None;
        }
        match scan_item(self.rest) {
            Scan::Whole { len, after } => {
                let (bytes, _) = self.rest.split_at(len);
                let (_, rest) = self.rest.split_at(len + 1);
                self.rest = rest;
                Some(NextItem {
                    item: item_from(bytes),
                    after,
                })
            }
            Scan::Cut { .. } => None,
            Scan::Bad => None,
        }
    }
}
