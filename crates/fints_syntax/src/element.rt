//! The items of an element, one after the other.
ghost use Rattle.std.specs.Prelude.{◌≡◌, drop, slice_get};
ghost use Rattle.fints_syntax.specs.Cursor.{front};
ghost use Rattle.fints_syntax.specs.ItemIs.{ItemIs};

use crate::cursor::Cursor;
use crate::text::Item;
use std::marker::Model;

/// The items of an element that are left, where they are in the bytes of the segment; a contract sees
/// them as they are spelled.
#[derive(Drop)]
pub struct ElementItems<'a> {
    rest: Cursor<'a>,
    is_open: bool,
}

impl<'a> Model for ElementItems<'a> {
    ghost use Rattle.std.specs.Prelude.{if◌then◌else◌, List, []};
    ghost use Rattle.fints_syntax_segments.specs.Spelling.{Spelled};
    ghost use Rattle.fints_syntax.specs.Cursor.{front};

    ghost Value = { List Spelled };

    ghost view = { λ e. if e.is_open then front e.rest else [] };
}

impl<'a> ElementItems<'a> {
    // Those of the element at the front.
    pub(crate) fn at(cursor: &Cursor<'a>) -> ElementItems<'a>
        ensures { result ≡ front cursor.now }
    {
        ElementItems {
            rest: cursor.again(),
            is_open: true,
        }
    }

    /// The next item, if one is left.
    pub fn step(&mut self) -> Option<Item<'a>>
        ensures item { ItemIs result (slice_get self.old 0) }
        ensures rest { self.new ≡ drop 1 self.old }
    {
        if !self.is_open {
            return None;
        }
        let Some(found) = self.rest.step() else {
            return None;
        };
        self.is_open = found.after == b':';
        Some(found.item)
    }
}
