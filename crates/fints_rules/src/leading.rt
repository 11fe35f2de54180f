//! The values that rules ask of a segment of a message: the first six items of its element 2, copied once.
ghost use Rattle.std.specs.Prelude.{◌≡◌, ◌<◌, IfOk, drop, map};
ghost use Rattle.std.specs.Str.{bytes_eq};
ghost use Rattle.fints_syntax.specs.ItemIs.{value_of_item};
ghost use Rattle.fints_syntax.specs.Owned.{segment_of, segments_of};
ghost use Rattle.fints_syntax_segments.specs.Values.{value_at};
ghost use Rattle.fints_rules.specs.Facts.{six_items};
ghost use Rattle.fints_rules.specs.Leading.{first_value};

use fints_syntax::{Bytes, ElementItems, Item, Memory, SegmentView};
use fints_syntax_segments::Valued;
use std::alloc::Global;
use std::marker::Model;

// Whether these are the bytes of the item's value.
fn is_value(item: &Item<'_>, value: &[u8]) -> bool
    ensures { result ≡ bytes_eq (value_of_item item.now) value.now }
{
    let mut rest = item.value();
    for byte in value {
        let Some(found) = rest.next() else {
            return false;
        };
        if found != *byte {
            return false;
        }
    }
    rest.next().is_none()
}

/// Whether an item of an element, from element 2 on, has this value; an absent one is empty.
pub fn has_value(segment: &SegmentView<'_>, element: usize, item: usize, value: &[u8]) -> bool
    requires element { 1 < element }
    requires item { 0 < item }
    ensures { result ≡ bytes_eq (value_at (segment_of segment.now) element item) value.now }
{
    match segment.item(element, item) {
        None => value.is_empty(),
        Some(found) => is_value(&found, value),
    }
}

// A copy of the value of the next item; where none is left it is empty.
fn copied(alloc: Global, items: &mut ElementItems<'_>) -> Result<Bytes, Memory>
    ensures value { IfOk result (λ value. value ≡ first_value items.old) }
    ensures rest { items.new ≡ drop 1 items.old }
{
    let mut value = Vec::new(alloc);
    match items.step() {
        None => Ok(Bytes::new(value)),
        Some(found) => {
            found.append_value(&mut value)?;
            Ok(Bytes::new(value))
        }
    }
}

/// The values of the first six items of a segment's element 2; a contract sees the list.
#[derive(Drop)]
pub struct Leading {
    values: [Bytes; 6],
}

impl Model for Leading {
    ghost use Rattle.std.specs.Prelude.{ℕ, List};

    ghost Value = { List (List ℕ) };

    ghost view = { λ l. l.values };
}

impl Leading {
    /// Those of a segment.
    pub fn of(alloc: Global, segment: &SegmentView<'_>) -> Result<Leading, Memory>
        ensures { IfOk result (λ leading. leading ≡ six_items (segment_of segment.now)) }
    {
        let mut items = segment.second_element();
        let values = [
            copied(alloc, &mut items)?,
            copied(alloc, &mut items)?,
            copied(alloc, &mut items)?,
            copied(alloc, &mut items)?,
            copied(alloc, &mut items)?,
            copied(alloc, &mut items)?,
        ];
        Ok(Leading { values })
    }

    /// The values.
    pub fn values(&self) -> [&[u8]; 6]
        ensures { map (λ x. x.now) result ≡ self.now }
    {
        [
            self.values[0].as_slice(),
            self.values[1].as_slice(),
            self.values[2].as_slice(),
            self.values[3].as_slice(),
            self.values[4].as_slice(),
            self.values[5].as_slice(),
        ]
    }
}

/// Those of each segment.
pub fn leading_of(alloc: Global, segments: &[SegmentView<'_>]) -> Result<Vec<Leading>, Memory>
    ensures { IfOk result (λ all. all.items ≡ map six_items (segments_of segments.now)) }
{
    let mut all = Vec::new(alloc);
    for segment in segments {
        all.push(Leading::of(alloc, segment)?)?;
    }
    Ok(all)
}
