//! The items of an element, lent by the segment that holds them.
ghost use Rattle.std.specs.Prelude.{◌≡◌, ◌==◌, ◌<◌, ◌≤◌, ◌-◌, [], length, get_or, map, slice_get, Some};
ghost use Rattle.std.specs.List.{AllByRecursion};
ghost use Rattle.std.specs.Option.{option_map};
ghost use Rattle.fints_syntax_segments.specs.Segment.{item_value};
ghost use Rattle.fints_syntax_segments.specs.Flat.{IsSpanIn, spanned, all_items};
ghost use Rattle.fints_syntax_segments.specs.Lent.{item_of_ref};

use std::marker::Model;

/// Where the value of an item is among the bytes.
#[derive(Clone, Copy)]
pub struct Span {
    pub start: usize,
    pub len: usize,
    pub binary: bool,
}

/// An item by its value, in place.
#[derive(Clone, Copy)]
pub enum ItemRef<'a> {
    Text(&'a [u8]),
    Bin(&'a [u8]),
}

/// The items of an element; a contract sees the list.
#[derive(Drop)]
pub struct ElementRef<'a> {
    bytes: &'a [u8],
    spans: &'a [Span],
}

impl<'a> Model for ElementRef<'a> {
    ghost use Rattle.std.specs.Prelude.{List};
    ghost use Rattle.fints_syntax_segments.specs.declared.item.OwnedItem.{OwnedItem};

    ghost Value = { List OwnedItem };

    ghost use Rattle.fints_syntax_segments.specs.ElementRefFields.{items_of, IsItems};

    ghost view = { items_of };

    ghost invariant = { IsItems };
}

// The item at a span of the bytes.
fn item_of<'a>(bytes: &'a [u8], span: &Span) -> ItemRef<'a>
    requires { IsSpanIn (length bytes.now) span.now }
    ensures { item_of_ref result ≡ spanned bytes.now span.now }
{
    let (_, rest) = bytes.split_at(span.start);
    let (value, _) = rest.split_at(span.len);
    if span.binary {
        ItemRef::Bin(value)
    } else {
        ItemRef::Text(value)
    }
}

impl<'a> ElementRef<'a> {
    /// The items at these spans of the bytes.
    pub(crate) fn new(bytes: &'a [u8], spans: &'a [Span]) -> ElementRef<'a>
        requires { AllByRecursion (IsSpanIn (length bytes.now)) spans.now }
        ensures { result ≡ all_items bytes.now spans.now }
    {
        ElementRef { bytes, spans }
    }

    /// How many items there are.
    pub fn len(&self) -> usize
        ensures { result ≡ length self.now }
    {
        self.spans.len()
    }

    pub fn is_empty(&self) -> bool
        ensures { result ≡ (length self.now == 0) }
    {
        self.spans.is_empty()
    }

    // The item at a place, counted from 0.
    pub(crate) fn at(&self, i: usize) -> ItemRef<'a>
        requires { i < length self.now }
        ensures { slice_get self.now i ≡ Some (item_of_ref result) }
    {
        let bytes = self.bytes;
        let span = &self.spans[i];
        item_of(bytes, span)
    }

    /// An item, from 1 on.
    pub fn get(&self, item: usize) -> Option<ItemRef<'a>>
        requires { 1 ≤ item }
        ensures { option_map item_of_ref result ≡ slice_get self.now (item - 1) }
    {
        let span = self.spans.get(item - 1)?;
        Some(item_of(self.bytes, span))
    }

    /// The value of an item, from 1 on; an absent one is empty.
    pub fn value(&self, item: usize) -> &'a [u8]
        requires { 1 ≤ item }
        ensures { result.now ≡ get_or (map item_value self.now) (item - 1) [] }
    {
        match self.get(item) {
            None => &[],
            Some(ItemRef::Text(value)) => value,
            Some(ItemRef::Bin(value)) => value,
        }
    }
}
