//! Items and segments by their values.
ghost use Rattle.std.specs.Prelude.{◌≡◌, ◌==◌, [], ◌∷◌, ◌++◌, ◌<◌, ◌≤◌, ◌^◌, length, map, get_or, OnOk, OnErr};

use crate::bytes::Bytes;
use crate::element::ElementRef;
use crate::fault::Memory;
use crate::flat::Filling;
use crate::kind::Kind;
use std::alloc::Global;
use std::marker::Model;

/// An item by its value.
#[derive(Drop)]
pub enum OwnedItem {
    Text(Bytes),
    Bin(Bytes),
}

/// The head of a segment, its element 1: identifier, segment number, version and reference number
/// (FinTS 3.0, Formals, the segment head). The numbers that are read have at most three digits.
#[derive(Clone, Copy, PartialEq, Eq)]
pub struct Head {
    pub id: Kind,
    pub number: u16,
    pub version: u16,
    pub reference: Option<u16>,
}

/// The elements after the head, each with at least one item; a contract sees the lists.
#[derive(Drop)]
pub struct Elements {
    filling: Filling,
}

impl Model for Elements {
    ghost use Rattle.std.specs.Prelude.{List};
    ghost use Rattle.fints_syntax_segments.specs.declared.item.OwnedItem.{OwnedItem};

    ghost Value = { List (List OwnedItem) };

    ghost use Rattle.fints_syntax_segments.specs.ElementsFields.{elements_of, IsElements};

    ghost view = { elements_of };

    ghost invariant = { IsElements };
}

/// A segment by its values.
#[derive(Drop)]
pub struct OwnedSegment {
    pub head: Head,
    pub elements: Elements,
}

impl Elements {
    /// No element.
    pub fn new(alloc: Global) -> Elements
        ensures { result ≡ [] }
    {
        Elements {
            filling: Filling::new(alloc),
        }
    }

    /// Adds an element at the end, with copies of the items.
    pub fn push(&mut self, items: &[OwnedItem]) -> Result<(), Memory>
        requires { 0 < length items.now }
        ensures added { OnOk result (self.new ≡ self.old ++ items.now ∷ []) }
        ensures unchanged { OnErr result (self.new ≡ self.old) }
    {
        match push_element(&mut self.filling, items) {
            Ok(()) => Ok(()),
            Err(memory) => {
                self.filling.leave_open();
                Err(memory)
            }
        }
    }

    /// The elements, to be filled anew in the memory that they have.
    pub fn into_filling(self) -> Filling
        ensures { result ≡ record { elements = self; items = [] } }
    {
        let Elements { filling } = self;
        filling
    }

    /// The whole elements of a filling that has no other items.
    pub fn from_filling(filling: Filling) -> Elements
        requires { filling.items ≡ [] }
        ensures { result ≡ filling.elements }
    {
        Elements { filling }
    }

    /// How many elements there are.
    pub fn len(&self) -> usize
        ensures count { result ≡ length self.now }
        ensures bound { result < 2 ^ 63 }
    {
        self.filling.len()
    }

    pub fn is_empty(&self) -> bool
        ensures { result ≡ (length self.now == 0) }
    {
        self.filling.len() == 0
    }

    /// The items of an element, from 0 on; none where it is absent.
    pub fn items(&self, element: usize) -> ElementRef<'_>
        ensures items { result ≡ get_or self.now element [] }
        ensures some { element < length self.now → 0 < length result }
    {
        self.filling.items(element)
    }
}

// The element, or on a refusal a part of its items that is open.
fn push_element(filling: &mut Filling, items: &[OwnedItem]) -> Result<(), Memory>
    requires some { 0 < length items.now }
    requires whole { filling.old.items ≡ [] }
    ensures added { OnOk result (filling.new
        ≡ record { elements = filling.old.elements ++ items.now ∷ []; items = [] }) }
    ensures kept { OnErr result (filling.new.elements ≡ filling.old.elements) }
{
    for item in items {
        filling.add(item)?;
    }
    filling.close()
}

impl OwnedItem {
    ghost use Rattle.fints_syntax_segments.specs.Segment.{item_value};

    /// The bytes of the value.
    pub fn value(&self) -> &[u8]
        ensures { result.now ≡ item_value self.now }
    {
        match self {
            OwnedItem::Text(bytes) => bytes.as_slice(),
            OwnedItem::Bin(bytes) => bytes.as_slice(),
        }
    }
}

impl OwnedSegment {
    ghost use Rattle.std.specs.Prelude.{◌-◌};
    ghost use Rattle.fints_syntax_segments.specs.Segment.{item_value};
    ghost use Rattle.fints_syntax_segments.specs.Values.{is_named, items_in, values_at, value_at};

    /// Whether the segment has this identifier and version.
    pub fn is_named(&self, id: &[u8], version: u16) -> bool
        ensures { result ≡ is_named self.now id.now version }
    {
        self.head.id.as_bytes() == id && self.head.version == version
    }

    /// The elements after the head.
    pub fn into_elements(self) -> Elements
        ensures { result ≡ self.elements }
    {
        let OwnedSegment { elements, .. } = self;
        elements
    }

    /// The items of an element after the head, from 2 on; none where it is absent. The head is
    /// element 1, and its items are the fields of `head`.
    pub fn items(&self, element: usize) -> ElementRef<'_>
        requires { 2 ≤ element }
        ensures items { result ≡ items_in self.now element }
        ensures values { map item_value result ≡ values_at self.now element }
        ensures some { element - 2 < length self.now.elements → 0 < length result }
    {
        self.elements.items(element - 2)
    }

    /// The value of an item, from 1 on, of an element after the head, from 2 on; an absent one is
    /// empty. The items of the head, element 1, are the fields of `head`.
    pub fn value(&self, element: usize, item: usize) -> &[u8]
        requires element { 2 ≤ element }
        requires item { 1 ≤ item }
        ensures { result.now ≡ value_at self.now element item }
    {
        self.items(element).value(item)
    }
}
