//! Elements in three flat lists: bytes, items and elements.
ghost use Rattle.std.specs.Prelude.{◌≡◌, ◌<◌, ◌^◌, ◌++◌, ◌∷◌, [], length, OnOk, OnErr, get_or, cond};
ghost use Rattle.fints_syntax_segments.specs.Segment.{item_value};
ghost use Rattle.fints_syntax_segments.specs.Written.{KeepsFront};
ghost use Rattle.fints_syntax_segments.specs.declared.item.OwnedItem.TheVariants.{Text, Bin};

use crate::element::{ElementRef, Span};
use crate::fault::Memory;
use crate::item::OwnedItem;
use std::alloc::{AllocError, Global};
use std::marker::Model;

/// Where the items of an element are among the items.
#[derive(Clone, Copy)]
pub struct Group {
    pub first: usize,
    pub count: usize,
}

/// Elements, and the items of one that is not whole yet; a contract sees the lists.
#[derive(Drop)]
pub struct Filling {
    bytes: Vec<u8>,
    spans: Vec<Span>,
    groups: Vec<Group>,
    open: usize,
}

impl Model for Filling {
    ghost use Rattle.fints_syntax_segments.specs.Flat.{Filled};

    ghost Value = { Filled };

    ghost use Rattle.fints_syntax_segments.specs.Flat.{filled_of, IsFlat};

    ghost view = { filled_of };

    ghost invariant = { IsFlat };
}

/// What has the value of an item.
pub trait Valued {
    ghost use Rattle.fints_syntax_segments.specs.declared.item.OwnedItem.{OwnedItem};

    /// The item by its value.
    ghost owned: { Self → OwnedItem };

    /// Appends the bytes of the value to `out`; where memory runs out, a part of them.
    fn append_value(&self, out: &mut Vec<u8>) -> Result<(), AllocError>
        ensures added { OnOk result (out.new.items ≡ out.old.items ++ item_value (owned self.now)) }
        ensures kept { OnErr result (KeepsFront out.old.items out.new.items) };

    fn is_binary(&self) -> bool
        ensures { owned self.now ≡ cond result (Bin (item_value (owned self.now)))
            (Text (item_value (owned self.now))) };
}

impl Filling {
    /// No element.
    pub fn new(alloc: Global) -> Filling
        ensures { result ≡ record { elements = []; items = [] } }
    {
        Filling {
            bytes: Vec::new(alloc),
            spans: Vec::new(alloc),
            groups: Vec::new(alloc),
            open: 0,
        }
    }

    /// No element any more; the memory is kept for the next ones.
    pub fn clear(&mut self)
        ensures { self.new ≡ record { elements = []; items = [] } }
    {
        self.bytes.clear();
        self.spans.clear();
        self.groups.clear();
        self.open = 0;
    }

    /// Adds an item to the element that is not whole yet.
    pub fn add<V: Valued>(&mut self, item: &V) -> Result<(), Memory>
        ensures added { OnOk result (self.new
            ≡ record { elements = self.old.elements; items = self.old.items ++ V.owned item.now ∷ [] }) }
        ensures unchanged { OnErr result (self.new ≡ self.old) }
    {
        let start = self.bytes.len();
        item.append_value(&mut self.bytes)?;
        let len = self.bytes.len() - start;
        let binary = item.is_binary();
        self.spans.push(Span { start, len, binary })?;
        Ok(())
    }

    /// The element is whole.
    pub fn close(&mut self) -> Result<(), Memory>
        requires { 0 < length self.old.items }
        ensures closed { OnOk result (self.new
            ≡ record { elements = self.old.elements ++ self.old.items ∷ []; items = [] }) }
        ensures unchanged { OnErr result (self.new ≡ self.old) }
    {
        let first = self.open;
        let count = self.spans.len() - first;
        self.groups.push(Group { first, count })?;
        self.open = self.spans.len();
        Ok(())
    }

    /// Leaves out the items of the element that is not whole.
    pub fn leave_open(&mut self)
        ensures { self.new ≡ record { elements = self.old.elements; items = [] } }
    {
        self.spans.truncate(self.open);
    }

    /// How many whole elements there are.
    pub fn len(&self) -> usize
        ensures count { result ≡ length self.now.elements }
        ensures bound { result < 2 ^ 63 }
    {
        self.groups.len()
    }

    /// The items of an element, from 0 on; none where it is absent.
    pub fn items(&self, element: usize) -> ElementRef<'_>
        ensures items { result ≡ get_or self.now.elements element [] }
        ensures some { element < length self.now.elements → 0 < length result }
    {
        match self.groups.get(element) {
            None => ElementRef::new(&[], &[]),
            Some(group) => {
                let (_, rest) = self.spans.split_at(group.first);
                let (spans, _) = rest.split_at(group.count);
                ElementRef::new(self.bytes.as_slice(), spans)
            }
        }
    }
}

impl Valued for OwnedItem {
    ghost owned = { λ item. item };

    fn append_value(&self, out: &mut Vec<u8>) -> Result<(), AllocError> {
        out.extend_from_slice(self.value())
    }

    fn is_binary(&self) -> bool {
        matches!(self, OwnedItem::Bin(_))
    }
}
