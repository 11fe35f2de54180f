//! Templates of segments: what a message holds, with places for fields.
ghost use Rattle.std.specs.Prelude.{◌≡◌, ◌++◌, ◌∷◌, [], map, OnOk, OnErr};

use fints_script_fields::Name;
use fints_syntax_segments::{Kind, Memory, OwnedItem};
use std::alloc::Global;
use std::marker::Model;

/// An item of a template: a literal, the dialogue id, or a field by its place among the fields of
/// the script, counted from 0, where the built-in field `dialog` is.
#[derive(Drop)]
pub enum TemplateItem {
    Literal(OwnedItem),
    Dialog,
    Field(usize),
}

/// Elements of a template; a contract sees the lists of items.
#[derive(Drop)]
pub struct TemplateElements {
    elements: Vec<Vec<TemplateItem>>,
}

impl Model for TemplateElements {
    ghost use Rattle.std.specs.Prelude.{List, map};
    ghost use Rattle.fints_script_templates.specs.declared.template.TemplateItem.{TemplateItem};

    ghost Value = { List (List TemplateItem) };

    ghost view = { λ e. map (λ v. v.items) e.elements.items };
}

impl TemplateElements {
    /// No element.
    pub fn new(alloc: Global) -> TemplateElements
        ensures { result ≡ [] }
    {
        TemplateElements {
            elements: Vec::new(alloc),
        }
    }

    /// Adds an element at the end.
    pub fn push(&mut self, items: Vec<TemplateItem>) -> Result<(), Memory>
        ensures added { OnOk result (self.new ≡ self.old ++ items.items ∷ []) }
        ensures unchanged { OnErr result (self.new ≡ self.old) }
    {
        self.elements.push(items)?;
        Ok(())
    }

    /// The elements in order.
    pub fn as_slice(&self) -> &[Vec<TemplateItem>]
        ensures { map (λ v. v.items) result.now ≡ self.now }
    {
        self.elements.as_slice()
    }
}

/// A segment of a template: its elements from element 2 on.
#[derive(Drop)]
pub struct Template {
    pub kind: Kind,
    pub version: u16,
    pub elements: TemplateElements,
}

/// A signer: the elements, from element 2 on, of its HNSHK (the head) and its HNSHA (the end).
#[derive(Drop)]
pub struct Signer {
    pub name: Name,
    pub head: TemplateElements,
    pub end: TemplateElements,
}
