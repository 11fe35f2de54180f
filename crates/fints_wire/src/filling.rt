//! What a message has for the dialogue id and for the fields.
ghost use Rattle.std.specs.Prelude.{◌≡◌, ◌++◌, ◌∷◌, [], get_or, map, length, IfOk, OnOk};
ghost use Rattle.fints_syntax_segments.specs.declared.item.OwnedItem.TheVariants.{Text};
ghost use Rattle.fints_script_fields.specs.Fields.{field_items};
ghost use Rattle.fints_script_fields.specs.Listed.{account_items, account_text, first_with};
ghost use Rattle.fints_wire.specs.Filling.{AreFilled, dialog_items, items_of_fields, filling_of, filled_item, filled_element, filled_elements};

use crate::copies::{copy_item, copy_items, push_copies};
use fints_script::{AccountValue, Field, NamedField, NamedValue, TemplateItem};
use fints_syntax::{Bytes, Elements, Memory, OwnedItem};
use std::alloc::Global;
use std::marker::Model;

/// What a message has for the dialogue id, and for each field; a contract sees the lists.
#[derive(Drop)]
pub struct Filling {
    dialog: Vec<OwnedItem>,
    fields: Vec<Vec<OwnedItem>>,
}

impl Model for Filling {
    ghost use Rattle.std.specs.Prelude.{map};
    ghost use Rattle.fints_wire.specs.Filling.{FillingValue};

    ghost Value = { FillingValue };

    ghost view = { λ f. record { dialog = f.dialog.items; fields = map (λ v. v.items) f.fields.items } };
}

fn only(alloc: Global, item: OwnedItem) -> Result<Vec<OwnedItem>, Memory>
    ensures { IfOk result (λ v. v.items ≡ item ∷ []) }
{
    let mut items = Vec::new(alloc);
    items.push(item)?;
    Ok(items)
}

fn texts(alloc: Global, texts: &[Bytes]) -> Result<Vec<OwnedItem>, Memory>
    ensures { IfOk result (λ v. v.items ≡ account_items texts.now) }
{
    let mut items = Vec::new(alloc);
    for text in texts {
        items.push(OwnedItem::Text(Bytes::copied(alloc, text.as_slice())?))?;
    }
    Ok(items)
}

fn account_items(
    alloc: Global,
    accounts: &[AccountValue],
    value: &[u8],
) -> Result<Vec<OwnedItem>, Memory>
    ensures { IfOk result (λ v. v.items ≡ account_items (first_with account_text [] accounts.now value.now)) }
{
    for account in accounts {
        if account.text() == value {
            return texts(alloc, account.items());
        }
    }
    Ok(Vec::new(alloc))
}

// The items that a value of the field has.
fn value_items(alloc: Global, field: &Field, value: &[u8]) -> Result<Vec<OwnedItem>, Memory>
    ensures { IfOk result (λ v. v.items ≡ field_items field.now value.now) }
{
    match field {
        Field::Account(c) => account_items(alloc, c.values.as_slice(), value),
        Field::Bin(_) => only(alloc, OwnedItem::Bin(Bytes::copied(alloc, value)?)),
        _ => only(alloc, OwnedItem::Text(Bytes::copied(alloc, value)?)),
    }
}

fn items_of_fields(
    alloc: Global,
    fields: &[NamedField],
    values: &[NamedValue],
) -> Result<Vec<Vec<OwnedItem>>, Memory>
    ensures { IfOk result (λ v. map (λ items. items.items) v.items ≡ items_of_fields fields.now values.now) }
{
    let mut all = Vec::new(alloc);
    for (field, pair) in fields.iter().zip(values.iter()) {
        all.push(value_items(alloc, &field.class, pair.value.as_slice())?)?;
    }
    Ok(all)
}

fn dialog_items(
    alloc: Global,
    fields: &[Vec<OwnedItem>],
    number: u32,
) -> Result<Vec<OwnedItem>, Memory>
    ensures { IfOk result (λ v. v.items ≡ dialog_items (map (λ items. items.items) fields.now) number) }
{
    if number == 1 {
        return only(alloc, OwnedItem::Text(Bytes::copied(alloc, b"0")?));
    }
    match fields.first() {
        Some(items) => copy_items(alloc, items.as_slice()),
        None => Ok(Vec::new(alloc)),
    }
}

impl Filling {
    /// What the message of this number is filled with for the values.
    pub fn new(
        alloc: Global,
        fields: &[NamedField],
        values: &[NamedValue],
        number: u32,
    ) -> Result<Filling, Memory>
        ensures { IfOk result (λ f. f ≡ filling_of fields.now values.now number) }
    {
        let fields = items_of_fields(alloc, fields, values)?;
        let dialog = dialog_items(alloc, fields.as_slice(), number)?;
        Ok(Filling { dialog, fields })
    }

    /// The dialogue id.
    pub fn dialog(&self) -> &[OwnedItem]
        ensures { result.now ≡ self.now.dialog }
    {
        self.dialog.as_slice()
    }

    /// The items of a field by its place, counted from 0.
    pub fn field(&self, place: usize) -> &[OwnedItem]
        ensures { result.now ≡ get_or self.now.fields place [] }
    {
        match self.fields.get(place) {
            Some(items) => items.as_slice(),
            None => &[],
        }
    }
}

fn push_filled(
    alloc: Global,
    out: &mut Vec<OwnedItem>,
    filling: &Filling,
    item: &TemplateItem,
) -> Result<(), Memory>
    ensures { OnOk result (out.new.items ≡ out.old.items ++ filled_item filling.now item.now) }
{
    match item {
        TemplateItem::Literal(item) => {
            out.push(copy_item(alloc, item)?)?;
            Ok(())
        }
        TemplateItem::Dialog => push_copies(alloc, out, filling.dialog()),
        TemplateItem::Field(place) => push_copies(alloc, out, filling.field(*place)),
    }
}

fn filled_element(
    alloc: Global,
    filling: &Filling,
    template: &[TemplateItem],
) -> Result<Vec<OwnedItem>, Memory>
    ensures { IfOk result (λ v. v.items ≡ filled_element filling.now template.now) }
{
    let mut items = Vec::new(alloc);
    for item in template {
        push_filled(alloc, &mut items, filling, item)?;
    }
    Ok(items)
}

/// The elements of a template with the items put in.
pub fn filled_elements(
    alloc: Global,
    filling: &Filling,
    template: &[Vec<TemplateItem>],
) -> Result<Elements, Memory>
    requires { AreFilled filling.now (map (λ items. items.items) template.now) }
    ensures { IfOk result (λ e. e ≡ filled_elements filling.now (map (λ items. items.items) template.now)) }
{
    let mut elements = Elements::new(alloc);
    for items in template {
        let element = filled_element(alloc, filling, items.as_slice())?;
        elements.push(element.as_slice())?;
    }
    Ok(elements)
}
