//! What is in a segment: in a template under values of the fields, or in a message.
use fints_script::{AccountValue, Name, NamedField, TemplateItem, Values};
use fints_syntax::{Bytes, OwnedSegment};

/// The first items of an element; an absent one is empty.
pub type Items<'a> = [&'a [u8]; 6];

/// The elements of a template, from element 2 on, under values of the fields.
#[derive(Clone, Copy)]
pub struct Filled<'a> {
    pub fields: &'a [NamedField],
    pub values: &'a Values,
    pub elements: &'a [Vec<TemplateItem>],
}

fn value_of<'a>(filled: &Filled<'a>, place: usize) -> &'a [u8] {
    match filled.fields.get(place) {
        Some(field) => filled.values.get(field.name).unwrap_or(b""),
        None => b"",
    }
}

// The value of item i, from 0.
fn filled_item<'a>(filled: &Filled<'a>, items: &'a [TemplateItem], i: usize) -> &'a [u8] {
    match items.get(i) {
        Some(TemplateItem::Literal(item)) => item.value(),
        Some(TemplateItem::Dialog) => value_of(filled, 0),
        Some(TemplateItem::Field(place)) => value_of(filled, *place),
        None => b"",
    }
}

// The account that is the value of the field, where it is one of accounts.
fn account_in<'a>(filled: &Filled<'a>, items: &[TemplateItem]) -> Option<&'a AccountValue> {
    let [TemplateItem::Field(place)] = items else {
        return None;
    };
    let value = value_of(filled, *place);
    let accounts = filled.fields.get(*place)?.class.accounts();
    accounts.iter().find(|it| it.text() == value)
}

fn account_item(items: &[Bytes], i: usize) -> &[u8] {
    match items.get(i) {
        Some(item) => item.as_slice(),
        None => b"",
    }
}

fn account_items(account: &AccountValue) -> Items<'_> {
    let items = account.items();
    [
        account_item(items, 0),
        account_item(items, 1),
        account_item(items, 2),
        account_item(items, 3),
        account_item(items, 4),
        account_item(items, 5),
    ]
}

fn filled_items<'a>(filled: &Filled<'a>, element: usize) -> Items<'a> {
    let place = element.saturating_sub(2);
    let items = match filled.elements.get(place) {
        Some(items) => items.as_slice(),
        None => &[],
    };
    match account_in(filled, items) {
        Some(account) => account_items(account),
        None => [
            filled_item(filled, items, 0),
            filled_item(filled, items, 1),
            filled_item(filled, items, 2),
            filled_item(filled, items, 3),
            filled_item(filled, items, 4),
            filled_item(filled, items, 5),
        ],
    }
}

// The field whose name is in element 2 as a text.
fn field_meant<'a>(filled: &Filled<'a>) -> Option<&'a Name> {
    let [first, ..] = filled.elements else {
        return None;
    };
    let [TemplateItem::Literal(item)] = first.as_slice() else {
        return None;
    };
    let text = item.value();
    // the built-in field is first
    let mut fields = filled.fields.iter().skip(1);
    let field = fields.find(|it| it.name.as_bytes() == text)?;
    Some(&field.name)
}

/// The elements of a segment.
#[derive(Clone, Copy)]
pub enum Elements<'a> {
    Filled(Filled<'a>),
    Sent(&'a OwnedSegment),
}

impl<'a> Elements<'a> {
    /// Whether they are those of a script.
    pub fn are_filled(&self) -> bool {
        matches!(self, Elements::Filled(_))
    }

    /// The number of the last element.
    pub fn last(&self) -> usize {
        let count = match self {
            Elements::Filled(filled) => filled.elements.len(),
            Elements::Sent(segment) => segment.elements.len(),
        };
        count.saturating_add(1)
    }

    /// The first items of an element, by its number from 2 on; the head has none here.
    pub fn items(&self, element: usize) -> Items<'a> {
        match self {
            _ if element < 2 => [b""; 6],
            Elements::Filled(filled) => filled_items(filled, element),
            Elements::Sent(segment) => [
                segment.value(element, 1),
                segment.value(element, 2),
                segment.value(element, 3),
                segment.value(element, 4),
                segment.value(element, 5),
                segment.value(element, 6),
            ],
        }
    }

    /// The field of the script whose name is in element 2 as a text, where its `$` was forgotten.
    pub fn field_meant(&self) -> Option<&'a Name> {
        match self {
            Elements::Filled(filled) => field_meant(filled),
            Elements::Sent(_) => None,
        }
    }
}
