//! Elements of templates, read from their texts.
ghost use Rattle.std.specs.Prelude.{◌≡◌, false, map};
ghost use Rattle.toml.specs.View.{view};
ghost use Rattle.hex.specs.Hex.{decode_of};
ghost use Rattle.fints_script_rows.specs.Parts.{Gives, each, more, seen};
ghost use Rattle.fints_script_templates.specs.ItemTexts.{read_as};
ghost use Rattle.fints_script_templates.specs.Elements.{array_in, bin_of, element_in, elements_in, item_in, literal_in, reading_in, reference_in};

use crate::item_text::{ItemText, item_text};
use crate::template::{TemplateElements, TemplateItem};
use fints_script_rows::parts::{both, entries_of, more, not_empty};
use fints_script_rows::text::{is_latin1, latin1};
use fints_script_rows::{FaultKind, Fields};
use fints_syntax_segments::{Bytes, OwnedItem};
use hex::FromHexError;
use std::alloc::Global;
use toml::Value;

// ---- items

fn reference_in(fields: &Fields, free: bool, name: &str) -> Result<TemplateItem, FaultKind>
    ensures { result ≡ reference_in fields.now free name.now }
{
    if name == "dialog" {
        return Ok(TemplateItem::Dialog);
    }
    match fields.place_of(name) {
        None => Err(FaultKind::NoSuchName),
        Some(_) if !free && fields.has_account(name) => Err(FaultKind::WrongKind),
        Some(place) => Ok(TemplateItem::Field(place)),
    }
}

fn bin_in(alloc: Global, digits: &str) -> Result<TemplateItem, FaultKind>
    ensures { Gives (λ i. i) result (bin_of (decode_of digits.now)) }
{
    match hex::decode(alloc, digits.as_bytes()) {
        Ok(bytes) => Ok(TemplateItem::Literal(OwnedItem::Bin(Bytes::new(bytes)))),
        Err(FromHexError::OutOfMemory) => Err(FaultKind::Memory),
        Err(_) => Err(FaultKind::BadHex),
    }
}

fn literal_in(alloc: Global, text: &str) -> Result<TemplateItem, FaultKind>
    ensures { Gives (λ i. i) result (literal_in text.now) }
{
    if !is_latin1(text) {
        return Err(FaultKind::NotLatin1);
    }
    let bytes = latin1(alloc, text)?;
    Ok(TemplateItem::Literal(OwnedItem::Text(Bytes::new(bytes))))
}

fn reading_in(
    alloc: Global,
    fields: &Fields,
    free: bool,
    text: ItemText<'_>,
) -> Result<TemplateItem, FaultKind>
    ensures { Gives (λ i. i) result (reading_in fields.now free (read_as text.entry)) }
{
    match text {
        ItemText::Reference(name) => reference_in(fields, free, name),
        ItemText::Hex(digits) => bin_in(alloc, digits),
        ItemText::Literal(text) => literal_in(alloc, text),
    }
}

fn item_in(
    alloc: Global,
    fields: &Fields,
    free: bool,
    value: &Value,
) -> Result<TemplateItem, FaultKind>
    ensures { Gives (λ i. i) result (item_in fields.now free (view value.now)) }
{
    match value {
        Value::String(text) => reading_in(alloc, fields, free, item_text(text.as_str())),
        _ => Err(FaultKind::WrongKind),
    }
}

// ---- elements

fn items_in(
    alloc: Global,
    fields: &Fields,
    values: &[Value],
) -> Result<Vec<TemplateItem>, FaultKind>
    ensures { Gives (λ v. v.items) result (each (item_in fields.now false) (map view values.now)) }
{
    let mut items = Ok(Vec::new(alloc));
    for value in values {
        items = more(items, item_in(alloc, fields, false, value));
    }
    items
}

fn array_in(
    alloc: Global,
    fields: &Fields,
    values: &[Value],
) -> Result<Vec<TemplateItem>, FaultKind>
    ensures { Gives (λ v. v.items) result (array_in fields.now (map view values.now)) }
{
    items_in(alloc, fields, not_empty(values)?)
}

fn element_in(
    alloc: Global,
    fields: &Fields,
    free: bool,
    value: &Value,
) -> Result<Vec<TemplateItem>, FaultKind>
    ensures { Gives (λ v. v.items) result (element_in fields.now free (view value.now)) }
{
    match value {
        Value::Array(values) => array_in(alloc, fields, values.as_slice()),
        _ => {
            let item = item_in(alloc, fields, free, value)?;
            Ok(Vec::from_array(alloc, [item])?)
        }
    }
}

// The elements so far and one more, or the first fault of any.
fn more_elements(
    elements: Result<TemplateElements, FaultKind>,
    items: Result<Vec<TemplateItem>, FaultKind>,
) -> Result<TemplateElements, FaultKind>
    ensures { Gives (λ e. e) result (more elements (seen (λ v. v.items) items)) }
{
    let (mut elements, items) = both(elements, items)?;
    elements.push(items)?;
    Ok(elements)
}

fn list_in(
    alloc: Global,
    fields: &Fields,
    free: bool,
    values: &[Value],
) -> Result<TemplateElements, FaultKind>
    ensures { Gives (λ e. e) result (each (element_in fields.now free) (map view values.now)) }
{
    let mut elements = Ok(TemplateElements::new(alloc));
    for value in values {
        elements = more_elements(elements, element_in(alloc, fields, free, value));
    }
    elements
}

/// The elements of a list, where fields of listed accounts may be used (`free`) or not, or its first
/// fault in the order of the kinds.
pub fn elements_in(
    alloc: Global,
    fields: &Fields,
    free: bool,
    value: &Value,
) -> Result<TemplateElements, FaultKind>
    ensures { Gives (λ e. e) result (elements_in fields.now free (view value.now)) }
{
    list_in(alloc, fields, free, entries_of(value)?)
}
