//! Elements, and the strings of their items.
ghost use Rattle.std.specs.Prelude.{◌≡◌, ◌++◌, OnOk};
ghost use Rattle.std.specs.List.{join_by};
ghost use Rattle.fints_cli_drafts_texts.specs.DraftText.{array_text, comma, element_text, elements_text, field_name, item_string, item_text, text_mark};

use crate::strings::write_characters;
use fints_script_rows::NamedField;
use fints_script_templates::{TemplateElements, TemplateItem};
use fints_syntax_segments::{Memory, OwnedItem};
use std::alloc::Global;

// Writes `=` where the first character of a text says something else at the front.
#[tactic(auto, unfolding(crate::specs::DraftText::text_mark))]
fn write_mark(text: &mut Vec<u8>, value: &[u8]) -> Result<(), Memory>
    ensures { OnOk result (text.new.items ≡ text.old.items ++ text_mark value.now) }
{
    match value {
        [b'$' | b'%' | b'=', ..] => text.push(b'=')?,
        _ => {}
    }
    Ok(())
}

// The name of the field at a place.
fn field_name(fields: &[NamedField], place: usize) -> &[u8]
    ensures { result.now ≡ field_name fields.now place }
{
    match fields.get(place) {
        Some(field) => field.name.as_bytes(),
        None => &[],
    }
}

#[tactic(auto, unfolding(crate::specs::DraftText::item_text))]
fn write_item_text(
    alloc: Global,
    text: &mut Vec<u8>,
    fields: &[NamedField],
    item: &TemplateItem,
) -> Result<(), Memory>
    ensures { OnOk result (text.new.items ≡ text.old.items ++ item_text fields.now item.now) }
{
    match item {
        TemplateItem::Literal(OwnedItem::Text(value)) => {
            write_mark(text, value.as_slice())?;
            write_characters(text, value.as_slice())?;
        }
        TemplateItem::Literal(OwnedItem::Bin(value)) => {
            text.push(b'%')?;
            text.extend_from_slice(hex::encode(alloc, value.as_slice())?.as_bytes())?;
        }
        TemplateItem::Dialog => text.extend_from_slice(b"$dialog")?,
        TemplateItem::Field(place) => {
            text.push(b'$')?;
            text.extend_from_slice(field_name(fields, *place))?;
        }
    }
    Ok(())
}

fn write_item(
    alloc: Global,
    text: &mut Vec<u8>,
    fields: &[NamedField],
    item: &TemplateItem,
) -> Result<(), Memory>
    ensures { OnOk result (text.new.items ≡ text.old.items ++ item_string fields.now item.now) }
{
    text.push(b'"')?;
    write_item_text(alloc, text, fields, item)?;
    text.push(b'"')?;
    Ok(())
}

fn write_items(
    alloc: Global,
    text: &mut Vec<u8>,
    fields: &[NamedField],
    items: &[TemplateItem],
) -> Result<(), Memory>
    ensures { OnOk result (text.new.items
        ≡ text.old.items ++ join_by (item_string fields.now) comma items.now) }
{
    match items {
        [] => {}
        [first, rest @ ..] => {
            write_item(alloc, text, fields, first)?;
            for item in rest {
                text.extend_from_slice(b", ")?;
                write_item(alloc, text, fields, item)?;
            }
        }
    }
    Ok(())
}

#[tactic(auto, unfolding(crate::specs::DraftText::element_text))]
fn write_element(
    alloc: Global,
    text: &mut Vec<u8>,
    fields: &[NamedField],
    element: &[TemplateItem],
) -> Result<(), Memory>
    ensures { OnOk result (text.new.items ≡ text.old.items ++ element_text fields.now element.now) }
{
    match element {
        [item] => write_item(alloc, text, fields, item)?,
        _ => {
            text.push(b'[')?;
            write_items(alloc, text, fields, element)?;
            text.push(b']')?;
        }
    }
    Ok(())
}

fn write_joined_elements(
    alloc: Global,
    text: &mut Vec<u8>,
    fields: &[NamedField],
    elements: &[Vec<TemplateItem>],
) -> Result<(), Memory>
    ensures { OnOk result (text.new.items
        ≡ text.old.items ++ join_by (λ v. element_text fields.now v.items) comma elements.now) }
{
    match elements {
        [] => {}
        [first, rest @ ..] => {
            write_element(alloc, text, fields, first.as_slice())?;
            for element in rest {
                text.extend_from_slice(b", ")?;
                write_element(alloc, text, fields, element.as_slice())?;
            }
        }
    }
    Ok(())
}

fn write_all_elements(
    alloc: Global,
    text: &mut Vec<u8>,
    fields: &[NamedField],
    elements: &TemplateElements,
) -> Result<(), Memory>
    ensures { OnOk result (text.new.items
        ≡ text.old.items ++ join_by (element_text fields.now) comma elements.now) }
{
    write_joined_elements(alloc, text, fields, elements.as_slice())?;
    Ok(())
}

/// Writes elements as an array.
pub fn write_elements(
    alloc: Global,
    text: &mut Vec<u8>,
    fields: &[NamedField],
    elements: &TemplateElements,
) -> Result<(), Memory>
    ensures { OnOk result (text.new.items ≡ text.old.items ++ elements_text fields.now elements.now) }
{
    text.push(b'[')?;
    write_all_elements(alloc, text, fields, elements)?;
    text.push(b']')?;
    Ok(())
}
