//! The XML texts of binary literals, as comments.
ghost use Rattle.std.specs.Prelude.{◌≡◌, ◌==◌, ◌++◌, ◌∷◌, [], if◌then◌else◌, codes, decimal, OnOk};
ghost use Rattle.std.specs.List.{filter, flat_map, list_all};
ghost use Rattle.std.specs.Str.{bytes_eq};
ghost use Rattle.fints_cli_drafts_texts.specs.DraftText.{bytes_shown, comment_line, each_from, element_shown, is_markup, is_no_return, is_shown, is_text_byte, item_heading, item_shown, lines, segment_shown};

use crate::strings::write_number;
use fints_script_templates::{Template, TemplateElements, TemplateItem};
use fints_syntax_segments::{Kind, Memory, OwnedItem};

fn is_text_byte(b: u8) -> bool
    ensures { result ≡ is_text_byte b }
{
    (b' '..=b'~').contains(&b) || b == b'\t' || b == b'\n' || b == b'\r'
}

fn is_markup(bytes: &[u8]) -> bool
    ensures { result ≡ is_markup bytes.now }
{
    match bytes {
        [] => false,
        [first, ..] => *first == b'<',
    }
}

fn is_text(bytes: &[u8]) -> bool
    ensures { result ≡ list_all is_text_byte bytes.now }
{
    bytes.iter().all(|b| is_text_byte(*b))
}

// Whether it is an XML text that is long enough to be shown.
#[tactic(auto, unfolding(crate::specs::DraftText::is_shown))]
fn is_shown(bytes: &[u8]) -> bool
    ensures { result ≡ is_shown bytes.now }
{
    bytes.len() > 20 && is_markup(bytes) && is_text(bytes)
}

// Writes the front of a comment, where a line begins.
fn write_front(text: &mut Vec<u8>, begins: bool) -> Result<(), Memory>
    ensures { OnOk result (text.new.items ≡ text.old.items ++ (if begins then codes "  #   " else [])) }
{
    if begins {
        text.extend_from_slice(b"  #   ")?;
    }
    Ok(())
}

// Writes a byte that is no carriage return.
fn write_kept(text: &mut Vec<u8>, b: u8) -> Result<(), Memory>
    ensures { OnOk result (text.new.items ≡ text.old.items ++ filter is_no_return (b ∷ [])) }
{
    if b != b'\r' {
        text.push(b)?;
    }
    Ok(())
}

// Writes the end of a line that has begun.
fn write_end(text: &mut Vec<u8>, begins: bool) -> Result<(), Memory>
    ensures { OnOk result (text.new.items ≡ text.old.items ++ (if begins then [] else codes "\n")) }
{
    if !begins {
        text.push(b'\n')?;
    }
    Ok(())
}

// Writes the lines of a text as comments.
fn write_lines(text: &mut Vec<u8>, bytes: &[u8]) -> Result<(), Memory>
    ensures { OnOk result (text.new.items ≡ text.old.items ++ flat_map comment_line (lines bytes.now)) }
{
    let mut begins = true;
    for b in bytes {
        write_front(text, begins)?;
        write_kept(text, *b)?;
        begins = *b == b'\n';
    }
    write_end(text, begins)?;
    Ok(())
}

fn is_first(item: usize) -> bool
    ensures { result ≡ (item == 1) }
{
    item == 1
}

fn write_first_heading(text: &mut Vec<u8>, element: usize) -> Result<(), Memory>
    ensures { OnOk result (text.new.items
        ≡ text.old.items ++ (codes "  # element " ++ decimal element ++ codes ":\n")) }
{
    text.extend_from_slice(b"  # element ")?;
    write_number(text, element)?;
    text.extend_from_slice(b":\n")?;
    Ok(())
}

fn write_later_heading(text: &mut Vec<u8>, element: usize, item: usize) -> Result<(), Memory>
    ensures { OnOk result (text.new.items
        ≡ text.old.items
        ++ (codes "  # element " ++ decimal element ++ codes ", item " ++ decimal item ++ codes ":\n")) }
{
    text.extend_from_slice(b"  # element ")?;
    write_number(text, element)?;
    text.extend_from_slice(b", item ")?;
    write_number(text, item)?;
    text.extend_from_slice(b":\n")?;
    Ok(())
}

#[tactic(auto, unfolding(crate::specs::DraftText::item_heading))]
fn write_heading(text: &mut Vec<u8>, element: usize, item: usize) -> Result<(), Memory>
    ensures { OnOk result (text.new.items ≡ text.old.items ++ item_heading element item) }
{
    if is_first(item) {
        return write_first_heading(text, element);
    }
    write_later_heading(text, element, item)
}

#[tactic(auto, unfolding(crate::specs::DraftText::bytes_shown))]
fn write_bytes(text: &mut Vec<u8>, element: usize, item: usize, bytes: &[u8]) -> Result<(), Memory>
    ensures { OnOk result (text.new.items ≡ text.old.items ++ bytes_shown element item bytes.now) }
{
    if !is_shown(bytes) {
        return Ok(());
    }
    write_heading(text, element, item)?;
    write_lines(text, bytes)
}

#[tactic(auto, unfolding(crate::specs::DraftText::item_shown))]
fn write_item(
    text: &mut Vec<u8>,
    element: usize,
    item: usize,
    found: &TemplateItem,
) -> Result<(), Memory>
    ensures { OnOk result (text.new.items ≡ text.old.items ++ item_shown element item found.now) }
{
    match found {
        TemplateItem::Literal(OwnedItem::Bin(bytes)) => {
            write_bytes(text, element, item, bytes.as_slice())
        }
        _ => Ok(()),
    }
}

fn write_element(text: &mut Vec<u8>, element: usize, items: &[TemplateItem]) -> Result<(), Memory>
    ensures { OnOk result (text.new.items ≡ text.old.items ++ element_shown element items.now) }
{
    for (i, item) in items.iter().enumerate() {
        write_item(text, element, i + 1, item)?;
    }
    Ok(())
}

fn write_elements(text: &mut Vec<u8>, elements: &[Vec<TemplateItem>]) -> Result<(), Memory>
    ensures { OnOk result (text.new.items
        ≡ text.old.items ++ each_from (λ n v. element_shown n v.items) 2 elements.now) }
{
    for (i, element) in elements.iter().enumerate() {
        write_element(text, i + 2, element.as_slice())?;
    }
    Ok(())
}

fn write_all_elements(text: &mut Vec<u8>, elements: &TemplateElements) -> Result<(), Memory>
    ensures { OnOk result (text.new.items ≡ text.old.items ++ each_from element_shown 2 elements.now) }
{
    write_elements(text, elements.as_slice())?;
    Ok(())
}

fn is_new_pin(kind: Kind) -> bool
    ensures { result ≡ bytes_eq kind (codes "HKPAE") }
{
    kind.is(b"HKPAE")
}

/// Writes the XML texts of a segment. A new PIN is none of them, whatever it is.
#[tactic(auto, unfolding(crate::specs::DraftText::segment_shown))]
pub fn write_shown(text: &mut Vec<u8>, segment: &Template) -> Result<(), Memory>
    ensures { OnOk result (text.new.items ≡ text.old.items ++ segment_shown segment.now) }
{
    if is_new_pin(segment.kind) {
        return Ok(());
    }
    write_all_elements(text, &segment.elements)
}
