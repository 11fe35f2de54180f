//! The segments of a step.
ghost use Rattle.std.specs.Prelude.{◌≡◌, ◌++◌, OnOk, codes, decimal};
ghost use Rattle.fints_cli_drafts_texts.specs.DraftText.{each_from, elements_key, quoted, segment_line, segment_text, segments_key};

use crate::elements::write_elements;
use crate::notes::{OrderNote, write_note_at};
use crate::shown::write_shown;
use crate::strings::{write_number, write_quoted};
use fints_script_rows::NamedField;
use fints_script_templates::{Template, TemplateElements};
use fints_syntax_segments::Memory;
use std::alloc::Global;

// Writes the key of the elements, where there are some.
#[tactic(auto, unfolding(crate::specs::DraftText::elements_key))]
fn write_elements_key(
    alloc: Global,
    text: &mut Vec<u8>,
    fields: &[NamedField],
    elements: &TemplateElements,
) -> Result<(), Memory>
    ensures { OnOk result (text.new.items ≡ text.old.items ++ elements_key fields.now elements.now) }
{
    match elements.as_slice() {
        [] => {}
        [_, ..] => {
            text.extend_from_slice(b", elements = ")?;
            write_elements(alloc, text, fields, elements)?;
        }
    }
    Ok(())
}

fn write_segment_head(text: &mut Vec<u8>, segment: &Template) -> Result<(), Memory>
    ensures { OnOk result (text.new.items
        ≡ text.old.items
        ++ (codes "  {kind = " ++ quoted segment.now.kind ++ codes ", version = "
        ++ decimal segment.now.version)) }
{
    text.extend_from_slice(b"  {kind = ")?;
    write_quoted(text, segment.kind.as_bytes())?;
    text.extend_from_slice(b", version = ")?;
    write_number(text, usize::from(segment.version))
}

#[tactic(auto, unfolding(crate::specs::DraftText::segment_line))]
fn write_segment_line(
    alloc: Global,
    text: &mut Vec<u8>,
    fields: &[NamedField],
    segment: &Template,
) -> Result<(), Memory>
    ensures { OnOk result (text.new.items ≡ text.old.items ++ segment_line fields.now segment.now) }
{
    write_segment_head(text, segment)?;
    write_elements_key(alloc, text, fields, &segment.elements)?;
    text.extend_from_slice(b"},\n")?;
    Ok(())
}

// Writes a segment, with the comments before it.
#[tactic(auto, unfolding(crate::specs::DraftText::segment_text))]
fn write_segment(
    alloc: Global,
    text: &mut Vec<u8>,
    fields: &[NamedField],
    notes: &[OrderNote],
    place: usize,
    segment: &Template,
) -> Result<(), Memory>
    ensures { OnOk result (text.new.items
        ≡ text.old.items ++ segment_text fields.now notes.now place segment.now) }
{
    write_note_at(text, notes, place)?;
    write_shown(text, segment)?;
    write_segment_line(alloc, text, fields, segment)
}

fn write_each_segment(
    alloc: Global,
    text: &mut Vec<u8>,
    fields: &[NamedField],
    notes: &[OrderNote],
    segments: &[Template],
) -> Result<(), Memory>
    ensures { OnOk result (text.new.items
        ≡ text.old.items ++ each_from (segment_text fields.now notes.now) 0 segments.now) }
{
    for (i, segment) in segments.iter().enumerate() {
        write_segment(alloc, text, fields, notes, i, segment)?;
    }
    Ok(())
}

/// Writes the key of a step's segments, with what is noted of them.
#[tactic(auto, unfolding(crate::specs::DraftText::segments_key))]
pub fn write_segments(
    alloc: Global,
    text: &mut Vec<u8>,
    fields: &[NamedField],
    notes: &[OrderNote],
    segments: &[Template],
) -> Result<(), Memory>
    ensures { OnOk result (text.new.items
        ≡ text.old.items ++ segments_key fields.now notes.now segments.now) }
{
    text.extend_from_slice(b"segments = [\n")?;
    write_each_segment(alloc, text, fields, notes, segments)?;
    text.extend_from_slice(b"]\n")?;
    Ok(())
}
