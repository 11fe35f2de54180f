//! How many items the segments of a step have, and how much they weigh, by the reader's own measure.

use fints_cli_hints_words::places::{HintText, row_named, say};
use fints_script_rows::limits::{MAX_TEMPLATE_ITEMS, MAX_WEIGHT};
use fints_script_rows::{FaultKind, Fields, NamedRows, field_in};
use fints_script_templates::segments::segment_in;
use fints_script_templates::signers::frame_in;
use fints_script_templates::weights::{FieldWeight, all_figures, spend_elements, spend_segment};
use fints_script_templates::{Template, TemplateElements};
use fints_syntax::Memory;
use fints_syntax_texts::document::member;
use fints_syntax_texts::entries::is_named;
use std::alloc::Global;
use toml::Value;

/// What surrounds a step with these segments.
#[derive(Clone, Copy)]
pub struct Parts<'a, 'r> {
    pub fields: &'a NamedRows<'r>,
    pub signers: &'a [Value],
    /// The elements of the seal, where the step is sealed.
    pub seal: Option<&'a Value>,
    /// The names of its signers.
    pub names: &'a [Value],
    pub segments: &'a [Value],
}

// ---- what the reader makes of the parts

// The fields of the rows. The built-in one has no figures, so it may be left out.
fn fields_in(alloc: Global, rows: &[Value]) -> Result<Fields, FaultKind> {
    let mut fields = Vec::new(alloc);
    for (i, row) in rows.iter().enumerate() {
        fields.push(field_in(alloc, &rows[..i], row)?)?;
    }
    Ok(Fields::new(alloc, fields)?)
}

fn segments_in(alloc: Global, fields: &Fields, rows: &[Value]) -> Result<Vec<Template>, FaultKind> {
    let mut segments = Vec::new(alloc);
    for row in rows {
        segments.push(segment_in(alloc, fields, row)?)?;
    }
    Ok(segments)
}

fn add_signer(
    alloc: Global,
    fields: &Fields,
    row: &Value,
    frames: &mut Vec<TemplateElements>,
) -> Result<(), FaultKind> {
    if let Value::Table(table) = row {
        for key in ["head", "end"] {
            if let Some(value) = member(table, key) {
                frames.push(frame_in(alloc, fields, value)?)?;
            }
        }
    }
    Ok(())
}

// The segments of the step's signers, and its seal.
fn frames_in(
    alloc: Global,
    fields: &Fields,
    parts: &Parts<'_, '_>,
) -> Result<Vec<TemplateElements>, FaultKind> {
    let mut frames = Vec::new(alloc);
    for name in parts.names {
        let name = name.as_str().unwrap_or("");
        if let Some(row) = parts.signers.iter().find(|row| is_named(name, row)) {
            add_signer(alloc, fields, row, &mut frames)?;
        }
    }
    if let Some(seal) = parts.seal {
        frames.push(frame_in(alloc, fields, seal)?)?;
    }
    Ok(frames)
}

/// A step's segments, those of its frame, and the figures of the script's fields.
#[derive(Drop)]
struct Measured {
    figures: Vec<FieldWeight>,
    segments: Vec<Template>,
    frames: Vec<TemplateElements>,
}

fn measured_in(alloc: Global, parts: &Parts<'_, '_>) -> Result<Measured, FaultKind> {
    let fields = fields_in(alloc, parts.fields.as_slice())?;
    Ok(Measured {
        figures: all_figures(alloc, fields.as_slice())?,
        segments: segments_in(alloc, &fields, parts.segments)?,
        frames: frames_in(alloc, &fields, parts)?,
    })
}

// ---- what is too much

// What was spent of the greatest allowance, if this is left of it.
fn spent(left: Option<u64>) -> u64 {
    u64::MAX - left.unwrap_or(0)
}

fn many_text(alloc: Global, number: usize, row: &Value, count: u64) -> HintText {
    let place = row_named(", segment", number, row, "kind");
    say(
        alloc,
        format_args!(
            "{place}: elements has {count} items, and may have {MAX_TEMPLATE_ITEMS}; an account field counts as its value with the most items"
        ),
    )
}

// The first segment with too many items.
fn many_items(alloc: Global, measured: &Measured, rows: &[Value]) -> HintText {
    let figures = measured.figures.as_slice();
    for (i, (row, segment)) in rows.iter().zip(&measured.segments).enumerate() {
        let count = spent(spend_elements(u64::MAX, figures, &segment.elements));
        if count > MAX_TEMPLATE_ITEMS {
            return many_text(alloc, i.saturating_add(1), row, count);
        }
    }
    Ok(None)
}

/// A place among segments, and how much the segment there weighs.
#[derive(Clone, Copy)]
struct Weight {
    place: usize,
    weight: u64,
}

fn weight_of(measured: &Measured, elements: &TemplateElements) -> u64 {
    spent(spend_segment(u64::MAX, measured.figures.as_slice(), elements))
}

// The heaviest segment, and what all weigh.
fn heaviest(measured: &Measured) -> (Weight, u64) {
    let mut most = Weight {
        place: 0,
        weight: 0,
    };
    let mut total: u64 = 0;
    for (i, segment) in measured.segments.iter().enumerate() {
        let weight = weight_of(measured, &segment.elements);
        total = total.saturating_add(weight);
        if weight > most.weight {
            most = Weight {
                place: i.saturating_add(1),
                weight,
            };
        }
    }
    (most, total)
}

fn frames_weight(measured: &Measured) -> u64 {
    let mut total: u64 = 0;
    for frame in &measured.frames {
        total = total.saturating_add(weight_of(measured, frame));
    }
    total
}

fn weight_text(alloc: Global, measured: &Measured) -> HintText {
    let (most, own) = heaviest(measured);
    let total = own.saturating_add(frames_weight(measured));
    let Weight { place, weight } = most;
    say(
        alloc,
        format_args!(
            ": the step weighs {total}, and may weigh {MAX_WEIGHT}: 15 for each segment, and for each item 1 and its longest length; segment {place} weighs most, {weight}"
        ),
    )
}

/// What makes a step too large, where nothing else is wrong with it.
pub fn size_slip(alloc: Global, parts: &Parts<'_, '_>) -> HintText {
    let measured = match measured_in(alloc, parts) {
        Ok(measured) => measured,
        Err(FaultKind::Memory) => return Err(Memory),
        Err(_) => return Ok(None),
    };
    match many_items(alloc, &measured, parts.segments)? {
        None => weight_text(alloc, &measured),
        found => Ok(found),
    }
}
