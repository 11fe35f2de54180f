//! The lines of the steps.
ghost use Rattle.std.specs.Prelude.{◌≡◌, ◌++◌, OnOk};
ghost use Rattle.std.specs.List.{flat_map};
ghost use Rattle.fints_cli_drawings.specs.Picture.{broken_text, reached_label, label_text, node_line, node_style, segment_text};

use fints_check::{Finding, Reached};
use fints_script::{Step, Template};
use fints_syntax::Memory;
use itoa::Buffer;

/// The style of what no run sends and no answer fires.
pub const GREY: &[u8] = b", color=gray, fontcolor=gray";

// Writes the kind and the version of a segment.
#[tactic(auto, unfolding(crate::specs::Picture::segment_text))]
fn write_segment(text: &mut Vec<u8>, template: &Template) -> Result<(), Memory>
    ensures { OnOk result (text.new.items ≡ text.old.items ++ segment_text template.now) }
{
    let mut version = Buffer::new();
    text.extend_from_slice(b"\\n")?;
    text.extend_from_slice(template.kind.as_bytes())?;
    text.push(b':')?;
    text.extend_from_slice(version.format(template.version).as_bytes())?;
    Ok(())
}

fn write_segments(text: &mut Vec<u8>, templates: &[Template]) -> Result<(), Memory>
    ensures { OnOk result (text.new.items ≡ text.old.items ++ flat_map segment_text templates.now) }
{
    for template in templates {
        write_segment(text, template)?;
    }
    Ok(())
}

#[tactic(auto, unfolding(crate::specs::Picture::reached_label))]
fn write_figures(text: &mut Vec<u8>, reached: Option<Reached>) -> Result<(), Memory>
    ensures { OnOk result (text.new.items ≡ text.old.items ++ reached_label reached) }
{
    let Some(reached) = reached else {
        text.extend_from_slice(b"\\nunreached")?;
        return Ok(());
    };
    let mut number = Buffer::new();
    let mut size = Buffer::new();
    text.extend_from_slice(b"\\nnumber ")?;
    text.extend_from_slice(number.format(reached.number).as_bytes())?;
    text.extend_from_slice(b" size ")?;
    text.extend_from_slice(size.format(reached.size).as_bytes())?;
    Ok(())
}

// Writes the rule and the segment of what was found.
#[tactic(auto, unfolding(crate::specs::Picture::broken_text))]
fn write_broken(text: &mut Vec<u8>, finding: &Finding) -> Result<(), Memory>
    ensures { OnOk result (text.new.items ≡ text.old.items ++ broken_text finding.now) }
{
    let mut segment = Buffer::new();
    text.extend_from_slice(b"\\n")?;
    text.extend_from_slice(finding.rule.name().as_bytes())?;
    text.extend_from_slice(b" segment ")?;
    text.extend_from_slice(segment.format(finding.segment).as_bytes())?;
    Ok(())
}

fn write_found(text: &mut Vec<u8>, found: &[Finding]) -> Result<(), Memory>
    ensures { OnOk result (text.new.items ≡ text.old.items ++ flat_map broken_text found.now) }
{
    for finding in found {
        write_broken(text, finding)?;
    }
    Ok(())
}

// Grey where no run sends the step, red where something was found of it.
#[tactic(auto, unfolding(crate::specs::Picture::node_style))]
fn write_style(
    text: &mut Vec<u8>,
    reached: Option<Reached>,
    found: &[Finding],
) -> Result<(), Memory>
    ensures { OnOk result (text.new.items ≡ text.old.items ++ node_style reached found.now) }
{
    if reached.is_none() {
        text.extend_from_slice(GREY)?;
        return Ok(());
    }
    if !found.is_empty() {
        text.extend_from_slice(b", color=red, fontcolor=red")?;
    }
    Ok(())
}

#[tactic(auto, unfolding(crate::specs::Picture::label_text))]
fn write_label(
    text: &mut Vec<u8>,
    step: &Step,
    reached: Option<Reached>,
    found: &[Finding],
) -> Result<(), Memory>
    ensures { OnOk result (text.new.items ≡ text.old.items ++ label_text step.now reached found.now) }
{
    text.extend_from_slice(step.name().as_bytes())?;
    write_segments(text, step.templates())?;
    write_figures(text, reached)?;
    write_found(text, found)
}

/// Writes the line of a step, with what was found of it.
#[tactic(auto, unfolding(crate::specs::Picture::node_line))]
pub fn write_node(
    text: &mut Vec<u8>,
    step: &Step,
    reached: Option<Reached>,
    found: &[Finding],
) -> Result<(), Memory>
    ensures { OnOk result (text.new.items ≡ text.old.items ++ node_line step.now reached found.now) }
{
    text.extend_from_slice(b"  \"")?;
    text.extend_from_slice(step.name().as_bytes())?;
    text.extend_from_slice(b"\" [label=\"")?;
    write_label(text, step, reached, found)?;
    text.push(b'"')?;
    write_style(text, reached, found)?;
    text.extend_from_slice(b"];\n")?;
    Ok(())
}
