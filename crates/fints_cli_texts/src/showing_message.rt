//! The text of `show --message`: a message without its secrets.
ghost use Rattle.std.specs.Prelude.{◌≡◌, ◌++◌, [], OnOk, IfOk, IfErr};
ghost use Rattle.std.specs.List.{flat_map};
ghost use Rattle.fints_syntax_segments.specs.Written.{written_segment};
ghost use Rattle.fints_syntax.specs.Owned.{segment_of, segments_of};
ghost use Rattle.fints_rules_messages.specs.Messages.{MessageView, IsMessage};
ghost use Rattle.fints_cli_texts.specs.declared.fault.Fault.TheVariants as fault;
ghost use Rattle.fints_cli_texts.specs.Judge.{IsMessageRefusal};
ghost use Rattle.fints_cli_texts.specs.Masked.{masked};
ghost use Rattle.fints_cli_texts.specs.ShowMessage.{is_control, shown_byte, segment_line, IsShownMessage};

use crate::fault::Fault;
use crate::masking::{emptied_at, masked_from, secrets_from};
use fints_rules_messages::{Message, Unobserved, UnreadObserver, read_message_with};
use fints_syntax::{Memory, OwnedSegment, SegmentView, write_segment};
use std::alloc::{AllocError, Global};

fn is_control(b: u8) -> bool
    ensures { result ≡ is_control b }
{
    b < 32 || (127 <= b && b <= 159)
}

fn write_byte(alloc: Global, text: &mut Vec<u8>, b: u8) -> Result<(), AllocError>
    ensures { OnOk result (text.new.items ≡ text.old.items ++ shown_byte b) }
{
    if is_control(b) {
        let digits = hex::encode(alloc, [b].as_slice())?;
        text.extend_from_slice(b"?<")?;
        text.extend_from_slice(digits.as_bytes())?;
        text.push(b'>')?;
    } else {
        text.push(b)?;
    }
    Ok(())
}

fn write_bytes(alloc: Global, text: &mut Vec<u8>, bytes: &[u8]) -> Result<(), AllocError>
    ensures { OnOk result (text.new.items ≡ text.old.items ++ flat_map shown_byte bytes.now) }
{
    for b in bytes {
        write_byte(alloc, text, *b)?;
    }
    Ok(())
}

// Writes the segment without its secrets.
fn write_masked(alloc: Global, out: &mut Vec<u8>, segment: &OwnedSegment) -> Result<(), Memory>
    ensures { OnOk result (out.new.items ≡ out.old.items ++ written_segment (masked segment.now)) }
{
    let kind = segment.head.id;
    if kind.is(b"HNSHA") {
        write_segment(out, &masked_from(alloc, segment, secrets_from(segment))?)
    } else if kind.is(b"HKPAE") {
        write_segment(out, &masked_from(alloc, segment, 2)?)
    } else if kind.is(b"HNVSD") {
        write_segment(out, &emptied_at(alloc, segment, 2)?)
    } else {
        write_segment(out, segment)
    }
}

// Writes the segment without its secrets, in a line of its own.
fn write_line(
    alloc: Global,
    text: &mut Vec<u8>,
    blanks: &[u8],
    view: &SegmentView<'_>,
) -> Result<(), Memory>
    ensures { OnOk result
        (text.new.items ≡ text.old.items ++ segment_line blanks.now (segment_of view.now)) }
{
    let segment = view.to_owned(alloc)?;
    let mut written = Vec::new(alloc);
    write_masked(alloc, &mut written, &segment)?;
    text.extend_from_slice(blanks)?;
    write_bytes(alloc, text, written.as_slice())?;
    text.push(b'\n')?;
    Ok(())
}

// Writes the lines of segments: the items of one are held at a time, since they take much more than its text.
fn write_lines(
    alloc: Global,
    text: &mut Vec<u8>,
    blanks: &[u8],
    views: &[SegmentView<'_>],
) -> Result<(), Memory>
    ensures { OnOk result (text.new.items
        ≡ text.old.items ++ flat_map (segment_line blanks.now) (segments_of views.now)) }
{
    for view in views {
        write_line(alloc, text, blanks, view)?;
    }
    Ok(())
}

// Writes the lines of the inner segments and of HNHBS.
fn write_rest(
    alloc: Global,
    text: &mut Vec<u8>,
    blanks: &[u8],
    message: &Message<'_>,
) -> Result<(), Memory>
    ensures { OnOk result (text.new.items ≡ text.old.items
        ++ (flat_map (segment_line blanks.now) message.now.inner ++ segment_line [] message.now.last)) }
{
    write_lines(alloc, text, blanks, message.openers())?;
    write_lines(alloc, text, blanks, message.body())?;
    write_lines(alloc, text, blanks, message.ends())?;
    write_line(alloc, text, b"", message.last())
}

/// The segments of a message, a line each, those of sealed data indented after HNVSD. PIN, TAN and new
/// PIN are masked, and what is in their segments after them, so that the text may be handed on. Where
/// the bytes are no message, the observer sees why.
pub fn show_message_with<O: UnreadObserver>(
    alloc: Global,
    message: &[u8],
    observer: &mut O,
) -> Result<Vec<u8>, Fault>
    ensures shown { IfOk result (λ text. IsShownMessage message.now text.items) }
    ensures refused { IfErr result (λ f. IsMessageRefusal message.now f) }
    ensures memory_alone { (m : MessageView) → IsMessage message.now m
        → IfErr result (λ f. f ≡ fault.Memory) }
{
    let read = read_message_with(alloc, message, observer)?;
    let mut text = Vec::new(alloc);
    write_line(alloc, &mut text, b"", read.first())?;
    let Some(seal) = read.seal() else {
        write_rest(alloc, &mut text, b"", &read)?;
        return Ok(text);
    };
    write_line(alloc, &mut text, b"", &seal.head)?;
    write_line(alloc, &mut text, b"", &seal.envelope)?;
    write_rest(alloc, &mut text, b"  ", &read)?;
    Ok(text)
}

/// The same, while nobody looks on.
pub fn show_message(alloc: Global, message: &[u8]) -> Result<Vec<u8>, Fault>
    ensures shown { IfOk result (λ text. IsShownMessage message.now text.items) }
    ensures refused { IfErr result (λ f. IsMessageRefusal message.now f) }
    ensures memory_alone { (m : MessageView) → IsMessage message.now m
        → IfErr result (λ f. f ≡ fault.Memory) }
{
    show_message_with(alloc, message, &mut Unobserved)
}
