//! What no rule forbids and is still wrong of a message after another one and the answer to that.
use fints_cli_hints_words::places::written;
use fints_cli_hints_words::quoting::Sample;
use fints_rules::Message;
use fints_syntax::{Memory, OwnedSegment, parse_number, parse_segment};
use std::alloc::Global;

/// The HNHBK at the front of an answer. None where it begins with another segment, or with none.
pub fn head_of(alloc: Global, answer: &[u8]) -> Result<Option<OwnedSegment>, Memory> {
    match parse_segment(answer) {
        Ok((first, _)) if first.id().is(b"HNHBK") => Ok(Some(first.to_owned(alloc)?)),
        _ => Ok(None),
    }
}

fn spells(text: &[u8], number: u64) -> bool {
    parse_number(text).is_some_and(|it| u64::from(it) == number)
}

/// The HNHBK of an answer that refers (element 6) to another message than the one of this number. None
/// where it refers to none.
pub fn other_reference(
    alloc: Global,
    answer: &[u8],
    number: u64,
) -> Result<Option<OwnedSegment>, Memory> {
    let Some(head) = head_of(alloc, answer)? else {
        return Ok(None);
    };
    let (id, named) = (head.value(6, 1), head.value(6, 2));
    let has_reference = !id.is_empty() || !named.is_empty();
    if has_reference && !spells(named, number) {
        return Ok(Some(head));
    }
    Ok(None)
}

/// Adds a note where the answer refers to another message than the one before, and one where the number
/// of the message isn't the next one.
pub fn add_notes(
    text: &mut String,
    alloc: Global,
    before: &Message<'_>,
    answer: &[u8],
    message: &Message<'_>,
) -> Result<(), Memory> {
    let (earlier, number) = (before.number(), message.number());
    if let Some(head) = other_reference(alloc, answer, earlier)? {
        let named = Sample(head.value(6, 2));
        let line = written(
            alloc,
            format_args!(
                "note: the answer refers to message {named} (HNHBK, element 6), and the message before has number {earlier}\n"
            ),
        )?;
        text.push_str(line.as_str())?;
    }
    let due = earlier.saturating_add(1);
    if number != due {
        let line = written(
            alloc,
            format_args!(
                "note: the number in HNHBK is {number}, and must be {due}: the message before has number {earlier}\n"
            ),
        )?;
        text.push_str(line.as_str())?;
    }
    Ok(())
}
