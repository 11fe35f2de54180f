//! The numbers that the comments of a draft have, and the comments of a script's top and of its orders.
ghost use Rattle.std.specs.Prelude.{◌≡◌, ◌==◌, ◌++◌, OnOk, codes, decimal};
ghost use Rattle.std.specs.List.{flat_map};
ghost use Rattle.fints_cli_drafts_texts.specs.DraftText.{further_text, left_out_text, order_note, order_note_at, opening, seal_note};

use crate::strings::write_number;
use fints_syntax_segments::Memory;

/// The comment at the top of a draft.
const OPENING: &[u8] = b"\
# The draft of a script, from a recorded dialogue: its run with the case that `fints draft --case` prints
# sends the recorded messages. What a client makes new for each message is a field, and a run sends one value
# of it in all messages: the control reference, the date and the time of a signature, the TAN, and the bank's
# reference of an order. Any other text may be made a field, which has a value of its own in each run: declare
# the field before the steps, and put its name in the place of the text, as in
#
#   [[field]]
#   name = \"purpose\"
#   class = \"text\"
#   min = 1
#   max = 35
#
# and \"$purpose\". The time of the seal is such a text.
";

/// Another HNVSK than the first one: the first element that differs, and the number of its message.
#[derive(Clone, Copy)]
pub struct SealNote {
    pub element: usize,
    pub message: usize,
}

/// What a comment says of the account of an order.
#[derive(Clone, Copy)]
pub enum OrderNote {
    /// There is no comment.
    Nothing,
    /// Element 2 is one.
    Account,
    /// A field lists those that it may be, without some: those for which the bank doesn't permit the order,
    /// and those that are more than a field lists.
    Listed { left_out: usize, further: usize },
}

/// The numbers that the comments of a draft have.
#[derive(Drop)]
pub struct Notes {
    /// The messages whose HNVSK is another one.
    pub seals: Vec<SealNote>,
    /// For each step what is said of each of its segments. Where an entry is absent, nothing is said.
    pub orders: Vec<Vec<OrderNote>>,
}

/// Writes the comment at the top.
#[tactic(auto, unfolding(crate::specs::DraftText::opening))]
pub fn write_opening(text: &mut Vec<u8>) -> Result<(), Memory>
    ensures { OnOk result (text.new.items ≡ text.old.items ++ opening) }
{
    text.extend_from_slice(OPENING)?;
    Ok(())
}

#[tactic(auto, unfolding(crate::specs::DraftText::seal_note))]
fn write_seal_note(text: &mut Vec<u8>, note: SealNote) -> Result<(), Memory>
    ensures { OnOk result (text.new.items ≡ text.old.items ++ seal_note note) }
{
    text.extend_from_slice(b"# note: element ")?;
    write_number(text, note.element)?;
    text.extend_from_slice(b" of HNVSK is another one in message ")?;
    write_number(text, note.message)?;
    text.push(b'\n')?;
    Ok(())
}

/// Writes the comments on other HNVSK.
pub fn write_seal_notes(text: &mut Vec<u8>, seals: &[SealNote]) -> Result<(), Memory>
    ensures { OnOk result (text.new.items ≡ text.old.items ++ flat_map seal_note seals.now) }
{
    for note in seals {
        write_seal_note(text, *note)?;
    }
    Ok(())
}

fn is_zero(count: usize) -> bool
    ensures { result ≡ (count == 0) }
{
    count == 0
}

// Writes how many other accounts are left out, with the end of the comment.
fn write_count(text: &mut Vec<u8>, count: usize, end: &[u8]) -> Result<(), Memory>
    ensures { OnOk result (text.new.items
        ≡ text.old.items ++ (codes "  # Left out of its accounts: " ++ decimal count ++ end.now)) }
{
    text.extend_from_slice(b"  # Left out of its accounts: ")?;
    write_number(text, count)?;
    text.extend_from_slice(end)?;
    Ok(())
}

#[tactic(auto, unfolding(crate::specs::DraftText::left_out_text))]
fn write_left_out(text: &mut Vec<u8>, count: usize) -> Result<(), Memory>
    ensures { OnOk result (text.new.items ≡ text.old.items ++ left_out_text count) }
{
    if is_zero(count) {
        return Ok(());
    }
    write_count(
        text,
        count,
        b" for which the bank doesn't permit it (P8, P9).\n",
    )
}

#[tactic(auto, unfolding(crate::specs::DraftText::further_text))]
fn write_further(text: &mut Vec<u8>, count: usize) -> Result<(), Memory>
    ensures { OnOk result (text.new.items ≡ text.old.items ++ further_text count) }
{
    if is_zero(count) {
        return Ok(());
    }
    write_count(text, count, b" more, since a field lists at most 100.\n")
}

#[tactic(auto, unfolding(crate::specs::DraftText::order_note))]
fn write_order_note(text: &mut Vec<u8>, note: OrderNote) -> Result<(), Memory>
    ensures { OnOk result (text.new.items ≡ text.old.items ++ order_note note) }
{
    match note {
        OrderNote::Nothing => {}
        OrderNote::Account => text.extend_from_slice(
            b"  # Element 2 is an account: a field of class \"account\" lists those that it may be.\n",
        )?,
        OrderNote::Listed { left_out, further } => {
            write_left_out(text, left_out)?;
            write_further(text, further)?;
        }
    }
    Ok(())
}

/// Writes what is noted of the segment at a place.
pub fn write_note_at(text: &mut Vec<u8>, notes: &[OrderNote], place: usize) -> Result<(), Memory>
    ensures { OnOk result (text.new.items ≡ text.old.items ++ order_note_at notes.now place) }
{
    match notes.get(place) {
        Some(note) => write_order_note(text, *note),
        None => Ok(()),
    }
}
