//! Copies and twins among messages that follow one another.
ghost use Rattle.std.specs.Prelude.{◌≡◌, true, false, length, IfOk, IfSome, IfNone};
ghost use Rattle.fints_syntax.specs.Owned.{segment_of, segments_of};
ghost use Rattle.std.specs.Str.{bytes_eq};
ghost use Rattle.fints_rules_messages.specs.Messages.{MessageView, IsMessage};
ghost use Rattle.fints_rules_logs.specs.Kept.{is_sealed, kinds_of, AreAlike, AreTwins, HaveSameKinds, IsRelation};

use crate::find::{after_first, head_text};
use fints_rules_messages::{JudgeFault, Message, read_message};
use fints_syntax::{Memory, SegmentView};
use std::alloc::Global;

/// How a message is related to the one before it.
#[derive(Clone, Copy, Debug, PartialEq, Eq)]
pub enum Relation {
    /// It has the same bytes.
    Copy,
    /// It is the same message without its seal.
    Unsealed,
    /// It is the same message with its seal.
    Sealed,
    Apart,
}

// Whether an HNVSK follows HNHBK.
fn is_sealed(message: &[u8]) -> bool
    ensures { result ≡ is_sealed message.now }
{
    let len = head_text(message).len();
    after_first(message, 23 + len).starts_with(b"'HNVSK:")
}

fn have_same_kind(a: &SegmentView<'_>, b: &SegmentView<'_>) -> bool
    ensures { result ≡ bytes_eq (segment_of a.now).head.id (segment_of b.now).head.id }
{
    a.head().id.is(b.head().id.as_bytes())
}

// Whether the kinds of two bodies are the same, in the same order.
fn have_same_kinds(a: &[SegmentView<'_>], b: &[SegmentView<'_>]) -> bool
    ensures yes { result ≡ true → kinds_of (segments_of a.now) ≡ kinds_of (segments_of b.now) }
    ensures no { result ≡ false → kinds_of (segments_of a.now) ≡ kinds_of (segments_of b.now) → ⊥ }
{
    if a.len() != b.len() {
        return false;
    }
    for i in 0..a.len() {
        if !have_same_kind(&a[i], &b[i]) {
            return false;
        }
    }
    true
}

// The message that the bytes are, if they are one.
fn message_in(alloc: Global, bytes: &[u8]) -> Result<Option<Message<'_>>, Memory>
    ensures some { IfOk result (λ r. IfSome r (λ m. IsMessage bytes.now m)) }
    ensures none { IfOk result (λ r. IfNone r ((m : MessageView) → IsMessage bytes.now m → ⊥)) }
{
    match read_message(alloc, bytes) {
        Ok(message) => Ok(Some(message)),
        Err(fault) => match fault {
            JudgeFault::Memory => Err(Memory),
            JudgeFault::NotAMessage { .. } => Ok(None),
            JudgeFault::NotAMessageBefore { .. } => Ok(None),
        },
    }
}

// Whether two messages have the same kinds of segments, and as many signatures.
fn are_alike(first: &Message<'_>, second: &Message<'_>) -> bool
    ensures yes { result ≡ true → AreAlike first.now second.now }
    ensures no { result ≡ false → AreAlike first.now second.now → ⊥ }
{
    if first.ends().len() != second.ends().len() {
        return false;
    }
    have_same_kinds(first.body(), second.body())
}

// Whether both are messages that are alike.
fn are_messages_alike(alloc: Global, a: &[u8], b: &[u8]) -> Result<bool, Memory>
    ensures yes { IfOk result (λ r. r ≡ true → HaveSameKinds a.now b.now) }
    ensures no { IfOk result (λ r. r ≡ false → HaveSameKinds a.now b.now → ⊥) }
{
    let Some(first) = message_in(alloc, a)? else {
        return Ok(false);
    };
    let Some(second) = message_in(alloc, b)? else {
        return Ok(false);
    };
    Ok(are_alike(&first, &second))
}

// Whether they are one message, sealed and unsealed.
fn are_twins(alloc: Global, sealed: &[u8], unsealed: &[u8]) -> Result<bool, Memory>
    ensures yes { IfOk result (λ r. r ≡ true → AreTwins sealed.now unsealed.now) }
    ensures no { IfOk result (λ r. r ≡ false → AreTwins sealed.now unsealed.now → ⊥) }
{
    if !is_sealed(sealed) || is_sealed(unsealed) {
        return Ok(false);
    }
    if head_text(sealed) != head_text(unsealed) {
        return Ok(false);
    }
    are_messages_alike(alloc, sealed, unsealed)
}

/// How the next message is related to the last one.
pub fn relation_of(alloc: Global, last: &[u8], next: &[u8]) -> Result<Relation, Memory>
    ensures { IfOk result (λ r. IsRelation last.now next.now r) }
{
    if last == next {
        return Ok(Relation::Copy);
    }
    if are_twins(alloc, last, next)? {
        return Ok(Relation::Unsealed);
    }
    if are_twins(alloc, next, last)? {
        return Ok(Relation::Sealed);
    }
    Ok(Relation::Apart)
}
