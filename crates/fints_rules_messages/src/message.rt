//! Messages, as they are read.
ghost use Rattle.std.specs.Prelude.{◌≡◌, ◌+◌, ◌<◌, ◌≤◌, ◌++◌, [], ◌∷◌, ℕ, length, Option, Some, IfOk, IfErr, IfSome, IfNone};
ghost use Rattle.fints_syntax.specs.Owned.{segment_of, segments_of};
ghost use Rattle.fints_rules_messages.specs.FaultText.{judge_text};
ghost use Rattle.fints_rules_messages.specs.Messages.{IsMessage, IsFirst, IsEnvelope, IsNumbered, CeasesAt};

use crate::front::{Inner, Seal};
use crate::inner::next_segment;
use crate::plain::read_tail;
use crate::slip::{Slip, Unread};
use crate::tail::Tail;
use crate::values::number_at;
use fints_syntax::{FaultText, Memory, SegmentView};
use fints_syntax_segments::{HNHBK_NUMBER, HNHBK_VERSION};
use std::alloc::{AllocError, Global};
use std::marker::Model;
use thiserror::Error;

/// A message, whose segments are in the bytes that it was read from; a contract sees its values.
#[derive(Drop)]
pub struct Message<'a> {
    size: usize,
    protocol: Option<u64>,
    number: u64,
    first: SegmentView<'a>,
    inner: Inner<'a>,
    last: SegmentView<'a>,
}

impl<'a> Model for Message<'a> {
    ghost use Rattle.std.specs.Prelude.{◌+◌, length};
    ghost use Rattle.fints_syntax.specs.Owned.{segment_of, segments_of};
    ghost use Rattle.fints_rules_messages.specs.Messages.{MessageView, IsFirst, IsNumbered};
    ghost use Rattle.fints_rules_messages.specs.Front.{inner_of, middle_by, AreSealedBy};

    ghost Value = { MessageView };

    ghost view = { λ m. record {
      size = m.size;
      protocol = m.protocol;
      number = m.number;
      first = segment_of m.first;
      middle = middle_by m.inner.seal (inner_of m.inner);
      inner = inner_of m.inner;
      body = segments_of m.inner.body.items;
      ends = segments_of m.inner.ends.items;
      last = segment_of m.last;
    } };

    ghost invariant = { λ m. IsFirst m.size m.number (segment_of m.first)
        × IsNumbered (2 + length (segments_of m.inner.ends.items)) (segments_of m.inner.body.items)
        × AreSealedBy m.inner.seal (inner_of m.inner) };
}

impl<'a> Message<'a> {
    /// The length of the whole message in bytes.
    pub fn size(&self) -> usize
        ensures { result ≡ self.now.size }
    {
        self.size
    }

    /// The protocol version of HNHBK, where it is a number.
    pub fn protocol(&self) -> Option<u64>
        ensures { result ≡ self.now.protocol }
    {
        self.protocol
    }

    /// The message number of HNHBK and HNHBS.
    pub fn number(&self) -> u64
        ensures { result ≡ self.now.number }
    {
        self.number
    }

    /// HNHBK.
    pub fn first(&self) -> &SegmentView<'a>
        ensures first { segment_of result.now ≡ self.now.first }
        ensures is { IsFirst self.now.size self.now.number (segment_of result.now) }
    {
        &self.first
    }

    /// What seals the segments between HNHBK and HNHBS, if they are sealed.
    pub fn seal(&self) -> Option<&Seal<'a>>
        ensures plain { IfNone result (self.now.middle ≡ self.now.inner) }
        ensures envelope { IfSome result (λ seal. IsEnvelope self.now.inner (segment_of seal.now.envelope)) }
        ensures sealed { IfSome result (λ seal. self.now.middle
            ≡ segment_of seal.now.head ∷ segment_of seal.now.envelope ∷ []) }
    {
        self.inner.seal.as_ref()
    }

    /// The HNSHK, which the body and the HNSHA follow.
    pub fn openers(&self) -> &[SegmentView<'a>]
        ensures { self.now.inner ≡ segments_of result.now ++ (self.now.body ++ self.now.ends) }
    {
        self.inner.openers.as_slice()
    }

    /// The segments of the body, in order; they are numbered on from the last HNSHK.
    pub fn body(&self) -> &[SegmentView<'a>]
        ensures segments { segments_of result.now ≡ self.now.body }
        ensures numbered { IsNumbered (2 + length self.now.ends) self.now.body }
    {
        self.inner.body.as_slice()
    }

    /// The HNSHA, one for each signature.
    pub fn ends(&self) -> &[SegmentView<'a>]
        ensures { segments_of result.now ≡ self.now.ends }
    {
        self.inner.ends.as_slice()
    }

    /// HNHBS.
    pub fn last(&self) -> &SegmentView<'a>
        ensures { segment_of result.now ≡ self.now.last }
    {
        &self.last
    }
}

/// Why bytes could not be judged.
#[derive(Clone, Copy, Debug, PartialEq, Eq, Error)]
#[error("{}", self.text())]
pub enum JudgeFault {
    Memory,
    /// The bytes are no message. The offset, from 0, is that of the first outer segment that isn't
    /// read or can't be at its place, or the end of the last one that can.
    NotAMessage { offset: usize },
    /// Of two messages, the bytes of the one before are none; the offset is that of `NotAMessage`.
    NotAMessageBefore { offset: usize },
}

impl JudgeFault {
    /// What is wrong, and where.
    pub fn text(&self) -> FaultText
        ensures text { result ≡ judge_text self.now }
        ensures short { length result ≤ 41 }
    {
        match self {
            JudgeFault::Memory => FaultText::new("memory"),
            JudgeFault::NotAMessage { offset } => {
                FaultText::new("NotAMessage at ").number(*offset as u64)
            }
            JudgeFault::NotAMessageBefore { offset } => {
                FaultText::new("NotAMessageBefore at ").number(*offset as u64)
            }
        }
    }
}

impl From<Memory> for JudgeFault {
    ghost use Rattle.fints_rules_messages.specs.declared.message.JudgeFault.TheVariants.{Memory};

    ghost from_gives = { λ _ f. f ≡ Memory };

    fn from(_e: Memory) -> JudgeFault {
        JudgeFault::Memory
    }
}

impl From<AllocError> for JudgeFault {
    ghost use Rattle.fints_rules_messages.specs.declared.message.JudgeFault.TheVariants.{Memory};

    ghost from_gives = { λ _ f. f ≡ Memory };

    fn from(_e: AllocError) -> JudgeFault {
        JudgeFault::Memory
    }
}

// The number of the message, where the segment is a good HNHBK.
fn read_first(view: &SegmentView<'_>, size: usize) -> Option<u64>
    ensures some { IfSome result (λ n. IsFirst size n (segment_of view.now)) }
    ensures none { IfNone result ((n : ℕ) → IsFirst size n (segment_of view.now) → ⊥) }
{
    if !view.is_named(b"HNHBK", HNHBK_VERSION) {
        return None;
    }
    if view.number() != HNHBK_NUMBER {
        return None;
    }
    let Some(found) = number_at(view, 2, 1, 12, 12) else {
        return None;
    };
    if found != size as u64 {
        return None;
    }
    number_at(view, 5, 1, 1, 9)
}

/// The message that the bytes are, or where they cease to be one and which part of it is missing there.
pub fn read_or_slip(
    alloc: Global,
    bytes: &[u8],
) -> Result<Result<Message<'_>, Unread<'_>>, AllocError>
    ensures message { IfOk result (λ r. IfOk r (λ m. IsMessage bytes.now m)) }
    ensures refusal { IfOk result (λ r. IfErr r (λ u. CeasesAt bytes.now u.offset)) }
{
    let Some((first, len)) = next_segment(bytes) else {
        return Ok(Err(Unread {
            offset: 0,
            slip: Slip::First,
        }));
    };
    let Some(number) = read_first(&first, bytes.len()) else {
        return Ok(Err(Unread {
            offset: 0,
            slip: Slip::First,
        }));
    };
    let (_, rest) = bytes.split_at(len);
    match read_tail(alloc, rest, number)? {
        Tail::Stop(at, slip) => Ok(Err(Unread {
            offset: len + at,
            slip,
        })),
        Tail::Whole(inner, last) => {
            let protocol = number_at(&first, 3, 1, 1, 9);
            Ok(Ok(Message {
                size: bytes.len(),
                protocol,
                number,
                first,
                inner,
                last,
            }))
        }
    }
}
