//! The segments between the first and the last of a message.
ghost use Rattle.std.specs.Prelude.{◌≡◌, ◌↔◌, ◌^◌, ◌<◌, ◌≤◌, IsTrue, IfOk, IfSome, IfNone, length, drop};
ghost use Rattle.fints_syntax.specs.Owned.{segment_of};
ghost use Rattle.fints_rules_messages.specs.Front.{IsNextSegment, HasNoNext, IsFront, CanStandBehind, NoneStandsBehind};

use crate::front::{Inner, Seal};
use crate::part::{MessagePart, part_of};
use fints_syntax::{SegmentView, parse_segment};
use std::alloc::{AllocError, Global};

/// The segment at the front, and its length.
pub fn next_segment(bytes: &[u8]) -> Option<(SegmentView<'_>, usize)>
    ensures some { IfSome result (λ r. IsNextSegment bytes.now r.0 r.1) }
    ensures none { IfNone result (HasNoNext bytes.now) }
{
    match parse_segment(bytes) {
        Ok((view, len)) => Some((view, len)),
        Err(_) => None,
    }
}

/// Whether a segment can come after the inner segments.
pub fn can_stand(view: &SegmentView<'_>, inner: &Inner<'_>) -> bool
    ensures few { IsTrue result → (segment_of view.now).head.number < 2 ^ 16 }
    ensures stands { IsTrue result ↔ CanStandBehind inner.now (segment_of view.now) }
{
    if usize::from(view.number()) != inner.next_number() {
        return false;
    }
    let (openers, body, ends) = (inner.openers.len(), inner.body.len(), inner.ends.len());
    match part_of(view) {
        MessagePart::Opener => body == 0 && ends == 0,
        MessagePart::Body => ends == 0,
        MessagePart::Ender => ends < openers,
        MessagePart::Other => false,
    }
}

// The segment at the front, where it can come after the inner segments, and its length.
fn next_inner<'b>(bytes: &'b [u8], inner: &Inner<'_>) -> Option<(SegmentView<'b>, usize)>
    ensures next { IfSome result (λ r. IsNextSegment bytes.now r.0 r.1) }
    ensures stands { IfSome result (λ r. CanStandBehind inner.now (segment_of r.0)) }
    ensures few { IfSome result (λ r. (segment_of r.0).head.number < 2 ^ 16) }
    ensures none { IfNone result (NoneStandsBehind inner.now bytes.now) }
{
    match next_segment(bytes) {
        Some((view, len)) if can_stand(&view, inner) => Some((view, len)),
        _ => None,
    }
}

/// Reads segments as long as they can be between the first and the last of a message, in the data of a
/// seal or as they are.
pub fn read_inner<'a>(
    alloc: Global,
    bytes: &'a [u8],
    seal: Option<Seal<'a>>,
) -> Result<Inner<'a>, AllocError>
    ensures front { IfOk result
        (λ r. IsFront bytes.now r.at r.openers.items r.body.items r.ends.items) }
    ensures seal { IfOk result (λ r. r.seal ≡ seal.entry) }
    ensures within { IfOk result (λ r. r.at ≤ length bytes.now) }
    ensures stopped { IfOk result (λ r. NoneStandsBehind r (drop r.at bytes.now)) }
{
    let mut inner = Inner {
        at: 0,
        openers: Vec::new(alloc),
        body: Vec::new(alloc),
        ends: Vec::new(alloc),
        seal,
    };
    loop {
        let (_, rest) = bytes.split_at(inner.at);
        let Some((view, len)) = next_inner(rest, &inner) else {
            return Ok(inner);
        };
        inner.at += len;
        match part_of(&view) {
            MessagePart::Opener => inner.openers.push(view)?,
            MessagePart::Ender => inner.ends.push(view)?,
            _ => inner.body.push(view)?,
        }
    }
}
