//! The sealed form of a message.
ghost use Rattle.std.specs.Prelude.{◌≡◌, ◌+◌, ◌<◌, [], ◌∷◌, Some, IfOk, length};
ghost use Rattle.fints_syntax.specs.Owned.{segment_of};
ghost use Rattle.fints_rules_messages.specs.Front.{IsTail, IsNumber, TailIs, StopsWithin, IsSealedRest, HasSealHead, EnvelopeIs};

use crate::frame::close;
use crate::front::{Inner, Seal};
use crate::inner::{next_segment, read_inner};
use crate::slip::Slip;
use crate::tail::Tail;
use crate::values::data_at;
use fints_syntax::SegmentView;
use fints_syntax_segments::{HNVSD_NUMBER, HNVSD_VERSION};
use std::alloc::{AllocError, Global};

/// The inner segments that an envelope after HNVSK holds, if it is one.
fn open_envelope<'a>(
    alloc: Global,
    head: SegmentView<'a>,
    envelope: SegmentView<'a>,
) -> Result<Result<Inner<'a>, Slip<'a>>, AllocError>
    ensures envelope { IfOk result (λ o. EnvelopeIs o (segment_of envelope.entry)) }
    ensures seal { IfOk result (λ o. IfOk o (λ i.
        i.seal ≡ Some (record { head = head.entry; envelope = envelope.entry }))) }
{
    if !envelope.is_named(b"HNVSD", HNVSD_VERSION) {
        return Ok(Err(Slip::Envelope));
    }
    if envelope.number() != HNVSD_NUMBER {
        return Ok(Err(Slip::Envelope));
    }
    let Some(data) = data_at(&envelope, 2, 1) else {
        return Ok(Err(Slip::Envelope));
    };
    let inner = read_inner(alloc, data, Some(Seal { head, envelope }))?;
    if inner.at < data.len() {
        return Ok(Err(Slip::Inside { data, inner }));
    }
    if inner.ends.len() != inner.openers.len() {
        return Ok(Err(Slip::Inside { data, inner }));
    }
    Ok(Ok(inner))
}

/// What follows HNVSK.
fn read_rest<'a>(
    alloc: Global,
    head: SegmentView<'a>,
    rest: &'a [u8],
    number: u64,
) -> Result<Tail<'a>, AllocError>
    requires { IsNumber number }
    ensures rest { IfOk result
        (λ r. TailIs (IsSealedRest number) (segment_of head.entry ∷ []) rest.now r) }
    ensures within { IfOk result (λ r. StopsWithin r (length rest.now)) }
{
    let Some((view, len)) = next_segment(rest) else {
        return Ok(Tail::Stop(0, Slip::Envelope));
    };
    let inner = match open_envelope(alloc, head, view)? {
        Ok(inner) => inner,
        Err(slip) => return Ok(Tail::Stop(0, slip)),
    };
    let (_, end) = rest.split_at(len);
    let Some((last, n)) = next_segment(end) else {
        return Ok(Tail::Stop(len, Slip::Next { inner, number }));
    };
    Ok(close(rest, len, last, n, number, inner))
}

/// What follows HNHBK, where it begins with this HNVSK, which has `len` bytes.
pub fn read_sealed<'a>(
    alloc: Global,
    tail: &'a [u8],
    head: SegmentView<'a>,
    len: usize,
    number: u64,
) -> Result<Tail<'a>, AllocError>
    requires number { IsNumber number }
    requires seal_head { HasSealHead tail.now len head }
    ensures tail { IfOk result (λ r. TailIs (IsTail number) [] tail.now r) }
    ensures within { IfOk result (λ r. StopsWithin r (length tail.now)) }
{
    let (_, rest) = tail.split_at(len);
    match read_rest(alloc, head, rest, number)? {
        Tail::Whole(inner, last) => Ok(Tail::Whole(inner, last)),
        Tail::Stop(at, slip) => Ok(Tail::Stop(len + at, slip)),
    }
}
