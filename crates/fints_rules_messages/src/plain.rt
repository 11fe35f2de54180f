//! The plain form of a message.
ghost use Rattle.std.specs.Prelude.{◌≡◌, ◌↔◌, ◌<◌, [], IsTrue, IfOk, length};
ghost use Rattle.fints_syntax.specs.Owned.{segment_of};
ghost use Rattle.fints_rules_messages.specs.Messages.{IsSealHead};
ghost use Rattle.fints_rules_messages.specs.Front.{IsTail, IsNumber, TailIs, StopsWithin};

use crate::frame::{close, is_seal_head};
use crate::inner::{next_segment, read_inner};
use crate::sealed::read_sealed;
use crate::slip::Slip;
use crate::tail::Tail;
use fints_syntax::SegmentView;
use std::alloc::{AllocError, Global};

/// Whether it is HNVSK, at the start.
fn is_seal_head_at(view: &SegmentView<'_>, at: usize) -> bool
    ensures { IsTrue result ↔ ((at ≡ 0) × IsSealHead (segment_of view.now)) }
{
    at == 0 && is_seal_head(view)
}

/// What follows HNHBK, of either form.
pub fn read_tail<'a>(alloc: Global, tail: &'a [u8], number: u64) -> Result<Tail<'a>, AllocError>
    requires { IsNumber number }
    ensures tail { IfOk result (λ r. TailIs (IsTail number) [] tail.now r) }
    ensures within { IfOk result (λ r. StopsWithin r (length tail.now)) }
{
    let inner = read_inner(alloc, tail, None)?;
    let at = inner.at;
    let (_, rest) = tail.split_at(at);
    let Some((view, len)) = next_segment(rest) else {
        return Ok(Tail::Stop(at, Slip::Next { inner, number }));
    };
    if is_seal_head_at(&view, at) {
        return read_sealed(alloc, tail, view, len, number);
    }
    Ok(close(tail, at, view, len, number, inner))
}
