//! Single segments of the frame.
ghost use Rattle.std.specs.Prelude.{◌↔◌, ◌+◌, ◌<◌, ◌≤◌, IsTrue, length};
ghost use Rattle.fints_syntax.specs.Owned.{segment_of};
ghost use Rattle.fints_rules_messages.specs.Messages.{IsLast, IsSealHead};
ghost use Rattle.fints_rules_messages.specs.Front.{IsEndBehind, ClosesAs};

use crate::front::Inner;
use crate::slip::Slip;
use crate::tail::Tail;
use crate::values::number_at;
use fints_syntax::SegmentView;
use fints_syntax_segments::{HNHBS_VERSION, HNVSK_NUMBER, HNVSK_VERSION};

/// Whether it is HNHBS with the number of the message.
pub fn is_last(view: &SegmentView<'_>, number: u64) -> bool
    ensures { IsTrue result ↔ IsLast number (segment_of view.now) }
{
    if !view.is_named(b"HNHBS", HNHBS_VERSION) {
        return false;
    }
    match number_at(view, 2, 1, 1, 9) {
        None => false,
        Some(found) => found == number,
    }
}

/// Whether it is HNVSK.
pub fn is_seal_head(view: &SegmentView<'_>) -> bool
    ensures { IsTrue result ↔ IsSealHead (segment_of view.now) }
{
    view.is_named(b"HNVSK", HNVSK_VERSION) && view.number() == HNVSK_NUMBER
}

// Whether it is HNHBS after the inner segments.
fn is_end(view: &SegmentView<'_>, number: u64, inner: &Inner<'_>) -> bool
    ensures { IsTrue result ↔ IsEndBehind number (segment_of view.now) inner.now }
{
    if !is_last(view, number) {
        return false;
    }
    if usize::from(view.number()) != inner.next_number() {
        return false;
    }
    inner.ends.len() == inner.openers.len()
}

/// What closes the bytes of a message: the segment of `len` bytes at this offset, after the inner segments.
pub fn close<'a>(
    bytes: &[u8],
    at: usize,
    last: SegmentView<'a>,
    len: usize,
    number: u64,
    inner: Inner<'a>,
) -> Tail<'a>
    requires { at + len ≤ length bytes.now }
    ensures { ClosesAs number last.entry inner.entry at len (length bytes.now) result }
{
    if !is_end(&last, number, &inner) {
        return Tail::Stop(at, Slip::Next { inner, number });
    }
    if at + len < bytes.len() {
        return Tail::Stop(at + len, Slip::End);
    }
    Tail::Whole(inner, last)
}
