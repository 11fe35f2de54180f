//! What a segment is within a message.
ghost use Rattle.std.specs.Prelude.{◌≡◌, ◌<◌, ◌≤◌};
ghost use Rattle.std.specs.Str.{bytes_eq};
ghost use Rattle.fints_syntax.specs.Owned.{segment_of};
ghost use Rattle.fints_syntax_segments.specs.Values.{is_named, value_at};
ghost use Rattle.fints_syntax_segments.specs.Number.{number_in};
ghost use Rattle.fints_rules_messages.specs.Parts.{part_of};

use fints_syntax::{Item, Kind, SegmentView, is_frame_kind};
use fints_syntax_segments::{HNSHA_VERSION, HNSHK_VERSION};

/// A segment between the first and the last of a message.
#[derive(Clone, Copy, PartialEq, Eq)]
pub enum MessagePart {
    /// HNSHK.
    Opener,
    /// A segment of the body.
    Body,
    /// HNSHA.
    Ender,
    /// No segment that can come there.
    Other,
}

/// What the segment is.
pub fn part_of(view: &SegmentView<'_>) -> MessagePart
    ensures { result ≡ part_of (segment_of view.now) }
{
    if view.is_named(b"HNSHK", HNSHK_VERSION) {
        MessagePart::Opener
    } else if view.is_named(b"HNSHA", HNSHA_VERSION) {
        MessagePart::Ender
    } else if is_frame_kind(view.id().as_bytes()) {
        MessagePart::Other
    } else {
        MessagePart::Body
    }
}
