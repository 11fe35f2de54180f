//! A segment of a capture by its values, with its place.
ghost use Rattle.std.specs.Prelude.{◌+◌, ◌<◌, ◌^◌};
ghost use Rattle.fints_params.specs.Sealed.{data_len};

use fints_syntax::{Elements, OwnedSegment};

/// A segment, and the offset in the capture of item 1 of its element 2 (of its data, where it is
/// binary), 0 where there is none.
#[derive(Drop)]
pub struct PlacedSegment {
    pub segment: OwnedSegment,
    pub place: usize,
    ghost in_range: { place + data_len segment < 2 ^ 64 },
}

impl PlacedSegment {
    /// The memory of the segment.
    pub fn into_elements(self) -> Elements {
        let PlacedSegment { segment, .. } = self;
        segment.into_elements()
    }
}
