//! The segments that a piece gives.
ghost use Rattle.std.specs.Prelude.{[]};
ghost use Rattle.fints_syntax.specs.Taken.{AreTaken};

use crate::stream::{Taker, data_place};
use crate::view::SegmentView;
use fints_syntax_segments::{Memory, OwnedSegment};
use std::alloc::Global;

/// Segments by their values, and the place of each.
#[derive(Drop)]
pub struct TakenSegments {
    pub segments: Vec<OwnedSegment>,
    pub places: Vec<usize>,
}

impl TakenSegments {
    /// No segment.
    pub fn new(alloc: Global) -> TakenSegments
        ensures { AreTaken [] result }
    {
        TakenSegments {
            segments: Vec::new(alloc),
            places: Vec::new(alloc),
        }
    }
}

impl Taker for TakenSegments {
    ghost good = { AreTaken };

    fn take(&mut self, start: usize, segment: &SegmentView<'_>) -> Result<(), Memory> {
        let alloc = *self.segments.allocator();
        self.segments.push(segment.to_owned(alloc)?)?;
        self.places.push(data_place(start, segment))?;
        Ok(())
    }
}
