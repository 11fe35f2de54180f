//! Places in a recorded dialogue of what no draft sends.
ghost use Rattle.std.specs.Prelude.{◌≡◌};
ghost use Rattle.fints_cli_drafts.specs.declared.place.Undrafted.TheVariants as undrafted;

use fints_syntax::Memory;
use std::alloc::{AllocError, AllocFailed};

/// A segment of a message of the client, which counts from 1: segment 0 is the message as a whole, and
/// message 0 the dialogue.
#[derive(Clone, Copy)]
pub struct SegmentPlace {
    pub message: usize,
    pub segment: usize,
}

/// Why there is no draft: memory ran out, or no draft sends what is at a place.
#[derive(Clone, Copy)]
pub enum Undrafted {
    Memory,
    At(SegmentPlace),
}

impl SegmentPlace {
    /// A message as a whole.
    pub fn whole(message: usize) -> SegmentPlace
        ensures { result ≡ record { message = message; segment = 0 } }
    {
        SegmentPlace {
            message,
            segment: 0,
        }
    }

    /// The same place of a recording in which this many messages of the client come before the dialogue.
    pub fn after(self, before: usize) -> SegmentPlace {
        if self.message == 0 {
            return self;
        }
        SegmentPlace {
            message: self.message.saturating_add(before),
            segment: self.segment,
        }
    }

    /// The refusal of what is there.
    pub fn refused(self) -> Undrafted {
        Undrafted::At(self)
    }
}

impl From<Memory> for Undrafted {
    ghost from_gives = { λ _ f. f ≡ undrafted.Memory };

    fn from(_e: Memory) -> Undrafted {
        Undrafted::Memory
    }
}

impl From<AllocError> for Undrafted {
    ghost from_gives = { λ _ f. f ≡ undrafted.Memory };

    fn from(_e: AllocError) -> Undrafted {
        Undrafted::Memory
    }
}

impl<T: Drop> From<AllocFailed<T>> for Undrafted {
    ghost from_gives = { λ _ f. f ≡ undrafted.Memory };

    fn from(_e: AllocFailed<T>) -> Undrafted {
        Undrafted::Memory
    }
}
