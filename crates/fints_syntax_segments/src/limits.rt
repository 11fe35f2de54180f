//! The limits of a segment.

/// The most bytes that a segment has.
pub const MAX_BYTES: usize = 1_048_576;

/// The most items that a segment has, its head's counted.
pub const MAX_ITEMS: usize = 20_000;
