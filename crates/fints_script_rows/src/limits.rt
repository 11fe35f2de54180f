//! The limits of a script, below all its readers and their hints.

/// The most fields of a script, besides `dialog`.
pub const MAX_FIELDS: usize = 100;

/// The most signers of a script.
pub const MAX_SIGNERS: usize = 20;

/// The most steps of a script.
pub const MAX_STEPS: usize = 1000;

/// The most segments of a step.
pub const MAX_SEGMENTS: usize = 100;

/// The most signatures of a step.
pub const MAX_SIGNATURES: usize = 9;

/// The most branches of a step, besides its default.
pub const MAX_BRANCHES: usize = 20;

/// How often a step is sent in a row at most.
pub const MAX_REPEAT: u16 = 99;

/// The greatest weight of a step, so that each of its messages is shorter than 1,048,576 bytes.
pub const MAX_WEIGHT: u64 = 1_000_000;

/// The most items of a list of elements.
pub const MAX_TEMPLATE_ITEMS: u64 = 10_000;
