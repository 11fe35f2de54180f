//! The keys that the tables of a script may have.

/// Those of the script itself.
pub const SCRIPT_KEYS: [&str; 4] = ["seal", "field", "signer", "step"];

/// Those of a field whose lengths are bounded.
pub const BOUNDED_FIELD_KEYS: [&str; 4] = ["name", "class", "min", "max"];

/// Those of a field whose values are listed.
pub const LISTED_FIELD_KEYS: [&str; 3] = ["name", "class", "values"];

/// Those of a field of neither class.
pub const FIELD_KEYS: [&str; 5] = ["name", "class", "min", "max", "values"];

/// Those of a signer.
pub const SIGNER_KEYS: [&str; 3] = ["name", "head", "end"];

/// Those of a step.
pub const STEP_KEYS: [&str; 7] = [
    "name", "segments", "sealed", "signers", "repeat", "branches", "default",
];

/// Those of a segment of a step.
pub const SEGMENT_KEYS: [&str; 3] = ["kind", "version", "elements"];

/// Those of a branch.
pub const BRANCH_KEYS: [&str; 2] = ["on", "to"];
