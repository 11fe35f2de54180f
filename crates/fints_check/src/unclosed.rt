//! What keeps a certificate from being closed.

/// How a run comes to a step.
#[derive(Clone, Copy, PartialEq, Eq)]
pub enum Way {
    /// Each run begins with it.
    Begin,
    /// An open branch of a step leads to it, after a message of that step with this number, which is
    /// the greatest that its line names.
    Branch {
        from: usize,
        branch: usize,
        number: u32,
    },
}

/// What is open of a certificate. Steps, lines and branches count from 1, and the default is the last
/// branch. The line of a step is the one at the step's place. Numbers and sizes are those of that line,
/// where nothing else is said.
#[derive(Clone, Copy, PartialEq, Eq)]
pub enum Open {
    /// The line at the step's place has another name.
    OtherName {
        step: usize,
    },
    /// The lines end before that of the step.
    NoLine {
        step: usize,
    },
    /// The script has no step for this line.
    NoStep {
        line: usize,
    },
    /// The step is named as unreached, and a run comes to it.
    Unreached {
        step: usize,
        way: Way,
    },
    /// A run comes to the step. Its number has to be at least this one then, and is less.
    LowNumber {
        step: usize,
        way: Way,
        least: u64,
        number: u32,
    },
    /// The number breaks P2.
    BreaksNumber {
        step: usize,
        number: u32,
    },
    /// The step's longest message of this number is longer than the size.
    LowSize {
        step: usize,
        number: u32,
        longest: u64,
        size: u64,
    },
    /// The size breaks P3.
    BreaksSize {
        step: usize,
        size: u64,
    },
    /// What messages of the step hold breaks a rule, for some admitted values.
    BreaksRule {
        step: usize,
    },
    /// Some step leaves an order of this one unreleased, which breaks P11.
    Unreleased {
        step: usize,
    },
}
