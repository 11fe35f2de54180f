//! Branches of steps, in words.
use fints_script::Step;
use std::fmt;
use std::fmt::{Display, Formatter, Write};

/// A branch of a step by its number, from 1, among this many: the default comes last.
#[derive(Clone, Copy)]
pub struct BranchOf {
    pub number: usize,
    pub count: usize,
}

impl BranchOf {
    /// The branch of this number.
    pub fn at(step: &Step, number: usize) -> BranchOf {
        BranchOf {
            number,
            count: step.branches().len(),
        }
    }
}

impl Display for BranchOf {
    fn fmt<W: Write>(&self, f: &mut Formatter<W>) -> fmt::Result {
        let BranchOf { number, count } = *self;
        if number > count {
            f.write_str("the default")
        } else {
            write!(f, "branch {number}")
        }
    }
}
