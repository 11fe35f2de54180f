//! A branch of a step by its number.
ghost use Rattle.std.specs.Prelude.{◌≤◌, ◌+◌, length};

use crate::answers::Branch;

/// A branch of a step: branches count from 1, and the default counts as the last.
#[derive(Clone, Copy)]
pub struct BranchAt<'a> {
    pub branches: &'a [Branch],
    pub branch: usize,
    pub ghost from: { 1 ≤ branch },
    pub ghost to: { branch ≤ length branches.now + 1 },
}
