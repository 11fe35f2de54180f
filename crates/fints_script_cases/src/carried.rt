//! Which branches of a step an answer can fire that has a code beside others.
ghost use Rattle.std.specs.Prelude.{◌≡◌, ◌↔◌, ◌-◌, ◌<◌, slice_get, IsTrue, IfOk};
ghost use Rattle.std.specs.Option.{ForSome};
ghost use Rattle.fints_script_cases.specs.Answers.{IsOpen};
ghost use Rattle.fints_script_cases.specs.Carrying.{Carries, IsChosenCarrying, IsPassed};
ghost use Rattle.fints_script_cases.specs.Patterns.{matches};

use crate::answers::opener;
use crate::branch_at::BranchAt;
use crate::case::Answer;
use crate::pattern::digits_of;
use fints_params::Code;
use fints_syntax::Memory;
use std::alloc::Global;

/// Whether no pattern before the branch matches the code.
fn is_passed(at: BranchAt<'_>, code: Code) -> bool
    ensures small { code < 10000 }
    ensures passed { IsTrue result ↔ IsPassed at.entry.branches.now at.entry.branch code }
{
    let digits = digits_of(code);
    at.branches[..at.branch - 1]
        .iter()
        .all(|earlier| !earlier.on.fits(&digits))
}

/// Whether the branch's own pattern, if it has one, matches the code.
fn matches_own(at: BranchAt<'_>, code: Code) -> bool
    ensures small { code < 10000 }
    ensures own { IsTrue result ↔ ForSome (slice_get at.entry.branches.now (at.entry.branch - 1))
        (λ own. IsTrue (matches own.on code)) }
{
    let digits = digits_of(code);
    match at.branches.get(at.branch - 1) {
        Some(own) => own.on.fits(&digits),
        None => true,
    }
}

/// Of a branch that some answer fires, whether one that has the code does: that is where no pattern
/// before it matches the code. Branches count from 1, and the default counts as the last. It takes no
/// memory.
pub fn passes(at: BranchAt<'_>, code: Code) -> bool
    requires { IsOpen at.branches.now at.branch }
    ensures { IsTrue result ↔ Carries at.entry.branches.now at.entry.branch code }
{
    is_passed(at, code)
}

/// Whether some answer that has the code fires the branch: that is where some answer fires it, and no
/// pattern before it matches the code. Branches count from 1, and the default counts as the last. It
/// takes no memory.
pub fn carries(at: BranchAt<'_>, code: Code) -> bool
    ensures { IsTrue result ↔ Carries at.entry.branches.now at.entry.branch code }
{
    is_passed(at, code) && opener(at).is_some()
}

/// An answer that has the code and fires the branch: only the code where that fires it, else the
/// branch's opener and the code.
pub fn carrying(alloc: Global, at: BranchAt<'_>, code: Code) -> Result<Answer, Memory>
    requires { Carries at.branches.now at.branch code }
    ensures { IfOk result (λ answer.
        IsChosenCarrying at.entry.branches.now at.entry.branch code answer) }
{
    if matches_own(at, code) {
        return Answer::single(alloc, code);
    }
    match opener(at) {
        Some(first) => Answer::pair(alloc, first, code),
        None => Answer::single(alloc, code),
    }
}
