//! Laws of greatest numbers, of how much is looked at for them, and of what follows what: each
//! function's contract is one.
ghost use Rattle.fints_check_reach.specs.Laws.{AtMostAllAreLookedAt, ClosedNumbersBound, FollowedWhereCarried, GreatestAreClosed, ReachedAreLookedAt};

/// Closed numbers bound every run, whoever computed them: each step that a run sends has one, and
/// no message of the step has a greater one.
pub fn closed_numbers_bound()
    ensures { ClosedNumbersBound }
{}

/// Greatest numbers are closed.
pub fn greatest_are_closed()
    ensures { GreatestAreClosed }
{}

/// At most all steps and all branches are looked at, and at least the steps that are reached with
/// their branches.
pub fn visits_are_bounded()
    ensures most { AtMostAllAreLookedAt }
    ensures least { ReachedAreLookedAt }
{}

/// A run sends a message of step s after one of step t and an answer with a code exactly where runs
/// send step t, and a branch of it that carries the code goes to step s.
pub fn followed_where_carried()
    ensures { FollowedWhereCarried }
{}
