//! Laws that join templates and messages, and orders that are left unreleased with the findings of
//! P11: each function's contract is one.
ghost use Rattle.fints_check_findings.specs.Laws.{HeldIsUnreleased, ReleaseIsLeft, UnreleasedIsReal, UnreleasedIsShown};
ghost use Rattle.fints_check_findings.specs.StepFacts.{TemplatesDecide};

/// What the facts of a step break, its messages can break, and nothing else.
pub fn templates_decide()
    ensures { TemplatesDecide }
{}

/// Where a run breaks P11, its last message is of a step that leaves an order unreleased of a step
/// that some run sends.
pub fn release_is_left()
    ensures { ReleaseIsLeft }
{}

/// In a closed plan branches, heads and literals decide which orders are left unreleased.
pub fn held_is_unreleased()
    ensures { HeldIsUnreleased }
{}

/// In a closed plan each order that is left unreleased breaks P11 in some run..
pub fn unreleased_is_real()
    ensures { UnreleasedIsReal }
{}

/// ..and in that of any admitted values and of answers that lead there.
pub fn unreleased_is_shown()
    ensures { UnreleasedIsShown }
{}
