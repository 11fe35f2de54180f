//! Laws of logs: each function's contract is one.
ghost use Rattle.fints_rules_logs.specs.Laws.{NoLogAtFault, OneLog, OneLogFault};

/// A file is one log at most.
pub fn one_log()
    ensures { OneLog }
{}

/// A file has one refusal at most, and is never a log and refused, apart from a failed allocation.
pub fn one_log_fault()
    ensures fault { OneLogFault }
    ensures not_both { NoLogAtFault }
{}
