//! Laws of order tables: each function's contract is one.
ghost use Rattle.fints_rules_permissions.specs.Laws.{OneTable, OneTableFault, NoTableAtFault};

/// A text denotes one order table at most and has one first refusal at most, and never both.
pub fn one_table()
    ensures table { OneTable }
    ensures refusal { OneTableFault }
    ensures not_both { NoTableAtFault }
{}
