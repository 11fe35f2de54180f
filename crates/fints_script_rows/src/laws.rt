//! Laws of rows: each function's contract is one.
ghost use Rattle.fints_script_rows.specs.Laws.{OneField};

/// One field at most has this name and this class.
pub fn one_field()
    ensures { OneField }
{}
