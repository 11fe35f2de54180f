//! Laws of the words of objects: each function's contract is one.
ghost use Rattle.fints_cli_json.specs.Laws.{NamesAsPrinted};

/// A rule's number and its name are what texts print of it.
pub fn names_as_printed()
    ensures { NamesAsPrinted }
{}
