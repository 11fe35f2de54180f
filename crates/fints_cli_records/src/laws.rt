//! The law of what a record prints.
ghost use Rattle.fints_cli_records.specs.Laws.{RecordedAgain};

/// What a record prints, a record prints again: the messages of a log, one after the other, are a log of the same
/// messages, in which nothing is passed over.
pub fn recorded_again()
    ensures { RecordedAgain }
{}
