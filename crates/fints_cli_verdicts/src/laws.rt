//! Laws of messages that are cut by their sizes: each function's contract is one.
ghost use Rattle.fints_cli_verdicts.specs.Laws.{NothingLeftOut};

/// Whatever the sizes are, the messages together are all bytes.
pub fn nothing_left_out()
    ensures { NothingLeftOut }
{}
