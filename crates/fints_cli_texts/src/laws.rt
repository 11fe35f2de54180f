//! Laws of messages that are shown: each function's contract is one.
ghost use Rattle.fints_cli_texts.specs.Laws.{OneShownMessage, SecretsAreUnshown, ShownWithoutSecrets};

/// A message is shown in one way.
pub fn one_shown_message()
    ensures { OneShownMessage }
{}

/// A segment with other elements from its PIN, TAN or new PIN on has the same line, where there are as many
/// elements and items, and the same of them are empty.
pub fn secrets_are_unshown()
    ensures { SecretsAreUnshown }
{}

/// Two messages that differ only in such elements, in sealed data and in their size are shown by the same
/// text, but for the size in HNHBK.
pub fn shown_without_secrets()
    ensures { ShownWithoutSecrets }
{}
