//! Laws of messages: each function's contract is one.
ghost use Rattle.std.specs.Prelude.{◌≡◌, ◌+◌, ℕ, List, length};
ghost use Rattle.fints_rules_messages.specs.Messages.{MessageView, IsMessage, IsNumbered};
ghost use Rattle.fints_rules_messages.specs.Laws.{OneStop, NoStopInMessage, MessageOrStop, OneRefusal};

/// The bytes determine what the message holds.
pub fn one_message()
    ensures { (bytes : List ℕ) (m n : MessageView) → IsMessage bytes m → IsMessage bytes n → m ≡ n }
{}

/// Bytes cease to be a message at one place at most and have one refusal at most; a message ceases
/// nowhere to be one.
pub fn one_stop()
    ensures place { OneStop }
    ensures not_both { NoStopInMessage }
    ensures refusal { OneRefusal }
{}

/// Bytes are a message, or cease somewhere to be one: it can't be that they do neither.
pub fn message_or_stop()
    ensures { MessageOrStop }
{}

/// The segments of a body are numbered on from the one after the message's HNSHK.
pub fn numbered_bodies()
    ensures { (bytes : List ℕ) (m : MessageView) → IsMessage bytes m → IsNumbered (2 + length m.ends) m.body }
{}
