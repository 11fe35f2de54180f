//! What looks on while bytes are read that are no message.
ghost use Rattle.std.specs.Prelude.{◌≡◌, IfOk, IfErr};
ghost use Rattle.fints_rules_messages.specs.Messages.{MessageView, IsMessage};
ghost use Rattle.fints_rules_messages.specs.Read.{IsJudgeFault};
ghost use Rattle.fints_rules_messages.specs.declared.message.JudgeFault.TheVariants as fault;

use crate::message::{JudgeFault, Message, read_or_slip};
use crate::slip::Unread;
use std::alloc::Global;

/// What looks on while messages are read. No contract says what it makes of it.
pub trait UnreadObserver {
    /// Looks at bytes that are no message, and at the part of one that is missing.
    fn unread(&mut self, bytes: &[u8], unread: &Unread<'_>);
}

/// Nobody looks on.
#[derive(Clone, Copy)]
pub struct Unobserved;

impl UnreadObserver for Unobserved {
    fn unread(&mut self, _bytes: &[u8], _unread: &Unread<'_>) {}
}

/// The message that the bytes are. Where they are none, the observer sees why.
pub fn read_message_with<'a, O: UnreadObserver>(
    alloc: Global,
    bytes: &'a [u8],
    observer: &mut O,
) -> Result<Message<'a>, JudgeFault>
    ensures message { IfOk result (λ m. IsMessage bytes.now m) }
    ensures refusal { IfErr result (λ f. IsJudgeFault bytes.now f) }
    ensures memory_alone { (m : MessageView) → IsMessage bytes.now m → IfErr result (λ f. f ≡ fault.Memory) }
{
    match read_or_slip(alloc, bytes)? {
        Ok(message) => Ok(message),
        Err(unread) => {
            observer.unread(bytes, &unread);
            Err(JudgeFault::NotAMessage {
                offset: unread.offset,
            })
        }
    }
}

/// The message that the bytes are.
pub fn read_message(alloc: Global, bytes: &[u8]) -> Result<Message<'_>, JudgeFault>
    ensures message { IfOk result (λ m. IsMessage bytes.now m) }
    ensures refusal { IfErr result (λ f. IsJudgeFault bytes.now f) }
    ensures memory_alone { (m : MessageView) → IsMessage bytes.now m → IfErr result (λ f. f ≡ fault.Memory) }
{
    read_message_with(alloc, bytes, &mut Unobserved)
}
