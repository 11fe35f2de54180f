//! The messages of a recording.
ghost use Rattle.std.specs.Prelude.{◌≡◌, [], IfOk, IfErr};
ghost use Rattle.fints_rules_logs.specs.Kept.{IsLog};
ghost use Rattle.fints_rules_dialogues.specs.Dialogues.{AreSent, EndsBelow, IsFileFault, IsMemoryOrRefusal};

use crate::fault::DialogueFault;
use fints_rules_logs::{Log, LogFault};
use fints_syntax::Memory;
use std::alloc::Global;

/// A message as it was sent: its bytes, and the offset in the file at which it begins.
#[derive(Clone, Copy)]
pub struct RecordedMessage<'a> {
    pub start: usize,
    pub bytes: &'a [u8],
}

/// The log that a file is. The refusal is the first message that is lost, or that there is none.
pub fn read_log(alloc: Global, file: &[u8]) -> Result<Log<'_>, DialogueFault>
    ensures log { IfOk result (λ log. IsLog file.now log) }
    ensures refused { IfErr result (λ f. IsMemoryOrRefusal (IsFileFault file.now) f) }
{
    match Log::of(alloc, file) {
        Ok(log) => Ok(log),
        Err(fault) => match fault {
            LogFault::Memory => Err(DialogueFault::Memory),
            LogFault::NoMessage => Err(DialogueFault::NoMessage),
            LogFault::NotAMessage { offset } => Err(DialogueFault::NotAMessage { offset }),
        },
    }
}

/// The messages of a log.
pub fn sents_of<'a>(alloc: Global, log: &'a Log<'_>) -> Result<Vec<RecordedMessage<'a>>, Memory>
    ensures sent { IfOk result (λ v. AreSent log.now v.items) }
    ensures some { IfOk result (λ v. v.items ≡ [] → ⊥) }
    ensures below { IfOk result (λ v. EndsBelow v.items) }
{
    let mut sents = Vec::new(alloc);
    for found in log.messages() {
        sents.push(RecordedMessage {
            start: found.start(),
            bytes: found.bytes(),
        })?;
    }
    Ok(sents)
}
