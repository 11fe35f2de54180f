//! Recorded dialogues: the messages of both sides, in turn.
ghost use Rattle.std.specs.Prelude.{◌≡◌, ◌≢◌, [], IfOk, IfErr};
ghost use Rattle.std.specs.List.{AllByRecursion};
ghost use Rattle.fints_rules_dialogues.specs.Dialogues.{IsExchange, IsTurnFault, IsTurnFaultOf, AreInTurn, AreSent, IsDialogueOf, IsMemoryOrRefusal, EndsBelow};

use crate::fault::DialogueFault;
use crate::messages::{RecordedMessage, sents_of};
use crate::reading::{Exchange, message_count, read_exchange};
use crate::turn::{TurnObserver, show_refusal};
use fints_rules_logs::Log;
use fints_rules_messages::Unobserved;
use fints_syntax::Memory;
use std::alloc::Global;
use std::marker::Model;

/// The messages of a log, one at least; a contract sees them.
#[derive(Drop)]
pub struct Recording<'a> {
    messages: Vec<RecordedMessage<'a>>,
}

impl<'a> Model for Recording<'a> {
    ghost use Rattle.std.specs.Prelude.{◌≢◌, List, []};
    ghost use Rattle.fints_rules_dialogues.specs.Dialogues.{EndsBelow};
    ghost use Rattle.fints_rules_dialogues.specs.declared.messages.RecordedMessage.{RecordedMessage as SentValue};

    ghost Value = { List SentValue };

    ghost view = { λ r. r.messages.items };

    ghost invariant = { λ r. EndsBelow r.messages.items × (r.messages.items ≢ []) };
}

impl<'a> Recording<'a> {
    /// The messages of a log.
    pub fn of(alloc: Global, log: &'a Log<'_>) -> Result<Recording<'a>, Memory>
        ensures { IfOk result (λ messages. AreSent log.now messages) }
    {
        let messages = sents_of(alloc, log)?;
        Ok(Recording { messages })
    }

    /// The messages of both sides, in order; there is one at least.
    pub fn messages(&self) -> &[RecordedMessage<'a>]
        ensures messages { result.now ≡ self.now }
        ensures some { result.now ≢ [] }
        ensures below { EndsBelow result.now }
    {
        self.messages.as_slice()
    }

    /// The exchanges: the first message is the client's, and then they come in turn; what has a feedback
    /// code is the bank's answer. An answer may be missing where the recording ends, and where the next
    /// message opens another dialogue: it has dialogue id 0 and number 1. The refusal is the first, message
    /// by message: one of the client that is none, that has a HIRMG, or that comes where an answer is due;
    /// one of the bank whose feedback is refused (FinTS 3.0, Formals, messages and feedback). The observer
    /// sees which, and where it is no message, why.
    pub fn exchanges<O: TurnObserver>(
        &self,
        alloc: Global,
        observer: &mut O,
    ) -> Result<Vec<Exchange<'a>>, DialogueFault>
        ensures exchanges { IfOk result (λ v. AreInTurn self.now v.items []) }
        ensures refused { IfErr result (λ f. IsMemoryOrRefusal (IsTurnFault self.now) f) }
    {
        let messages = self.messages();
        let mut exchanges = Vec::new(alloc);
        let mut at = 0;
        while at < messages.len() {
            let (_, rest) = messages.split_at(at);
            let last = exchanges.last();
            let read = read_exchange(alloc, last, rest, observer);
            show_refusal(exchanges.len(), last, rest, &read, observer);
            let exchange = read?;
            at += message_count(&exchange);
            exchanges.push(exchange)?;
        }
        Ok(exchanges)
    }
}

/// The exchanges of a log, of one dialogue or of several. The refusal is the first, message by message. The
/// observer sees which, and where it is no message, why.
pub fn read_dialogue_with<'a, O: TurnObserver>(
    alloc: Global,
    log: &'a Log<'_>,
    observer: &mut O,
) -> Result<Vec<Exchange<'a>>, DialogueFault>
    ensures dialogue { IfOk result (λ v. IsDialogueOf log.now v.items) }
    ensures each { IfOk result (λ v. AllByRecursion IsExchange v.items) }
    ensures refused { IfErr result (λ f. IsMemoryOrRefusal (IsTurnFaultOf log.now) f) }
{
    let recording = Recording::of(alloc, log)?;
    recording.exchanges(alloc, observer)
}

/// The exchanges of a log, with the same refusals.
pub fn read_dialogue<'a>(
    alloc: Global,
    log: &'a Log<'_>,
) -> Result<Vec<Exchange<'a>>, DialogueFault>
    ensures dialogue { IfOk result (λ v. IsDialogueOf log.now v.items) }
    ensures each { IfOk result (λ v. AllByRecursion IsExchange v.items) }
    ensures refused { IfErr result (λ f. IsMemoryOrRefusal (IsTurnFaultOf log.now) f) }
{
    read_dialogue_with(alloc, log, &mut Unobserved)
}
