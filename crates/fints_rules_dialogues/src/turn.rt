//! Turns: whose message is due in a recording. What looks on while one is read learns it of the message that is
//! refused.
use crate::fault::DialogueFault;
use crate::messages::RecordedMessage;
use crate::reading::Exchange;
use fints_rules_messages::{Unobserved, UnreadObserver};

/// What is due in a recording: the client's message of this number, counted from 1, or the answer to it.
#[derive(Clone, Copy)]
pub struct Turn {
    pub number: usize,
    pub is_answer: bool,
}

/// What looks on while a recording is read. No contract says what it makes of it.
pub trait TurnObserver: UnreadObserver {
    /// Looks at the message that is refused, and at what is due there.
    fn refused(&mut self, due: Turn, sent: &RecordedMessage<'_>, fault: &DialogueFault);
}

impl TurnObserver for Unobserved {
    fn refused(&mut self, _due: Turn, _sent: &RecordedMessage<'_>, _fault: &DialogueFault) {}
}

// What is due after this many exchanges and after that one as the last of them.
fn due_after(exchanges: usize, last: Option<&Exchange<'_>>) -> Turn {
    match last {
        Some(exchange) if exchange.answer.is_none() => Turn {
            number: exchanges,
            is_answer: true,
        },
        _ => Turn {
            number: exchanges.saturating_add(1),
            is_answer: false,
        },
    }
}

/// Shows what was refused, if anything, of the exchange that was read at the front of the messages: the client's
/// message, or the answer to it. It comes after this many exchanges and after that one as the last of them.
pub fn show_refusal<O: TurnObserver>(
    exchanges: usize,
    last: Option<&Exchange<'_>>,
    messages: &[RecordedMessage<'_>],
    read: &Result<Exchange<'_>, DialogueFault>,
    observer: &mut O,
) {
    let Err(fault) = read else {
        return;
    };
    let (due, sent) = match fault {
        DialogueFault::Answer { .. } => {
            let due = Turn {
                number: exchanges.saturating_add(1),
                is_answer: true,
            };
            (due, messages.get(1))
        }
        _ => (due_after(exchanges, last), messages.first()),
    };
    if let Some(sent) = sent {
        observer.refused(due, sent, fault);
    }
}

/// Shows the answer that is refused, by the fault, as one that says parameters.
pub fn show_refused_answer<O: TurnObserver>(
    exchanges: &[Exchange<'_>],
    fault: &DialogueFault,
    observer: &mut O,
) {
    let DialogueFault::Answer { start, .. } = fault else {
        return;
    };
    for (place, exchange) in exchanges.iter().enumerate() {
        if let Some(answer) = &exchange.answer {
            if answer.sent.start == *start {
                let due = Turn {
                    number: place.saturating_add(1),
                    is_answer: true,
                };
                observer.refused(due, &answer.sent, fault);
            }
        }
    }
}
