//! Exchanges: a message of the client with the bank's answer to it.
ghost use Rattle.std.specs.Prelude.{◌≡◌, ◌<◌, ◌+◌, ◌^◌, ◌∷◌, [], length, IfOk, IfErr, option_copied};
ghost use Rattle.std.specs.List.{list_any};
ghost use Rattle.fints_syntax.specs.Owned.{segment_of};
ghost use Rattle.fints_syntax_segments.specs.Number.{number_of};
ghost use Rattle.fints_syntax_segments.specs.Values.{value_at};
ghost use Rattle.fints_rules_dialogues.specs.Dialogues.{begins_after, is_answer, is_hirmg, is_zero, may_follow, may_follow_answer, opens, sents_in, IsAnswerIn, IsAnsweredBy, IsClientsNext, IsClientFault, IsAnswerFault, IsExchangeFault, IsMemoryOrRefusal, EndsBelow, BeginsWithOne};

use crate::fault::DialogueFault;
use crate::messages::RecordedMessage;
use fints_params::{Code, ParamFault, feedback_codes};
use fints_rules_messages::{JudgeFault, Message, UnreadObserver, read_message_with};
use fints_syntax::SegmentView;
use std::alloc::Global;

/// An answer of the bank, and the codes of its feedback in their order.
#[derive(Drop)]
pub struct Answer<'a> {
    pub sent: RecordedMessage<'a>,
    pub codes: Vec<Code>,
}

/// A message of the client, as it was sent and as it is read, and the bank's answer to it. The last
/// message of a dialogue may have none.
#[derive(Drop)]
pub struct Exchange<'a> {
    pub sent: RecordedMessage<'a>,
    pub message: Message<'a>,
    pub answer: Option<Answer<'a>>,
    /// Whether it is the first of a dialogue.
    pub begins: bool,
}

fn is_hirmg(segment: &SegmentView<'_>) -> bool
    ensures { result ≡ is_hirmg (segment_of segment.now) }
{
    segment.head().id.is(b"HIRMG")
}

fn some_hirmg(body: &[SegmentView<'_>]) -> bool
    ensures { result ≡ list_any (λ s. is_hirmg (segment_of s)) body.now }
{
    body.iter().any(|segment| is_hirmg(segment))
}

/// Whether a message is an answer of the bank: an HIRMG is in its body (FinTS 3.0, Formals, feedback).
pub fn is_answer(message: &Message<'_>) -> bool
    ensures { result ≡ is_answer message.now }
{
    some_hirmg(message.body())
}

fn is_zero(number: Option<u32>) -> bool
    ensures { result ≡ is_zero number }
{
    match number {
        None => false,
        Some(number) => number == 0,
    }
}

// Whether the dialogue id in HNHBK is 0.
fn has_no_id(first: &SegmentView<'_>) -> bool
    ensures { result ≡ is_zero (number_of (value_at (segment_of first.now) 4 1)) }
{
    match first.item(4, 1) {
        None => false,
        Some(id) => is_zero(id.number()),
    }
}

// Whether a message of the client opens a dialogue (FinTS 3.0, Formals, the initialisation of a dialogue).
fn opens(message: &Message<'_>) -> bool
    ensures { result ≡ opens message.now }
{
    has_no_id(message.first()) && message.number() == 1
}

// Whether the message begins a dialogue, where it comes after that exchange.
fn begins_after(before: Option<&Exchange<'_>>, message: &Message<'_>) -> bool
    ensures { result ≡ begins_after (option_copied before.entry) message.now }
{
    match before {
        None => true,
        Some(_) => opens(message),
    }
}

fn may_follow_answer(answer: &Option<Answer<'_>>, message: &Message<'_>) -> bool
    ensures { result ≡ may_follow_answer answer.now message.now }
{
    match answer {
        None => opens(message),
        Some(_) => true,
    }
}

// Whether the message may come after that exchange.
fn may_follow(before: Option<&Exchange<'_>>, message: &Message<'_>) -> bool
    ensures { result ≡ may_follow (option_copied before.entry) message.now }
{
    match before {
        None => true,
        Some(earlier) => may_follow_answer(&earlier.answer, message),
    }
}

// The message of the client that the sent one is.
fn read_client<'a, O: UnreadObserver>(
    alloc: Global,
    before: Option<&Exchange<'_>>,
    sent: &RecordedMessage<'a>,
    observer: &mut O,
) -> Result<Message<'a>, DialogueFault>
    requires { sent.now.start + length sent.now.bytes.now < 2 ^ 64 }
    ensures client { IfOk result (λ m. IsClientsNext (option_copied before.entry) sent.now.bytes.now m) }
    ensures refused { IfErr result
        (λ f. IsMemoryOrRefusal (IsClientFault (option_copied before.entry) sent.now) f) }
{
    let offset = sent.start;
    match read_message_with(alloc, sent.bytes, observer) {
        Ok(message) => {
            if is_answer(&message) {
                return Err(DialogueFault::NotInTurn { offset });
            }
            if !may_follow(before, &message) {
                return Err(DialogueFault::NotInTurn { offset });
            }
            Ok(message)
        }
        Err(fault) => match fault {
            JudgeFault::NotAMessage { offset: at } => Err(DialogueFault::NotAMessage {
                offset: offset + at,
            }),
            _ => Err(DialogueFault::Memory),
        },
    }
}

// The answer that the message is. It is none where it has no code.
fn read_answer<'a>(
    alloc: Global,
    sent: &RecordedMessage<'a>,
) -> Result<Option<Answer<'a>>, DialogueFault>
    ensures answer { IfOk result (λ answer. IsAnswerIn sent.now answer) }
    ensures refused { IfErr result (λ f. IsMemoryOrRefusal (IsAnswerFault (sent.now ∷ [])) f) }
{
    match feedback_codes(alloc, sent.bytes) {
        Ok(codes) => {
            if codes.is_empty() {
                return Ok(None);
            }
            Ok(Some(Answer { sent: *sent, codes }))
        }
        Err(fault) => match fault {
            ParamFault::Memory => Err(DialogueFault::Memory),
            _ => Err(DialogueFault::Answer {
                start: sent.start,
                fault,
            }),
        },
    }
}

// The answer that the first of the messages is, if there is one.
fn next_answer<'a>(
    alloc: Global,
    messages: &[RecordedMessage<'a>],
) -> Result<Option<Answer<'a>>, DialogueFault>
    ensures answer { IfOk result (λ answer. IsAnsweredBy messages.now answer) }
    ensures refused { IfErr result (λ f. IsMemoryOrRefusal (IsAnswerFault messages.now) f) }
{
    match messages.first() {
        None => Ok(None),
        Some(next) => read_answer(alloc, next),
    }
}

/// After that exchange, the exchange at the front of the messages. Where the client's is no message, the
/// observer sees why; `show_refusal` shows it the rest.
pub fn read_exchange<'a, O: UnreadObserver>(
    alloc: Global,
    before: Option<&Exchange<'_>>,
    messages: &[RecordedMessage<'a>],
    observer: &mut O,
) -> Result<Exchange<'a>, DialogueFault>
    requires some { 0 < length messages.now }
    requires below { EndsBelow messages.now }
    ensures exchange { IfOk result (λ e. BeginsWithOne (option_copied before.entry) messages.now e) }
    ensures refused { IfErr result
        (λ f. IsMemoryOrRefusal (IsExchangeFault (option_copied before.entry) messages.now) f) }
{
    let sent = messages[0];
    let message = read_client(alloc, before, &sent, observer)?;
    let (_, rest) = messages.split_at(1);
    let answer = next_answer(alloc, rest)?;
    let begins = begins_after(before, &message);
    Ok(Exchange {
        sent,
        message,
        answer,
        begins,
    })
}

/// How many messages an exchange is.
pub fn message_count(exchange: &Exchange<'_>) -> usize
    ensures { result ≡ length (sents_in exchange.now) }
{
    match exchange.answer {
        None => 1,
        Some(_) => 2,
    }
}
