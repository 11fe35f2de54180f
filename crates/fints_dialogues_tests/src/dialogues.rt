//! Recorded dialogues.
use fints_params::Params;
use fints_rules::{Broken, OrderTable, Permissions};
use fints_rules_dialogues::{
    Audited, DialogueFault, Exchange, Heard, Log, Observer, OwnParams, OwnPermissions,
    RecordedMessage, Recording, ToldIn, Turn, TurnObserver, Unread, UnreadObserver, audit,
    audit_exchanges, is_answer, read_dialogue, read_dialogue_with, read_log,
};
use fints_samples::T;
use std::alloc::Global;
use std::test::Fail;

// The end of a dialogue, and an answer with parameters.
const DIALOGUE: &[u8] =
    b"HNHBK:1:3+000000000055+300+0+1'HKEND:2:1+0'HNHBS:3:1+1'\r\nHNHBK:1:3+000000000137+300+0+1'HIRMG:2:2+0010::OK'HIBPA:3:3+12+280:10020030+Bank+1+1+300+0'HIPINS:4:1+1+1+0+5:38:6:::HKSAL:N'HNHBS:5:1+1'";

// Counts the exchanges that it looks at, and keeps the offset at which bytes cease to be a message.
#[derive(Drop)]
struct Counter {
    exchanges: usize,
    offset: Option<usize>,
    due: Option<Turn>,
}

const NOTHING_SEEN: Counter = Counter {
    exchanges: 0,
    offset: None,
    due: None,
};

impl UnreadObserver for Counter {
    fn unread(&mut self, _bytes: &[u8], unread: &Unread<'_>) {
        self.offset = Some(unread.offset);
    }
}

impl TurnObserver for Counter {
    fn refused(&mut self, due: Turn, _sent: &RecordedMessage<'_>, _fault: &DialogueFault) {
        self.due = Some(due);
    }
}

impl Observer for Counter {
    fn observe(
        &mut self,
        _permissions: &Permissions<'_>,
        _told_in: ToldIn<'_>,
        _exchange: &Exchange<'_>,
        _broken: &[Broken],
    ) {
        self.exchanges = self.exchanges.saturating_add(1);
    }

    fn lacks_bank(&mut self, heard: &[Heard<'_>]) {
        self.exchanges = heard.len();
    }
}

// Whether the one message of a recording begins a dialogue, has 55 bytes, and breaks nothing.
fn audits_one(
    alloc: Global,
    permissions: &Permissions<'_>,
    recording: &Recording<'_>,
) -> Result<bool, Fail> {
    let mut seen = NOTHING_SEEN;
    let audited = audit(alloc, permissions, recording, &mut seen)?;
    let is_seen = seen.exchanges == 1 && seen.offset.is_none();
    Ok(match audited.as_slice() {
        [one] => {
            is_seen
                && (one.sent.start, one.sent.bytes.len()) == (0, 55)
                && one.begins
                && one.broken.is_empty()
        }
        _ => false,
    })
}

// The same of a file.
fn audits_one_in(alloc: Global, permissions: &Permissions<'_>, file: &[u8]) -> Result<bool, Fail> {
    let log = read_log(alloc, file)?;
    let recording = Recording::of(alloc, &log)?;
    audits_one(alloc, permissions, &recording)
}

// The same under these parameters.
fn audits_one_by(alloc: Global, params: &Params, file: &[u8]) -> Result<bool, Fail> {
    let orders = OrderTable::read(alloc, T)?;
    let permissions = Permissions::build(alloc, params, &orders)?;
    audits_one_in(alloc, &permissions, file)
}

// The bank's parameters, as a capture.
const CAPTURE: &[u8] =
    b"HIBPA:1:3+12+280:10020030+Bank+1+1+300+0'HIPINS:2:1+1+1+0+5:38:6:::HKSAL:N'";

#[test]
fn audited(rt: HostRuntime) -> Result<(), Fail> {
    let params = Params::read(rt.alloc(), CAPTURE)?;
    assert!(rt; audits_one_by(rt.alloc(), &params, DIALOGUE)?);
    Ok(())
}

// Whether a message is judged by a bank that permits one kind of orders, and by no account.
fn is_of_bank(permissions: &Permissions<'_>, told_in: ToldIn<'_>) -> bool {
    permissions.accounts().is_empty()
        && permissions.bank().kinds == 1
        && told_in.bank.is_some()
        && told_in.user.is_none()
}

// Whether there is one message, which is judged so.
fn are_of_one(alloc: Global, permissions: &OwnPermissions<'_>) -> Result<bool, Fail> {
    let bases = permissions.each(alloc)?;
    Ok(match bases.as_slice() {
        [basis] => is_of_bank(&basis.permissions(), basis.told_in()),
        _ => false,
    })
}

// The same of exchanges.
fn are_of_one_by(alloc: Global, own: &OwnParams<'_>) -> Result<bool, Fail> {
    let orders = OrderTable::read(alloc, T)?;
    let permissions = OwnPermissions::of(alloc, own, &orders)?;
    are_of_one(alloc, &permissions)
}

// The same of a recording.
fn are_of_one_in(alloc: Global, log: &Log<'_>) -> Result<bool, Fail> {
    let exchanges = read_dialogue(alloc, log)?;
    let own = OwnParams::of(alloc, exchanges.as_slice())?;
    are_of_one_by(alloc, &own)
}

#[test]
fn permissions_of_each(rt: HostRuntime) -> Result<(), Fail> {
    let log = read_log(rt.alloc(), DIALOGUE)?;
    assert!(rt; are_of_one_in(rt.alloc(), &log)?);
    Ok(())
}

// A message that begins a dialogue and has no answer, and one that begins another.
const BROKEN_OFF: &[u8] =
    b"HNHBK:1:3+000000000055+300+0+1'HKEND:2:1+0'HNHBS:3:1+1'HNHBK:1:3+000000000055+300+0+1'HKEND:2:1+7'HNHBS:3:1+1'";

// What breaks which rules, by the parameters of the recording itself.
fn audited_by_own<'a>(alloc: Global, exchanges: &[Exchange<'a>]) -> Result<Vec<Audited<'a>>, Fail> {
    let orders = OrderTable::read(alloc, T)?;
    let mut seen = NOTHING_SEEN;
    let audited = audit_exchanges(alloc, &orders, exchanges, &mut seen)?;
    if seen.exchanges == exchanges.len() {
        Ok(audited)
    } else {
        Ok(Vec::new(alloc))
    }
}

// Whether there is one message, which begins a dialogue and breaks nothing.
fn begins_one(alloc: Global, log: &Log<'_>) -> Result<bool, Fail> {
    let exchanges = read_dialogue(alloc, log)?;
    let audited = audited_by_own(alloc, exchanges.as_slice())?;
    Ok(match audited.as_slice() {
        [one] => one.begins && one.broken.is_empty(),
        _ => false,
    })
}

#[test]
fn own_parameters(rt: HostRuntime) -> Result<(), Fail> {
    let log = read_log(rt.alloc(), DIALOGUE)?;
    assert!(rt; begins_one(rt.alloc(), &log)?);
    Ok(())
}

// Why the messages aren't audited by the parameters of the recording itself, and how many exchanges the
// observer sees.
fn refused_by_own(
    alloc: Global,
    exchanges: &[Exchange<'_>],
) -> Result<(Option<DialogueFault>, usize), Fail> {
    let orders = OrderTable::read(alloc, T)?;
    let mut seen = NOTHING_SEEN;
    let refused = audit_exchanges(alloc, &orders, exchanges, &mut seen).err();
    Ok((refused, seen.exchanges))
}

#[test]
fn no_parameters(rt: HostRuntime) -> Result<(), Fail> {
    let log = read_log(rt.alloc(), BROKEN_OFF)?;
    let exchanges = read_dialogue(rt.alloc(), &log)?;
    let (refused, seen) = refused_by_own(rt.alloc(), exchanges.as_slice())?;
    assert_eq!(rt; refused, Some(DialogueFault::NoParameters));
    assert!(rt; seen == 2);
    Ok(())
}

// Whether the one answer has parameters of the bank only, in a dialogue without a customer.
fn says_the_bank(own: &OwnParams<'_>) -> bool {
    match own.heard() {
        [heard] => {
            heard.bank().is_some()
                && heard.user().is_none()
                && heard.party().customer.as_slice().is_empty()
        }
        _ => false,
    }
}

fn says_the_bank_in(alloc: Global, log: &Log<'_>) -> Result<bool, Fail> {
    let exchanges = read_dialogue(alloc, log)?;
    let own = OwnParams::of(alloc, exchanges.as_slice())?;
    Ok(says_the_bank(&own))
}

#[test]
fn what_answers_tell(rt: HostRuntime) -> Result<(), Fail> {
    let log = read_log(rt.alloc(), DIALOGUE)?;
    assert!(rt; says_the_bank_in(rt.alloc(), &log)?);
    Ok(())
}

// Whether an exchange begins a dialogue, with a message of the client that has no answer.
fn is_unanswered(exchange: &Exchange<'_>) -> bool {
    exchange.begins && exchange.answer.is_none() && !is_answer(&exchange.message)
}

#[test]
fn unanswered_exchanges(rt: HostRuntime) -> Result<(), Fail> {
    let log = read_log(rt.alloc(), BROKEN_OFF)?;
    let exchanges = read_dialogue(rt.alloc(), &log)?;
    assert!(rt; exchanges.len() == 2);
    for exchange in exchanges.iter() {
        assert!(rt; is_unanswered(exchange));
    }
    Ok(())
}

// The second message has number 2, so it opens no dialogue.
const UNANSWERED: &[u8] =
    b"HNHBK:1:3+000000000055+300+0+1'HKEND:2:1+0'HNHBS:3:1+1'HNHBK:1:3+000000000055+300+0+2'HKEND:2:1+0'HNHBS:3:1+2'";

#[test]
fn an_answer_is_missing(rt: HostRuntime) -> Result<(), Fail> {
    let log = read_log(rt.alloc(), UNANSWERED)?;
    let mut seen = NOTHING_SEEN;
    let fault = read_dialogue_with(rt.alloc(), &log, &mut seen).err();
    assert_eq!(rt; fault, Some(DialogueFault::NotInTurn { offset: 55 }));
    assert!(rt; is_due(&seen, 1, true));
    Ok(())
}

#[test]
fn exchanges(rt: HostRuntime) -> Result<(), Fail> {
    let log = read_log(rt.alloc(), DIALOGUE)?;
    let exchanges = read_dialogue(rt.alloc(), &log)?;
    assert!(rt; exchanges.len() == 1);
    for exchange in exchanges.iter() {
        assert!(rt; exchange.message.number() == 1 && exchange.answer.is_some());
    }
    Ok(())
}

#[test]
fn no_dialogue(rt: HostRuntime) {
    let fault = read_log(rt.alloc(), b"\r\n").err();
    assert_eq!(rt; fault, Some(DialogueFault::NoMessage));
}

// Whether what was refused is the client's message of this number, or the answer to it.
fn is_due(seen: &Counter, number: usize, is_answer: bool) -> bool {
    match seen.due {
        Some(due) => due.number == number && due.is_answer == is_answer,
        None => false,
    }
}

// Its second segment has the number 3.
const MISNUMBERED: &[u8] = b"\nHNHBK:1:3+000000000055+300+0+1'HKEND:3:1+0'HNHBS:3:1+1'";

#[test]
fn an_unread_message(rt: HostRuntime) -> Result<(), Fail> {
    let log = read_log(rt.alloc(), MISNUMBERED)?;
    let mut seen = NOTHING_SEEN;
    let fault = read_dialogue_with(rt.alloc(), &log, &mut seen).err();
    assert_eq!(rt; fault, Some(DialogueFault::NotAMessage { offset: 32 }));
    assert_eq!(rt; seen.offset, Some(31));
    assert!(rt; is_due(&seen, 1, false));
    Ok(())
}
