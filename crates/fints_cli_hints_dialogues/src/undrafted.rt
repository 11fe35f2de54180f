//! What the refusal of a draft is about: what no script sends as it was recorded.
use fints_cli_hints_words::places::{HintText, say};
use fints_params::sealed_data;
use fints_rules_dialogues::Exchange;
use fints_syntax::{Kind, Memory, OwnedSegment, SegmentView, parse_all};
use std::alloc::Global;

const WHOLE_DIALOGUE: &str =
    "the script or its case would be longer than 1,048,576 bytes: record a shorter dialogue";

const WHOLE_MESSAGE: &str =
    "a script has at most 1,000 steps, and a step 100 segments, 10,000 items in each list of elements, and a weight of 1,000,000";

const FRAME: &str =
    "a script sends protocol version 300, in message N of a run the number N, the dialogue id 0 in message 1 and one of 1 to 30 characters after it, and nothing more";

const SIGNATURE: &str =
    "a script sends HNSHK 4 and HNSHA 2 without a reference number, and has at most 20 signers, one for each two that differ";

const SECRET: &str =
    "a PIN or a TAN is a field of 1 to 99 characters, U+0020 to U+007E and U+00A0 to U+00FF, and a script has at most 100 of them; they are in the last element, 4 of HNSHA and 2 of HKPAE, and a + in them is written ?+; element 3 of HNSHA is empty, and element 2 letters and digits";

const TEXT: &str =
    "a script sends no reference number, no escape that isn't needed, and no character but U+0020 to U+007E and U+00A0 to U+00FF";

// What a script sends in segments of a kind.
fn sent_as(kind: Kind) -> &'static str {
    if kind.is(b"HNHBK") || kind.is(b"HNHBS") {
        FRAME
    } else if kind.is(b"HNSHK") {
        SIGNATURE
    } else if kind.is(b"HNSHA") || kind.is(b"HKPAE") {
        SECRET
    } else {
        TEXT
    }
}

// The kind of the segment of a number.
fn kind_in(views: &[SegmentView<'_>], number: usize) -> Option<Kind> {
    let found = views.iter().find(|it| usize::from(it.number()) == number)?;
    Some(found.id())
}

// The kind of the segment of a number in the data of an HNVSD.
fn kind_inside(alloc: Global, segment: &OwnedSegment, number: usize) -> Option<Kind> {
    let views = parse_all(alloc, sealed_data(segment)?).ok()?;
    kind_in(views.as_slice(), number)
}

// The kind of the segment of a number in a message, sealed or not.
fn kind_of(alloc: Global, bytes: &[u8], number: usize) -> Result<Option<Kind>, Memory> {
    let Ok(views) = parse_all(alloc, bytes) else {
        return Ok(None);
    };
    if let Some(kind) = kind_in(views.as_slice(), number) {
        return Ok(Some(kind));
    }
    match views.iter().find(|it| it.id().is(b"HNVSD")) {
        Some(envelope) => Ok(kind_inside(alloc, &envelope.to_owned(alloc)?, number)),
        None => Ok(None),
    }
}

// What a script sends at a segment of a message of the client.
fn segment_hint(
    alloc: Global,
    message: usize,
    segment: usize,
    exchanges: &[Exchange<'_>],
) -> HintText {
    let Some(exchange) = exchanges.get(message.saturating_sub(1)) else {
        return Ok(None);
    };
    if segment == 1 && message > 1 && exchange.begins {
        let number = dialogues_in(exchanges.get(..message).unwrap_or(&[]));
        return say(
            alloc,
            format_args!("message {message} begins dialogue {number}: draft it by --part {number}"),
        );
    }
    let Some(kind) = kind_of(alloc, exchange.sent.bytes, segment)? else {
        return Ok(None);
    };
    let why = sent_as(kind);
    say(
        alloc,
        format_args!("message {message}, segment {segment} ({kind}): {why}"),
    )
}

// How many dialogues the exchanges begin.
fn dialogues_in(exchanges: &[Exchange<'_>]) -> usize {
    exchanges.iter().filter(|it| it.begins).count()
}

/// How many dialogues a recording of these exchanges has.
pub fn part_hint(alloc: Global, exchanges: &[Exchange<'_>]) -> HintText {
    match dialogues_in(exchanges) {
        1 => say(alloc, "the recording has one dialogue"),
        count => say(
            alloc,
            format_args!("the recording has {count} dialogues, which `audit` numbers"),
        ),
    }
}

/// What the refusal of a draft of these exchanges is about. The client's messages count from 1, and a segment has the number in
/// its head; 0 is the dialogue, or the message as a whole.
pub fn draft_hint(
    alloc: Global,
    message: usize,
    segment: usize,
    exchanges: &[Exchange<'_>],
) -> HintText {
    match (message, segment) {
        (0, _) => say(alloc, WHOLE_DIALOGUE),
        (_, 0) => say(alloc, format_args!("message {message}: {WHOLE_MESSAGE}")),
        _ => segment_hint(alloc, message, segment, exchanges),
    }
}
