//! What a client makes new for each message.
ghost use Rattle.std.specs.Prelude.{◌≡◌};
ghost use Rattle.fints_cli_drafts_alike.specs.Alike.{goes_on, has_process, is_renewable, is_renewed, refers};

use fints_syntax::OwnedSegment;

/// Whether an HKTAN has this process.
pub fn has_process(segment: &OwnedSegment, process: &[u8]) -> bool
    ensures { result ≡ has_process segment.now process.now }
{
    segment.head.id.is(b"HKTAN") && segment.value(2, 1) == process
}

/// Whether it is an HKTAN that goes on with an order (FinTS 3.0, Security PIN/TAN, HKTAN): process 2 sends the
/// TAN, process S asks whether the order was released elsewhere.
pub fn goes_on(segment: &OwnedSegment) -> bool
    ensures { result ≡ goes_on segment.now }
{
    has_process(segment, b"2") || has_process(segment, b"S")
}

/// Whether element 6 is the bank's reference of an order.
pub fn refers(segment: &OwnedSegment) -> bool
    ensures { result ≡ refers segment.now }
{
    goes_on(segment) && segment.head.version >= 5
}

/// Whether a segment holds something that a client makes new.
pub fn is_renewable(segment: &OwnedSegment) -> bool
    ensures { result ≡ is_renewable segment.now }
{
    let kind = segment.head.id;
    kind.is(b"HNHBK") || kind.is(b"HNSHK") || kind.is(b"HNSHA") || refers(segment)
}

/// Whether a client makes an item of an element new, by their numbers: the size in HNHBK; the control
/// reference, the date and the time in HNSHK; the control reference and the TAN in HNSHA; and the reference
/// of an order.
pub fn is_renewed(segment: &OwnedSegment, element: usize, item: usize) -> bool
    ensures { result ≡ is_renewed segment.now element item }
{
    let kind = segment.head.id;
    (kind.is(b"HNHBK") && element == 2 && item == 1)
        || (kind.is(b"HNSHK") && element == 4 && item == 1)
        || (kind.is(b"HNSHK") && element == 9 && (item == 2 || item == 3))
        || (kind.is(b"HNSHA") && element == 2 && item == 1)
        || (kind.is(b"HNSHA") && element == 4 && item == 2)
        || (refers(segment) && element == 6 && item == 1)
}
