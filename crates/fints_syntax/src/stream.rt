//! Segments in bytes that come in pieces.
ghost use Rattle.std.specs.Prelude.{List, ◌≡◌, ◌≤◌, ◌+◌, ◌-◌, ◌++◌, ◌∷◌, [], ℕ, length, take, drop, OnOk, IfOk, IfErr, IsTrue, ◌↔◌};
ghost use Rattle.fints_syntax_segments.specs.Segment.{segment_bytes};
ghost use Rattle.fints_syntax.specs.Capture.{IsClean};
ghost use Rattle.fints_syntax.specs.Streams.{IsReady, IsReadTo, IsPieceStop, IsStreamFault, moved_by, data_place};
ghost use Rattle.fints_syntax.specs.declared.capture.Placed.{Placed};
ghost use Rattle.fints_syntax.specs.declared.capture.TheConstants.{MAX_CAPTURE};
ghost use Rattle.fints_syntax.specs.declared.fault.SyntaxKind.TheVariants as kinds;

use crate::capture::{MAX_CAPTURE, breaks_len};
use crate::fault::{SyntaxFault, SyntaxKind};
use crate::view::{SegmentView, parse_on};
use crate::window::Search;
use fints_syntax_segments::Memory;

/// How far bytes that hold no whole segment are looked at. When more bytes follow, the look goes on
/// from there.
#[derive(Clone, Copy)]
pub struct Begun {
    /// How many line breaks are at the front.
    pub gap: usize,
    /// How far the segment after them is looked at.
    pub search: Search,
}

impl Begun {
    /// Nothing is looked at.
    pub fn new() -> Begun
        ensures { (rest : List ℕ) → IsReady rest result }
    {
        Begun {
            gap: 0,
            search: Search::new(),
        }
    }
}

/// How far bytes are read.
#[derive(Clone, Copy)]
pub struct ReadTo {
    /// How many bytes the whole segments take, with the line breaks before and between them.
    pub whole: usize,
    /// How far the bytes after them are looked at.
    pub rest: Begun,
}

/// What takes segments one after the other.
pub trait Taker {
    ghost use Rattle.fints_syntax.specs.declared.capture.Placed.{Placed};

    /// The state is right for these segments, which were taken.
    ghost good: { List Placed → Self → Type 0 };

    /// Takes a segment, and the offset in the stream at which it starts.
    fn take(&mut self, start: usize, segment: &SegmentView<'_>) -> Result<(), Memory>
        requires { start + length (segment_bytes segment.now) ≤ MAX_CAPTURE }
        ensures { OnOk result ((seen : List Placed) → good seen self.old
            → good (seen ++ record { start = start; segment = segment.now } ∷ []) self.new) };
}

/// The offset of item 1 of element 2 of a segment that starts at `start`, counted from where that
/// is counted from; of a binary item, the offset of its data. It is 0 where there is no element 2.
pub fn data_place(start: usize, segment: &SegmentView<'_>) -> usize
    requires { start + length (segment_bytes segment.now) ≤ MAX_CAPTURE }
    ensures place { result ≡ data_place (record { start = start; segment = segment.now }) }
    ensures within { result ≤ MAX_CAPTURE }
{
    match segment.item_start(2, 1) {
        Some(offset) => start + offset,
        None => 0,
    }
}

// Where the segment after the line breaks begins, and how far it is looked at.
fn begin(bytes: &[u8], from: Begun) -> Begun
    requires { IsReady bytes.now from }
    ensures ready { IsReady bytes.now result }
    ensures clean { IsClean (drop result.gap bytes.now) }
{
    let (_, rest) = bytes.split_at(from.gap);
    let breaks = breaks_len(rest);
    if breaks == 0 {
        return from;
    }
    Begun {
        gap: from.gap + breaks,
        search: Search::new(),
    }
}

// More bytes may fix the fault.
fn is_unfinished(kind: SyntaxKind) -> bool
    ensures { IsTrue result ↔ (kind ≡ kinds.Incomplete) }
{
    matches!(kind, SyntaxKind::Incomplete)
}

fn read_to(whole: usize, start: usize, search: Search) -> ReadTo
    requires { whole ≤ start }
    ensures { result ≡ record { whole = whole; rest = record { gap = start - whole; search = search } } }
{
    let gap = start - whole;
    ReadTo {
        whole,
        rest: Begun { gap, search },
    }
}

// Gives all whole segments of the bytes, which begin at `at` in a stream.
fn read_on<T: Taker>(
    bytes: &[u8],
    at: usize,
    from: Begun,
    taker: &mut T,
) -> Result<ReadTo, SyntaxFault>
    requires short { at + length bytes.now ≤ MAX_CAPTURE }
    requires ready { IsReady bytes.now from }
    ensures read { IfOk result (λ r. (placed : List Placed) × IsReadTo bytes.now placed r
        × ((seen : List Placed) → T.good seen taker.old → T.good (seen ++ moved_by at placed) taker.new)) }
    ensures stopped { IfErr result (λ f. IsPieceStop at bytes.now f) }
{
    let begun = begin(bytes, from);
    let mut whole = 0;
    let mut start = begun.gap;
    let mut search = begun.search;
    while start < bytes.len() {
        let (_, rest) = bytes.split_at(start);
        match parse_on(rest, &mut search) {
            Ok((segment, len)) => {
                taker.take(at + start, &segment)?;
                let (_, more) = rest.split_at(len);
                whole = start + len;
                start = whole + breaks_len(more);
                search = Search::new();
            }
            Err(fault) => {
                if is_unfinished(fault.kind) {
                    return Ok(read_to(whole, start, search));
                }
                return Err(SyntaxFault {
                    kind: fault.kind,
                    offset: at + (start + fault.offset),
                });
            }
        }
    }
    Ok(read_to(whole, start, search))
}

/// Gives all whole segments of bytes that begin at `at` in a stream, one after the other, each
/// with its offset in the stream. `from` says how far the bytes at the front were looked at before;
/// they hold no whole segment. The answer says how far the bytes are read then. An unfinished
/// segment is no fault, since more bytes may end it. Of the stream 4,194,304 bytes are read: where
/// it has more, it is refused. The offset of a fault is counted in the stream.
pub fn read_piece<T: Taker>(
    bytes: &[u8],
    at: usize,
    from: Begun,
    taker: &mut T,
) -> Result<ReadTo, SyntaxFault>
    requires at { at ≤ MAX_CAPTURE }
    requires ready { IsReady (take (MAX_CAPTURE - at) bytes.now) from }
    ensures read { IfOk result (λ r. (placed : List Placed) × IsReadTo bytes.now placed r
        × ((seen : List Placed) → T.good seen taker.old → T.good (seen ++ moved_by at placed) taker.new)) }
    ensures within { OnOk result (at + length bytes.now ≤ MAX_CAPTURE) }
    ensures fault { IfErr result (λ f. IsStreamFault at bytes.now f) }
{
    let limit = MAX_CAPTURE - at;
    if bytes.len() <= limit {
        return read_on(bytes, at, from, taker);
    }
    let (window, _) = bytes.split_at(limit);
    match read_on(window, at, from, taker) {
        Ok(_) => Err(SyntaxFault {
            kind: SyntaxKind::CaptureTooLong,
            offset: MAX_CAPTURE,
        }),
        Err(fault) => Err(fault),
    }
}
