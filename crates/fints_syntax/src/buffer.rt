//! What is kept of a stream of segments that comes in pieces.
ghost use Rattle.std.specs.Prelude.{List, ◌≡◌, ◌↔◌, ◌≤◌, ◌<◌, ◌+◌, ◌++◌, length, drop, IsTrue, MatchOption, OnOk, IfErr};
ghost use Rattle.std.specs.Option.{option_map};
ghost use Rattle.fints_syntax.specs.Buffered.{failed_at, read_end, rest_at, without_whole, IsFed, IsEmptyBuffer, IsUnfed, IsUnread};
ghost use Rattle.fints_syntax.specs.Streams.{moved_by};
ghost use Rattle.fints_syntax.specs.declared.capture.Placed.{Placed};
ghost use Rattle.fints_syntax.specs.declared.fault.SyntaxKind.TheVariants as kinds;

use crate::fault::{SyntaxFault, SyntaxKind};
use crate::stream::{Begun, ReadTo, Taker, read_piece};
use std::alloc::Global;
use std::marker::Model;

/// Bytes of a stream, and how far they are read; a contract sees what is kept. What is left of a
/// segment that has begun is not looked at anew when more bytes come.
#[derive(Drop)]
pub struct StreamBuffer {
    bytes: Vec<u8>,
    at: usize,
    to: ReadTo,
    failed: Option<usize>,
}

impl Model for StreamBuffer {
    ghost use Rattle.fints_syntax.specs.Buffered.{Buffered};

    ghost Value = { Buffered };

    ghost use Rattle.fints_syntax.specs.BufferFields.{buffered_of, IsBuffer};

    ghost view = { buffered_of };

    ghost invariant = { IsBuffer };
}

fn failed_at(offset: usize) -> SyntaxFault
    ensures { result ≡ failed_at offset }
{
    SyntaxFault {
        kind: SyntaxKind::Failed,
        offset,
    }
}

fn is_memory(kind: SyntaxKind) -> bool
    ensures { IsTrue result ↔ (kind ≡ kinds.Memory) }
{
    matches!(kind, SyntaxKind::Memory)
}

// Nothing is read.
fn read_nothing() -> ReadTo
    ensures { IsUnread result }
{
    ReadTo {
        whole: 0,
        rest: Begun::new(),
    }
}

// Leaves out the bytes at the front.
fn drop_front(bytes: &mut Vec<u8>, count: usize)
    requires { count ≤ length bytes.old.items }
    ensures { bytes.new.items ≡ drop count bytes.old.items }
{
    if count == 0 {
        return;
    }
    let left = bytes.len() - count;
    bytes.copy_within(count.., 0);
    bytes.truncate(left);
}

impl StreamBuffer {
    /// The start of a stream. It takes no memory before the first piece.
    pub fn new(alloc: Global) -> StreamBuffer
        ensures { IsEmptyBuffer result }
    {
        StreamBuffer {
            bytes: Vec::new(alloc),
            at: 0,
            to: read_nothing(),
            failed: None,
        }
    }

    /// Keeps a piece, and hands on the segments that are whole with it. A fault is that of the stream
    /// so far, with its offset in the stream; an unfinished segment is none, and of the stream
    /// 4,194,304 bytes are read. After a fault every piece is refused with its offset. When memory runs
    /// out, what is kept is as before; what took the segments may have taken some then.
    pub fn feed<T: Taker>(&mut self, piece: &[u8], taker: &mut T) -> Result<(), SyntaxFault>
        ensures fed { OnOk result ((placed : List Placed) × IsFed self.old piece.now placed self.new
            × ((seen : List Placed) → T.good seen taker.old
            → T.good (seen ++ moved_by (rest_at self.old) placed) taker.new)) }
        ensures refused { IfErr result (λ f. IsUnfed self.old.failed self.old piece.now f self.new) }
    {
        if let Some(offset) = self.failed {
            return Err(failed_at(offset));
        }
        let kept = self.bytes.len();
        self.bytes.extend_from_slice(piece)?;
        let to = self.to;
        let (_, rest) = self.bytes.as_slice().split_at(to.whole);
        match read_piece(rest, self.at + to.whole, to.rest, taker) {
            Ok(read) => {
                self.to = ReadTo {
                    whole: to.whole + read.whole,
                    rest: read.rest,
                };
                Ok(())
            }
            Err(fault) => {
                if is_memory(fault.kind) {
                    self.bytes.truncate(kept);
                    return Err(fault);
                }
                let alloc = *self.bytes.allocator();
                self.bytes = Vec::new(alloc);
                self.to = read_nothing();
                self.failed = Some(fault.offset);
                Err(fault)
            }
        }
    }

    /// Gives up the bytes that whole segments take.
    pub fn drop_whole(&mut self)
        ensures { self.new ≡ without_whole self.old }
    {
        drop_front(&mut self.bytes, self.to.whole);
        self.at += self.to.whole;
        self.to.whole = 0;
    }

    /// Forgets how far the bytes are read, so that the next piece has them read anew.
    pub fn read_anew(&mut self)
        ensures kept { (self.new.bytes ≡ self.old.bytes) × (self.new.at ≡ self.old.at)
            × (self.new.failed ≡ self.old.failed) }
        ensures unread { IsUnread self.new.to }
    {
        self.to = read_nothing();
    }

    /// The bytes that are kept.
    pub fn as_bytes(&self) -> &[u8]
        ensures { result.now ≡ self.now.bytes }
    {
        self.bytes.as_slice()
    }

    /// How far they are read.
    pub fn read_to(&self) -> ReadTo
        ensures { result ≡ self.now.to }
    {
        self.to
    }

    /// The fault that is answered once the stream has met one.
    pub fn failure(&self) -> Option<SyntaxFault>
        ensures { result ≡ option_map failed_at self.now.failed }
    {
        match self.failed {
            Some(offset) => Some(failed_at(offset)),
            None => None,
        }
    }

    /// Whether the stream may end after the bytes, which are all read, or where the segment begins
    /// that doesn't end in them.
    pub fn begun_at(&self) -> Option<usize>
        ensures { MatchOption result (length self.now.bytes ≤ read_end self.now.to) (λ offset.
            (read_end self.now.to < length self.now.bytes) × (offset ≡ self.now.at + read_end self.now.to)) }
    {
        let end = self.to.whole + self.to.rest.gap;
        if end < self.bytes.len() {
            return Some(self.at + end);
        }
        None
    }
}
