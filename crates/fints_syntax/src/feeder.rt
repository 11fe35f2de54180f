//! A feeder: it gives the segments of a stream as its pieces come.
ghost use Rattle.std.specs.Prelude.{◌≡◌, ◌≤◌, [], length, OnOk, IfOk, IfErr};
ghost use Rattle.std.specs.List.{count_by};
ghost use Rattle.fints_syntax.specs.Streams.{is_quote};
ghost use Rattle.fints_syntax.specs.Feeding.{unfed, IsGiven, IsNotGiven, IsEnded, IsUnended};

use crate::buffer::StreamBuffer;
use crate::fault::{SyntaxFault, SyntaxKind};
use crate::taken::TakenSegments;
use fints_syntax_segments::OwnedSegment;
use std::alloc::Global;
use std::marker::Model;
use std::mem::replace;

/// What reads a stream of segments, with CR and LF between them, as its pieces come; a contract
/// sees what it keeps. The bytes of an unfinished segment are not looked at anew when more come.
#[derive(Drop)]
pub struct Feeder {
    buffer: StreamBuffer,
    places: Vec<usize>,
    alloc: Global,
}

impl Model for Feeder {
    ghost use Rattle.fints_syntax.specs.Feeding.{Fed};

    ghost Value = { Fed };

    ghost use Rattle.fints_syntax.specs.FeederFields.{fed_of, IsFeeder};

    ghost view = { fed_of };

    ghost invariant = { IsFeeder };
}

impl Feeder {
    /// A feeder at the start of a stream. It takes no memory before the first piece.
    pub fn new(alloc: Global) -> Feeder
        ensures { result ≡ unfed }
    {
        Feeder {
            buffer: StreamBuffer::new(alloc),
            places: Vec::new(alloc),
            alloc,
        }
    }

    /// The segments that the piece completes, in order. A fault is that of the stream so far, with
    /// its offset in the stream, but an unfinished segment is none; of the stream 4,194,304 bytes
    /// are read. After a fault every piece is refused with its offset. When memory runs out the
    /// feeder is as before, so that the piece may be fed again.
    pub fn feed(&mut self, piece: &[u8]) -> Result<Vec<OwnedSegment>, SyntaxFault>
        ensures given { IfOk result (λ v. IsGiven self.old piece.now v.items self.new) }
        ensures few { IfOk result (λ v. length v.items ≤ count_by is_quote piece.now) }
        ensures refused { IfErr result (λ f. IsNotGiven self.old.failed self.old piece.now f self.new) }
    {
        if let Some(fault) = self.buffer.failure() {
            return Err(fault);
        }
        let mut taken = TakenSegments::new(self.alloc);
        match self.buffer.feed(piece, &mut taken) {
            Ok(()) => {
                self.buffer.drop_whole();
                self.places = taken.places;
                Ok(taken.segments)
            }
            Err(fault) => {
                if self.buffer.failure().is_none() {
                    return Err(fault);
                }
                self.places = Vec::new(self.alloc);
                Err(fault)
            }
        }
    }

    /// Takes the places of the segments that the last piece gave, in their order, and leaves none:
    /// for each the offset in the stream of item 1 of element 2, of its data where it is binary, or
    /// 0 where there is no element 2. A piece that was refused because memory ran out counts as none. It
    /// takes no memory.
    pub fn take_places(&mut self) -> Vec<usize>
        ensures places { result.items ≡ self.old.places }
        ensures left { self.new ≡ record self.old { places = [] } }
    {
        replace(&mut self.places, Vec::new(self.alloc))
    }

    /// The stream ends here. It may not where a segment has begun, which is `Incomplete` at its
    /// offset, or after a fault. It takes no memory.
    pub fn finish(self) -> Result<(), SyntaxFault>
        ensures ended { OnOk result (IsEnded self) }
        ensures unended { IfErr result (λ f. IsUnended self.failed self f) }
    {
        if let Some(fault) = self.buffer.failure() {
            return Err(fault);
        }
        match self.buffer.begun_at() {
            Some(offset) => Err(SyntaxFault {
                kind: SyntaxKind::Incomplete,
                offset,
            }),
            None => Ok(()),
        }
    }
}
