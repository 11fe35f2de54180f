//! What a reader has read of bytes that more may follow.
ghost use Rattle.std.specs.Prelude.{◌≡◌, [], IfOk, IfErr};
ghost use Rattle.fints_params.specs.Refused.{IsRefusedOf};
ghost use Rattle.fints_params.specs.Faults.{IsMemoryOr};
ghost use Rattle.fints_params.specs.Pieces.{IsPieceFault};
ghost use Rattle.fints_params.specs.Steps.{HasRead, HasCome, HasComeIn, EndsWithin, ReadsCapture, ReadsNext, StopsNext};

use crate::fault::{ParamFault, is_memory};
use crate::opening::{SegmentTaker, take_view};
use fints_syntax::{
    Begun, Elements, Memory, ReadTo, SegmentView, SyntaxFault, SyntaxKind, Taker, read_piece,
};
use std::alloc::Global;
use std::mem::replace;

/// A reader, and the first refusal among the segments that came, after which it gets no more. A
/// segment at which a glance isn't enough is read into the memory of the one before.
#[derive(Drop)]
pub struct Reading<R> {
    pub reader: R,
    pub refused: Option<ParamFault>,
    alloc: Global,
    elements: Elements,
}

impl<R: SegmentTaker + Drop> Reading<R> {
    /// Nothing is read into the reader.
    pub fn new(alloc: Global, reader: R) -> Reading<R>
        ensures reader { result.reader ≡ reader }
        ensures none { result.refused ≡ None }
    {
        Reading {
            reader,
            refused: None,
            alloc,
            elements: Elements::new(alloc),
        }
    }

    // Reads a segment that starts at this offset.
    fn read(&mut self, start: usize, segment: &SegmentView<'_>) -> Result<(), ParamFault>
        requires { EndsWithin (record { start = start; segment = segment.now }) }
        ensures kept { self.new.refused ≡ self.old.refused }
        ensures ok { IfOk result (λ _. ReadsNext R.good self.old.reader self.new.reader
            (record { start = start; segment = segment.now })) }
        ensures stopped { IfErr result (λ f. IsMemoryOr
            (StopsNext R.rule R.good self.old.reader (record { start = start; segment = segment.now })) f) }
    {
        if self.reader.glance(segment)? {
            return Ok(());
        }
        let elements = replace(&mut self.elements, Elements::new(self.alloc));
        self.elements = take_view(self.alloc, start, segment, elements, &mut self.reader)?;
        Ok(())
    }
}

impl<R: SegmentTaker + Drop> Taker for Reading<R> {
    ghost good = { λ placed reading. HasRead R.rule R.good placed reading.refused reading.reader };

    fn take(&mut self, start: usize, segment: &SegmentView<'_>) -> Result<(), Memory> {
        if self.refused.is_some() {
            return Ok(());
        }
        match self.read(start, segment) {
            Ok(()) => Ok(()),
            Err(fault) => {
                if is_memory(&fault) {
                    return Err(Memory);
                }
                self.refused = Some(fault);
                Ok(())
            }
        }
    }
}

/// How far bytes are read, and what was read of their whole segments.
#[derive(Drop)]
pub struct Progress<R> {
    pub to: ReadTo,
    pub reading: Reading<R>,
}

impl<R: SegmentTaker + Drop> Progress<R> {
    /// No byte is read.
    pub fn new(alloc: Global, reader: R) -> Progress<R>
        requires { R.good [] reader }
        ensures { HasCome R.rule R.good [] result.to result.reading.refused result.reading.reader }
    {
        Progress {
            to: ReadTo {
                whole: 0,
                rest: Begun::new(),
            },
            reading: Reading::new(alloc, reader),
        }
    }

    /// Reads on, where these bytes begin with those that were read.
    pub fn go_on(self, bytes: &[u8]) -> Result<Progress<R>, ParamFault>
        requires { HasComeIn R.rule R.good bytes.now self.to self.reading.refused self.reading.reader }
        ensures read { IfOk result (λ p.
            HasCome R.rule R.good bytes.now p.to p.reading.refused p.reading.reader) }
        ensures fault { IfErr result (λ f. IsMemoryOr (IsPieceFault bytes.now) f) }
    {
        let Progress { to, mut reading } = self;
        let (_, rest) = bytes.split_at(to.whole);
        match read_piece(rest, to.whole, to.rest, &mut reading) {
            Ok(read) => Ok(Progress {
                to: ReadTo {
                    whole: to.whole + read.whole,
                    rest: read.rest,
                },
                reading,
            }),
            Err(fault) => Err(ParamFault::from(fault)),
        }
    }

    /// The reader, where the bytes that were read are all. A segment that has begun is a fault then.
    pub fn end(self, bytes: &[u8]) -> Result<R, ParamFault>
        requires { HasCome R.rule R.good bytes.now self.to self.reading.refused self.reading.reader }
        ensures ok { IfOk result (λ reader. ReadsCapture R.good bytes.now reader) }
        ensures refused { IfErr result (λ f. IsRefusedOf R.rule bytes.now f) }
    {
        let Progress { to, reading } = self;
        let offset = to.whole + to.rest.gap;
        if offset < bytes.len() {
            return Err(ParamFault::Syntax(SyntaxFault {
                kind: SyntaxKind::Incomplete,
                offset,
            }));
        }
        match reading.refused {
            Some(fault) => Err(fault),
            None => Ok(reading.reader),
        }
    }
}
