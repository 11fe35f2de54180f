//! Parameters and feedback of a capture that comes in pieces.
ghost use Rattle.std.specs.Prelude.{◌≡◌, ℕ, None, Some, OnOk, IfOk, IfErr};
ghost use Rattle.fints_params.specs.Captures.{IsParamsOf, IsCodesOf, IsParamFault, IsEitherFault};
ghost use Rattle.fints_params.specs.Parameters.{fault_after};
ghost use Rattle.fints_params.specs.Pieces.{unread, answer_after, IsReceived, IsNotReceived, TellsNothing};
ghost use Rattle.fints_params.specs.Steps.{HasComeIn};
ghost use Rattle.fints_params.specs.Taken.{IsBothSoFar};

use crate::both::{Both, ParamsAndCodes, both_in, none_read};
use crate::fault::ParamFault;
use crate::params::{Params, params_in};
use crate::progress::{Progress, Reading};
use fints_syntax::StreamBuffer;
use std::alloc::Global;
use std::marker::Model;

/// What reads a capture as its pieces come: its parameters, and beside them the codes of its
/// feedback. A contract sees what it keeps. A segment is read when its last byte has come, and only
/// once. The bytes are kept, so that when memory runs out the reader is as before; what was read of
/// them is read once more then.
#[derive(Drop)]
pub struct ParamReader {
    buffer: StreamBuffer,
    reading: Reading<Both>,
    alloc: Global,
}

impl Model for ParamReader {
    ghost use Rattle.fints_params.specs.Pieces.{Received};

    ghost Value = { Received };

    ghost use Rattle.fints_params.specs.Inside.{received_of, IsParamReader};

    ghost view = { received_of };

    ghost invariant = { IsParamReader };
}

impl ParamReader {
    /// A reader at the start of a capture. It takes no memory before the first piece.
    pub fn new(alloc: Global) -> ParamReader
        ensures { result ≡ unread }
    {
        ParamReader {
            buffer: StreamBuffer::new(alloc),
            reading: Reading::new(alloc, none_read(alloc)),
            alloc,
        }
    }

    /// Reads a piece of the capture. It is refused only for the syntax fault of the capture so far,
    /// whose offset is counted in the capture; an unfinished segment is none. After a fault every
    /// piece is refused with its offset. When memory runs out the reader is as before, so that the
    /// piece may be fed again.
    pub fn feed(&mut self, piece: &[u8]) -> Result<(), ParamFault>
        ensures received { OnOk result (IsReceived self.old piece.now self.new) }
        ensures refused { IfErr result (λ f. IsNotReceived self.old.failed self.old piece.now f self.new) }
    {
        match self.buffer.feed(piece, &mut self.reading) {
            Ok(()) => Ok(()),
            Err(fault) => {
                self.buffer.read_anew();
                self.reading = Reading::new(self.alloc, none_read(self.alloc));
                Err(ParamFault::from(fault))
            }
        }
    }

    // What was read of the capture's front, and its bytes; after a fault of a piece its offset.
    fn into_progress(self) -> Result<(Progress<Both>, StreamBuffer), ParamFault>
        ensures come { IfOk result (λ it.
            HasComeIn fault_after IsBothSoFar it.1.bytes it.0.to it.0.reading.refused it.0.reading.reader) }
        ensures bytes { IfOk result (λ it. (self.failed ≡ None) × (it.1.bytes ≡ self.bytes)) }
        ensures failed { IfErr result (λ f. (offset : ℕ) × (self.failed ≡ Some offset)
            × (f ≡ answer_after offset)) }
    {
        if let Some(fault) = self.buffer.failure() {
            return Err(ParamFault::Syntax(fault));
        }
        let ParamReader {
            buffer,
            reading,
            ..
        } = self;
        let to = buffer.read_to();
        Ok((Progress { to, reading }, buffer))
    }

    /// The parameters of the capture, which ends here, as `Params::read` gives them, or the first
    /// refusal in its order; after a fault of a piece its offset.
    pub fn finish(self) -> Result<Params, ParamFault>
        ensures rows { IfOk result (λ p. (self.failed ≡ None) × IsParamsOf self.bytes p) }
        ensures refused { IfErr result (λ f. TellsNothing IsParamFault self.failed self f) }
    {
        let (progress, buffer) = self.into_progress()?;
        params_in(progress, buffer.as_bytes())
    }

    /// The parameters of the capture, which ends here, and the codes of its feedback, as
    /// `params_and_codes` gives them, or the first refusal in its order; after a fault of a piece its
    /// offset.
    pub fn finish_with_codes(self) -> Result<ParamsAndCodes, ParamFault>
        ensures rows { IfOk result (λ it. (self.failed ≡ None) × IsParamsOf self.bytes it.params) }
        ensures codes { IfOk result (λ it. IsCodesOf self.bytes it.codes.items) }
        ensures refused { IfErr result (λ f. TellsNothing IsEitherFault self.failed self f) }
    {
        let (progress, buffer) = self.into_progress()?;
        both_in(progress, buffer.as_bytes())
    }
}
