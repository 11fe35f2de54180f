//! A capture that is read while its file comes.
ghost use Rattle.std.specs.Prelude.{◌≡◌, ℕ, List, [], OnOk};
ghost use Rattle.std.proofs.Common.{inl, inr};
ghost use Rattle.fints_params.specs.Captures.{IsReadOf, IsBothReadOf};
ghost use Rattle.fints_cli_files.specs.Captures.{AreKept, HoldsCapture, kept_after};

use crate::reading::PieceTaker;
use fints_params::{ParamFault, ParamReader, Params, ParamsAndCodes};
use fints_syntax::Memory;
use std::alloc::Global;
use std::marker::Model;

/// What the pieces of a capture gave so far; a contract sees it. A syntax fault is kept, so that the
/// file is read to its end. So are the bytes, where a hint may need them.
#[derive(Drop)]
pub struct Capture {
    reader: ParamReader,
    fault: Option<ParamFault>,
    keeps: bool,
    bytes: Vec<u8>,
}

impl Model for Capture {
    ghost use Rattle.fints_cli_files.specs.Captures.{FedReader};

    ghost Value = { FedReader };

    ghost view = { λ c.
        record { reader = c.reader; fault = c.fault; keeps = c.keeps; kept = c.bytes.items } };
}

/// What is asked of a capture at its end: its parameters, or these and the codes of its feedback.
pub trait ToldAtEnd {
    ghost use Rattle.std.specs.Prelude.{ℕ, List, None, Err, Result};
    ghost use Rattle.fints_params.specs.Captures.{IsParamFault};
    ghost use Rattle.fints_params.specs.declared.fault.ParamFault.{ParamFault};
    ghost use Rattle.fints_cli_files.specs.Captures.{HasTaken};

    /// What is answered of these bytes.
    ghost answers: { List ℕ → Result Self ParamFault → Type 0 };

    /// What the reader says of what it took.
    fn told(reader: ParamReader) -> Result<Self, ParamFault>
        ensures { (bytes : List ℕ) → HasTaken bytes reader None → answers bytes result };

    ghost refused: { (bytes : List ℕ) (f : ParamFault) → IsParamFault bytes f → answers bytes (Err f) };
}

impl ToldAtEnd for Params {
    ghost answers = { IsReadOf };

    fn told(reader: ParamReader) -> Result<Params, ParamFault> {
        reader.finish()
    }

    ghost refused = { λ bytes f h. inr h };
}

impl ToldAtEnd for ParamsAndCodes {
    ghost answers = { IsBothReadOf };

    fn told(reader: ParamReader) -> Result<ParamsAndCodes, ParamFault> {
        reader.finish_with_codes()
    }

    ghost refused = { λ bytes f h. inr (inl h) };
}

/// What a whole capture gave, and its bytes, where they were kept.
#[derive(Drop)]
pub struct ReadCapture<T> {
    pub told: Result<T, ParamFault>,
    pub bytes: Vec<u8>,
}

impl Capture {
    /// Nothing of a capture.
    pub fn new(alloc: Global, keeps: bool) -> Capture
        ensures nothing { HoldsCapture [] result }
        ensures keeps { result.keeps ≡ keeps }
    {
        Capture {
            reader: ParamReader::new(alloc),
            fault: None,
            keeps,
            bytes: Vec::new(alloc),
        }
    }

    /// What is said of the capture, which ends here, or its first refusal.
    pub fn end<T: ToldAtEnd + Drop>(self) -> ReadCapture<T>
        ensures read { (bytes : List ℕ) → HoldsCapture bytes self → T.answers bytes result.told }
        ensures kept { (bytes : List ℕ) → HoldsCapture bytes self
            → AreKept self.keeps bytes result.bytes.items }
    {
        let Capture {
            reader,
            fault,
            bytes,
            ..
        } = self;
        match fault {
            Some(fault) => ReadCapture {
                told: Err(fault),
                bytes,
            },
            None => ReadCapture {
                told: T::told(reader),
                bytes,
            },
        }
    }

    // Keeps the bytes, where a hint may need them.
    fn keep(&mut self, piece: &[u8]) -> Result<(), Memory>
        ensures { OnOk result
            (self.new ≡ record self.old { kept = kept_after self.old.keeps self.old.kept piece.now }) }
    {
        if self.keeps {
            self.bytes.extend_from_slice(piece)?;
        }
        Ok(())
    }
}

impl PieceTaker for Capture {
    ghost holds = { HoldsCapture };

    fn take(&mut self, piece: &[u8]) -> Result<(), Memory> {
        self.keep(piece)?;
        if self.fault.is_some() {
            return Ok(());
        }
        match self.reader.feed(piece) {
            Ok(()) => Ok(()),
            Err(ParamFault::Syntax(fault)) => {
                self.fault = Some(ParamFault::Syntax(fault));
                Ok(())
            }
            Err(_) => Err(Memory),
        }
    }
}
