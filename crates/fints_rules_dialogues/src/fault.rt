//! Why bytes are no recorded dialogue.
ghost use Rattle.std.specs.Prelude.{◌≡◌, ◌≤◌, length};
ghost use Rattle.fints_rules_dialogues.specs.FaultText.{dialogue_text};
ghost use Rattle.fints_rules_dialogues.specs.declared.fault.DialogueFault.TheVariants as fault;

use fints_params::ParamFault;
use fints_syntax::{FaultText, Memory};
use std::alloc::{AllocError, AllocFailed};
use thiserror::Error;

/// Why bytes are no recorded dialogue, or say no parameters. The offsets are counted in the file, from 0.
#[derive(Clone, Copy, Debug, PartialEq, Eq, Error)]
#[error("{}", self.text())]
pub enum DialogueFault {
    /// Memory ran out.
    Memory,
    /// No message begins in the file.
    NoMessage,
    /// No message begins there: no HNHBK with the size in 12 digits, or fewer bytes than it says; or
    /// a message of the client ceases there to be one.
    NotAMessage { offset: usize },
    /// The message that begins there is the bank's where the client's is due, or the client's where
    /// the bank's is due.
    NotInTurn { offset: usize },
    /// The bank's answer that begins there is refused, by its feedback or as a capture of parameters.
    /// An offset in that fault is counted in the answer, from 0. Where memory runs out, the fault is `Memory`.
    Answer { start: usize, fault: ParamFault },
    /// No answer has a HIBPA version 3 and a HIPINS version 1.
    NoParameters,
}

impl DialogueFault {
    /// What is wrong, and where.
    pub fn text(&self) -> FaultText
        ensures text { result ≡ dialogue_text self.now }
        ensures short { length result ≤ 99 }
    {
        match self {
            DialogueFault::Memory => FaultText::new("memory"),
            DialogueFault::NoMessage => FaultText::new("NoMessage"),
            DialogueFault::NotAMessage { offset } => {
                FaultText::new("NotAMessage at ").number(*offset as u64)
            }
            DialogueFault::NotInTurn { offset } => {
                FaultText::new("NotInTurn at ").number(*offset as u64)
            }
            DialogueFault::Answer { start, fault } => FaultText::new("answer at ")
                .number(*start as u64)
                .and(" ")
                .and(fault.text().as_str()),
            DialogueFault::NoParameters => FaultText::new("NoParameters"),
        }
    }
}

impl From<Memory> for DialogueFault {
    ghost from_gives = { λ _ f. f ≡ fault.Memory };

    fn from(_e: Memory) -> DialogueFault {
        DialogueFault::Memory
    }
}

impl From<AllocError> for DialogueFault {
    ghost from_gives = { λ _ f. f ≡ fault.Memory };

    fn from(_e: AllocError) -> DialogueFault {
        DialogueFault::Memory
    }
}

impl<T: Drop> From<AllocFailed<T>> for DialogueFault {
    ghost from_gives = { λ _ f. f ≡ fault.Memory };

    fn from(_e: AllocFailed<T>) -> DialogueFault {
        DialogueFault::Memory
    }
}
