//! Why bytes could not be read.
ghost use Rattle.std.specs.Prelude.{◌≡◌, ◌≤◌, length};
ghost use Rattle.fints_syntax.specs.FaultText.{kind_name, syntax_text};
ghost use Rattle.fints_syntax.specs.declared.fault.SyntaxKind.TheVariants as kind;

use fints_syntax_segments::{FaultText, Memory};
use std::alloc::{AllocError, AllocFailed};
use thiserror::Error;

/// What is wrong with bytes that are read as segments (FinTS 3.0, Formals, the syntax of segments).
#[derive(Clone, Copy, Debug, PartialEq, Eq)]
pub enum SyntaxKind {
    /// An allocation failed. It has offset 0, and `parse_segment` never returns it.
    Memory,
    /// An `@` begins an item, but no binary item; its offset is that of the `@`.
    BadBinary,
    /// The segment that starts at the offset passes 1,048,576 bytes or 20,000 items.
    TooLong,
    /// The input ends within the segment that starts at the offset.
    Incomplete,
    /// The segment that starts at the offset is whole, and its head is bad.
    BadHead,
    /// A capture passes 4,194,304 bytes, which is the offset. `parse_segment` never answers it.
    CaptureTooLong,
    /// What reads a stream met a fault before, at the offset. Only a feeder and a parameter reader return it.
    Failed,
}

impl SyntaxKind {
    /// The name, as it is printed.
    pub fn name(self) -> &'static str
        ensures name { result.now ≡ kind_name self }
        ensures short { length result.now ≤ 14 }
    {
        match self {
            SyntaxKind::Memory => "Memory",
            SyntaxKind::BadBinary => "BadBinary",
            SyntaxKind::TooLong => "TooLong",
            SyntaxKind::Incomplete => "Incomplete",
            SyntaxKind::BadHead => "BadHead",
            SyntaxKind::CaptureTooLong => "CaptureTooLong",
            SyntaxKind::Failed => "Failed",
        }
    }
}

/// A fault, with its offset in the bytes that were read, counted from 0.
#[derive(Clone, Copy, Debug, PartialEq, Eq, Error)]
#[error("{}", self.text())]
pub struct SyntaxFault {
    pub kind: SyntaxKind,
    pub offset: usize,
}

impl SyntaxFault {
    /// What is wrong, and where.
    pub fn text(&self) -> FaultText
        ensures text { result ≡ syntax_text self.now }
        ensures short { length result ≤ 38 }
    {
        FaultText::new(self.kind.name())
            .and(" at ")
            .number(self.offset as u64)
    }
}

impl From<Memory> for SyntaxFault {
    ghost from_gives = { λ _ f. f ≡ record { kind = kind.Memory; offset = 0 } };

    fn from(_e: Memory) -> SyntaxFault {
        SyntaxFault {
            kind: SyntaxKind::Memory,
            offset: 0,
        }
    }
}

impl From<AllocError> for SyntaxFault {
    ghost from_gives = { λ _ f. f ≡ record { kind = kind.Memory; offset = 0 } };

    fn from(_e: AllocError) -> SyntaxFault {
        SyntaxFault::from(Memory)
    }
}

impl<T: Drop> From<AllocFailed<T>> for SyntaxFault {
    ghost from_gives = { λ _ f. f ≡ record { kind = kind.Memory; offset = 0 } };

    fn from(_e: AllocFailed<T>) -> SyntaxFault {
        SyntaxFault::from(Memory)
    }
}
