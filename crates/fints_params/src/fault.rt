//! Why a capture gives no parameters.
ghost use Rattle.std.specs.Prelude.{◌≡◌, ◌≤◌, ◌↔◌, length, IsTrue};
ghost use Rattle.fints_params.specs.declared.fault.ParamFault.TheVariants.{Memory, BadElement};
ghost use Rattle.fints_params.specs.declared.fault.ParamFault.TheVariants as faults;
ghost use Rattle.fints_params.specs.FaultText.{param_text};
ghost use Rattle.fints_params.specs.Faults.{as_param_fault};

use fints_syntax::{FaultText, Memory, OwnedSegment, SyntaxFault, SyntaxKind};
use std::alloc::{AllocError, AllocFailed};
use thiserror::Error;

/// Why a capture gives no parameters, or a message no codes.
#[derive(Clone, Copy, Debug, PartialEq, Eq, Error)]
#[error("{}", self.text())]
pub enum ParamFault {
    /// An allocation was refused.
    Memory,
    /// The capture isn't segments, or the data of an HNVSD aren't. The offset is counted in the
    /// capture, from 0.
    Syntax(SyntaxFault),
    /// An element can't be read. `segment` is the number in the segment's head; elements count
    /// from 1, the head being element 1.
    BadElement { segment: u16, element: usize },
    /// A second HIBPA version 3.
    TwoBankParameters,
    /// No HIBPA version 3.
    NoBankParameters,
    /// No HIPINS version 1.
    NoPinParameters,
}

impl ParamFault {
    /// What is wrong, and where.
    pub fn text(&self) -> FaultText
        ensures text { result ≡ param_text self.now }
        ensures short { length result ≤ 68 }
    {
        match self {
            ParamFault::Memory => FaultText::new("memory"),
            ParamFault::Syntax(fault) => fault.text(),
            ParamFault::BadElement { segment, element } => FaultText::numbered(
                "BadElement segment ",
                u64::from(*segment),
                " element ",
                *element as u64,
            ),
            ParamFault::TwoBankParameters => FaultText::new("TwoBankParameters"),
            ParamFault::NoBankParameters => FaultText::new("NoBankParameters"),
            ParamFault::NoPinParameters => FaultText::new("NoPinParameters"),
        }
    }
}

impl From<Memory> for ParamFault {
    ghost from_gives = { λ _ f. f ≡ Memory };

    fn from(_e: Memory) -> ParamFault {
        ParamFault::Memory
    }
}

impl From<AllocError> for ParamFault {
    ghost from_gives = { λ _ f. f ≡ Memory };

    fn from(_e: AllocError) -> ParamFault {
        ParamFault::Memory
    }
}

impl<T: Drop> From<AllocFailed<T>> for ParamFault {
    ghost from_gives = { λ _ f. f ≡ Memory };

    fn from(_e: AllocFailed<T>) -> ParamFault {
        ParamFault::Memory
    }
}

impl From<SyntaxFault> for ParamFault {
    ghost from_gives = { λ e f. f ≡ as_param_fault e };

    fn from(e: SyntaxFault) -> ParamFault {
        match e.kind {
            SyntaxKind::Memory => ParamFault::Memory,
            _ => ParamFault::Syntax(e),
        }
    }
}

/// The fault of an element of the segment.
pub fn bad_element(segment: &OwnedSegment, element: usize) -> ParamFault
    ensures { result ≡ BadElement segment.now.head.number element }
{
    ParamFault::BadElement {
        segment: segment.head.number,
        element,
    }
}

/// The fault is that memory ran out.
pub fn is_memory(fault: &ParamFault) -> bool
    ensures { IsTrue result ↔ (fault.now ≡ faults.Memory) }
{
    matches!(fault, ParamFault::Memory)
}
