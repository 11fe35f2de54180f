//! Why a text is no case.
ghost use Rattle.std.specs.Prelude.{◌≡◌, ◌≤◌, length};
ghost use Rattle.fints_script_cases.specs.FaultText.{case_text};
ghost use Rattle.fints_script_cases.specs.declared.case_fault.CaseFault.TheVariants as faults;

use fints_syntax::{FaultText, Memory};
use thiserror::Error;

/// Why a text is no case.
#[derive(Clone, Copy, Debug, PartialEq, Eq, Error)]
#[error("{}", self.text())]
pub enum CaseFault {
    /// The first line that is no line of a case there; lines count from 1.
    Bad { line: u32 },
    /// An allocation was refused.
    Memory,
}

impl CaseFault {
    /// Which line is wrong.
    pub fn text(&self) -> FaultText
        ensures text { result ≡ case_text self.now }
        ensures short { length result ≤ 25 }
    {
        match self {
            CaseFault::Bad { line } => FaultText::new("line ").number(u64::from(*line)),
            CaseFault::Memory => FaultText::new("memory"),
        }
    }
}

impl From<Memory> for CaseFault {
    ghost from_gives = { λ _ f. f ≡ faults.Memory };

    fn from(_e: Memory) -> CaseFault {
        CaseFault::Memory
    }
}
