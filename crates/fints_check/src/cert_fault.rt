//! Why a text is no certificate.
ghost use Rattle.std.specs.Prelude.{◌≡◌};
ghost use Rattle.fints_check.specs.declared.cert_fault.CertFault.TheVariants as faults;

use fints_syntax::Memory;
use thiserror::Error;

/// Why a text is no certificate.
#[derive(Clone, Copy, Debug, PartialEq, Eq, Error)]
pub enum CertFault {
    /// The first line that is no line of a certificate there; lines count from 1.
    #[error("line {line}")]
    Bad { line: u32 },
    /// An allocation was refused.
    #[error("memory")]
    Memory,
}

impl From<Memory> for CertFault {
    ghost from_gives = { λ _ f. f ≡ faults.Memory };

    fn from(_e: Memory) -> CertFault {
        CertFault::Memory
    }
}
