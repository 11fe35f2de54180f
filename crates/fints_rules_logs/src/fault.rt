//! Why no messages are taken from a file.
ghost use Rattle.std.specs.Prelude.{◌≡◌};
ghost use Rattle.fints_rules_logs.specs.declared.fault.LogFault.TheVariants as fault;

use fints_syntax::Memory;
use std::alloc::{AllocError, AllocFailed};

/// Why no messages are taken from a file.
#[derive(Clone, Copy, Debug, PartialEq, Eq)]
pub enum LogFault {
    /// An allocation failed.
    Memory,
    /// No message begins in the file.
    NoMessage,
    /// A message begins there, counted from 0, and is lost: fewer or more bytes than it says, or it doesn't end as
    /// a message does, and no other copy of it is beside it.
    NotAMessage { offset: usize },
}

impl From<Memory> for LogFault {
    ghost from_gives = { λ _ f. f ≡ fault.Memory };

    fn from(_e: Memory) -> LogFault {
        LogFault::Memory
    }
}

impl From<AllocError> for LogFault {
    ghost from_gives = { λ _ f. f ≡ fault.Memory };

    fn from(_e: AllocError) -> LogFault {
        LogFault::Memory
    }
}

impl<T: Drop> From<AllocFailed<T>> for LogFault {
    ghost from_gives = { λ _ f. f ≡ fault.Memory };

    fn from(_e: AllocFailed<T>) -> LogFault {
        LogFault::Memory
    }
}
