//! The messages of a log.
ghost use Rattle.std.specs.Prelude.{◌≡◌, [], IfOk, IfErr};
ghost use Rattle.fints_rules_logs.specs.Kept.{IsLog, IsLogFault};

use crate::fault::LogFault;
use crate::find::Found;
use crate::keeping::{Passed, keep};
use crate::losing::first_lost;
use crate::scanning::scan;
use std::alloc::Global;
use std::marker::Model;

/// The messages of a file that were sent, one at least, in the order of the file; and how many finds are passed
/// over. A contract sees both.
#[derive(Drop)]
pub struct Log<'a> {
    kept: Vec<Found<'a>>,
    passed: Passed,
}

impl<'a> Model for Log<'a> {
    ghost use Rattle.std.specs.Prelude.{◌≡◌, []};
    ghost use Rattle.fints_rules_logs.specs.Kept.{LogValue};

    ghost Value = { LogValue };

    ghost view = { λ log. record { kept = log.kept.items; passed = log.passed } };

    ghost invariant = { λ log. log.kept.items ≡ [] → ⊥ };
}

impl<'a> Log<'a> {
    /// The messages of a file. They may be in it as they are, in UTF-8 or in base64; copies, unsealed twins and
    /// what a logger changed are passed over. The refusal is the first message that is lost, or that there is none.
    pub fn of(alloc: Global, file: &'a [u8]) -> Result<Log<'a>, LogFault>
        ensures log { IfOk result (λ log. IsLog file.now log) }
        ensures refused { IfErr result (λ f. IsLogFault file.now f) }
    {
        let finds = scan(alloc, file)?;
        if finds.is_empty() {
            return Err(LogFault::NoMessage);
        }
        if let Some(offset) = first_lost(alloc, finds.as_slice())? {
            return Err(LogFault::NotAMessage { offset });
        }
        let (kept, passed) = keep(alloc, finds)?;
        Ok(Log { kept, passed })
    }

    /// The messages.
    pub fn messages(&self) -> &[Found<'a>]
        ensures messages { result.now ≡ self.now.kept }
        ensures some { result.now ≡ [] → ⊥ }
    {
        self.kept.as_slice()
    }

    /// How many finds are passed over.
    pub fn passed(&self) -> Passed
        ensures { result ≡ self.now.passed }
    {
        self.passed
    }
}
