//! What one answer of a bank says, where a part may be missing.
ghost use Rattle.std.specs.Prelude.{◌≡◌, IfOk, IfErr};
ghost use Rattle.fints_params.specs.Captures.{TellsBank, TellsUser};
ghost use Rattle.fints_params.specs.Faults.{IsMemoryOr};
ghost use Rattle.fints_params.specs.Parameters.{fault_after};
ghost use Rattle.fints_params.specs.Refused.{IsRefusedOf};
ghost use Rattle.fints_params.specs.Taken.{says_user};

use crate::capture::read_capture;
use crate::fault::ParamFault;
use crate::gathered::Gathered;
use crate::gathering::no_rows;
use crate::parts::{BankParams, UserParams, parts_of};
use std::alloc::Global;

/// What a capture says, by parts: a bank sends each of them whole, and not with each answer (FinTS 3.0,
/// Formals, parameter data).
#[derive(Drop)]
pub struct Told {
    /// Of the bank, where there are a HIBPA version 3 and a HIPINS version 1.
    pub bank: Option<BankParams>,
    /// Of the user, where there is a HIUPA version 4 or a HIUPD version 6.
    pub user: Option<UserParams>,
}

fn says_user(rows: &Gathered) -> bool
    ensures { result ≡ says_user rows.now }
{
    !rows.usages.is_empty() || !rows.accounts.is_empty()
}

/// What a capture says. The refusal is that of `Params::read`, but for what is missing.
pub fn told_in(alloc: Global, capture: &[u8]) -> Result<Told, ParamFault>
    ensures bank { IfOk result (λ told. TellsBank capture.now told.bank) }
    ensures user { IfOk result (λ told. TellsUser capture.now told.user) }
    ensures refused { IfErr result (λ f. IsMemoryOr (IsRefusedOf fault_after capture.now) f) }
{
    let rows = read_capture(alloc, capture, no_rows(alloc))?;
    let has_user = says_user(&rows);
    let (bank, user) = parts_of(rows);
    Ok(Told {
        bank: bank.ok(),
        user: if has_user { Some(user) } else { None },
    })
}
