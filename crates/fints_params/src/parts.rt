//! The two parts of what a capture says: of the bank, and of its user.
ghost use Rattle.std.specs.Prelude.{◌≡◌, ◌<◌, ◌^◌, ◌==◌, List, None, Some, IfOk, IfErr};
ghost use Rattle.std.specs.List.{list_all};
ghost use Rattle.fints_syntax_segments.specs.declared.item.OwnedSegment.{OwnedSegment};
ghost use Rattle.fints_params.specs.Parameters.{IsRowsOf, end_fault, joined, unknown_user, usage_from, user_in};
ghost use Rattle.fints_params.specs.Taken.{IsGathered};

use crate::fault::ParamFault;
use crate::gathered::Gathered;
use crate::rows::{AccountRow, BankRow, OrderParam, PinRow, TanRow, Usage};
use std::alloc::Global;
use std::marker::Model;

/// What a capture says of the bank (FinTS 3.0, Formals, bank parameter data); a contract sees the rows.
#[derive(Drop)]
pub struct BankParams {
    bank: BankRow,
    orders: Vec<OrderParam>,
    pins: Vec<PinRow>,
    tans: Vec<TanRow>,
    skipped: u32,
}

impl Model for BankParams {
    ghost use Rattle.fints_params.specs.Parameters.{BankRows};

    ghost Value = { BankRows };

    ghost view = { λ p. record {
      bank = p.bank;
      orders = p.orders.items;
      pins = p.pins.items;
      tans = p.tans.items;
      skipped = p.skipped;
    } };
}

impl BankParams {
    /// The bank's row, of the one HIBPA version 3.
    pub fn bank(&self) -> &BankRow
        ensures { result.now ≡ self.now.bank }
    {
        &self.bank
    }

    /// What the parameter segments allow, in their order.
    pub fn orders(&self) -> &[OrderParam]
        ensures { result.now ≡ self.now.orders }
    {
        self.orders.as_slice()
    }

    /// The pairs of all HIPINS version 1, in their order.
    pub fn pins(&self) -> &[PinRow]
        ensures { result.now ≡ self.now.pins }
    {
        self.pins.as_slice()
    }

    /// What the HITANS of versions 6 and 7 say of TAN procedures, in their order.
    pub fn tans(&self) -> &[TanRow]
        ensures { result.now ≡ self.now.tans }
    {
        self.tans.as_slice()
    }

    /// How many parameter segments and elements of HIUPD the capture has that are skipped.
    pub fn skipped(&self) -> u32
        ensures { result ≡ self.now.skipped }
    {
        self.skipped
    }
}

/// What a capture says of the user (FinTS 3.0, Formals, user parameter data); a contract sees the rows.
#[derive(Drop)]
pub struct UserParams {
    usage: Usage,
    accounts: Vec<AccountRow>,
}

impl Model for UserParams {
    ghost use Rattle.fints_params.specs.Parameters.{UserRows};

    ghost Value = { UserRows };

    ghost view = { λ p. record { usage = p.usage; accounts = p.accounts.items } };
}

impl UserParams {
    /// Those of a user that no capture says anything about: there are no accounts, and nothing can be said of
    /// orders that aren't listed.
    pub fn unknown(alloc: Global) -> UserParams
        ensures { result ≡ unknown_user }
    {
        UserParams {
            usage: Usage::Unsaid,
            accounts: Vec::new(alloc),
        }
    }

    /// What holds of orders that an account doesn't list.
    pub fn usage(&self) -> Usage
        ensures { result ≡ self.now.usage }
    {
        self.usage
    }

    /// The accounts of all HIUPD version 6, in their order.
    pub fn accounts(&self) -> &[AccountRow]
        ensures { result.now ≡ self.now.accounts }
    {
        self.accounts.as_slice()
    }
}

fn all_unsaid(usages: &[u32]) -> bool
    ensures { result ≡ list_all (λ u. u == 1) usages.now }
{
    usages.iter().all(|u| *u == 1)
}

fn usage_of_all(usages: &[u32]) -> Usage
    ensures { result ≡ usage_from usages.now }
{
    if usages.is_empty() {
        return Usage::Locked;
    }
    if all_unsaid(usages) {
        Usage::Unsaid
    } else {
        Usage::Locked
    }
}

/// The parts that these rows give. That of the bank has the fault of what is missing where it isn't whole.
pub fn parts_of(rows: Gathered) -> (Result<BankParams, ParamFault>, UserParams)
    requires { rows.skipped < 2 ^ 32 }
    ensures user { (segments : List OwnedSegment) → IsGathered segments rows → result.1 ≡ user_in segments }
    ensures complete { IfOk result.0
        (λ b. (segments : List OwnedSegment) → IsGathered segments rows → end_fault segments ≡ None) }
    ensures bank { IfOk result.0 (λ b. (segments : List OwnedSegment) → IsGathered segments rows
        → IsRowsOf segments (joined b (user_in segments))) }
    ensures missing { IfErr result.0
        (λ f. (segments : List OwnedSegment) → IsGathered segments rows → end_fault segments ≡ Some f) }
{
    let Gathered {
        bank,
        orders,
        pins,
        has_pins,
        tans,
        usages,
        accounts,
        skipped,
    } = rows;
    let usage = usage_of_all(usages.as_slice());
    let user = UserParams { usage, accounts };
    match bank {
        None => (Err(ParamFault::NoBankParameters), user),
        Some(bank) => {
            if !has_pins {
                return (Err(ParamFault::NoPinParameters), user);
            }
            let bank = BankParams {
                bank,
                orders,
                pins,
                tans,
                skipped: skipped as u32,
            };
            (Ok(bank), user)
        }
    }
}
