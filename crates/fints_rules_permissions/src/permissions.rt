//! What a bank permits, as look-ups in the rows of a capture and an order table.
ghost use Rattle.std.specs.Prelude.{◌≡◌, ◌↔◌, IfOk, IsTrue};
ghost use Rattle.fints_rules_permissions.specs.Orders.{form_of};
ghost use Rattle.fints_rules_permissions.specs.Parts.{part_in};
ghost use Rattle.fints_rules_permissions.specs.Permits.{LimitsAre, params_of, DemandIs, IsLeastNeed, NeedsTwoSteps, OrderNeedsMore, PermitIs, TakesOneOrder, granted, is_demanding, is_listed_with_tan};

use crate::account::AccountKey;
use crate::kinds::is_plain_order;
use crate::limits::{Demand, Limits};
use crate::orders::{AccountForm, OrderTable};
use crate::parts::{BankPermissions, UserPermissions};
use fints_params::{AccountRow, BankRow, OrderParam, Params, TanRow, Usage};
use fints_syntax::{Kind, Memory};
use std::alloc::Global;
use std::marker::Model;

/// Whether an account permits an order.
#[derive(Clone, Copy, PartialEq, Eq)]
pub enum Permit {
    Allowed,
    /// No entry of the kind is there, and orders that aren't listed are locked.
    Refused,
    /// Every entry of the kind needs more signatures.
    MoreSignatures,
}

// A part that is held, or that is shared with other permissions.
#[derive(Drop)]
enum HeldOrShared<'a, T> {
    Held(T),
    Shared(&'a T),
}

impl<'a, T> HeldOrShared<'a, T> {
    fn get(&self) -> &T
        ensures { result.now ≡ part_in self.now }
    {
        match self {
            HeldOrShared::Held(part) => part,
            HeldOrShared::Shared(part) => *part,
        }
    }
}

/// What a bank permits, by its captured parameters and an order table; a contract sees the rows of
/// both. Its look-ups take no memory.
#[derive(Drop)]
pub struct Permissions<'a> {
    bank: HeldOrShared<'a, BankPermissions<'a>>,
    user: HeldOrShared<'a, UserPermissions<'a>>,
}

impl<'a> Model for Permissions<'a> {
    ghost use Rattle.fints_rules_permissions.specs.Parts.{part_in};
    ghost use Rattle.fints_rules_permissions.specs.Permits.{Granted, granted};

    ghost Value = { Granted };

    ghost view = { λ p. granted (part_in p.bank) (part_in p.user) };
}

impl<'a> Permissions<'a> {
    /// The permissions that the parameters and the table give.
    pub fn build(
        alloc: Global,
        params: &'a Params,
        orders: &'a OrderTable,
    ) -> Result<Permissions<'a>, Memory>
        ensures rows { IfOk result (λ p. p.rows ≡ params.now) }
        ensures orders { IfOk result (λ p. p.orders ≡ orders.now) }
    {
        let bank = BankPermissions::of(alloc, params.of_bank(), orders)?;
        let user = UserPermissions::of(alloc, params.of_user())?;
        Ok(Permissions {
            bank: HeldOrShared::Held(bank),
            user: HeldOrShared::Held(user),
        })
    }

    /// The permissions of a bank for a user, whose parameters may come from other captures.
    pub fn of(bank: &'a BankPermissions<'a>, user: &'a UserPermissions<'a>) -> Permissions<'a>
        ensures { result ≡ granted bank.now user.now }
    {
        Permissions {
            bank: HeldOrShared::Shared(bank),
            user: HeldOrShared::Shared(user),
        }
    }

    /// What the parameter segments allow, in the order of the capture.
    pub fn params(&self) -> &[OrderParam]
        ensures { result.now ≡ self.now.rows.orders }
    {
        self.bank.get().params().orders()
    }

    /// The accounts of the user, in the order of the capture.
    pub fn accounts(&self) -> &[AccountRow]
        ensures { result.now ≡ self.now.rows.accounts }
    {
        self.user.get().accounts()
    }

    /// What was skipped of the bank's capture.
    pub fn skipped(&self) -> u32
        ensures { result ≡ self.now.rows.skipped }
    {
        self.bank.get().params().skipped()
    }

    /// The order table that they come from.
    pub fn orders(&self) -> &OrderTable
        ensures { result.now ≡ self.now.orders }
    {
        self.bank.get().orders()
    }

    /// The bank's own row.
    pub fn bank(&self) -> &BankRow
        ensures { result.now ≡ self.now.rows.bank }
    {
        self.bank.get().params().bank()
    }

    /// What HITANS says of the TAN procedures.
    pub fn tans(&self) -> &[TanRow]
        ensures { result.now ≡ self.now.rows.tans }
    {
        self.bank.get().params().tans()
    }

    /// Whether some HITANS of a version takes one order at a time.
    pub fn takes_one_order(&self, version: u16) -> bool
        ensures { IsTrue result ↔ TakesOneOrder self.now.rows.tans version }
    {
        self.bank.get().takes_one_order(version)
    }

    /// Whether HITANS are there, and none lets a TAN go with its order.
    pub fn needs_two_steps(&self) -> bool
        ensures { IsTrue result ↔ NeedsTwoSteps self.now.rows.tans }
    {
        self.bank.get().needs_two_steps()
    }

    /// How an order names its account, where the table has the order.
    pub fn form(&self, kind: Kind, version: u16) -> Option<AccountForm>
        ensures { result ≡ form_of self.now.orders kind version }
    {
        self.bank.get().orders().form(kind, version)
    }

    /// The limits of a kind and version, where the capture has a row of them: of all such rows the
    /// least limit that isn't 0, else 0, and the greatest number of signatures.
    pub fn limits(&self, kind: Kind, version: u16) -> Option<Limits>
        ensures { LimitsAre (params_of kind version self.now.rows.orders) result }
    {
        self.bank.get().limits(kind, version)
    }

    /// Whether some row of a kind and version needs more signatures.
    pub fn needs_more(&self, kind: Kind, version: u16, signatures: usize) -> bool
        ensures { IsTrue result ↔ OrderNeedsMore self.now.rows kind version signatures }
    {
        match self.limits(kind, version) {
            None => false,
            Some(limits) => signatures < limits.signatures as usize,
        }
    }

    /// Whether a kind is listed in HIPINS, and demands a TAN.
    pub fn demand(&self, kind: Kind) -> Demand
        ensures { DemandIs self.now.rows.pins kind result }
    {
        self.bank.get().demand(kind)
    }

    fn is_listed_with_tan(&self, kind: Kind) -> bool
        ensures { result ≡ is_listed_with_tan self.now.rows.pins kind }
    {
        match self.demand(kind) {
            Demand::Unlisted => false,
            Demand::No => false,
            Demand::Tan => true,
        }
    }

    /// Whether it is the kind of an order other than HKTAN, and listed with J.
    pub fn is_demanding(&self, kind: Kind) -> bool
        ensures { result ≡ is_demanding self.now.rows.pins kind }
    {
        is_plain_order(kind) && self.is_listed_with_tan(kind)
    }

    /// The least number of signatures that an entry of the kind needs in the rows of an account.
    pub fn least_need(&self, kind: Kind, account: &AccountKey<'_>) -> Option<u32>
        ensures { IsLeastNeed self.now.rows account.now kind result }
    {
        match account.need_key(&kind) {
            Some(key) => self.user.get().least(&key),
            None => None,
        }
    }

    /// Whether an account permits an order of this kind with this many signatures.
    pub fn permit(&self, kind: Kind, account: &AccountKey<'_>, signatures: usize) -> Permit
        ensures { PermitIs self.now.rows account.now kind signatures result }
    {
        match self.least_need(kind, account) {
            Some(need) if need as usize <= signatures => Permit::Allowed,
            Some(_) => Permit::MoreSignatures,
            None => match self.user.get().usage() {
                Usage::Locked => Permit::Refused,
                Usage::Unsaid => Permit::Allowed,
            },
        }
    }
}
