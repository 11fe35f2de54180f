//! What a bank permits, by parts: of orders, whoever its user is, and of the user's accounts.
ghost use Rattle.std.specs.Prelude.{◌≡◌, ◌↔◌, IfOk, IsTrue};
ghost use Rattle.fints_rules_permissions.specs.Needs.{IsLeastOf, key_in, seen_in};
ghost use Rattle.fints_rules_permissions.specs.Permits.{DemandIs, LimitsAre, NeedsTwoSteps, TakesOneOrder, params_of};

use crate::keys::OrderKey;
use crate::limits::{Demand, LimitMap, Limits, PinMap, limit_map, pin_map};
use crate::needs::{NeedKey, Needs};
use crate::orders::OrderTable;
use crate::tans::TanTable;
use fints_params::{AccountRow, BankParams, Usage, UserParams};
use fints_syntax::{Kind, Memory};
use std::alloc::Global;
use std::marker::Model;

/// What a bank permits of orders, by its captured parameters and an order table; a contract sees the
/// rows of both.
#[derive(Drop)]
pub struct BankPermissions<'a> {
    params: &'a BankParams,
    orders: &'a OrderTable,
    limits: LimitMap,
    pins: PinMap,
    tans: TanTable,
}

impl<'a> Model for BankPermissions<'a> {
    ghost use Rattle.indexmap.specs.IndexMap.{get};
    ghost use Rattle.std.specs.Str.{bytes_eq};
    ghost use Rattle.fints_rules_permissions.specs.LimitMaps.{HoldsLimits, HoldsPins};
    ghost use Rattle.fints_rules_permissions.specs.OrderKeys.{key_eq};
    ghost use Rattle.fints_rules_permissions.specs.Permits.{BankGranted};
    ghost use Rattle.fints_rules_permissions.specs.Tans.{HoldsTans};

    ghost Value = { BankGranted };

    ghost view = { λ p. record { rows = p.params.now; orders = p.orders.now } };

    ghost invariant = { λ p. HoldsLimits p.params.now.orders (get key_eq p.limits)
        × HoldsPins p.params.now.pins (get bytes_eq p.pins)
        × HoldsTans p.params.now.tans p.tans };
}

impl<'a> BankPermissions<'a> {
    /// What the parameters and the table permit.
    pub fn of(
        alloc: Global,
        params: &'a BankParams,
        orders: &'a OrderTable,
    ) -> Result<BankPermissions<'a>, Memory>
        ensures { IfOk result (λ p. p ≡ record { rows = params.now; orders = orders.now }) }
    {
        let limits = limit_map(alloc, params.orders())?;
        let pins = pin_map(alloc, params.pins())?;
        let tans = TanTable::of(alloc, params.tans())?;
        Ok(BankPermissions {
            params,
            orders,
            limits,
            pins,
            tans,
        })
    }

    /// The parameters that they come from.
    pub fn params(&self) -> &BankParams
        ensures { result.now ≡ self.now.rows }
    {
        self.params
    }

    /// The order table that they come from.
    pub fn orders(&self) -> &OrderTable
        ensures { result.now ≡ self.now.orders }
    {
        self.orders
    }

    /// Whether some HITANS of a version takes one order at a time.
    pub fn takes_one_order(&self, version: u16) -> bool
        ensures { IsTrue result ↔ TakesOneOrder self.now.rows.tans version }
    {
        self.tans.takes_one(version)
    }

    /// Whether HITANS are there, and none lets a TAN go with its order.
    pub fn needs_two_steps(&self) -> bool
        ensures { IsTrue result ↔ NeedsTwoSteps self.now.rows.tans }
    {
        self.tans.two_steps
    }

    /// The limits of a kind and version, where the capture has a row of them.
    pub fn limits(&self, kind: Kind, version: u16) -> Option<Limits>
        ensures { LimitsAre (params_of kind version self.now.rows.orders) result }
    {
        self.limits.get(&OrderKey { kind, version }).copied()
    }

    /// Whether a kind is listed in HIPINS, and demands a TAN.
    pub fn demand(&self, kind: Kind) -> Demand
        ensures { DemandIs self.now.rows.pins kind result }
    {
        match self.pins.get(&kind) {
            None => Demand::Unlisted,
            Some(false) => Demand::No,
            Some(true) => Demand::Tan,
        }
    }
}

/// What a bank permits of a user's accounts; a contract sees the rows.
#[derive(Drop)]
pub struct UserPermissions<'a> {
    params: &'a UserParams,
    needs: Needs<'a>,
}

impl<'a> Model for UserPermissions<'a> {
    ghost use Rattle.std.specs.List.Sorted.{IsPermutation};
    ghost use Rattle.fints_params.specs.Parameters.{UserRows};
    ghost use Rattle.fints_rules_permissions.specs.Needs.{seen_in};

    ghost Value = { UserRows };

    ghost view = { λ p. p.params.now };

    ghost invariant = { λ p. IsPermutation (seen_in p.params.now.accounts) p.needs };
}

impl<'a> UserPermissions<'a> {
    /// What the user's parameters permit.
    pub fn of(alloc: Global, params: &'a UserParams) -> Result<UserPermissions<'a>, Memory>
        ensures { IfOk result (λ p. p ≡ params.now) }
    {
        let needs = Needs::of(alloc, params.accounts())?;
        Ok(UserPermissions { params, needs })
    }

    /// The accounts, in the order of the capture.
    pub fn accounts(&self) -> &[AccountRow]
        ensures { result.now ≡ self.now.accounts }
    {
        self.params.accounts()
    }

    /// What holds of orders that an account doesn't list.
    pub fn usage(&self) -> Usage
        ensures { result ≡ self.now.usage }
    {
        self.params.usage()
    }

    /// The least number of signatures that an entry of the key needs, if one is there.
    pub fn least(&self, key: &NeedKey<'_>) -> Option<u32>
        ensures { IsLeastOf (key_in key.now) (seen_in self.now.accounts) result }
    {
        self.needs.least(key)
    }
}
