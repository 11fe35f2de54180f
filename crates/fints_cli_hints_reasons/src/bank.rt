//! What a bank permits, with its rows in orders in which one is found without a walk over all.
use fints_cli_hints_segments::skipped_segments;
use fints_params::{AccountRow, OrderParam};
use fints_rules::{OrderTable, Permissions};
use fints_syntax::{Kind, Memory};
use std::alloc::Global;

/// What names an account in its country: number, subaccount, country and bank code.
pub type NationalItems<'a> = (&'a [u8], &'a [u8], &'a [u8], &'a [u8]);

// The IBAN of the account at a place; empty where there is none.
fn iban_at(accounts: &[AccountRow], place: usize) -> &[u8] {
    match accounts.get(place) {
        Some(account) => account.iban.as_slice(),
        None => &[],
    }
}

// What names the account at a place in its country.
fn national_at(accounts: &[AccountRow], place: usize) -> NationalItems<'_> {
    match accounts.get(place) {
        Some(account) => (
            account.national.number(),
            account.national.subaccount(),
            account.national.country(),
            account.national.bank(),
        ),
        None => (&[], &[], &[], &[]),
    }
}

fn by_iban(alloc: Global, accounts: &[AccountRow]) -> Result<Vec<usize>, Memory> {
    let mut places: Vec<usize> = (0..accounts.len()).collect(alloc)?;
    places.sort_unstable_by(|a, b| iban_at(accounts, *a).cmp(iban_at(accounts, *b)));
    Ok(places)
}

fn by_national(alloc: Global, accounts: &[AccountRow]) -> Result<Vec<usize>, Memory> {
    let mut places: Vec<usize> = (0..accounts.len()).collect(alloc)?;
    places.sort_unstable_by(|a, b| national_at(accounts, *a).cmp(&national_at(accounts, *b)));
    Ok(places)
}

fn versions_in(alloc: Global, rows: &[OrderParam]) -> Result<Vec<(Kind, u16)>, Memory> {
    let mut versions = Vec::new(alloc);
    for row in rows {
        versions.push((row.kind, row.version))?;
    }
    versions.sort_unstable();
    versions.dedup();
    Ok(versions)
}

// The parameter segments of a capture that can't be read, in order. The capture is looked at only where
// its reader skipped something.
fn skipped_in(
    alloc: Global,
    permissions: &Permissions<'_>,
    capture: &[u8],
) -> Result<Vec<(Kind, u16)>, Memory> {
    let mut sorted = Vec::new(alloc);
    if permissions.skipped() == 0 {
        return Ok(sorted);
    }
    for segment in skipped_segments(alloc, capture)?.as_slice() {
        sorted.push((segment.id, segment.version))?;
    }
    sorted.sort_unstable();
    Ok(sorted)
}

// Those of a kind, among kinds and versions in order.
fn of_kind(sorted: &[(Kind, u16)], kind: Kind) -> &[(Kind, u16)] {
    let from = sorted.partition_point(|it| it.0.cmp(&kind).is_lt());
    let to = sorted.partition_point(|it| it.0.cmp(&kind).is_le());
    sorted.get(from..to).unwrap_or(&[])
}

/// The parameter segments of a bank, in order.
#[derive(Drop)]
pub struct BankIndex {
    versions: Vec<(Kind, u16)>,
    skipped: Vec<(Kind, u16)>,
}

impl BankIndex {
    /// Those of a bank whose parameters were read in the capture.
    pub fn of(
        alloc: Global,
        permissions: &Permissions<'_>,
        capture: &[u8],
    ) -> Result<BankIndex, Memory> {
        Ok(BankIndex {
            versions: versions_in(alloc, permissions.params())?,
            skipped: skipped_in(alloc, permissions, capture)?,
        })
    }
}

/// The places of a user's accounts, in order of what names them.
#[derive(Drop)]
pub struct AccountIndex {
    by_iban: Vec<usize>,
    by_national: Vec<usize>,
}

impl AccountIndex {
    pub fn of(alloc: Global, permissions: &Permissions<'_>) -> Result<AccountIndex, Memory> {
        Ok(AccountIndex {
            by_iban: by_iban(alloc, permissions.accounts())?,
            by_national: by_national(alloc, permissions.accounts())?,
        })
    }
}

/// The accounts of a user, by what names them.
#[derive(Clone, Copy)]
pub struct Accounts<'a> {
    rows: &'a [AccountRow],
    index: &'a AccountIndex,
}

impl Accounts<'_> {
    pub fn count(&self) -> usize {
        self.rows.len()
    }

    pub fn has_iban(&self, iban: &[u8]) -> bool {
        let places = self.index.by_iban.as_slice();
        let first = places.partition_point(|it| iban_at(self.rows, *it).cmp(iban).is_lt());
        match places.get(first) {
            Some(place) => iban_at(self.rows, *place) == iban,
            None => false,
        }
    }

    pub fn has_national(&self, items: NationalItems<'_>) -> bool {
        let places = self.index.by_national.as_slice();
        let first = places.partition_point(|it| national_at(self.rows, *it).cmp(&items).is_lt());
        match places.get(first) {
            Some(place) => national_at(self.rows, *place) == items,
            None => false,
        }
    }

    pub fn has_number(&self, number: &[u8]) -> bool {
        let places = self.index.by_national.as_slice();
        let first = places.partition_point(|it| national_at(self.rows, *it).0.cmp(number).is_lt());
        match places.get(first) {
            Some(place) => national_at(self.rows, *place).0 == number,
            None => false,
        }
    }
}

/// What a bank permits, and its rows in order.
#[derive(Clone, Copy)]
pub struct Bank<'a> {
    pub permissions: &'a Permissions<'a>,
    pub index: &'a BankIndex,
    pub accounts: &'a AccountIndex,
}

impl Bank<'_> {
    pub fn orders(&self) -> &OrderTable {
        self.permissions.orders()
    }

    pub fn accounts(&self) -> Accounts<'_> {
        Accounts {
            rows: self.permissions.accounts(),
            index: self.accounts,
        }
    }

    /// The versions in which it takes an order, in order.
    pub fn versions(&self, kind: Kind) -> &[(Kind, u16)] {
        of_kind(self.index.versions.as_slice(), kind)
    }

    /// Whether a parameter segment of this identifier is in the capture and can't be read.
    pub fn skips(&self, id: Kind) -> bool {
        !of_kind(self.index.skipped.as_slice(), id).is_empty()
    }

    /// The same of one version.
    pub fn skips_version(&self, id: Kind, version: u16) -> bool {
        self.index.skipped.binary_search(&(id, version)).is_ok()
    }
}
