//! The entries of accounts, in an order in which the least number of signatures that an account
//! needs for a kind of orders is found without a walk over all rows.
ghost use Rattle.std.specs.Prelude.{◌≡◌, ◌<◌, ◌++◌, length, get_or, map, IfOk, OnOk};
ghost use Rattle.std.specs.List.Sorted.{IsPermutation, IsSortedByKey};
ghost use Rattle.std.specs.Ordering.{is_lt, is_eq};
ghost use Rattle.fints_params.specs.declared.rows.AccountRow.{AccountRow as AccountRowValue};
ghost use Rattle.fints_rules_permissions.specs.Needs.{key_in, key_cmp, seen_as, seen_at, seen_key, seen_cmp, seen_in_row, seen_in, IsLeastOf};
ghost use Rattle.fints_rules_permissions.specs.Ranks.{BeginsAt};

use fints_params::{AccountRow, Entry};
use fints_syntax::Memory;
use std::alloc::Global;
use std::cmp::Ordering;
use std::marker::Model;

// By what an order names an account.
#[derive(Clone, Copy)]
enum Naming {
    Iban,
    Items,
}

// Where an entry is among the rows, and the name of its account by which it is found here.
#[derive(Clone, Copy)]
struct EntryPlace {
    naming: Naming,
    row: usize,
    entry: usize,
}

/// What an entry is looked for by: its account, by just its IBAN or by its four national items,
/// with the number in the place of the IBAN; and its kind.
#[derive(Clone, Copy)]
pub struct NeedKey<'a> {
    pub by_iban: bool,
    pub account: &'a [u8],
    pub subaccount: &'a [u8],
    pub country: &'a [u8],
    pub bank: &'a [u8],
    pub kind: &'a [u8],
}

// Field by field; after the first in which they differ no other is looked at.
fn compare_keys(a: &NeedKey<'_>, b: &NeedKey<'_>) -> Ordering
    ensures { result ≡ key_cmp (key_in a.now) (key_in b.now) }
{
    let naming = a.by_iban.cmp(&b.by_iban);
    if naming.is_ne() {
        return naming;
    }
    let account = a.account.cmp(b.account);
    if account.is_ne() {
        return account;
    }
    let subaccount = a.subaccount.cmp(b.subaccount);
    if subaccount.is_ne() {
        return subaccount;
    }
    let country = a.country.cmp(b.country);
    if country.is_ne() {
        return country;
    }
    let bank = a.bank.cmp(b.bank);
    if bank.is_ne() {
        return bank;
    }
    a.kind.cmp(b.kind)
}

fn key_of<'a>(naming: Naming, row: &'a AccountRow, entry: &'a Entry) -> NeedKey<'a>
    ensures { key_in result ≡ seen_key (seen_as naming row.now entry.now) }
{
    let kind = entry.kind.as_bytes();
    match naming {
        Naming::Iban => NeedKey {
            by_iban: true,
            account: row.iban.as_slice(),
            subaccount: &[],
            country: &[],
            bank: &[],
            kind,
        },
        Naming::Items => NeedKey {
            by_iban: false,
            account: row.national.number(),
            subaccount: row.national.subaccount(),
            country: row.national.country(),
            bank: row.national.bank(),
            kind,
        },
    }
}

// The key of the entry at a place; that of an empty account where there is none.
fn key_at<'a>(rows: &'a [AccountRow], place: &EntryPlace) -> NeedKey<'a>
    ensures { key_in result ≡ seen_key (seen_at rows.now place.now) }
{
    if let Some(row) = rows.get(place.row) {
        if let Some(entry) = row.entries.as_slice().get(place.entry) {
            return key_of(place.naming, row, entry);
        }
    }
    NeedKey {
        by_iban: false,
        account: &[],
        subaccount: &[],
        country: &[],
        bank: &[],
        kind: &[],
    }
}

// How many signatures the entry at a place needs; none where there is no entry.
fn signatures_at(rows: &[AccountRow], place: &EntryPlace) -> u32
    ensures { result ≡ (seen_at rows.now place.now).signatures }
{
    if let Some(row) = rows.get(place.row) {
        if let Some(entry) = row.entries.as_slice().get(place.entry) {
            return entry.signatures;
        }
    }
    0
}

// By their keys, then by the signatures.
fn compare(rows: &[AccountRow], a: &EntryPlace, b: &EntryPlace) -> Ordering
    ensures { result ≡ seen_cmp (seen_at rows.now a.now) (seen_at rows.now b.now) }
{
    let keys = compare_keys(&key_at(rows, a), &key_at(rows, b));
    if keys.is_ne() {
        return keys;
    }
    signatures_at(rows, a).cmp(&signatures_at(rows, b))
}

// How an entry compares to a key.
fn compare_key(rows: &[AccountRow], place: &EntryPlace, key: &NeedKey<'_>) -> Ordering
    ensures { result ≡ key_cmp (seen_key (seen_at rows.now place.now)) (key_in key.now) }
{
    compare_keys(&key_at(rows, place), key)
}

fn is_before(rows: &[AccountRow], place: &EntryPlace, key: &NeedKey<'_>) -> bool
    ensures { result ≡ is_lt (key_cmp (seen_key (seen_at rows.now place.now)) (key_in key.now)) }
{
    compare_key(rows, place, key).is_lt()
}

fn has_key(rows: &[AccountRow], place: &EntryPlace, key: &NeedKey<'_>) -> bool
    ensures { result ≡ is_eq (key_cmp (seen_key (seen_at rows.now place.now)) (key_in key.now)) }
{
    compare_key(rows, place, key).is_eq()
}

// Adds the places of the entries of a row, each under both names of its account.
fn add_row(places: &mut Vec<EntryPlace>, rows: &[AccountRow], row: usize) -> Result<(), Memory>
    requires { row < length rows.now }
    ensures { (none : AccountRowValue) → OnOk result (map (seen_at rows.now) places.new.items
        ≡ map (seen_at rows.now) places.old.items ++ seen_in_row (get_or rows.now row none)) }
{
    for entry in 0..rows[row].entries.as_slice().len() {
        places.push(EntryPlace {
            naming: Naming::Items,
            row,
            entry,
        })?;
        places.push(EntryPlace {
            naming: Naming::Iban,
            row,
            entry,
        })?;
    }
    Ok(())
}

// The places of the entries of all rows, each under both names of its account.
fn places_in(alloc: Global, rows: &[AccountRow]) -> Result<Vec<EntryPlace>, Memory>
    ensures { IfOk result (λ places. map (seen_at rows.now) places.items ≡ seen_in rows.now) }
{
    let mut places = Vec::new(alloc);
    for row in 0..rows.len() {
        add_row(&mut places, rows, row)?;
    }
    Ok(places)
}

fn sort(places: &mut Vec<EntryPlace>, rows: &[AccountRow])
    ensures permutation { IsPermutation places.old.items places.new.items }
    ensures sorted { IsSortedByKey (seen_at rows.now) seen_cmp places.new.items }
{
    places.sort_unstable_by(|a, b| compare(rows, a, b));
}

// The first place whose entry isn't before the key.
fn first_place(rows: &[AccountRow], places: &[EntryPlace], key: &NeedKey<'_>) -> usize
    requires { IsSortedByKey (seen_at rows.now) seen_cmp places.now }
    ensures { BeginsAt key_cmp (λ p. seen_key (seen_at rows.now p)) (key_in key.now) places.now result }
{
    places.partition_point(|place| is_before(rows, place, key))
}

fn least_in(rows: &[AccountRow], places: &[EntryPlace], key: &NeedKey<'_>) -> Option<u32>
    requires { IsSortedByKey (seen_at rows.now) seen_cmp places.now }
    ensures { IsLeastOf (key_in key.now) (map (seen_at rows.now) places.now) result }
{
    match places.get(first_place(rows, places, key)) {
        Some(place) if has_key(rows, place, key) => Some(signatures_at(rows, place)),
        _ => None,
    }
}

/// The entries of all rows under both names of their accounts, in order; a contract sees the
/// entries.
#[derive(Drop)]
pub struct Needs<'a> {
    rows: &'a [AccountRow],
    places: Vec<EntryPlace>,
}

impl<'a> Model for Needs<'a> {
    ghost use Rattle.std.specs.Prelude.{List, map};
    ghost use Rattle.std.specs.List.Sorted.{IsSortedByKey};
    ghost use Rattle.fints_rules_permissions.specs.Needs.{Seen, seen_at, seen_cmp};

    ghost Value = { List Seen };

    ghost view = { λ n. map (seen_at n.rows.now) n.places.items };

    ghost invariant = { λ n. IsSortedByKey (seen_at n.rows.now) seen_cmp n.places.items };
}

impl<'a> Needs<'a> {
    /// The entries of the rows.
    pub fn of(alloc: Global, rows: &'a [AccountRow]) -> Result<Needs<'a>, Memory>
        ensures { IfOk result (λ needs. IsPermutation (seen_in rows.now) needs) }
    {
        let mut places = places_in(alloc, rows)?;
        sort(&mut places, rows);
        Ok(Needs { rows, places })
    }

    /// The least number of signatures that an entry of the key needs, if one is there.
    pub fn least(&self, key: &NeedKey<'_>) -> Option<u32>
        ensures { IsLeastOf (key_in key.now) self.now result }
    {
        least_in(self.rows, self.places.as_slice(), key)
    }
}
