//! The limits of each kind and version of orders, and whether a kind demands a TAN.
ghost use Rattle.std.specs.Prelude.{◌≡◌, ◌↔◌, if◌then◌else◌, ℕ, List, IfOk, OnOk, IsTrue, Some};
ghost use Rattle.std.specs.Str.{bytes_eq};
ghost use Rattle.indexmap.specs.IndexMap.{get};
ghost use Rattle.fints_rules_permissions.specs.declared.keys.OrderKey.{OrderKey as Key};
ghost use Rattle.fints_rules_permissions.specs.OrderKeys.{key_eq, param_key};
ghost use Rattle.fints_rules_permissions.specs.LimitMaps.{lower, joined, limits_of, with_limits, with_pin, HoldsLimits, HoldsPins};

use crate::keys::{OrderKey, param_hashing, param_key, pin_hashing};
use fints_params::{OrderParam, PinRow};
use fints_syntax::{Kind, Memory};
use fints_syntax_hashing::KeyedHashing;
use indexmap::IndexMap;
use std::alloc::Global;

/// How many orders of a kind a message may have, with 0 for no limit, and how many signatures it
/// needs.
#[derive(Clone, Copy, PartialEq, Eq)]
pub struct Limits {
    pub orders: u32,
    pub signatures: u32,
}

/// Whether a kind of orders is listed in HIPINS (Security PIN/TAN), and demands a TAN.
#[derive(Clone, Copy, PartialEq, Eq)]
pub enum Demand {
    /// It isn't listed.
    Unlisted,
    /// It is listed, and demands none.
    No,
    /// Some pair says J.
    Tan,
}

/// Limits by kind and version.
pub type LimitMap = IndexMap<OrderKey, Limits, KeyedHashing>;

/// Whether a TAN is demanded, by kind.
pub type PinMap = IndexMap<Kind, bool, KeyedHashing>;

// The lower of two limits, where 0 is no limit.
fn lower(m: u32, n: u32) -> u32
    ensures { result ≡ lower m n }
{
    if m == 0 {
        n
    } else if n == 0 {
        m
    } else if n < m {
        n
    } else {
        m
    }
}

impl Limits {
    // What a row says.
    fn of(row: &OrderParam) -> Limits
        ensures { result ≡ limits_of row.now }
    {
        Limits {
            orders: row.orders,
            signatures: row.signatures,
        }
    }

    // Both limits at once.
    fn joined(self, other: Limits) -> Limits
        ensures { result ≡ joined self other }
    {
        Limits {
            orders: lower(self.orders, other.orders),
            signatures: self.signatures.max(other.signatures),
        }
    }

    // Whether the other limits change nothing in these.
    fn includes(self, other: Limits) -> bool
        ensures { IsTrue result ↔ (joined self other ≡ self) }
    {
        self.joined(other) == self
    }
}

// Whether the entry at a place of the map is that of the row's kind and version, and the row changes
// nothing in it.
fn has_at(map: &LimitMap, place: usize, row: &OrderParam) -> bool
    ensures { IsTrue result → get key_eq map.now (param_key row.now)
        ≡ Some (with_limits (get key_eq map.now (param_key row.now)) row.now) }
{
    match map.get_index(place) {
        Some((key, limits)) => *key == param_key(row) && limits.includes(Limits::of(row)),
        None => false,
    }
}

// Adds a row to the limits of its kind and version, and answers their place. It is looked for at the
// place of the row before it first, since captures repeat rows.
fn add_limits(map: &mut LimitMap, before: usize, row: &OrderParam) -> Result<usize, Memory>
    ensures { OnOk result ((q : Key) → get key_eq map.new q
        ≡ if key_eq (param_key row.now) q
        then Some (with_limits (get key_eq map.old (param_key row.now)) row.now)
        else get key_eq map.old q) }
{
    if has_at(&*map, before, row) {
        return Ok(before);
    }
    let limits = Limits::of(row);
    let (place, earlier) = map.insert_full(param_key(row), limits)?;
    if let Some(earlier) = earlier {
        if !limits.includes(earlier) {
            map.insert(param_key(row), limits.joined(earlier))?;
        }
    }
    Ok(place)
}

/// The limits of each kind and version of the rows.
pub fn limit_map(alloc: Global, rows: &[OrderParam]) -> Result<LimitMap, Memory>
    ensures { IfOk result (λ m. HoldsLimits rows.now (get key_eq m)) }
{
    let mut map = IndexMap::with_hasher(alloc, param_hashing(rows));
    let mut place = 0;
    for row in rows {
        place = add_limits(&mut map, place, row)?;
    }
    Ok(map)
}

// Adds a pair to the demands of its kind.
fn add_pin(map: &mut PinMap, pin: &PinRow) -> Result<(), Memory>
    ensures { OnOk result ((kind : List ℕ) → get bytes_eq map.new kind
        ≡ if bytes_eq pin.now.kind kind then Some (with_pin (get bytes_eq map.old pin.now.kind) pin.now)
        else get bytes_eq map.old kind) }
{
    if let Some(true) = map.insert(pin.kind, pin.tan)? {
        map.insert(pin.kind, true)?;
    }
    Ok(())
}

/// Whether each kind of the pairs demands a TAN.
pub fn pin_map(alloc: Global, pins: &[PinRow]) -> Result<PinMap, Memory>
    ensures { IfOk result (λ m. HoldsPins pins.now (get bytes_eq m)) }
{
    let mut map = IndexMap::with_hasher(alloc, pin_hashing(pins));
    for pin in pins {
        add_pin(&mut map, pin)?;
    }
    Ok(map)
}
