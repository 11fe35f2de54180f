//! What the maps of rows are asked by, and their hashing.
ghost use Rattle.std.specs.Prelude.{◌≡◌};
ghost use Rattle.fints_rules_permissions.specs.OrderKeys.{param_key, row_key};

use crate::orders::OrderRow;
use fints_params::{OrderParam, PinRow};
use fints_syntax::Kind;
use fints_syntax_hashing::{KeyDigest, KeyedHashing};

/// A kind and a version.
#[derive(Clone, Copy, PartialEq, Eq, Hash)]
pub struct OrderKey {
    pub kind: Kind,
    pub version: u16,
}

impl OrderKey {
    // The key as one number, which no other key has.
    fn number(self) -> u64 {
        self.kind.word() | u64::from(self.version) << 48
    }
}

/// The kind and version of a row of a capture.
pub fn param_key(row: &OrderParam) -> OrderKey
    ensures { result ≡ param_key row.now }
{
    OrderKey {
        kind: row.kind,
        version: row.version,
    }
}

/// The kind and version of a row of an order table.
pub fn row_key(row: &OrderRow) -> OrderKey
    ensures { result ≡ row_key row.now }
{
    OrderKey {
        kind: row.kind,
        version: row.version,
    }
}

// How many keys are remembered, and what spreads them over as many places.
const PLACES: u64 = 256;

const SPREAD: u64 = 0x9e37_79b9_7f4a_7c15;

// A digest of keys, and keys that it has taken, each at a place of its own. Captures repeat keys: one that
// still has its place is not taken again.
#[derive(Drop)]
struct Keys {
    digest: KeyDigest,
    taken: [u64; PLACES as usize],
}

impl Keys {
    fn new() -> Keys {
        Keys {
            digest: KeyDigest::new(),
            taken: [0; PLACES as usize],
        }
    }

    fn add(&mut self, key: u64) {
        let place = (key.wrapping_mul(SPREAD) / (u64::MAX / PLACES + 1)) as usize;
        if self.taken[place] != key {
            self.taken[place] = key;
            self.digest.add_number(key);
        }
    }

    fn hashing(self) -> KeyedHashing {
        KeyedHashing::by(self.digest)
    }
}

/// The hashing of a map by the kinds and versions of rows of a capture.
pub fn param_hashing(rows: &[OrderParam]) -> KeyedHashing {
    let mut keys = Keys::new();
    for row in rows {
        keys.add(param_key(row).number());
    }
    keys.hashing()
}

/// The hashing of a map by the kinds of pairs of HIPINS.
pub fn pin_hashing(pins: &[PinRow]) -> KeyedHashing {
    let mut keys = Keys::new();
    for pin in pins {
        keys.add(pin.kind.word());
    }
    keys.hashing()
}

/// The hashing of a map by the kinds and versions of rows of an order table.
pub fn row_hashing(rows: &[Option<OrderRow>]) -> KeyedHashing {
    let mut keys = Keys::new();
    for row in rows.iter().flatten() {
        keys.add(row_key(row).number());
    }
    keys.hashing()
}
