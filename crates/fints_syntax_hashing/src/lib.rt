//! The hasher of maps whose keys others choose.
//!
//! Whoever chooses the keys of a map and knows its hasher can choose keys that all come to one place of
//! the map, so that each look-up walks over them. Here the hasher first takes a digest of the map's own
//! keys. So a key that is changed to make it collide changes where every key comes. No random numbers
//! are needed for it, and equal inputs make equal maps.
#![tactic(auto)]

ghost use Rattle.std.specs.Prelude.{◌≡◌, ◌++◌, [], List, ℕ, length};
ghost use Rattle.std.specs.Hash.DefaultHasher.{write, initial};
ghost use Rattle.std.specs.Int.{to_le_bytes, w64};
ghost use Rattle.sha2.specs.Sha256.{sha256};
ghost use Rattle.fints_syntax_hashing.specs.Digests.{IsDigestOf};

use sha2::{Digest, Sha256};
use std::hash::{BuildHasher, DefaultHasher, Hasher};
use std::marker::Model;

/// A digest of the keys of a map.
#[derive(Drop)]
pub struct KeyDigest {
    keys: Sha256,
}

impl KeyDigest {
    pub fn new() -> KeyDigest
        ensures { IsDigestOf result [] }
    {
        KeyDigest {
            keys: Sha256::new(),
        }
    }

    /// Adds a key that is a number.
    pub fn add_number(&mut self, key: u64)
        ensures { (bytes : List ℕ) → IsDigestOf self.old bytes
            → IsDigestOf self.new (bytes ++ to_le_bytes w64 key) }
    {
        self.keys.update(&key.to_le_bytes());
    }

    /// Adds a key that is a text, after its length.
    pub fn add_text(&mut self, key: &[u8])
        ensures { (bytes : List ℕ) → IsDigestOf self.old bytes
            → IsDigestOf self.new (bytes ++ to_le_bytes w64 (length key.now) ++ key.now) }
    {
        self.keys.update(&key.len().to_le_bytes());
        self.keys.update(key);
    }
}

/// Makes the hasher of each key of a map: SipHash-1-3 that has taken a digest before the key. A contract
/// sees that hasher.
#[derive(Drop)]
pub struct KeyedHashing {
    keyed: DefaultHasher,
}

impl Model for KeyedHashing {
    ghost use Rattle.std.specs.declared.hash.DefaultHasher.{DefaultHasher};

    ghost Value = { DefaultHasher };

    ghost view = { λ hashing. hashing.keyed };
}

impl KeyedHashing {
    /// The hashing under a digest.
    pub fn by(digest: KeyDigest) -> KeyedHashing
        ensures { (bytes : List ℕ) → IsDigestOf digest bytes → result ≡ write initial (sha256 bytes) }
    {
        let KeyDigest { keys } = digest;
        let mut keyed = DefaultHasher::new();
        keyed.write(&keys.finalize());
        KeyedHashing { keyed }
    }
}

impl BuildHasher for KeyedHashing {
    type Hasher = DefaultHasher;

    ghost build_hasher = { λ hashing. hashing };

    fn build_hasher(&self) -> DefaultHasher {
        self.keyed
    }
}
