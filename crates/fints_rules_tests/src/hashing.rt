//! The hasher of maps whose keys others choose. The expected hashes are those that SHA-256 and
//! SipHash-1-3, whose keys are 0, give for these bytes in another program.
use fints_syntax::Kind;
use fints_syntax_hashing::{KeyDigest, KeyedHashing};
use std::hash::BuildHasher;
use std::test::*;

#[test]
fn hash_under_a_digest(rt: HostRuntime) {
    let mut keys = KeyDigest::new();
    keys.add_number(1);
    keys.add_text(b"ab");
    let hashing = KeyedHashing::by(keys);
    assert!(rt; hashing.hash_one(5u64) == 0x0085_1883_e620_6332);
}

#[test]
fn one_key_more_changes_the_hash(rt: HostRuntime) {
    let mut keys = KeyDigest::new();
    keys.add_number(1);
    keys.add_text(b"ab");
    keys.add_number(3);
    let hashing = KeyedHashing::by(keys);
    assert!(rt; hashing.hash_one(5u64) == 0xa53a_b929_bbce_d0d4);
}

#[test]
fn texts_cut_elsewhere_change_the_hash(rt: HostRuntime) {
    let mut keys = KeyDigest::new();
    keys.add_text(b"ab");
    keys.add_text(b"c");
    assert!(rt; KeyedHashing::by(keys).hash_one(5u64) == 0x9fc9_7244_f98f_d204);
    let mut others = KeyDigest::new();
    others.add_text(b"a");
    others.add_text(b"bc");
    assert!(rt; KeyedHashing::by(others).hash_one(5u64) == 0x8ad8_559f_98c3_aff0);
}

#[test]
fn the_number_of_a_kind(rt: HostRuntime) {
    let number = Kind::parse(b"HKSAL").map(|kind| kind.word());
    assert!(rt; number == Some(0x004c_4153_4b48));
}
