//! The rows of a capture that other tests only count: pins, TAN procedures, and accounts with their numbers
//! and entries. They are those that `show` prints of C.
use crate::samples::C;
use fints_params::{AccountRow, Entry, Params, PinRow, TanRow};
use std::test::*;

fn are_pins(pins: &[PinRow]) -> bool {
    match pins {
        [sal, kaz, ccs] => {
            (sal.kind.as_bytes(), sal.tan) == (b"HKSAL".as_slice(), false)
                && (kaz.kind.as_bytes(), kaz.tan) == (b"HKKAZ".as_slice(), false)
                && (ccs.kind.as_bytes(), ccs.tan) == (b"HKCCS".as_slice(), true)
        }
        _ => false,
    }
}

fn are_entries(entries: &[Entry], wanted: &[(&[u8], u32)]) -> bool {
    for (it, wanted) in entries.iter().zip(wanted) {
        if (it.kind.as_bytes(), it.signatures) != *wanted {
            return false;
        }
    }
    entries.len() == wanted.len()
}

// The number of an account, its IBAN and its entries.
type Account<'a> = (&'a [u8], &'a [u8], &'a [(&'a [u8], u32)]);

const ACCOUNTS: [Account<'static>; 2] = [
    (
        b"1234567",
        b"DE111",
        &[(b"HKSAL", 1), (b"HKKAZ", 1), (b"HKCCS", 1)],
    ),
    (b"7654321", b"DE222", &[(b"HKSAL", 1), (b"HKCCS", 2)]),
];

fn is_account(account: &AccountRow, wanted: Account<'_>) -> bool {
    let (number, iban, entries) = wanted;
    let it = &account.national;
    (it.number(), it.subaccount()) == (number, b"".as_slice())
        && (it.country(), it.bank()) == (b"280".as_slice(), b"10020030".as_slice())
        && account.iban.as_slice() == iban
        && are_entries(account.entries.as_slice(), entries)
}

fn are_accounts(accounts: &[AccountRow]) -> bool {
    for (it, wanted) in accounts.iter().zip(ACCOUNTS) {
        if !is_account(it, wanted) {
            return false;
        }
    }
    accounts.len() == ACCOUNTS.len()
}

const TAN: TanRow = TanRow {
    version: 6,
    one_step: true,
    several: false,
};

#[test]
fn rows(rt: HostRuntime) -> Result<(), Fail> {
    let params = Params::read(rt.alloc(), C)?;
    assert!(rt; are_pins(params.pins()) && params.tans() == [TAN].as_slice());
    assert!(rt; are_accounts(params.accounts()));
    Ok(())
}
