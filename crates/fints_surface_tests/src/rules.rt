//! What a bank permits: its row, its TAN procedures, and how many signatures it wants.
use crate::samples::{C, T};
use fints_params::{Params, TanRow};
use fints_rules::{AccountForm, AccountKey, OrderTable, Permissions};
use fints_syntax::Kind;
use std::alloc::Global;
use std::test::*;

const TAN: TanRow = TanRow {
    version: 6,
    one_step: true,
    several: false,
};

fn is_bank(permissions: &Permissions<'_>) -> bool {
    permissions.bank().code.as_slice() == b"10020030".as_slice()
        && permissions.tans() == [TAN].as_slice()
}

// An order, and whether a row of it wants a signature.
const WANTED: [(&[u8], u16, bool); 2] = [(b"HKKAZ", 5, true), (b"HKSAL", 6, false)];

fn are_wanted(permissions: &Permissions<'_>) -> Result<bool, Fail> {
    for (kind, version, wanted) in WANTED {
        let kind = Kind::parse(kind).ok_or("a kind")?;
        if permissions.needs_more(kind, version, 0) != wanted {
            return Ok(false);
        }
    }
    Ok(true)
}

const FIRST: &[&[u8]] = &[b"1234567", b"", b"280", b"10020030"];

const OTHER: &[&[u8]] = &[b"1234568", b"", b"280", b"10020030"];

// An order, the account that it names, and the least number of signatures that this wants.
type Need<'a> = (&'a [u8], AccountForm, &'a [&'a [u8]], Option<u32>);

const NEEDS: [Need<'static>; 3] = [
    (b"HKSAL", AccountForm::National, FIRST, Some(1)),
    (b"HKSAL", AccountForm::National, OTHER, None),
    (b"HKCCS", AccountForm::International, &[b"DE222"], Some(2)),
];

fn are_needs(permissions: &Permissions<'_>) -> Result<bool, Fail> {
    for (kind, form, items, need) in NEEDS {
        let kind = Kind::parse(kind).ok_or("a kind")?;
        let account = AccountKey::of(form, items);
        if permissions.least_need(kind, &account) != need {
            return Ok(false);
        }
    }
    Ok(true)
}

fn is_granted(alloc: Global, params: &Params) -> Result<bool, Fail> {
    let orders = OrderTable::read(alloc, T)?;
    let permissions = Permissions::build(alloc, params, &orders)?;
    Ok(is_bank(&permissions) && are_wanted(&permissions)? && are_needs(&permissions)?)
}

#[test]
fn bank(rt: HostRuntime) -> Result<(), Fail> {
    let params = Params::read(rt.alloc(), C)?;
    assert!(rt; is_granted(rt.alloc(), &params)?);
    Ok(())
}
