//! The accounts that a recorded order may name: lists that were worked out by hand.
use fints_cli_drafts_accounts::{AccountList, accounts_for};
use fints_params::Params;
use fints_rules::{OrderTable, Permissions};
use fints_syntax::parse_segment;
use std::alloc::Global;
use std::test::Fail;

// What isn't listed is locked. HKCCS for DE222 needs two signatures; 1111111 has no IBAN; DE333 has a
// subaccount; DE444 has no balance; DE222 comes twice.
const CAPTURE: &[u8] = b"HIBPA:3:3+12+280:10020030+Bank+1+1+300+0'
HIPINS:9:1+1+1+0+5:38:6:::HKSAL:N:HKCCS:J'
HIUPA:10:4+user+3+0'
HIUPD:11:6+1234567::280:10020030+DE111+cust+1+EUR+Name++Giro++HKSAL:1+HKCCS:1'
HIUPD:12:6+7654321::280:10020030+DE222+cust+1+EUR+Name++Giro++HKSAL:1+HKCCS:2'
HIUPD:13:6+1111111::280:10020030++cust+1+EUR+Name++Giro++HKSAL:1'
HIUPD:14:6+2222222:01:280:10020030+DE333+cust+1+EUR+Name++Giro++HKSAL:1'
HIUPD:15:6+4444444::280:10020030+DE444+cust+1+EUR+Name++Giro++HKCAZ:1'
HIUPD:16:6+7654321::280:10020030+DE222+cust+1+EUR+Name++Giro++HKSAL:1'
HIUPD:17:6+++cust+1+EUR+Name++Giro++HKSAL:1'
";

const ORDERS: &[u8] =
    b"order = [{ kind = 'HKSPA', version = 1, account = 'none' }, { kind = 'HKSAL', version = 5, account = 'national' }, { kind = 'HKSAL', version = 7, account = 'international' }, { kind = 'HKCCS', version = 1, account = 'international' }]";

// The order, the number of signatures, the listed accounts, and how many aren't permitted.
type Row<'a> = (&'a [u8], usize, &'a [&'a [u8]], usize);

const LISTS: [Row<'static>; 5] = [
    (
        b"HKSAL:3:5+7654321::280:10020030+N'",
        1,
        &[
            b"7654321::280:10020030",
            b"1234567::280:10020030",
            b"1111111::280:10020030",
        ],
        1,
    ),
    (
        b"HKSAL:3:7+DE222:BIC+N'",
        1,
        &[b"DE222:BIC", b"DE111:BIC", b"DE333:BIC"],
        1,
    ),
    (
        b"HKSAL:3:7+DE222::7654321::280:10020030'",
        1,
        &[
            b"DE222::7654321::280:10020030",
            b"DE111::1234567::280:10020030",
            b"::1111111::280:10020030",
            b"DE333::2222222::280:10020030",
        ],
        1,
    ),
    (b"HKCCS:3:1+DE111:BIC'", 1, &[b"DE111:BIC"], 3),
    (b"HKCCS:3:1+DE111:BIC'", 2, &[b"DE111:BIC", b"DE222:BIC"], 2),
];

// Orders without a list.
const OTHERS: [&[u8]; 9] = [
    b"HKSPA:3:1+DE111:BIC'",
    b"HKSAL:3:6+1234567::280:10020030'",
    b"HKSAL:3:7'",
    b"HKSAL:3:7+DE999:BIC'",
    b"HKSAL:3:7+@5@DE111:BIC'",
    b"HKSAL:3:7+DE111:B\x01C'",
    b"HKSAL:3:7+DE111::::::'",
    b"HKSAL:3:5+++N'",
    b"HKCCS:3:1+DE222:BIC'",
];

fn is_list(list: &AccountList, accounts: &[&[u8]], left_out: usize) -> bool {
    let texts = list.values.iter().map(|value| value.text());
    texts.eq(accounts.iter().copied()) && list.left_out == left_out && list.further == 0
}

// The list for an order that is signed this often.
fn list_for(
    alloc: Global,
    permissions: &Permissions<'_>,
    order: &[u8],
    signatures: usize,
) -> Result<Option<AccountList>, Fail> {
    let (view, _) = parse_segment(order)?;
    let segment = view.to_owned(alloc)?;
    Ok(accounts_for(alloc, permissions, &segment, signatures)?)
}

fn has_list(alloc: Global, permissions: &Permissions<'_>, row: &Row<'_>) -> Result<bool, Fail> {
    let (order, signatures, accounts, left_out) = *row;
    Ok(list_for(alloc, permissions, order, signatures)?.is_some_and(|list| is_list(
        &list, accounts, left_out,
    )))
}

fn have_lists(alloc: Global, permissions: &Permissions<'_>) -> Result<bool, Fail> {
    for row in &LISTS {
        if !has_list(alloc, permissions, row)? {
            return Ok(false);
        }
    }
    Ok(true)
}

fn have_none(alloc: Global, permissions: &Permissions<'_>) -> Result<bool, Fail> {
    for order in &OTHERS {
        if list_for(alloc, permissions, order, 1)?.is_some() {
            return Ok(false);
        }
    }
    Ok(true)
}

fn are_right_under(alloc: Global, params: &Params, orders: &OrderTable) -> Result<bool, Fail> {
    let permissions = Permissions::build(alloc, params, orders)?;
    Ok(have_lists(alloc, &permissions)? && have_none(alloc, &permissions)?)
}

fn are_right(alloc: Global, params: &Params) -> Result<bool, Fail> {
    let orders = OrderTable::read(alloc, ORDERS)?;
    are_right_under(alloc, params, &orders)
}

#[test]
fn lists(rt: HostRuntime) -> Result<(), Fail> {
    let params = Params::read(rt.alloc(), CAPTURE)?;
    assert!(rt; are_right(rt.alloc(), &params)?);
    Ok(())
}
