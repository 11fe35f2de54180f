//! The accounts that the orders of a recorded dialogue may name.
use fints_cli_drafts_accounts::{Offers, offers_of};
use fints_rules::OrderTable;
use fints_rules_dialogues::{part_of, read_dialogue, read_log};
use std::alloc::Global;
use std::test::Fail;

// The answer to the first message names three accounts: two may ask for their balance (HKSAL).
const RECORDED: &[u8] =
    b"HNHBK:1:3+000000000099+300+0+1'HKIDN:2:2+280:10020030+cust+0+1'HKVVB:3:3+0+0+0+fints+1'HNHBS:4:1+1'\
    HNHBK:1:3+000000000367+300+7+1+7:1'HIRMG:2:2+0010::OK'HIBPA:3:3+12+280:10020030+Bank+1+1+300+0'HIPINS:4:1+1+1+0+5:38:6:::HKSAL:N'HIUPA:5:4+user+3+0'HIUPD:6:6+1234567::280:10020030+DE111+cust+1+EUR+Name++Giro++HKSAL:0'HIUPD:7:6+7654321::280:10020030+DE222+cust+1+EUR+Name++Giro++HKSAL:0'HIUPD:8:6+4444444::280:10020030+DE444+cust+1+EUR+Name++Giro++HKCAZ:1'HNHBS:9:1+1'\
    HNHBK:1:3+000000000111+300+7+2'HKSAL:2:5+7654321::280:10020030+N'HKSAL:3:5+9999999::280:10020030+N'HNHBS:4:1+2'\
    HNHBK:1:3+000000000066+300+7+2+7:2'HIRMG:2:2+0010::OK'HNHBS:3:1+2'";

const ORDERS: &[u8] = b"order = [{ kind = 'HKSAL', version = 5, account = 'national' }]";

// The accounts that the first order of message 2 may name: its own first.
const ACCOUNTS: [&[u8]; 2] = [b"7654321::280:10020030", b"1234567::280:10020030"];

// Whether only the first order of message 2 has a list, the only one; one account isn't in it. The account of
// the second is none of the user's.
fn are_right(offers: &Offers) -> bool {
    let [list] = offers.lists.as_slice() else {
        return false;
    };
    let is_list = list
        .values
        .iter()
        .map(|it| it.text())
        .eq(ACCOUNTS.iter().copied());
    let is_first = match offers.account_of(2, 0) {
        Some((offer, account)) => (offer.list, offer.left_out) == (0, 1) && account == ACCOUNTS[0],
        None => false,
    };
    is_list && is_first && offers.account_of(2, 1).is_none() && offers.account_of(1, 0).is_none()
}

// Whether the orders of the recording, or of its first dialogue, have these lists.
fn have_lists(alloc: Global, number: Option<u32>) -> Result<bool, Fail> {
    let orders = OrderTable::read(alloc, ORDERS)?;
    let log = read_log(alloc, RECORDED)?;
    let exchanges = read_dialogue(alloc, &log)?;
    match part_of(exchanges.as_slice(), number) {
        Some(part) => Ok(are_right(&offers_of(alloc, &orders, exchanges.as_slice(), &part)?)),
        None => Ok(false),
    }
}

#[test]
fn of_a_recording(rt: HostRuntime) -> Result<(), Fail> {
    assert!(rt; have_lists(rt.alloc(), None)?);
    assert!(rt; have_lists(rt.alloc(), Some(1))?);
    Ok(())
}
