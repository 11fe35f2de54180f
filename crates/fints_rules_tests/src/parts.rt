//! Parameters of a bank and of its user by parts, and what both permit.
use fints_params::{BankParams, UserParams, told_in};
use fints_rules::{AccountForm, AccountKey, Demand, Limits, OrderTable, Permissions, Permit};
use fints_rules_permissions::{BankPermissions, UserPermissions};
use fints_samples::T;
use fints_syntax::Kind;
use std::alloc::Global;
use std::test::Fail;

const BANK: &[u8] =
    b"HIBPA:1:3+12+280:10020030+Bank+1+1+300+0'HIPINS:2:1+1+1+0+5:38:6:::HKSAL:N'HISALS:3:5+2+1+0'";

const USER: &[u8] =
    b"HIUPA:1:4+user+3+0'HIUPD:2:6+1234567::280:10020030+DE111+cust+1+EUR+Name++Giro++HKSAL:1'";

const NEITHER: &[u8] = b"HIRMG:1:2+0010::OK'HIBPA:2:3+12+280:10020030+Bank+1+1+300+0'";

#[test]
fn told_of_the_bank(rt: HostRuntime) -> Result<(), Fail> {
    let told = told_in(rt.alloc(), BANK)?;
    assert!(rt; told.bank.is_some() && told.user.is_none());
    Ok(())
}

#[test]
fn told_of_the_user(rt: HostRuntime) -> Result<(), Fail> {
    let told = told_in(rt.alloc(), USER)?;
    assert!(rt; told.bank.is_none());
    assert_eq!(rt; told.user.map(|user| user.accounts().len()), Some(1));
    Ok(())
}

#[test]
fn told_of_neither(rt: HostRuntime) -> Result<(), Fail> {
    let told = told_in(rt.alloc(), NEITHER)?;
    assert!(rt; told.bank.is_none() && told.user.is_none());
    Ok(())
}

// The account of this number at the bank.
fn permit(permissions: &Permissions<'_>, order: Kind, number: &[u8]) -> Permit {
    let items: &[&[u8]] = &[number, b"", b"280", b"10020030"];
    permissions.permit(order, &AccountKey::of(AccountForm::National, items), 1)
}

type Permits = (Permit, Permit);

// What is permitted on an account that the user has, and on another one.
fn permits_by(permissions: &Permissions<'_>) -> Result<Permits, Fail> {
    let order = Kind::parse(b"HKSAL").ok_or("kind")?;
    let limits = Limits {
        orders: 2,
        signatures: 1,
    };
    if permissions.limits(order, 5) != Some(limits) || permissions.demand(order) != Demand::No {
        return Ok((Permit::MoreSignatures, Permit::MoreSignatures));
    }
    Ok((
        permit(permissions, order, b"1234567"),
        permit(permissions, order, b"7654321"),
    ))
}

// The same by what the bank permits, and by parameters of the user.
fn permits_to(
    alloc: Global,
    bank: &BankPermissions<'_>,
    user: &UserParams,
) -> Result<Permits, Fail> {
    let user = UserPermissions::of(alloc, user)?;
    permits_by(&Permissions::of(bank, &user))
}

// The same by parameters of both.
fn permits_under(
    alloc: Global,
    orders: &OrderTable,
    bank: &BankParams,
    user: &UserParams,
) -> Result<Permits, Fail> {
    let bank = BankPermissions::of(alloc, bank, orders)?;
    permits_to(alloc, &bank, user)
}

fn permits(alloc: Global, bank: &BankParams, user: &UserParams) -> Result<Permits, Fail> {
    let orders = OrderTable::read(alloc, T)?;
    permits_under(alloc, &orders, bank, user)
}

fn bank(alloc: Global) -> Result<BankParams, Fail> {
    Ok(told_in(alloc, BANK)?.bank.ok_or("bank")?)
}

fn user(alloc: Global) -> Result<UserParams, Fail> {
    Ok(told_in(alloc, USER)?.user.ok_or("user")?)
}

#[test]
fn permitted_by_both(rt: HostRuntime) -> Result<(), Fail> {
    let bank = bank(rt.alloc())?;
    let user = user(rt.alloc())?;
    let found = permits(rt.alloc(), &bank, &user)?;
    assert!(rt; found == (Permit::Allowed, Permit::Refused));
    Ok(())
}

#[test]
fn permitted_to_an_unknown_user(rt: HostRuntime) -> Result<(), Fail> {
    let bank = bank(rt.alloc())?;
    let found = permits(rt.alloc(), &bank, &UserParams::unknown(rt.alloc()))?;
    assert!(rt; found == (Permit::Allowed, Permit::Allowed));
    Ok(())
}
