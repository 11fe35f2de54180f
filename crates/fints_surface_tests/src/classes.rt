//! The classes of fields by themselves: what they admit, and how long their values are written. Other tests
//! make these calls only of a field, which is of one of these classes.
use fints_script::{
    Account, AccountValue, Accounts, Alphabet, Bin, Digits, FieldClass, Memory, OneOf, Plain, Text,
    Texts,
};
use fints_syntax::Bytes;
use std::alloc::Global;
use std::test::*;

// A longest value and a shortest one, each with the bytes that are written for it.
type Ends<'a> = [(&'a [u8], u64); 2];

fn is_value(found: Result<Vec<u8>, Memory>, value: &[u8]) -> Result<bool, Memory> {
    let found = found?;
    Ok(found.as_slice() == value)
}

// Whether a class has these ends, and doesn't admit this other value.
fn are_ends<C: FieldClass>(
    alloc: Global,
    class: &C,
    ends: Ends<'_>,
    other: &[u8],
) -> Result<bool, Memory> {
    let [(longest, most), (shortest, least)] = ends;
    Ok(
        is_value(class.longest(alloc), longest)?
            && is_value(class.shortest(alloc), shortest)?
            && (class.longest_written(), class.written(shortest)) == (most, least)
            && (class.admits(longest), class.admits(shortest)) == (true, true)
            && !class.admits(other),
    )
}

// A pin, one or two letters or digits, a text of 0 to 3 bytes, and one byte or two.
#[test]
fn counted(rt: HostRuntime) -> Result<(), Fail> {
    let alloc = rt.alloc();
    let digits = Digits::new(5, 6).ok_or("a class")?;
    assert!(rt; are_ends(alloc, &digits, [(b"999999", 6), (b"00000", 5)], b"1234")?);
    let plain = Plain::new(1, 2).ok_or("a class")?;
    assert!(rt; are_ends(alloc, &plain, [(b"ZZ", 2), (b"A", 1)], b"-")?);
    let text = Text::new(Alphabet::Latin, 0, 3).ok_or("a class")?;
    assert!(rt; are_ends(alloc, &text, [(b"???", 6), (b"", 0)], b"\x7f")?);
    let bin = Bin::new(1, 2).ok_or("a class")?;
    assert!(rt; are_ends(alloc, &bin, [(b"\xff\xff", 5), (b"\x00", 4)], b"")?);
    Ok(())
}

fn texts(alloc: Global, rows: &[&[u8]]) -> Result<Vec<Bytes>, Memory> {
    let mut texts = Vec::new(alloc);
    for row in rows {
        texts.push(Bytes::copied(alloc, row)?)?;
    }
    Ok(texts)
}

fn listed_texts(alloc: Global) -> Result<OneOf, Fail> {
    let texts = texts(alloc, &[b"abc", b"+:", b"??", b"de"])?;
    Ok(OneOf::new(Texts::new(texts)).ok_or("a class")?)
}

// The literal A1, as an element is written.
const A1: &[u8] = b"1234567::280:10020030";

// Only the account of A1.
fn listed_account(alloc: Global) -> Result<Account, Fail> {
    let items = texts(alloc, &[b"1234567", b"", b"280", b"10020030"])?;
    let mut accounts = Vec::new(alloc);
    accounts.push(AccountValue::new(alloc, items)?)?;
    Ok(Account::new(Accounts::new(accounts)).ok_or("a class")?)
}

// Two of the texts are written longest; the first of these counts.
#[test]
fn listed(rt: HostRuntime) -> Result<(), Fail> {
    let alloc = rt.alloc();
    let texts = listed_texts(alloc)?;
    assert!(rt; are_ends(alloc, &texts, [(b"+:", 4), (b"de", 2)], b"ab")?);
    let account = listed_account(alloc)?;
    assert!(rt; are_ends(alloc, &account, [(A1, 21), (A1, 21)], b"1234567")?);
    Ok(())
}
