//! The classes of fields: what they admit, and how long their values are written.
use fints_script::{
    Account, AccountValue, Accounts, Alphabet, Bin, Field, FieldClass, OneOf, Text, Texts,
};
use fints_syntax::Bytes;
use std::alloc::Global;
use std::test::*;

fn texts(alloc: Global, rows: &[&[u8]]) -> Result<Vec<Bytes>, Fail> {
    let mut texts = Vec::new(alloc);
    for row in rows {
        texts.push(Bytes::copied(alloc, row)?)?;
    }
    Ok(texts)
}

fn accounts(alloc: Global, rows: &[&[&[u8]]]) -> Result<Vec<AccountValue>, Fail> {
    let mut accounts = Vec::new(alloc);
    for row in rows {
        accounts.push(AccountValue::new(alloc, texts(alloc, row)?)?)?;
    }
    Ok(accounts)
}

/// A class, as a script names it.
#[derive(Clone, Copy)]
enum Class<'a> {
    Text(Alphabet, u16, u16),
    Bin(u16, u16),
    OneOf(&'a [&'a [u8]]),
    Account(&'a [&'a [&'a [u8]]]),
}

fn field(alloc: Global, class: Class<'_>) -> Result<Field, Fail> {
    let field = match class {
        Class::Text(alphabet, min, max) => Text::new(alphabet, min, max).map(Field::Text),
        Class::Bin(min, max) => Bin::new(min, max).map(Field::Bin),
        Class::OneOf(rows) => OneOf::new(Texts::new(texts(alloc, rows)?)).map(Field::OneOf),
        Class::Account(rows) => {
            Account::new(Accounts::new(accounts(alloc, rows)?)).map(Field::Account)
        }
    };
    Ok(field.ok_or("a field")?)
}

// The longest value and the shortest one, each with the bytes that are written for it.
type Ends<'a> = [(&'a [u8], u64); 2];

fn are_ends(alloc: Global, field: &Field, ends: Ends<'_>) -> Result<bool, Fail> {
    let longest = field.longest(alloc)?;
    let shortest = field.shortest(alloc)?;
    let found = [
        (longest.as_slice(), field.longest_written()),
        (shortest.as_slice(), field.written(shortest.as_slice())),
    ];
    Ok(found == ends && field.admits(longest.as_slice()) && field.admits(shortest.as_slice()))
}

// Whether values of a class have at most this many items, and these ends.
fn has_ends(alloc: Global, class: Class<'_>, items: u32, ends: Ends<'_>) -> Result<bool, Fail> {
    let field = field(alloc, class)?;
    Ok(field.most_items() == items && are_ends(alloc, &field, ends)?)
}

// Whether a class admits the value, which is written in this many bytes, or doesn't.
fn is_written(
    alloc: Global,
    class: Class<'_>,
    value: &[u8],
    written: Option<u64>,
) -> Result<bool, Fail> {
    let field = field(alloc, class)?;
    match written {
        Some(written) => Ok(field.admits(value) && field.written(value) == written),
        None => Ok(!field.admits(value)),
    }
}

const LISTED: Class<'static> = Class::OneOf(&[b"abc", b"+:", b"??", b"de"]);

const ACCOUNTS: Class<'static> = Class::Account(&[
    &[b"DE:111"],
    &[b"1234567", b"", b"280", b"10020030"],
]);

const LATIN: Class<'static> = Class::Text(Alphabet::Latin, 1, 3);

const PLAIN: Class<'static> = Class::Text(Alphabet::Plain, 1, 2);

const ENDS: [(Class<'static>, u32, Ends<'static>); 6] = [
    (
        Class::Text(Alphabet::Latin, 0, 3),
        1,
        [(b"???", 6), (b"", 0)],
    ),
    (PLAIN, 1, [(b"ZZ", 2), (b"A", 1)]),
    (
        Class::Text(Alphabet::Digits, 5, 6),
        1,
        [(b"999999", 6), (b"00000", 5)],
    ),
    (Class::Bin(1, 2), 1, [(b"\xff\xff", 5), (b"\x00", 4)]),
    (LISTED, 1, [(b"+:", 4), (b"de", 2)]),
    (
        ACCOUNTS,
        4,
        [(b"1234567::280:10020030", 21), (b"DE?:111", 7)],
    ),
];

#[test]
fn ends(rt: HostRuntime) -> Result<(), Fail> {
    for (class, items, ends) in ENDS {
        assert!(rt; has_ends(rt.alloc(), class, items, ends)?);
    }
    Ok(())
}

const VALUES: [(Class<'static>, &[u8], Option<u64>); 10] = [
    (LATIN, b" ~", Some(2)),
    (LATIN, b"\xa0\xff", Some(2)),
    (LATIN, b"a+'", Some(5)),
    (LATIN, b"\x80", None),
    (LATIN, b"\x7f", None),
    (LATIN, b"", None),
    (PLAIN, b"aZ", Some(2)),
    (PLAIN, b"-", None),
    (LISTED, b"abc", Some(3)),
    (LISTED, b"ab", None),
];

#[test]
fn admitted_texts(rt: HostRuntime) -> Result<(), Fail> {
    for (class, value, written) in VALUES {
        assert!(rt; is_written(rt.alloc(), class, value, written)?, "{value:?}");
    }
    Ok(())
}
