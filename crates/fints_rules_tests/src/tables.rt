//! Order tables.
use fints_rules::{AccountForm, OrderTable};
use fints_samples::T;
use fints_syntax::Kind;
use std::test::*;

#[test]
fn forms(rt: HostRuntime) -> Result<(), Fail> {
    let nameless = b"order = [{ kind = 'DKX09', version = 999, account = 'none' }]";
    let rows: [(&[u8], &[u8], u16, Option<AccountForm>); 5] = [
        (T, b"HKSAL", 5, Some(AccountForm::National)),
        (T, b"HKSAL", 6, None),
        (T, b"HKCCS", 1, Some(AccountForm::International)),
        (b"", b"HKSAL", 5, None),
        (nameless, b"DKX09", 999, Some(AccountForm::Nameless)),
    ];
    for (text, kind, version, form) in rows {
        let orders = OrderTable::read(rt.alloc(), text)?;
        let kind = Kind::parse(kind).ok_or("kind")?;
        assert!(rt; orders.form(kind, version) == form);
    }
    Ok(())
}

#[test]
fn same_rows(rt: HostRuntime) -> Result<(), Fail> {
    let alloc = rt.alloc();
    let orders = OrderTable::read(
        alloc,
        b"order = [{ kind = 'HKSAL', version = 5, account = 'none' }, { kind = 'HKSAL', version = 6, account = 'none' }]",
    )?;
    let rows: [(&[u8], bool); 3] = [
        (
            b"# spelled otherwise\n[[order]]\naccount = \"none\"\nversion = 0x5\nkind = \"HKSAL\"\n[[order]]\nkind = \"HKSAL\"\nversion = 6\naccount = \"none\"\n",
            true,
        ),
        (
            b"order = [{ kind = 'HKSAL', version = 6, account = 'none' }, { kind = 'HKSAL', version = 5, account = 'none' }]",
            false,
        ),
        (b"", false),
    ];
    for (text, is_same) in rows {
        let other = OrderTable::read(alloc, text)?;
        assert!(rt; orders.same(&other) == is_same);
    }
    Ok(())
}
