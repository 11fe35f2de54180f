//! Plans: which values are admitted.
use crate::asking::{Said, untrue};
use std::test::*;

const CLOSED: &[u8] = br#"
field = [{name = "acct", class = "account", values = [["DE111"], ["DE222"]]}, {name = "pin", class = "digits", min = 5, max = 6}]
step = [{name = "bal", segments = [{kind = "HKCCS", version = 1, elements = ["$acct"]}, {kind = "HKTAN", version = 6, elements = ["4", "HKCCS"]}]}]
"#;

const DIALOG: (&[u8], &[u8]) = (b"dialog", b"A");

const ACCOUNT: (&[u8], &[u8]) = (b"acct", b"DE222");

const PIN: (&[u8], &[u8]) = (b"pin", b"12345");

const LONG_DIALOG: (&[u8], &[u8]) = (b"dialog", b"1234567890123456789012345678901");

// Values for `CLOSED`: as it wants them, one too few, in another order, and beyond their domains.
const CHOSEN: [Said<'static>; 6] = [
    Said::Admits(&[DIALOG, ACCOUNT, PIN], true),
    Said::Admits(&[DIALOG, ACCOUNT], false),
    Said::Admits(&[DIALOG, PIN, ACCOUNT], false),
    Said::Admits(&[DIALOG, (b"acct", b"DE333"), PIN], false),
    Said::Admits(&[(b"dialog", b""), ACCOUNT, PIN], false),
    Said::Admits(&[LONG_DIALOG, ACCOUNT, PIN], false),
];

#[test]
fn admitted(rt: HostRuntime) -> Result<(), Fail> {
    assert!(rt; untrue(rt.alloc(), CLOSED, &CHOSEN)? == None);
    Ok(())
}
