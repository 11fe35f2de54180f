//! Messages that are built and sent.
use crate::asking::{Said, untrue};
use fints_samples::{FORK, SEALED_END};
use std::test::*;

const TRANSFER: &[u8] = br#"
field = [{name = "acct", class = "account", values = [["DE111", "x+y"], ["DE222", "z"]]}]
step = [{name = "pay", segments = [{kind = "HKCCS", version = 1, elements = ["$acct", ["$dialog", "%00"]]}]}]
"#;

const TRANSFERRED: Said<'static> = Said::Message(
    12,
    &[(b"dialog", b"?"), (b"acct", b"DE222:z")],
    b"HNHBK:1:3+000000000072+300+??+12'HKCCS:2:1+DE222:z+??:@1@\x00'HNHBS:3:1+12'",
);

const SEALED: Said<'static> = Said::Message(
    1,
    &[(b"dialog", b"D")],
    b"HNHBK:1:3+000000000168+300+0+1'HNVSK:998:3+PIN:1+998+1+1::0+1:20260101:120000+2:2:13:@8@00000000:5:1+280:10020030:user:V:0:0+0'HNVSD:999:1+@12@HKEND:2:1+0''HNHBS:3:1+1'",
);

const SENT: Said<'static> = Said::Sent(
    &[(b"dialog", b"D")],
    20,
    &[
        (
            1,
            1,
            b"HNHBK:1:3+000000000055+300+0+1'HKEND:2:1+0'HNHBS:3:1+1'",
        ),
        (
            3,
            2,
            b"HNHBK:1:3+000000000055+300+D+2'HKEND:2:1+D'HNHBS:3:1+2'",
        ),
    ],
);

#[test]
fn messages_of_steps(rt: HostRuntime) -> Result<(), Fail> {
    let rows = [(TRANSFER, TRANSFERRED), (SEALED_END, SEALED), (FORK, SENT)];
    for (script, said) in rows {
        assert!(rt; untrue(rt.alloc(), script, &[said])? == None, "{script:?}");
    }
    Ok(())
}
