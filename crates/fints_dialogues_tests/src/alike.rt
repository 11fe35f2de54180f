//! Whether a message is sent again as it was recorded.
use fints_cli_drafts_alike::other_sent;
use std::alloc::Global;
use std::test::Fail;

// What was recorded, what is sent, and the first segment that is another one.
type Row<'a> = (&'a [u8], &'a [u8], Option<usize>);

// A client makes the control reference, the date, the time and the TAN new, and the bank's reference of an order.
const ROWS: [Row<'static>; 10] = [
    (
        b"HKEND:2:1+0'HNHBS:3:1+1'",
        b"HKEND:2:1+0'HNHBS:3:1+1'",
        None,
    ),
    (
        b"HKEND:2:1+0'HNHBS:3:1+1'",
        b"HKEND:2:1+5'HNHBS:3:1+1'",
        Some(2),
    ),
    (b"HKEND:2:1+0'HNHBS:3:1+1'", b"HKEND:2:1+0'", Some(3)),
    (b"HKEND:2:1+0'", b"HKEND:2:1+0'HNHBS:3:1+1'", Some(0)),
    (
        b"HNSHA:4:2+7++pin:111111'",
        b"HNSHA:4:2+8++pin:222222'",
        None,
    ),
    (
        b"HNSHA:4:2+7++pin:111111'",
        b"HNSHA:4:2+7++nip:111111'",
        Some(4),
    ),
    (b"HNSHA:4:2+7++pin:111111'", b"HNSHA:4:2+7++pin:'", Some(4)),
    (
        b"HKTAN:3:7+2++++first+N'",
        b"HKTAN:3:7+2++++second+N'",
        None,
    ),
    (
        b"HKTAN:3:7+4++++first+N'",
        b"HKTAN:3:7+4++++second+N'",
        Some(3),
    ),
    (
        b"HNVSD:999:1+@12@HKEND:2:1+0''",
        b"HNVSD:999:1+@12@HKEND:2:1+5''",
        Some(2),
    ),
];

// Whether what is sent is found to be the same, or another one there.
fn is_found(alloc: Global, row: &Row<'_>) -> Result<bool, Fail> {
    let (recorded, sent, other) = *row;
    Ok(other_sent(alloc, recorded, sent)? == other)
}

#[test]
fn messages(rt: HostRuntime) -> Result<(), Fail> {
    for row in &ROWS {
        assert!(rt; is_found(rt.alloc(), row)?);
    }
    Ok(())
}
