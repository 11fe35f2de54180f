//! Parameters of captures, and the codes of feedback.
use fints_params::{ParamFault, Params, feedback_codes, is_sealed, sealed_data};
use fints_samples::C;
use fints_syntax::{SyntaxFault, SyntaxKind, parse_segment};
use std::alloc::Global;
use std::test::*;

// The third order of five, and nothing that was skipped.
fn has_statements(params: &Params) -> bool {
    match params.orders() {
        [_, _, it, _, _] => {
            (
                it.kind.as_bytes(),
                it.version,
                it.orders,
                it.signatures,
                params.skipped(),
            ) == (b"HKKAZ".as_slice(), 5, 20, 1, 0)
        }
        _ => false,
    }
}

#[test]
fn order_rows(rt: HostRuntime) -> Result<(), Fail> {
    let params = Params::read(rt.alloc(), C)?;
    assert!(rt; has_statements(&params));
    Ok(())
}

#[test]
fn codes(rt: HostRuntime) -> Result<(), Fail> {
    let feedback = b"HIRMG:2:2+0010::Received'HIRMS:3:2:4+0030::TAN++3060::Note'";
    let found = feedback_codes(rt.alloc(), feedback)?;
    let numbers: Vec<u16> = found.iter().map(|code| code.number()).collect(rt.alloc())?;
    assert!(rt; numbers.as_slice() == [10, 30, 3060].as_slice());
    Ok(())
}

fn bad(segment: u16, element: usize) -> ParamFault {
    ParamFault::BadElement { segment, element }
}

#[test]
fn code_faults(rt: HostRuntime) {
    let incomplete = SyntaxFault {
        kind: SyntaxKind::Incomplete,
        offset: 28,
    };
    let rows: [(&[u8], ParamFault); 4] = [
        (
            b"HIRMG:2:2+0010::Received'HIRMS:3:2:4+30::TAN+3060::Note'",
            bad(3, 2),
        ),
        (b"HIRMS:3:2+0010+:1+00300+003x'", bad(3, 4)),
        (b"HNVSD:999:1+0010'HIRMG:2:1+x'", bad(999, 2)),
        (
            b"HNVSD:999:1+@14@HIRMG:2:2+x'HI'",
            ParamFault::Syntax(incomplete),
        ),
    ];
    for (message, fault) in rows {
        let found = feedback_codes(rt.alloc(), message).err();
        assert_eq!(rt; found, Some(fault));
    }
}

// A segment, whether it is an HNVSD version 1, and the bytes of its item 1 of element 2, where it is binary.
type SealedRow = (&'static [u8], bool, Option<&'static [u8]>);

#[test]
fn sealed_segments(rt: HostRuntime) -> Result<(), Fail> {
    let rows: [SealedRow; 4] = [
        (b"HNVSD:999:1+@5@HIBPA'", true, Some(b"HIBPA")),
        (b"HNVSD:999:2+@1@x'", false, Some(b"x")),
        (b"HNVSD:999:1+HIBPA'", true, None),
        (b"HNVSD:999:1'", true, None),
    ];
    for (text, closed, data) in rows {
        let (view, _) = parse_segment(text)?;
        let segment = view.to_owned(rt.alloc())?;
        assert!(rt;
            (is_sealed(&segment), sealed_data(&segment)) == (closed, data),
            "{text:?}"
        );
    }
    Ok(())
}

// Kinds that nobody reads, numbers with an escape or as binary items, and HITANS come among the others.
#[test]
fn glanced_segments(rt: HostRuntime) -> Result<(), Fail> {
    let capture = b"HIRMG:1:2+0010::Received'HIBPA:3:3+12+280:100+B+1+1+300+0'HIPINS:9:1+++++::::'
HIXYZ:4:9+++:::+?'+@1@''HISALS:5:5+2+1'HIKAZS:6:5+?2+1'HIKAZS:7:5+@1@3+1'HIKAZS:8:5+x+1'
HITANS:9:6+4+1+0+J:N'DIKKSS:10:1+5:6+0'HNVSD:999:1+@15@HICCSS:1:1+7+1''";
    let params = Params::read(rt.alloc(), capture)?;
    let orders: Vec<(u32, u32)> = (params.orders().iter())
        .map(|it| (it.orders, it.signatures))
        .collect(rt.alloc())?;
    assert!(rt; orders.as_slice() == [(2, 1), (2, 1), (3, 1), (4, 1), (5, 0), (7, 1)].as_slice());
    assert!(rt; (params.skipped(), params.tans().len()) == (1, 1));
    Ok(())
}
