//! Parameters of a capture that comes in pieces.
use fints_params::{ParamFault, ParamReader, Params, Usage, params_and_codes};
use fints_samples::C;
use fints_syntax::{SyntaxFault, SyntaxKind};
use std::alloc::Global;
use std::test::*;

fn syntax(kind: SyntaxKind, offset: usize) -> Option<ParamFault> {
    Some(ParamFault::Syntax(SyntaxFault { kind, offset }))
}

// The last order of C, and its last account.
fn end_as_c(params: &Params) -> bool {
    match (params.orders(), params.accounts()) {
        ([.., order], [.., account]) => {
            (
                order.kind.as_bytes(),
                order.version,
                account.iban.as_slice(),
            ) == (b"HKTAN".as_slice(), 6, b"DE222".as_slice())
        }
        _ => false,
    }
}

// The parameters of C.
fn are_of_c(params: &Params) -> bool {
    let bank = params.bank();
    (bank.code.as_slice(), bank.kilobytes) == (b"10020030".as_slice(), 0)
        && (
            params.orders().len(),
            params.pins().len(),
            params.accounts().len(),
        ) == (5, 3, 2)
        && (params.usage(), params.skipped()) == (Usage::Locked, 0)
        && end_as_c(params)
}

// The parameters of a capture that is cut in two.
fn cut_at(alloc: Global, capture: &[u8], at: usize) -> Result<Params, ParamFault> {
    let (first, second) = capture.split_at(at.min(capture.len()));
    let mut reader = ParamReader::new(alloc);
    for piece in [first, second] {
        reader.feed(piece)?;
    }
    reader.finish()
}

#[test]
fn each_cut(rt: HostRuntime) -> Result<(), Fail> {
    for at in 0..C.len() {
        let params = cut_at(rt.alloc(), C, at)?;
        assert!(rt; are_of_c(&params));
    }
    Ok(())
}

// The least bank as the data of an HNVSD.
const SEALED: &[u8] =
    b"HNVSD:999:1+@93@HIBPA:3:3+12+280:10020030+Bank+1+1+300+0'\nHIPINS:9:1+1+1+0+5:38:6:::HKSAL:N:HKKAZ:N:HKCCS:J'\n'";

#[test]
fn each_cut_of_sealed(rt: HostRuntime) -> Result<(), Fail> {
    for at in 0..SEALED.len() {
        let params = cut_at(rt.alloc(), SEALED, at)?;
        assert!(rt; params.bank().code.as_slice() == b"10020030".as_slice());
    }
    Ok(())
}

// Feeds a piece, and feeds it again where memory ran out.
fn feed_again(reader: &mut ParamReader, piece: &[u8]) -> Result<(), ParamFault> {
    match reader.feed(piece) {
        Err(ParamFault::Memory) => reader.feed(piece),
        fed => fed,
    }
}

// The parameters of a capture that comes byte by byte.
fn fed_bytes(alloc: Global, capture: &[u8]) -> Result<Params, ParamFault> {
    let mut reader = ParamReader::new(alloc);
    for byte in capture {
        feed_again(&mut reader, &[*byte])?;
    }
    reader.finish()
}

// Where one allocation is refused, the piece is fed again.
#[test]
fn fed_again(rt: HostRuntime) -> Result<(), Fail> {
    let params = fed_bytes(rt.alloc(), C)?;
    assert!(rt; are_of_c(&params));
    Ok(())
}

#[test]
fn fault_is_kept(rt: HostRuntime) -> Result<(), Fail> {
    let mut reader = ParamReader::new(rt.alloc());
    let first = reader.feed(b"HKEND:2:1+@x'").err();
    assert_eq!(rt; first, syntax(SyntaxKind::BadBinary, 10));
    let kept = syntax(SyntaxKind::Failed, 10);
    assert!(rt; (reader.feed(C).err(), reader.finish().err()) == (kept, kept));
    Ok(())
}

// The data of an HNVSD that is cut in two hold no whole segment.
#[test]
fn unfinished_data(rt: HostRuntime) -> Result<(), Fail> {
    let mut reader = ParamReader::new(rt.alloc());
    for piece in [b"HNVSD:999:1+@5@HI".as_slice(), b"BPA'".as_slice()] {
        reader.feed(piece)?;
    }
    assert!(rt; reader.finish().err() == syntax(SyntaxKind::Incomplete, 15));
    Ok(())
}

// The 19,998th separator after the head is the 20,000th of the segment.
#[test]
fn too_many_separators(rt: HostRuntime) -> Result<(), Fail> {
    let mut reader = ParamReader::new(rt.alloc());
    reader.feed(b"HIXYZ:1:1")?;
    for _ in 1..19_998 {
        reader.feed(b"+")?;
    }
    assert!(rt; reader.feed(b"+").err() == syntax(SyntaxKind::TooLong, 0));
    Ok(())
}

// A piece that is longer than a segment may be.
#[test]
fn long_piece(rt: HostRuntime) -> Result<(), Fail> {
    let mut piece = C.to_vec(rt.alloc())?;
    for _ in 0..1_100_000 {
        piece.push(b'\n')?;
    }
    let mut reader = ParamReader::new(rt.alloc());
    reader.feed(piece.as_slice())?;
    assert!(rt; are_of_c(&reader.finish()?));
    Ok(())
}

#[test]
fn rows_and_codes(rt: HostRuntime) -> Result<(), Fail> {
    let told = params_and_codes(rt.alloc(), C)?;
    assert!(rt; are_of_c(&told.params) && told.codes.len() == 0);
    Ok(())
}

// A reader that took these pieces.
fn fed(alloc: Global, pieces: &[&[u8]]) -> Result<ParamReader, ParamFault> {
    let mut reader = ParamReader::new(alloc);
    for piece in pieces {
        reader.feed(piece)?;
    }
    Ok(reader)
}

#[test]
fn codes_in_pieces(rt: HostRuntime) -> Result<(), Fail> {
    let rest = b"10::Received'HIRMS:3:2:4+0030::TAN++3060::Note'".as_slice();
    let reader = fed(rt.alloc(), &[C, b"HIRMG:2:2+00", rest])?;
    let told = reader.finish_with_codes()?;
    let numbers: Vec<u16> = told
        .codes
        .iter()
        .map(|code| code.number())
        .collect(rt.alloc())?;
    assert!(rt; are_of_c(&told.params));
    assert!(rt; numbers.as_slice() == [10, 30, 3060].as_slice());
    Ok(())
}

// What is no code is read where only the parameters are asked for.
#[test]
fn bad_code_in_pieces(rt: HostRuntime) -> Result<(), Fail> {
    let pieces = [C, b"HIRMS:3:2+0010+:1".as_slice(), b"+003x'".as_slice()];
    let told = fed(rt.alloc(), &pieces)?.finish_with_codes().err();
    let refused = ParamFault::BadElement {
        segment: 3,
        element: 4,
    };
    assert_eq!(rt; told, Some(refused));
    assert!(rt; are_of_c(&fed(rt.alloc(), &pieces)?.finish()?));
    Ok(())
}
