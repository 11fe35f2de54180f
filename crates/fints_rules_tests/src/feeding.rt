//! The segments of a stream, as its pieces come.
use fints_samples::C;
use fints_syntax::{Feeder, OwnedSegment, SyntaxFault, SyntaxKind, write_segment};
use std::alloc::Global;
use std::test::*;

fn fault(kind: SyntaxKind, offset: usize) -> Option<SyntaxFault> {
    Some(SyntaxFault { kind, offset })
}

fn written(alloc: Global, segments: &[OwnedSegment]) -> Result<Vec<u8>, Fail> {
    let mut bytes = Vec::new(alloc);
    for segment in segments {
        write_segment(&mut bytes, segment)?;
    }
    Ok(bytes)
}

// A piece, the segments that are whole by it, and their places.
type Piece = (&'static [u8], &'static [u8], &'static [usize]);

const CUT: &[Piece] = &[
    (b"HKEND:2:1+0'\r\nHKE", b"HKEND:2:1+0'", &[10]),
    (b"ND:3:1+0'", b"HKEND:3:1+0'", &[24]),
];

const SEALED: &[Piece] = &[
    (b"HNVSD:999:1+@5@HI", b"", &[]),
    (b"BPA'", b"HNVSD:999:1+@5@HIBPA'", &[15]),
    (b"", b"", &[]),
    (
        b"HKABC:1:1'HKEND:2:1+0'",
        b"HKABC:1:1'HKEND:2:1+0'",
        &[0, 41],
    ),
];

const UNFINISHED: &[Piece] = &[(b"HNVSD:999:1+@5@HI", b"", &[])];

const UNFINISHED_LINE: &[Piece] = &[(b"\nHNVSD:999:1+@5@HI", b"", &[])];

const PIECES: [(&[Piece], Option<SyntaxFault>); 4] = [
    (CUT, None),
    (SEALED, None),
    (UNFINISHED, INCOMPLETE_AT_0),
    (UNFINISHED_LINE, INCOMPLETE_AT_1),
];

const INCOMPLETE_AT_0: Option<SyntaxFault> = Some(SyntaxFault {
    kind: SyntaxKind::Incomplete,
    offset: 0,
});

const INCOMPLETE_AT_1: Option<SyntaxFault> = Some(SyntaxFault {
    kind: SyntaxKind::Incomplete,
    offset: 1,
});

// Whether a piece gives these segments at these places.
fn gives(alloc: Global, feeder: &mut Feeder, piece: &Piece) -> Result<bool, Fail> {
    let (piece, segments, places) = piece;
    let fed = feeder.feed(piece)?;
    let found = written(alloc, fed.as_slice())?;
    Ok(found.as_slice() == *segments && feeder.take_places().as_slice() == *places)
}

#[test]
fn pieces(rt: HostRuntime) -> Result<(), Fail> {
    for (pieces, end) in PIECES {
        let mut feeder = Feeder::new(rt.alloc());
        for piece in pieces {
            assert!(rt; gives(rt.alloc(), &mut feeder, piece)?);
        }
        assert!(rt; feeder.finish().err() == end);
    }
    Ok(())
}

#[test]
fn fault_is_kept(rt: HostRuntime) {
    let mut feeder = Feeder::new(rt.alloc());
    let first = feeder.feed(b"HKEND:2:1+@x'").err();
    assert_eq!(rt; first, fault(SyntaxKind::BadBinary, 10));
    let (again, places) = (feeder.feed(b"").err(), feeder.take_places().len());
    let kept = fault(SyntaxKind::Failed, 10);
    assert!(rt; (again, places, feeder.finish().err()) == (kept, 0, kept));
}

// Feeds a piece, and returns how many segments it completes.
fn feed(feeder: &mut Feeder, piece: &[u8]) -> Result<usize, SyntaxFault> {
    Ok(feeder.feed(piece)?.len())
}

// Feeds a piece, and feeds it again where memory ran out.
fn feed_again(feeder: &mut Feeder, piece: &[u8]) -> Result<usize, SyntaxFault> {
    match feed(feeder, piece) {
        Err(fault) if fault.kind == SyntaxKind::Memory => feed(feeder, piece),
        fed => fed,
    }
}

// Where one allocation is refused, the piece is fed again.
#[test]
fn fed_again(rt: HostRuntime) -> Result<(), Fail> {
    let mut feeder = Feeder::new(rt.alloc());
    let mut segments: usize = 0;
    for byte in C {
        segments = segments.saturating_add(feed_again(&mut feeder, &[*byte])?);
    }
    assert!(rt; (segments, feeder.finish().err()) == (10, None));
    Ok(())
}

// The 19,998th separator after the head is the 20,000th of the segment.
#[test]
fn too_many_separators(rt: HostRuntime) -> Result<(), Fail> {
    let mut feeder = Feeder::new(rt.alloc());
    assert!(rt; feed(&mut feeder, b"HIXYZ:1:1")? == 0);
    for _ in 1..19_998 {
        assert!(rt; feed(&mut feeder, b"+")? == 0);
    }
    assert!(rt; feeder.feed(b"+").err() == fault(SyntaxKind::TooLong, 0));
    Ok(())
}

// A piece that is longer than a segment may be.
#[test]
fn long_piece(rt: HostRuntime) -> Result<(), Fail> {
    let mut piece = Vec::new(rt.alloc());
    for _ in 0..100_000 {
        piece.extend_from_slice(b"HKEND:2:1+0'")?;
    }
    let mut feeder = Feeder::new(rt.alloc());
    assert!(rt; feed(&mut feeder, piece.as_slice())? == 100_000);
    assert!(rt; feeder.finish().is_ok());
    Ok(())
}

// Whether 4 MiB of line feeds are no segment.
fn fed_to_the_limit(feeder: &mut Feeder) -> Result<bool, SyntaxFault> {
    for _ in 0..1024 {
        if feed(feeder, &[b'\n'; 4096])? != 0 {
            return Ok(false);
        }
    }
    Ok(true)
}

#[test]
fn too_long_stream(rt: HostRuntime) -> Result<(), Fail> {
    let mut feeder = Feeder::new(rt.alloc());
    assert!(rt; fed_to_the_limit(&mut feeder)?);
    let limit = 4_194_304;
    let passed = feeder.feed(b"\n").err();
    assert_eq!(rt; passed, fault(SyntaxKind::CaptureTooLong, limit));
    assert!(rt; feeder.feed(b"\n").err() == fault(SyntaxKind::Failed, limit));
    Ok(())
}
