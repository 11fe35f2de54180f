//! Items, and bytes that are written: what they are, and what an output keeps where memory runs out.
use fints_syntax::{
    Bytes, Elements, Head, Item, Kind, Memory, OwnedItem, OwnedSegment, parse_segment, write_item,
    write_segment,
};
use std::alloc::Global;
use std::test::*;

fn is_text(item: &Item<'_>, value: &[u8]) -> bool {
    match item {
        Item::Text(raw) => raw.bytes().eq(value.iter().copied()),
        Item::Bin(_) => false,
    }
}

fn is_data(item: &Item<'_>, data: &[u8]) -> bool {
    match item {
        Item::Text(_) => false,
        Item::Bin(found) => *found == data,
    }
}

// A text with an escape, and the data of an HNVSD.
#[test]
fn items(rt: HostRuntime) -> Result<(), Fail> {
    let (view, _) = parse_segment(b"HIXYZ:1:1+a@b?+c'")?;
    let item = view.item(2, 1).ok_or("an item")?;
    assert!(rt; is_text(&item, b"a@b+c"));
    let (view, _) = parse_segment(b"HNVSD:999:1+@5@HIBPA'")?;
    let item = view.item(2, 1).ok_or("an item")?;
    assert!(rt; is_data(&item, b"HIBPA"));
    Ok(())
}

#[test]
fn handed_back(rt: HostRuntime) -> Result<(), Fail> {
    let bytes = Bytes::copied(rt.alloc(), b"a'")?.into_vec();
    assert!(rt; bytes.as_slice() == b"a'".as_slice());
    Ok(())
}

// HKEND 1 as segment 2, of one element of one text.
fn end(alloc: Global, text: &[u8]) -> Result<OwnedSegment, Fail> {
    let id = Kind::parse(b"HKEND").ok_or("a kind")?;
    let mut items = Vec::new(alloc);
    items.push(OwnedItem::Text(Bytes::copied(alloc, text)?))?;
    let mut elements = Elements::new(alloc);
    elements.push(items.as_slice())?;
    let head = Head {
        id,
        number: 2,
        version: 1,
        reference: None,
    };
    Ok(OwnedSegment { head, elements })
}

const BEFORE: &[u8] = b"HKIDN:1:2'";

// Whether the bytes are `?+`, this many times.
fn are_escaped(bytes: &[u8], count: usize) -> bool {
    bytes.chunks(2).all(|two| two == b"?+".as_slice()) && bytes.len() / 2 == count
}

// Whether the output keeps what it had, with the item after it, or with nothing where memory ran out.
fn keeps_before_item(alloc: Global, item: &OwnedItem, count: usize) -> Result<bool, Memory> {
    let mut out = Vec::from_slice(alloc, BEFORE)?;
    match write_item(&mut out, item) {
        Ok(()) => match out.as_slice().strip_prefix(BEFORE) {
            Some(rest) => Ok(are_escaped(rest, count)),
            None => Ok(false),
        },
        Err(_) => Ok(out.as_slice() == BEFORE),
    }
}

fn keeps_before_segment(alloc: Global, segment: &OwnedSegment) -> Result<bool, Memory> {
    let mut out = Vec::from_slice(alloc, BEFORE)?;
    match write_segment(&mut out, segment) {
        Ok(()) => Ok(out.as_slice() == b"HKIDN:1:2'HKEND:2:1+0123456789'".as_slice()),
        Err(_) => Ok(out.as_slice() == BEFORE),
    }
}

// The output grows while it is written to. tools/faults.py runs this test with each allocation refused in turn.
#[test]
fn kept(rt: HostRuntime) -> Result<(), Fail> {
    let alloc = rt.alloc();
    let pluses = OwnedItem::Text(Bytes::copied(alloc, &[b'+'; 100])?);
    assert!(rt; keeps_before_item(alloc, &pluses, 100)?);
    assert!(rt; keeps_before_segment(alloc, &end(alloc, b"0123456789")?)?);
    Ok(())
}
