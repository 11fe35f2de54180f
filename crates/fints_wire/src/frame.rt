//! The segments around those of a step.
ghost use Rattle.std.specs.Prelude.{◌≡◌, ◌-◌, ◌<◌, ◌++◌, ◌∷◌, [], codes, length, map, replicate, IfOk, OnOk, IsSome};
ghost use Rattle.std.specs.Fmt.{decimal};
ghost use Rattle.fints_syntax_segments.specs.declared.item.OwnedItem.TheVariants.{Bin, Text};
ghost use Rattle.fints_syntax.specs.Kind.{kind_from};
ghost use Rattle.fints_wire.specs.Filling.{make_segment};
ghost use Rattle.fints_wire.specs.Messages.{twelve_digits, first_segment, last_segment};

use fints_syntax::{Bytes, Elements, Head, Kind, Memory, OwnedItem, OwnedSegment, decimal_len};
use fints_syntax_segments::{
    HNHBK_NUMBER, HNHBK_VERSION, HNHBS_VERSION, HNVSD_NUMBER, HNVSD_VERSION, HNVSK_NUMBER,
    HNVSK_VERSION,
};
use itoa::Buffer;
use std::alloc::Global;
use std::slice::from_ref;

/// A segment without a reference.
pub fn segment(kind: Kind, number: u16, version: u16, elements: Elements) -> OwnedSegment
    ensures { result ≡ make_segment kind number version elements }
{
    OwnedSegment {
        head: Head {
            id: kind,
            number,
            version,
            reference: None,
        },
        elements,
    }
}

fn push_decimal(digits: &mut Vec<u8>, n: u64) -> Result<(), Memory>
    ensures { OnOk result (digits.new.items ≡ digits.old.items ++ decimal n) }
{
    let mut buffer = Buffer::new();
    digits.extend_from_slice(buffer.format(n).as_bytes())?;
    Ok(())
}

fn twelve_digits(alloc: Global, n: u64) -> Result<Vec<u8>, Memory>
    ensures { IfOk result (λ v. v.items ≡ twelve_digits n) }
{
    let zeros = 12usize.saturating_sub(decimal_len(n) as usize);
    let mut digits = Vec::new(alloc);
    for _ in 0..zeros {
        digits.push(b'0')?;
    }
    push_decimal(&mut digits, n)?;
    Ok(digits)
}

// Adds an element of one item.
fn push_item(elements: &mut Elements, item: &OwnedItem) -> Result<(), Memory>
    ensures { OnOk result (elements.new ≡ elements.old ++ (item.now ∷ []) ∷ []) }
{
    elements.push(from_ref(item))
}

fn push_text(alloc: Global, elements: &mut Elements, text: &[u8]) -> Result<(), Memory>
    ensures { OnOk result (elements.new ≡ elements.old ++ (Text text.now ∷ []) ∷ []) }
{
    push_item(elements, &OwnedItem::Text(Bytes::copied(alloc, text)?))
}

fn push_number(alloc: Global, elements: &mut Elements, number: u32) -> Result<(), Memory>
    ensures { OnOk result (elements.new ≡ elements.old ++ (Text (decimal number) ∷ []) ∷ []) }
{
    let mut digits = Vec::new(alloc);
    push_decimal(&mut digits, u64::from(number))?;
    push_item(elements, &OwnedItem::Text(Bytes::new(digits)))
}

// Adds the elements of HNHBK.
fn push_first(
    alloc: Global,
    elements: &mut Elements,
    size: u64,
    dialog: &[OwnedItem],
    number: u32,
) -> Result<(), Memory>
    requires { 0 < length dialog.now }
    ensures { OnOk result (elements.new ≡ elements.old ++ (first_segment size dialog.now number).elements) }
{
    push_item(
        elements,
        &OwnedItem::Text(Bytes::new(twelve_digits(alloc, size)?)),
    )?;
    push_text(alloc, elements, b"300")?;
    elements.push(dialog)?;
    push_number(alloc, elements, number)
}

/// HNHBK: the size of the message, the protocol version, the dialogue id and the number.
pub fn first_segment(
    alloc: Global,
    size: u64,
    dialog: &[OwnedItem],
    number: u32,
) -> Result<OwnedSegment, Memory>
    requires { 0 < length dialog.now }
    ensures { IfOk result (λ s. s ≡ first_segment size dialog.now number) }
{
    let mut elements = Elements::new(alloc);
    push_first(alloc, &mut elements, size, dialog, number)?;
    Ok(segment(
        Kind::parse(b"HNHBK").unwrap(),
        HNHBK_NUMBER,
        HNHBK_VERSION,
        elements,
    ))
}

/// HNHBS of this segment number.
pub fn last_segment(alloc: Global, n: u16, number: u32) -> Result<OwnedSegment, Memory>
    ensures { IfOk result (λ s. s ≡ last_segment n number) }
{
    let mut elements = Elements::new(alloc);
    push_number(alloc, &mut elements, number)?;
    Ok(segment(Kind::parse(b"HNHBS").unwrap(), n, HNHBS_VERSION, elements))
}

/// HNVSD with the text of the inner segments.
pub fn data_segment(alloc: Global, inner: Vec<u8>) -> Result<OwnedSegment, Memory>
    ensures { IfOk result (λ s. s
        ≡ make_segment (codes "HNVSD") HNVSD_NUMBER HNVSD_VERSION ((Bin inner.items ∷ []) ∷ [])) }
{
    let mut elements = Elements::new(alloc);
    push_item(&mut elements, &OwnedItem::Bin(Bytes::new(inner)))?;
    Ok(segment(
        Kind::parse(b"HNVSD").unwrap(),
        HNVSD_NUMBER,
        HNVSD_VERSION,
        elements,
    ))
}

/// HNVSK with the elements of a seal.
pub fn seal_segment(elements: Elements) -> OwnedSegment
    ensures { result ≡ make_segment (codes "HNVSK") HNVSK_NUMBER HNVSK_VERSION elements }
{
    segment(
        Kind::parse(b"HNVSK").unwrap(),
        HNVSK_NUMBER,
        HNVSK_VERSION,
        elements,
    )
}
