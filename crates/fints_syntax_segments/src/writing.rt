//! Writing items and segments in their written spelling (FinTS 3.0, Formals, the syntax of segments).
ghost use Rattle.std.specs.Prelude.{◌≡◌, if◌then◌else◌, ◌++◌, ◌∷◌, [], ◌<◌, ◌≤◌, ◌*◌, ◌+◌, ◌^◌, length, map, OnOk, OnErr};
ghost use Rattle.std.specs.Fmt.{decimal};
ghost use Rattle.fints_syntax_segments.specs.Spelling.{written, written_unit, unit_bytes, text_bytes};
ghost use Rattle.fints_syntax_segments.specs.Written.{element_text, elements_text, head_items, written_segment, KeepsFront};
ghost use Rattle.fints_syntax_segments.specs.Lent.{item_of_ref};
ghost use Rattle.fints_syntax_segments.specs.declared.item.OwnedItem.TheVariants.{Text, Bin};

use crate::element::{ElementRef, ItemRef};
use crate::fault::Memory;
use crate::item::{Elements, Head, OwnedItem, OwnedSegment};
use itoa::Buffer;

fn is_syntax(b: u8) -> bool
    ensures { unit_bytes (written_unit b) ≡ (if result then 63 ∷ b ∷ [] else b ∷ []) }
{
    matches!(b, b'+' | b':' | b'\'' | b'?' | b'@')
}

/// How many bytes the decimal digits of a number take.
pub fn decimal_len(n: u64) -> u32
    ensures { result ≡ length (decimal n) }
{
    let mut buffer = Buffer::new();
    buffer.format(n).len() as u32
}

/// How many bytes a binary item of `len` bytes takes when it is written.
pub fn written_binary_len(len: u64) -> u64
    requires { len < 2 ^ 63 }
    ensures { result ≡ len + length (decimal len) + 2 }
{
    len + u64::from(decimal_len(len)) + 2
}

/// How many bytes the value takes when it is written as a text item.
pub fn written_len(value: &[u8]) -> u64
    ensures { result ≡ length (written (Text value.now)) }
{
    let mut len = 0u64;
    for b in value {
        len += if is_syntax(*b) { 2 } else { 1 };
    }
    len
}

/// Writes the item at the end of `out`: a text escapes exactly the five syntax characters with
/// `?`, and a binary item gives its length no leading zeros.
pub fn write_item(out: &mut Vec<u8>, item: &OwnedItem) -> Result<(), Memory>
    ensures written { OnOk result (out.new.items ≡ out.old.items ++ written item.now) }
    ensures unchanged { OnErr result (out.new.items ≡ out.old.items) }
{
    let start = out.len();
    match append_item(out, item) {
        Ok(()) => Ok(()),
        Err(memory) => {
            out.truncate(start);
            Err(memory)
        }
    }
}

/// Writes the segment at the end of `out`: its items in their written spelling, numbers without
/// leading zeros, an absent reference left out, and nothing removed.
pub fn write_segment(out: &mut Vec<u8>, segment: &OwnedSegment) -> Result<(), Memory>
    ensures written { OnOk result (out.new.items ≡ out.old.items ++ written_segment segment.now) }
    ensures unchanged { OnErr result (out.new.items ≡ out.old.items) }
{
    let before = out.len();
    match append_segment(out, segment) {
        Ok(()) => Ok(()),
        Err(memory) => {
            out.truncate(before);
            Err(memory)
        }
    }
}

// The functions below may leave a part after what `out` held, where memory runs out.

// A byte of a text item, after its `?` where it is one of the syntax.
fn append_unit(out: &mut Vec<u8>, b: u8) -> Result<(), Memory>
    ensures written { OnOk result (out.new.items ≡ out.old.items ++ unit_bytes (written_unit b)) }
    ensures kept { OnErr result (KeepsFront out.old.items out.new.items) }
{
    if is_syntax(b) {
        out.push(b'?')?;
    }
    out.push(b)?;
    Ok(())
}

fn append_text(out: &mut Vec<u8>, value: &[u8]) -> Result<(), Memory>
    ensures written { OnOk result (out.new.items ≡ out.old.items ++ text_bytes (map written_unit value.now)) }
    ensures kept { OnErr result (KeepsFront out.old.items out.new.items) }
{
    for b in value {
        append_unit(out, *b)?;
    }
    Ok(())
}

fn append_decimal(out: &mut Vec<u8>, n: u64) -> Result<(), Memory>
    ensures written { OnOk result (out.new.items ≡ out.old.items ++ decimal n) }
    ensures unchanged { OnErr result (out.new.items ≡ out.old.items) }
{
    let mut buffer = Buffer::new();
    out.extend_from_slice(buffer.format(n).as_bytes())?;
    Ok(())
}

fn append_binary(out: &mut Vec<u8>, bytes: &[u8]) -> Result<(), Memory>
    ensures written { OnOk result (out.new.items ≡ out.old.items ++ written (Bin bytes.now)) }
    ensures kept { OnErr result (KeepsFront out.old.items out.new.items) }
{
    out.push(b'@')?;
    append_decimal(out, bytes.len() as u64)?;
    out.push(b'@')?;
    out.extend_from_slice(bytes)?;
    Ok(())
}

fn append_item(out: &mut Vec<u8>, item: &OwnedItem) -> Result<(), Memory>
    ensures written { OnOk result (out.new.items ≡ out.old.items ++ written item.now) }
    ensures kept { OnErr result (KeepsFront out.old.items out.new.items) }
{
    match item {
        OwnedItem::Text(bytes) => append_text(out, bytes.as_slice()),
        OwnedItem::Bin(bytes) => append_binary(out, bytes.as_slice()),
    }
}

fn append_ref(out: &mut Vec<u8>, item: &ItemRef<'_>) -> Result<(), Memory>
    ensures written { OnOk result (out.new.items ≡ out.old.items ++ written (item_of_ref item.now)) }
    ensures kept { OnErr result (KeepsFront out.old.items out.new.items) }
{
    match item {
        ItemRef::Text(value) => append_text(out, value),
        ItemRef::Bin(value) => append_binary(out, value),
    }
}

fn append_element(out: &mut Vec<u8>, items: &ElementRef<'_>, end: u8) -> Result<(), Memory>
    ensures written { OnOk result (out.new.items ≡ out.old.items ++ element_text end items.now) }
    ensures kept { OnErr result (KeepsFront out.old.items out.new.items) }
{
    for i in 0..items.len() {
        append_ref(out, &items.at(i))?;
        out.push(if items.len() - i > 1 { b':' } else { end })?;
    }
    Ok(())
}

fn append_text_item(out: &mut Vec<u8>, value: &[u8], end: u8) -> Result<(), Memory>
    ensures written { OnOk result (out.new.items ≡ out.old.items ++ (written (Text value.now) ++ end ∷ [])) }
    ensures kept { OnErr result (KeepsFront out.old.items out.new.items) }
{
    append_text(out, value)?;
    out.push(end)?;
    Ok(())
}

fn append_number(out: &mut Vec<u8>, n: u16, end: u8) -> Result<(), Memory>
    ensures written { OnOk result
        (out.new.items ≡ out.old.items ++ (written (Text (decimal n)) ++ end ∷ [])) }
    ensures kept { OnErr result (KeepsFront out.old.items out.new.items) }
{
    let mut buffer = Buffer::new();
    append_text_item(out, buffer.format(n).as_bytes(), end)
}

fn append_head(out: &mut Vec<u8>, head: &Head, end: u8) -> Result<(), Memory>
    ensures written { OnOk result (out.new.items ≡ out.old.items ++ element_text end (head_items head.now)) }
    ensures kept { OnErr result (KeepsFront out.old.items out.new.items) }
{
    append_text_item(out, head.id.as_bytes(), b':')?;
    append_number(out, head.number, b':')?;
    match head.reference {
        None => append_number(out, head.version, end),
        Some(reference) => {
            append_number(out, head.version, b':')?;
            append_number(out, reference, end)
        }
    }
}

fn append_elements(out: &mut Vec<u8>, elements: &Elements) -> Result<(), Memory>
    ensures written { OnOk result (out.new.items ≡ out.old.items ++ elements_text elements.now) }
    ensures kept { OnErr result (KeepsFront out.old.items out.new.items) }
{
    for i in 0..elements.len() {
        let end = if elements.len() - i > 1 { b'+' } else { b'\'' };
        append_element(out, &elements.items(i), end)?;
    }
    Ok(())
}

fn append_segment(out: &mut Vec<u8>, segment: &OwnedSegment) -> Result<(), Memory>
    ensures written { OnOk result (out.new.items ≡ out.old.items ++ written_segment segment.now) }
    ensures kept { OnErr result (KeepsFront out.old.items out.new.items) }
{
    let end = if segment.elements.is_empty() {
        b'\''
    } else {
        b'+'
    };
    append_head(out, &segment.head, end)?;
    append_elements(out, &segment.elements)
}
