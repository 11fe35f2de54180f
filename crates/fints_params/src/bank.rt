//! HIBPA.
ghost use Rattle.std.specs.Prelude.{◌≡◌, ◌≤◌, ◌∷◌, List, ℕ, map, drop, IfOk, IfErr, Some, None};
ghost use Rattle.fints_params.specs.Bank.{bank_row, bank_fault, protocols_of, size_of};
ghost use Rattle.fints_params.specs.Faults.{IsBad};
ghost use Rattle.fints_syntax_segments.specs.Segment.{item_value};

use crate::fault::{ParamFault, bad_element};
use crate::rows::{BankRow, Numbers};
use fints_syntax::{Bytes, ElementRef, OwnedSegment, parse_number};
use std::alloc::{AllocError, Global};

// The protocol versions, if each that isn't empty is a number.
fn read_protocols(alloc: Global, items: &ElementRef<'_>) -> Result<Option<Numbers>, AllocError>
    ensures { IfOk result (λ r. r ≡ protocols_of (map item_value items.now)) }
{
    let mut numbers = Vec::new(alloc);
    for i in 0..items.len() {
        let text = items.value(i + 1);
        if !text.is_empty() {
            match parse_number(text) {
                None => return Ok(None),
                Some(number) => numbers.push(number)?,
            }
        }
    }
    Ok(Some(Numbers::new(numbers)))
}

// A number, or 0 for an empty text.
fn read_size(text: &[u8]) -> Option<u32>
    ensures { result ≡ size_of text.now }
{
    if text.is_empty() {
        return Some(0);
    }
    parse_number(text)
}

/// What HIBPA says.
pub fn read_bank(alloc: Global, segment: &OwnedSegment) -> Result<BankRow, ParamFault>
    ensures fine { IfOk result (λ r. bank_fault segment.now ≡ None) }
    ensures row { IfOk result (λ r. r ≡ bank_row segment.now) }
    ensures fault { IfErr result (λ f. IsBad segment.now (bank_fault segment.now) f) }
{
    let Some(kinds) = parse_number(segment.value(5, 1)) else {
        return Err(bad_element(segment, 5));
    };
    let Some(protocols) = read_protocols(alloc, &segment.items(7))? else {
        return Err(bad_element(segment, 7));
    };
    let Some(kilobytes) = read_size(segment.value(8, 1)) else {
        return Err(bad_element(segment, 8));
    };
    Ok(BankRow {
        country: Bytes::copied(alloc, segment.value(3, 1))?,
        code: Bytes::copied(alloc, segment.value(3, 2))?,
        kinds,
        protocols,
        kilobytes,
    })
}
