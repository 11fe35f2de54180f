//! HIPINS.
ghost use Rattle.std.specs.Prelude.{◌≡◌, ◌++◌, ◌≤◌, [], ℕ, List, map, drop, length, IfOk, IfErr, IfSome, Some, None};
ghost use Rattle.std.specs.List.{filter_map, list_all, cons_option};
ghost use Rattle.fints_syntax_segments.specs.Segment.{item_value};
ghost use Rattle.fints_params.specs.Pins.{Pair, pairs, pin_pairs, is_good_pair, pins_fault, pin_row, pin_rows};
ghost use Rattle.fints_params.specs.Faults.{IsBad};

use crate::fault::{ParamFault, bad_element};
use crate::rows::PinRow;
use fints_syntax::{Kind, OwnedSegment};
use std::alloc::AllocError;

// HIPINS may have such a pair.
fn is_good(kind: &[u8], flag: &[u8]) -> bool
    ensures { result ≡ is_good_pair (record { kind = kind.now; flag = flag.now }) }
{
    (kind.is_empty() && flag.is_empty()) || flag == b"J".as_slice() || flag == b"N".as_slice()
}

fn row_of(kind: &[u8], flag: &[u8]) -> Option<PinRow>
    ensures { result ≡ pin_row (record { kind = kind.now; flag = flag.now }) }
{
    let kind = Kind::parse(kind)?;
    Some(PinRow {
        kind,
        tan: flag == b"J".as_slice(),
    })
}

fn push_some(rows: &mut Vec<PinRow>, row: Option<PinRow>) -> Result<(), AllocError>
    ensures { IfOk result (λ _. rows.new.items ≡ rows.old.items ++ cons_option row []) }
{
    if let Some(row) = row {
        rows.push(row)?;
    }
    Ok(())
}

/// Adds what HIPINS says.
pub fn read_pins(segment: &OwnedSegment, rows: &mut Vec<PinRow>) -> Result<(), ParamFault>
    ensures fine { IfOk result (λ _. pins_fault segment.now ≡ None) }
    ensures rows { IfOk result (λ _. rows.new.items ≡ rows.old.items ++ pin_rows segment.now) }
    ensures fault { IfErr result (λ f. IsBad segment.now (pins_fault segment.now) f) }
{
    let items = segment.items(5);
    let mut at = 5;
    while at < items.len() {
        let kind = items.value(at + 1);
        let flag = items.value(at + 2);
        if !is_good(kind, flag) {
            return Err(bad_element(segment, 5));
        }
        push_some(rows, row_of(kind, flag))?;
        at += 2;
    }
    Ok(())
}
