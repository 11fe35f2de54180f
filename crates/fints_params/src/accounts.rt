//! HIUPA and HIUPD.
ghost use Rattle.std.specs.Prelude.{◌≡◌, ◌++◌, ◌∷◌, [], drop, IfOk, IfErr, None};
ghost use Rattle.std.specs.List.{cons_option, filter_map, count_by};
ghost use Rattle.fints_params.specs.Accounts.{is_empty_element, entry_kind, entry_of, is_odd_element, account_row, usage_of, usage_fault, entry_elements};
ghost use Rattle.fints_params.specs.Faults.{IsBad};

use crate::fault::{ParamFault, bad_element};
use crate::national::National;
use crate::rows::{AccountRow, Entries, Entry};
use fints_syntax::{
    Bytes, ElementRef, Elements, ItemRef, Kind, Memory, OwnedSegment, parse_number,
};
use std::alloc::{AllocError, Global};

// Entries are in the elements from 11 on, and elements after the head are counted from 0 here.
const FIRST_ENTRY: usize = 9;

/// What HIUPA says: 0 or 1.
pub fn read_usage(segment: &OwnedSegment) -> Result<u32, ParamFault>
    ensures fine { IfOk result (λ n. usage_fault segment.now ≡ None) }
    ensures value { IfOk result (λ n. n ≡ usage_of segment.now) }
    ensures fault { IfErr result (λ f. IsBad segment.now (usage_fault segment.now) f) }
{
    match parse_number(segment.value(4, 1)) {
        None => Err(bad_element(segment, 4)),
        Some(number) => {
            if number != 0 && number != 1 {
                return Err(bad_element(segment, 4));
            }
            Ok(number)
        }
    }
}

fn entry_kind_of(text: &[u8]) -> Option<Kind>
    ensures { result ≡ entry_kind text.now }
{
    if text.len() != 5 && text.len() != 6 {
        return None;
    }
    Kind::parse(text)
}

fn read_entry(items: &ElementRef<'_>) -> Option<Entry>
    ensures { result ≡ entry_of items.now }
{
    let kind = entry_kind_of(items.value(1))?;
    let signatures = parse_number(items.value(2))?;
    Some(Entry { kind, signatures })
}

fn is_blank(items: &ElementRef<'_>) -> bool
    ensures { result ≡ is_empty_element items.now }
{
    match items.get(1) {
        Some(ItemRef::Text(text)) => items.len() == 1 && text.is_empty(),
        _ => false,
    }
}

// Adds the entry that the element is. The answer is how many elements are skipped and counted: 1
// where it is neither an entry nor empty.
fn take_element(items: &ElementRef<'_>, entries: &mut Vec<Entry>) -> Result<usize, AllocError>
    ensures entries { IfOk result
        (λ _. entries.new.items ≡ entries.old.items ++ cons_option (entry_of items.now) []) }
    ensures skipped { IfOk result (λ n. n ≡ count_by is_odd_element (items.now ∷ [])) }
{
    match read_entry(items) {
        Some(entry) => {
            entries.push(entry)?;
            Ok(0)
        }
        None => {
            if is_blank(items) {
                return Ok(0);
            }
            Ok(1)
        }
    }
}

// The entries among the elements from 11 on, and how many others are skipped and counted.
fn entries_of(alloc: Global, elements: &Elements) -> Result<(Vec<Entry>, usize), AllocError>
    ensures entries { IfOk result (λ r. r.0.items ≡ filter_map entry_of (drop 9 elements.now)) }
    ensures skipped { IfOk result (λ r. r.1 ≡ count_by is_odd_element (drop 9 elements.now)) }
{
    let mut entries = Vec::new(alloc);
    let mut skipped = 0;
    let mut at = FIRST_ENTRY;
    while at < elements.len() {
        skipped += take_element(&elements.items(at), &mut entries)?;
        at += 1;
    }
    Ok((entries, skipped))
}

// The account by its number.
fn read_national(alloc: Global, segment: &OwnedSegment) -> Result<National, Memory>
    ensures { IfOk result (λ n. n ≡ (account_row segment.now).national) }
{
    National::copied(
        alloc,
        segment.value(2, 1),
        segment.value(2, 2),
        segment.value(2, 3),
        segment.value(2, 4),
    )
}

/// What HIUPD says, and how many of its elements are skipped and counted.
pub fn read_account(alloc: Global, segment: &OwnedSegment) -> Result<(AccountRow, usize), Memory>
    ensures row { IfOk result (λ r. r.0 ≡ account_row segment.now) }
    ensures skipped { IfOk result (λ r. r.1 ≡ count_by is_odd_element (entry_elements segment.now)) }
{
    let (entries, skipped) = entries_of(alloc, &segment.elements)?;
    let row = AccountRow {
        national: read_national(alloc, segment)?,
        iban: Bytes::copied(alloc, segment.value(3, 1))?,
        entries: Entries::new(entries),
    };
    Ok((row, skipped))
}
