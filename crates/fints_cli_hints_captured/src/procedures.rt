//! The TAN procedures that HITANS lists (FinTS 3.0, PIN/TAN, two-step TAN procedures).
use fints_syntax::{ElementRef, Memory, OwnedSegment, parse_number};

/// A TAN procedure as one HITANS lists it.
#[derive(Clone, Copy)]
pub struct Procedure {
    /// The version of the HITANS.
    pub version: u16,
    /// The security function: element 3 of HNSHK.
    pub function: u32,
    /// The greatest length of a TAN; 0 where none is given.
    pub longest: u32,
    /// Whether HKTAN must name the TAN medium, where the user has several.
    pub needs_medium: bool,
}

// How the groups of element 5 are laid out in a version: how many items come before the first one, and how
// many a group has.
fn layout_of(version: u16) -> Option<(usize, usize)> {
    match version {
        1 => Some((4, 11)),
        2 => Some((3, 15)),
        3 => Some((3, 18)),
        4 | 5 => Some((3, 22)),
        6 => Some((3, 21)),
        7 => Some((3, 26)),
        _ => None,
    }
}

// The value of the item at a place, from 0.
fn item_at<'a>(items: &ElementRef<'a>, place: usize) -> &'a [u8] {
    items.value(place.saturating_add(1))
}

fn number_at(items: &ElementRef<'_>, place: usize) -> u32 {
    parse_number(item_at(items, place)).unwrap_or(0)
}

// The procedure whose group begins at a place: a function of 900 to 998, and process 1 or 2.
fn procedure_at(version: u16, items: &ElementRef<'_>, start: usize) -> Option<Procedure> {
    let function = number_at(items, start);
    let process = item_at(items, start.saturating_add(1));
    let is_process = process == b"1".as_slice() || process == b"2".as_slice();
    if !(900..=998).contains(&function) || !is_process {
        return None;
    }
    let is_late = version >= 6;
    let longest = number_at(items, start.saturating_add(6));
    let medium = item_at(items, start.saturating_add(18));
    let media = number_at(items, start.saturating_add(20));
    Some(Procedure {
        version,
        function,
        longest: if is_late { longest } else { 0 },
        needs_medium: is_late && medium == b"2".as_slice() && media > 1,
    })
}

/// Adds the procedures of a HITANS. It answers whether it is one that can be read so.
pub fn add_procedures(all: &mut Vec<Procedure>, segment: &OwnedSegment) -> Result<bool, Memory> {
    let version = segment.head.version;
    let Some((front, size)) = layout_of(version) else {
        return Ok(false);
    };
    let items = segment.items(5);
    for start in (front..items.len()).step_by(size.max(1)) {
        let Some(procedure) = procedure_at(version, &items, start) else {
            return Ok(false);
        };
        all.push(procedure)?;
    }
    Ok(true)
}
