//! What a capture says beside its rows, as far as notes ask for it.
use crate::days::day_of;
use crate::formats::{Format, format_in};
use crate::procedures::{Procedure, add_procedures};
use crate::walk::Walk;
use fints_syntax::{Kind, Memory, OwnedSegment, SegmentView, parse_number};
use memchr::{memchr, memmem};
use std::alloc::Global;

/// The lengths of element 5 of the one HIPINS; 0 where one isn't given.
#[derive(Clone, Copy)]
pub struct Lengths {
    pub least_pin: u32,
    pub most_pin: u32,
    pub most_tan: u32,
}

// For how many days parameter segments say that a bank keeps turnover; 0 is no limit.
#[derive(Clone, Copy)]
struct Kept {
    kind: Kind,
    version: u16,
    days: u32,
}

/// What a capture says of TAN procedures, of the lengths of PIN and TAN, of formats and of days.
#[derive(Drop)]
pub struct Captured {
    /// Whether each HITANS can be read.
    pub readable: bool,
    pub procedures: Vec<Procedure>,
    /// Whether there is a HITANS, and each is of version 6 or 7 and lets no TAN go with its order.
    pub two_steps: bool,
    /// The functions that the last feedback 3920 allows the user; none where there is no such list.
    pub allowed: Vec<u32>,
    pub lengths: Option<Lengths>,
    /// The formats of each HISPAS and of each other parameter segment, by its kind.
    pub formats: Vec<(Kind, Format)>,
    // Of each kind and version that says it, the most days.
    kept: Vec<Kept>,
    // How many HIPINS version 1 there are.
    pins: usize,
}

// The functions that an element of feedback allows the user (code 3920): its items from 4 on.
fn add_allowed(allowed: &mut Vec<u32>, segment: &OwnedSegment) -> Result<(), Memory> {
    for element in 2..segment.elements.len().saturating_add(2) {
        let items = segment.items(element);
        if items.value(1) == b"3920".as_slice() {
            allowed.clear();
            for item in 4..items.len().saturating_add(1) {
                if let Some(function) = parse_number(items.value(item)) {
                    allowed.push(function)?;
                }
            }
        }
    }
    Ok(())
}

fn lengths_of(segment: &OwnedSegment) -> Lengths {
    let number = |item: usize| parse_number(segment.items(5).value(item.max(1))).unwrap_or(0);
    Lengths {
        least_pin: number(1),
        most_pin: number(2),
        most_tan: number(3),
    }
}

// The element that says how long turnover is kept, in the parameter segments that say it.
fn days_element(id: &[u8], version: u16) -> Option<usize> {
    match (id, version) {
        (b"HIKAZS", 5) => Some(4),
        (b"HIKAZS", 6 | 7) | (b"HICAZS", 1) => Some(5),
        _ => None,
    }
}

fn kept_of(segment: &SegmentView<'_>) -> Option<Kept> {
    let (kind, version) = (segment.id(), segment.version());
    let element = days_element(kind.as_bytes(), version)?;
    let days = segment.item(element, 1)?.number()?;
    Some(Kept {
        kind,
        version,
        days,
    })
}

// Whether it is the identifier of a parameter segment: HIxxxS.
fn is_parameter(id: &[u8]) -> bool {
    id.len() == 6 && id.starts_with(b"HI") && id.ends_with(b"S")
}

// Whether a format may be in the bytes.
fn has_format(bytes: &[u8]) -> bool {
    memchr(b'p', bytes).is_some() && memmem::find(bytes, b"pain").is_some()
}

// Whether a note asks for more of the segment than how long turnover is kept: it is of one of these kinds, or a
// parameter segment with a format.
fn is_read_whole(segment: &SegmentView<'_>) -> bool {
    let kind = segment.id();
    match kind.as_bytes() {
        b"HITANS" | b"HIRMS" | b"HIPINS" => true,
        id => is_parameter(id) && has_format(segment.as_bytes()),
    }
}

fn add_formats(formats: &mut Vec<(Kind, Format)>, segment: &OwnedSegment) -> Result<(), Memory> {
    let kind = segment.head.id;
    for element in 2..segment.elements.len().saturating_add(2) {
        let items = segment.items(element);
        for item in 1..items.len().saturating_add(1) {
            if let Some(format) = format_in(items.value(item)) {
                formats.push((kind, format))?;
            }
        }
    }
    Ok(())
}

impl Captured {
    fn nothing(alloc: Global) -> Captured {
        Captured {
            readable: true,
            procedures: Vec::new(alloc),
            two_steps: true,
            allowed: Vec::new(alloc),
            lengths: None,
            formats: Vec::new(alloc),
            kept: Vec::new(alloc),
            pins: 0,
        }
    }

    fn add_tans(&mut self, segment: &OwnedSegment) -> Result<(), Memory> {
        let version = segment.head.version;
        let is_late = version == 6 || version == 7;
        if !is_late || segment.value(5, 1) != b"N".as_slice() {
            self.two_steps = false;
        }
        if !add_procedures(&mut self.procedures, segment)? {
            self.readable = false;
        }
        Ok(())
    }

    fn add(&mut self, segment: &OwnedSegment) -> Result<(), Memory> {
        let id = segment.head.id;
        if id.is(b"HITANS") {
            return self.add_tans(segment);
        }
        if id.is(b"HIRMS") {
            return add_allowed(&mut self.allowed, segment);
        }
        if segment.is_named(b"HIPINS", 1) {
            self.pins = self.pins.saturating_add(1);
            self.lengths = Some(lengths_of(segment));
        }
        add_formats(&mut self.formats, segment)
    }

    // Keeps the most days of a kind and version; 0 is no limit, and more than all others.
    fn keep(&mut self, kept: Kept) -> Result<(), Memory> {
        let earlier = self
            .kept
            .iter_mut()
            .find(|it| it.kind == kept.kind && it.version == kept.version);
        match earlier {
            Some(earlier) => {
                let is_limited = earlier.days > 0 && kept.days > 0;
                earlier.days = if is_limited {
                    earlier.days.max(kept.days)
                } else {
                    0
                };
                Ok(())
            }
            None => Ok(self.kept.push(kept)?),
        }
    }

    fn add_view(&mut self, alloc: Global, segment: &SegmentView<'_>) -> Result<(), Memory> {
        if let Some(kept) = kept_of(segment) {
            self.keep(kept)?;
        }
        if is_read_whole(segment) {
            self.add(&segment.to_owned(alloc)?)?;
        }
        Ok(())
    }

    /// What a capture says, which was read before.
    pub fn of(alloc: Global, capture: &[u8]) -> Result<Captured, Memory> {
        let mut captured = Captured::nothing(alloc);
        let mut walk = Walk::over(capture);
        for _ in 0..capture.len() {
            let Some(segment) = walk.step() else {
                break;
            };
            captured.add_view(alloc, &segment)?;
        }
        if captured.pins != 1 {
            captured.lengths = None;
        }
        if captured.procedures.is_empty() {
            captured.two_steps = false;
        }
        Ok(captured)
    }

    /// Whether a procedure is listed.
    pub fn lists(&self, function: u32) -> bool {
        self.procedures.iter().any(|it| it.function == function)
    }

    /// Whether it is listed by a HITANS of this version.
    pub fn lists_in(&self, function: u32, version: u16) -> bool {
        self.procedures
            .iter()
            .any(|it| it.function == function && it.version == version)
    }

    /// Whether HKTAN of this version must name the medium of a procedure, which is listed once for it.
    pub fn needs_medium(&self, function: u32, version: u16) -> bool {
        let mut count: usize = 0;
        let mut needed = false;
        for it in self.procedures.iter() {
            if it.function == function && it.version == version {
                count = count.saturating_add(1);
                needed = it.needs_medium;
            }
        }
        count == 1 && needed
    }

    /// For how many days the bank keeps turnover, the most that a parameter segment of this kind and version
    /// says. None where none says it, or one says 0, which is no limit.
    pub fn days(&self, id: &[u8], version: u16) -> Option<u32> {
        let kept = self
            .kept
            .iter()
            .find(|it| it.kind.is(id) && it.version == version)?;
        if kept.days == 0 {
            None
        } else {
            Some(kept.days)
        }
    }
}

/// How many days a date is before another, both in eight digits.
pub fn days_between(from: &[u8], to: &[u8]) -> Option<u32> {
    day_of(to)?.checked_sub(day_of(from)?)
}

/// What an answer of the bank says that later messages of its dialogue must fit.
#[derive(Drop)]
pub struct Said {
    /// The functions that its feedback 3920 allows the user.
    pub allowed: Vec<u32>,
    /// Its HITAN of versions 6 and 7, which give order references.
    pub references: Vec<OwnedSegment>,
}

impl Said {
    fn add_view(&mut self, alloc: Global, segment: &SegmentView<'_>) -> Result<(), Memory> {
        if segment.id().is(b"HIRMS") {
            add_allowed(&mut self.allowed, &segment.to_owned(alloc)?)?;
        }
        if segment.is_named(b"HITAN", 6) || segment.is_named(b"HITAN", 7) {
            self.references.push(segment.to_owned(alloc)?)?;
        }
        Ok(())
    }
}

/// What an answer says, which was read before.
pub fn said_in(alloc: Global, answer: &[u8]) -> Result<Said, Memory> {
    let mut said = Said {
        allowed: Vec::new(alloc),
        references: Vec::new(alloc),
    };
    let mut walk = Walk::over(answer);
    for _ in 0..answer.len() {
        let Some(segment) = walk.step() else {
            break;
        };
        said.add_view(alloc, &segment)?;
    }
    Ok(said)
}
