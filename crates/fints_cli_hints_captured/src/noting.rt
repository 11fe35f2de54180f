//! Which notes there are on a message or a step, by what a capture says.
use crate::captured::{Captured, Lengths, days_between};
use crate::formats::{Format, bytes_of, format_element, format_in};
use crate::lists::{Ascii, Numbers};
use crate::notes::{Noted, Notes, Which};
use crate::procedures::Procedure;
use crate::sent::{Outgoing, Segment};
use crate::spans::Span;
use fints_cli_hints_words::places::written;
use fints_rules::kinds::is_plain_order;
use fints_rules::{Demand, Permissions};
use fints_syntax::{Kind, Memory};
use std::alloc::Global;

// The function that asks for no TAN procedure: one step.
const ONE_STEP: u32 = 999;

// ---- the procedure

// The functions that are listed, in order and each once.
fn functions_of(alloc: Global, procedures: &[Procedure]) -> Result<Vec<u32>, Memory> {
    let mut functions = Vec::new(alloc);
    for procedure in procedures {
        functions.push(procedure.function)?;
    }
    functions.sort_unstable();
    functions.dedup();
    Ok(functions)
}

// That the bank allows the user other functions.
fn add_not_allowed(
    notes: &mut Notes<'_>,
    which: Which,
    allowed: &[u32],
    function: u32,
) -> Result<(), Memory> {
    let allowed = Numbers(allowed);
    let what = written(
        notes.alloc,
        format_args!(
            "element 3 of HNSHK is {function}, and the bank allows the user {allowed} (code 3920)"
        ),
    )?;
    notes.add(which, what.as_str())
}

// That the procedure isn't listed, or not allowed to the user.
fn add_function(
    notes: &mut Notes<'_>,
    captured: &Captured,
    allowed: &[u32],
    function: u32,
) -> Result<(), Memory> {
    if function == ONE_STEP || captured.procedures.is_empty() {
        return Ok(());
    }
    if !captured.lists(function) {
        let listed = functions_of(notes.alloc, captured.procedures.as_slice())?;
        let listed = Numbers(listed.as_slice());
        let what = written(
            notes.alloc,
            format_args!(
                "element 3 of HNSHK is {function}, and no HITANS lists it: they list {listed}"
            ),
        )?;
        return notes.add(Which::Unlisted, what.as_str());
    }
    if !allowed.is_empty() && !allowed.contains(&function) {
        return add_not_allowed(notes, Which::NotAllowed, allowed, function);
    }
    Ok(())
}

// The first kind of the body that demands a TAN.
fn demanding_kind(permissions: &Permissions<'_>, sent: &Outgoing<'_>) -> Option<Kind> {
    for place in 0..sent.body_len() {
        let kind = sent.kind(place)?;
        if permissions.is_demanding(kind) {
            return Some(kind);
        }
    }
    None
}

// Whether HIPINS lists an order of the body that doesn't go in one step always. HKTAN is none: HIPINS may
// list it, and it is in initialisations too.
fn has_order(permissions: &Permissions<'_>, sent: &Outgoing<'_>) -> bool {
    (0..sent.body_len()).any(|place| match sent.kind(place) {
        Some(kind) => {
            let is_free = kind.is(b"HKTAB") || kind.is(b"HKPAE") || !is_plain_order(kind);
            !is_free && !matches!(permissions.demand(kind), Demand::Unlisted)
        }
        None => false,
    })
}

// Whether the bank has allowed the user some functions before, and one step is none of them. What it allows
// since the dialogue began may be more.
fn is_disallowed(basis: &Basis<'_>) -> bool {
    let has_one_step = |functions: &[u32]| functions.contains(&ONE_STEP);
    !basis.earlier.is_empty() && !has_one_step(basis.earlier) && !has_one_step(basis.allowed)
}

// That an order goes in one step, where it demands a TAN and the bank takes none so, or where the bank has
// allowed the user TAN procedures only.
fn add_one_step(
    notes: &mut Notes<'_>,
    basis: &Basis<'_>,
    sent: &Outgoing<'_>,
) -> Result<(), Memory> {
    let demanding = demanding_kind(basis.permissions, sent);
    if basis.captured.two_steps
        && let Some(kind) = demanding
    {
        let kind = Ascii(kind.as_bytes());
        let what = written(
            notes.alloc,
            format_args!(
                "element 3 of HNSHK is 999, {kind} demands a TAN (HIPINS), and each HITANS says N to one step"
            ),
        )?;
        return notes.add(Which::OneStep, what.as_str());
    }
    if is_disallowed(basis) && has_order(basis.permissions, sent) {
        return add_not_allowed(notes, Which::OneStep, basis.earlier, ONE_STEP);
    }
    Ok(())
}

// The version of a HITANS that lists the procedure; 0 where none does.
fn version_of(captured: &Captured, function: u32) -> u16 {
    let mut version = 0;
    for procedure in captured.procedures.iter() {
        if procedure.function == function {
            version = version.max(procedure.version);
        }
    }
    version
}

// That an initialisation has no HKTAN, where the procedure is one of HITANS 6 or later only.
fn add_initialisation(
    notes: &mut Notes<'_>,
    captured: &Captured,
    sent: &Outgoing<'_>,
    function: u32,
) -> Result<(), Memory> {
    let is_initialisation = sent.has(b"HKIDN") && sent.has(b"HKVVB") && !sent.has(b"HKSYN");
    let is_late = captured
        .procedures
        .iter()
        .all(|it| it.function != function || it.version >= 6);
    if is_initialisation && is_late && captured.lists(function) {
        let version = version_of(captured, function);
        let what = written(
            notes.alloc,
            format_args!(
                "the initialisation has no HKTAN of process 4, and HITANS {version} lists the procedure {function}"
            ),
        )?;
        return notes.add(Which::NoTanOrder, what.as_str());
    }
    Ok(())
}

// ---- HKTAN

// The kind of the first segment of the body that is no HKTAN.
fn other_kind(sent: &Outgoing<'_>) -> Option<Kind> {
    for place in 0..sent.body_len() {
        let kind = sent.kind(place)?;
        if !kind.is(b"HKTAN") {
            return Some(kind);
        }
    }
    None
}

// The kind that an HKTAN names in element 3.
fn kind_in(order: &Segment<'_>) -> Option<Kind> {
    Kind::parse(order.value(3, 1)?)
}

// Whether an initialisation may name the kind in HKTAN: clients open the dialogue of such an order so.
fn may_be_initialised(sent: &Outgoing<'_>, named: Kind) -> bool {
    sent.has(b"HKIDN") && (named.is(b"HKTAB") || named.is(b"HKPAE"))
}

// That element 3 names an order that the message doesn't hold.
fn add_named(
    notes: &mut Notes<'_>,
    sent: &Outgoing<'_>,
    order: &Segment<'_>,
) -> Result<(), Memory> {
    let (Some(named), Some(held)) = (kind_in(order), other_kind(sent)) else {
        return Ok(());
    };
    let is_order = named.as_bytes().starts_with(b"HK") || named.as_bytes().starts_with(b"DK");
    let is_checked = sent.has(b"HKVPP") || sent.has(b"HKVPA");
    let is_known = sent.has(named.as_bytes()) || may_be_initialised(sent, named);
    if is_order && !is_checked && !is_known {
        let (named, held) = (Ascii(named.as_bytes()), Ascii(held.as_bytes()));
        let what = written(
            notes.alloc,
            format_args!("element 3 of HKTAN is {named}, and the message holds {held}"),
        )?;
        return notes.add(Which::OtherKind, what.as_str());
    }
    Ok(())
}

// That the TAN medium is missing, where the one procedure of that version demands it.
fn add_medium(
    notes: &mut Notes<'_>,
    captured: &Captured,
    sent: &Outgoing<'_>,
    order: &Segment<'_>,
    function: u32,
) -> Result<(), Memory> {
    let version = order.version();
    let needed = captured.needs_medium(function, version);
    let is_empty = order.value(12, 1).is_some_and(|it| it.is_empty());
    if needed && is_empty && !sent.has(b"HKIDN") {
        let what = written(
            notes.alloc,
            format_args!(
                "element 12 of HKTAN, the TAN medium, is empty, and HITANS {version} demands it for the procedure {function}"
            ),
        )?;
        return notes.add(Which::NoMedium, what.as_str());
    }
    Ok(())
}

// What is wrong with the first HKTAN of the message.
fn add_tan_order(
    notes: &mut Notes<'_>,
    captured: &Captured,
    sent: &Outgoing<'_>,
    order: &Segment<'_>,
    function: u32,
) -> Result<(), Memory> {
    let version = order.version();
    if captured.readable && captured.lists(function) && !captured.lists_in(function, version) {
        let listed = version_of(captured, function);
        let what = written(
            notes.alloc,
            format_args!(
                "HKTAN has version {version}, and the procedure {function} is listed by HITANS {listed} and by none of that version"
            ),
        )?;
        notes.add(Which::OtherVersion, what.as_str())?;
    }
    let is_late = version == 6 || version == 7;
    if is_late && order.value(2, 1) == Some(b"4".as_slice()) {
        add_named(notes, sent, order)?;
        if captured.readable {
            add_medium(notes, captured, sent, order, function)?;
        }
    }
    Ok(())
}

// ---- orders

// Whether a format is one of a parameter segment of this kind.
fn lists_format(captured: &Captured, parameter: &[u8], format: Format) -> bool {
    captured
        .formats
        .iter()
        .any(|it| it.0.is(parameter) && it.1 == format)
}

// That the format of a SEPA order is listed nowhere, and others are.
fn add_format(
    notes: &mut Notes<'_>,
    captured: &Captured,
    order: &Segment<'_>,
) -> Result<(), Memory> {
    let Some(element) = format_element(order) else {
        return Ok(());
    };
    let Some(format) = format_in(order.value(element, 1).unwrap_or(&[])) else {
        return Ok(());
    };
    let Some(listed) = captured.formats.iter().find(|it| it.0.is(b"HISPAS")) else {
        return Ok(());
    };
    let kind = order.kind();
    let own = parameter_of(kind);
    if lists_format(captured, b"HISPAS", format) || lists_format(captured, &own, format) {
        return Ok(());
    }
    let (kind, format, listed) = (
        Ascii(kind.as_bytes()),
        Ascii(bytes_of(&format)),
        Ascii(bytes_of(&listed.1)),
    );
    let what = written(
        notes.alloc,
        format_args!("{kind} has {format}, and HISPAS lists {listed}"),
    )?;
    notes.add(Which::OtherFormat, what.as_str())
}

// The identifier of the parameter segment of an order of five characters.
fn parameter_of(kind: Kind) -> [u8; 6] {
    let mut parameter = *b"HI...S";
    for (i, byte) in kind.as_bytes().iter().enumerate().skip(2).take(3) {
        if let Some(place) = parameter.get_mut(i) {
            *place = *byte;
        }
    }
    parameter
}

// The element of an order for turnover that has its first day, and the kind of its parameter segment.
fn first_day_of(order: &Segment<'_>) -> Option<(usize, &'static [u8])> {
    let version = order.version();
    if order.kind().is(b"HKKAZ") && (5..=7).contains(&version) {
        return Some((4, b"HIKAZS"));
    }
    if order.is_named(b"HKCAZ", 1) {
        return Some((5, b"HICAZS"));
    }
    None
}

// That an order asks for turnover of days that the bank doesn't keep.
fn add_days(
    notes: &mut Notes<'_>,
    captured: &Captured,
    order: &Segment<'_>,
    opener: &Segment<'_>,
) -> Result<(), Memory> {
    let Some((element, parameter)) = first_day_of(order) else {
        return Ok(());
    };
    let (Some(first), Some(date)) = (order.value(element, 1), opener.value(9, 2)) else {
        return Ok(());
    };
    let Some(days) = days_between(first, date) else {
        return Ok(());
    };
    let Some(kept) = captured.days(parameter, order.version()) else {
        return Ok(());
    };
    if days <= kept.saturating_add(1) {
        return Ok(());
    }
    let kind = order.kind();
    let (kind, limit) = (Ascii(kind.as_bytes()), Ascii(parameter));
    let first = Ascii(first);
    let what = written(
        notes.alloc,
        format_args!(
            "{kind} asks from {first} on, {days} days before the date in HNSHK, and by {limit} the bank keeps {kept} days"
        ),
    )?;
    notes.add(Which::TooOld, what.as_str())
}

// The order at a place of the body.
fn order_at<'s>(
    alloc: Global,
    sent: &Outgoing<'s>,
    place: usize,
) -> Result<Option<Segment<'s>>, Memory> {
    match sent.kind(place) {
        Some(kind) if kind.as_bytes().starts_with(b"HK") => sent.segment(alloc, place),
        _ => Ok(None),
    }
}

fn add_orders(
    notes: &mut Notes<'_>,
    captured: &Captured,
    sent: &Outgoing<'_>,
) -> Result<(), Memory> {
    let Some(opener) = sent.opener(notes.alloc, 0)? else {
        return Ok(());
    };
    for place in 0..sent.body_len() {
        if let Some(order) = order_at(notes.alloc, sent, place)? {
            add_format(notes, captured, &order)?;
            add_days(notes, captured, &order, &opener)?;
        }
    }
    Ok(())
}

// ---- PIN and TAN

// Whether each procedure says how long a TAN may be, and it is less.
fn is_beyond_procedures(captured: &Captured, len: usize) -> bool {
    captured.readable
        && captured
            .procedures
            .iter()
            .all(|it| it.longest > 0 && len > it.longest as usize)
}

fn add_short(notes: &mut Notes<'_>, least: u32) -> Result<(), Memory> {
    let what = written(
        notes.alloc,
        format_args!("the PIN is shorter than the {least} characters of HIPINS"),
    )?;
    notes.add(Which::TooShort, what.as_str())
}

fn add_long(notes: &mut Notes<'_>, name: &str, most: u32) -> Result<(), Memory> {
    let what = written(
        notes.alloc,
        format_args!("the {name} is longer than the {most} characters of HIPINS"),
    )?;
    notes.add(Which::TooLong, what.as_str())
}

// An empty PIN is left out of it, so that a field is short only where none of its values is empty.
fn add_pin_length(notes: &mut Notes<'_>, lengths: Lengths, pin: Span) -> Result<(), Memory> {
    if 0 < pin.least && pin.most < lengths.least_pin as usize {
        add_short(notes, lengths.least_pin)?;
    }
    if 0 < lengths.most_pin && pin.least > lengths.most_pin as usize {
        add_long(notes, "PIN", lengths.most_pin)?;
    }
    Ok(())
}

// That a PIN or a TAN has a length that HIPINS excludes; nothing else is said of it.
fn add_lengths(
    notes: &mut Notes<'_>,
    captured: &Captured,
    end: &Segment<'_>,
) -> Result<(), Memory> {
    let Some(lengths) = captured.lengths else {
        return Ok(());
    };
    if let Some(pin) = end.span(4, 1) {
        add_pin_length(notes, lengths, pin)?;
    }
    let tan = end.span(4, 2).map_or(0, |it| it.least);
    let is_long = 0 < lengths.most_tan && tan > lengths.most_tan as usize;
    if is_long && is_beyond_procedures(captured, tan) {
        add_long(notes, "TAN", lengths.most_tan)?;
    }
    Ok(())
}

// ---- all notes

/// By what a message or a step is noted.
#[derive(Clone, Copy)]
pub struct Basis<'b> {
    pub captured: &'b Captured,
    /// The functions that the last feedback 3920 allowed the user; none where there was none.
    pub allowed: &'b [u32],
    /// Those of the last feedback 3920 before the dialogue began.
    pub earlier: &'b [u32],
    pub permissions: &'b Permissions<'b>,
}

fn add_by_function(
    notes: &mut Notes<'_>,
    basis: &Basis<'_>,
    sent: &Outgoing<'_>,
    function: u32,
) -> Result<(), Memory> {
    let captured = basis.captured;
    if captured.readable {
        add_function(notes, captured, basis.allowed, function)?;
        if function == ONE_STEP {
            add_one_step(notes, basis, sent)?;
        }
    }
    let place = sent.place_of(b"HKTAN").unwrap_or(sent.body_len());
    match sent.segment(notes.alloc, place)? {
        Some(order) => add_tan_order(notes, captured, sent, &order, function),
        None if captured.readable => add_initialisation(notes, captured, sent, function),
        None => Ok(()),
    }
}

fn add_all(notes: &mut Notes<'_>, basis: &Basis<'_>, sent: &Outgoing<'_>) -> Result<(), Memory> {
    let Some(function) = sent.function(notes.alloc)? else {
        return Ok(());
    };
    add_by_function(notes, basis, sent, function)?;
    add_orders(notes, basis.captured, sent)?;
    for place in 0..sent.ends() {
        if let Some(end) = sent.end(notes.alloc, place)? {
            add_lengths(notes, basis.captured, &end)?;
        }
    }
    Ok(())
}

/// Adds the notes on what is signed by PIN and TAN, where they weren't written before. `called` is what it is
/// called, with a colon and a blank after it, or nothing.
pub fn add_captured_notes(
    text: &mut String,
    alloc: Global,
    called: &str,
    noted: &mut Noted,
    basis: &Basis<'_>,
    sent: &Outgoing<'_>,
) -> Result<(), Memory> {
    let mut notes = Notes::new(alloc, called, *noted);
    add_all(&mut notes, basis, sent)?;
    let (lines, told) = notes.into_parts();
    text.push_str(lines.as_str())?;
    *noted = told;
    Ok(())
}
