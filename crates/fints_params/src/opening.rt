//! Segments one after the other, an HNVSD version 1 replaced once by the segments of its data.
ghost use Rattle.std.specs.Prelude.{◌≡◌, true, [], ◌∷◌, List, option_copied, IfOk, IfErr};
ghost use Rattle.fints_syntax_segments.specs.declared.item.OwnedSegment.{OwnedSegment};
ghost use Rattle.fints_params.specs.Sealed.{is_sealed, data_of};
ghost use Rattle.fints_params.specs.Faults.{IsMemoryOr};
ghost use Rattle.fints_syntax.specs.Owned.{segment_of, segments_of};
ghost use Rattle.fints_params.specs.Glancing.{IsGlanced};
ghost use Rattle.fints_params.specs.Refused.{Rule, NoneRefused, StaysClosed};
ghost use Rattle.fints_params.specs.Opened.{HasInside};
ghost use Rattle.fints_params.specs.Steps.{Continues, StopsIn, ContinuesOver, StopsAt, EndsWithin, ReadsNext, StopsNext};

use crate::fault::{ParamFault, bad_element};
use crate::placed::PlacedSegment;
use fints_syntax::{
    Elements, ItemRef, OwnedSegment, SegmentView, SyntaxFault, data_place, parse_all,
};
use fints_syntax_segments::HNVSD_VERSION;
use std::alloc::{AllocError, Global};

/// What reads segments one after the other, until one is refused.
pub trait SegmentTaker {
    /// Why a segment is refused after those before it.
    ghost rule: { Rule };

    /// The state is right for these segments, and none of them is refused.
    ghost good: { List OwnedSegment → Self → Type 0 };

    /// Takes a segment as it is in its source, where a glance at it is enough; else nothing changes.
    /// After an error the state isn't to be used again.
    fn glance(&mut self, segment: &SegmentView<'_>) -> Result<bool, AllocError>
        ensures { IfOk result (λ taken. IsGlanced good self.old self.new (segment_of segment.now) taken) };

    /// Takes one segment after those before it. After an error the state isn't to be used again.
    fn take(&mut self, alloc: Global, segment: &OwnedSegment) -> Result<(), ParamFault>
        ensures ok { IfOk result (λ _. Continues good self.old self.new (segment.now ∷ [])) }
        ensures stopped { IfErr result (λ f. IsMemoryOr (StopsIn rule good self.old (segment.now ∷ [])) f) };

    ghost none_refused: { (seen : List OwnedSegment) (reader : Self) → good seen reader
        → NoneRefused rule seen };
}

/// Whether the segment holds sealed data: HNVSD version 1.
pub fn is_sealed(segment: &OwnedSegment) -> bool
    ensures { result ≡ is_sealed segment.now }
{
    segment.is_named(b"HNVSD", HNVSD_VERSION)
}

/// The same of a segment as it is in its source.
pub fn is_sealed_view(segment: &SegmentView<'_>) -> bool
    ensures { result ≡ is_sealed (segment_of segment.now) }
{
    segment.is_named(b"HNVSD", HNVSD_VERSION)
}

/// The data of an HNVSD: item 1 of its element 2, where it is binary (FinTS 3.0, Security, HBCI, the
/// segment for encrypted data).
pub fn sealed_data(segment: &OwnedSegment) -> Option<&[u8]>
    ensures { option_copied result ≡ data_of segment.now }
{
    match segment.items(2).get(1) {
        Some(ItemRef::Bin(bytes)) => Some(bytes),
        _ => None,
    }
}

// The segments of the data of an HNVSD.
fn open<'a>(alloc: Global, placed: &'a PlacedSegment) -> Result<Vec<SegmentView<'a>>, ParamFault>
    ensures ok { IfOk result (λ v. HasInside placed.now.segment (segments_of v.items)) }
    ensures closed { IfErr result (λ f. IsMemoryOr (StaysClosed placed.now.segment placed.now.place) f) }
{
    let Some(bytes) = sealed_data(&placed.segment) else {
        return Err(bad_element(&placed.segment, 2));
    };
    match parse_all(alloc, bytes) {
        Ok(views) => Ok(views),
        Err(fault) => Err(ParamFault::from(SyntaxFault {
            kind: fault.kind,
            offset: placed.place + fault.offset,
        })),
    }
}

// All segments; those at which a glance isn't enough are read each into the memory of the one before.
fn take_all<R: SegmentTaker>(
    alloc: Global,
    views: &[SegmentView<'_>],
    taker: &mut R,
) -> Result<(), ParamFault>
    ensures ok { IfOk result (λ _. Continues R.good taker.old taker.new (segments_of views.now)) }
    ensures stopped { IfErr result
        (λ f. IsMemoryOr (StopsIn R.rule R.good taker.old (segments_of views.now)) f) }
{
    let mut elements = Elements::new(alloc);
    for view in views {
        if taker.glance(view)? {
            continue;
        }
        let segment = view.to_owned_in(elements)?;
        taker.take(alloc, &segment)?;
        elements = segment.into_elements();
    }
    Ok(())
}

// The segments of the data of an HNVSD, whose own memory is handed back.
fn take_sealed<R: SegmentTaker>(
    alloc: Global,
    placed: PlacedSegment,
    taker: &mut R,
) -> Result<Elements, ParamFault>
    requires { is_sealed placed.segment ≡ true }
    ensures ok { IfOk result (λ _. ContinuesOver R.good taker.old taker.new placed.segment) }
    ensures stopped { IfErr result
        (λ f. IsMemoryOr (StopsAt R.rule R.good taker.old placed.segment placed.place) f) }
{
    let views = open(alloc, &placed)?;
    take_all(alloc, views.as_slice(), taker)?;
    drop(views);
    Ok(placed.into_elements())
}

/// Reads a segment that starts at this offset of a capture, in the memory of these elements, which
/// it hands back.
pub fn take_view<R: SegmentTaker>(
    alloc: Global,
    start: usize,
    view: &SegmentView<'_>,
    elements: Elements,
    taker: &mut R,
) -> Result<Elements, ParamFault>
    requires { EndsWithin (record { start = start; segment = view.now }) }
    ensures ok { IfOk result (λ _. ReadsNext R.good taker.old taker.new
        (record { start = start; segment = view.now })) }
    ensures stopped { IfErr result (λ f. IsMemoryOr
        (StopsNext R.rule R.good taker.old (record { start = start; segment = view.now })) f) }
{
    let segment = view.to_owned_in(elements)?;
    if !is_sealed(&segment) {
        taker.take(alloc, &segment)?;
        return Ok(segment.into_elements());
    }
    let place = data_place(start, view);
    take_sealed(alloc, PlacedSegment { segment, place }, taker)
}
