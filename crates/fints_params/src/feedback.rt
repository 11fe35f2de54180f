//! The codes of a message's feedback: HIRMG and HIRMS version 2.
ghost use Rattle.std.specs.Prelude.{◌≡◌, ◌++◌, [], ◌∷◌, None, IfOk, IfErr};
ghost use Rattle.fints_syntax.specs.Owned.{segment_of};
ghost use Rattle.fints_params.specs.Faults.{IsBad, IsMemoryOr};
ghost use Rattle.fints_params.specs.Feedback.{is_feedback, first_value, codes_of, codes_in, codes_fault, bad_code, feedback_fault};
ghost use Rattle.fints_params.specs.Captures.{IsCodesOf, IsCodeFault};
ghost use Rattle.fints_params.specs.Taken.{CodesSoFar};

use crate::capture::read_capture;
use crate::code::Code;
use crate::fault::{ParamFault, bad_element};
use crate::opening::{SegmentTaker, is_sealed_view};
use fints_syntax::{OwnedSegment, SegmentView};
use std::alloc::{AllocError, Global};

/// The codes so far.
#[derive(Drop)]
pub struct FoundCodes {
    pub codes: Vec<Code>,
}

/// The codes of no segment.
pub fn none_found(alloc: Global) -> FoundCodes
    ensures { CodesSoFar [] result.codes.items }
{
    FoundCodes {
        codes: Vec::new(alloc),
    }
}

fn is_feedback(segment: &OwnedSegment) -> bool
    ensures { result ≡ is_feedback segment.now }
{
    segment.is_named(b"HIRMG", 2) || segment.is_named(b"HIRMS", 2)
}

/// The same of a segment as it is in its source.
pub fn is_feedback_view(segment: &SegmentView<'_>) -> bool
    ensures { result ≡ is_feedback (segment_of segment.now) }
{
    segment.is_named(b"HIRMG", 2) || segment.is_named(b"HIRMS", 2)
}

// Adds the codes of a segment of feedback.
fn read_codes(segment: &OwnedSegment, codes: &mut Vec<Code>) -> Result<(), ParamFault>
    ensures fine { IfOk result (λ _. codes_fault segment.now ≡ None) }
    ensures codes { IfOk result (λ _. codes.new.items ≡ codes.old.items ++ codes_of segment.now) }
    ensures fault { IfErr result (λ f. IsBad segment.now (codes_fault segment.now) f) }
{
    for i in 0..segment.elements.len() {
        let text = segment.elements.items(i).value(1);
        if !text.is_empty() {
            match Code::parse(text) {
                None => return Err(bad_element(segment, i + 2)),
                Some(code) => codes.push(code)?,
            }
        }
    }
    Ok(())
}

// Adds the codes of a segment, if it is feedback.
fn take_codes(segment: &OwnedSegment, codes: &mut Vec<Code>) -> Result<(), ParamFault>
    ensures fine { IfOk result (λ _. bad_code segment.now ≡ None) }
    ensures codes { IfOk result (λ _. codes.new.items ≡ codes.old.items ++ codes_in (segment.now ∷ [])) }
    ensures fault { IfErr result (λ f. IsBad segment.now (bad_code segment.now) f) }
{
    if !is_feedback(segment) {
        return Ok(());
    }
    read_codes(segment, codes)
}

impl SegmentTaker for FoundCodes {
    ghost rule = { feedback_fault };

    ghost good = { λ seen found. CodesSoFar seen found.codes.items };

    fn glance(&mut self, segment: &SegmentView<'_>) -> Result<bool, AllocError> {
        Ok(!is_feedback_view(segment) && !is_sealed_view(segment))
    }

    fn take(&mut self, _alloc: Global, segment: &OwnedSegment) -> Result<(), ParamFault> {
        take_codes(segment, &mut self.codes)
    }

    ghost none_refused = { λ seen found h. h.none };
}

/// The codes of a message in their order: item 1 of each element from 2 on of HIRMG and HIRMS
/// version 2, where it isn't empty. An HNVSD version 1 is replaced by the segments of its data, and
/// the first refusal is found in the order of `Params::read`; an item that is no code is a bad
/// element.
pub fn feedback_codes(alloc: Global, message: &[u8]) -> Result<Vec<Code>, ParamFault>
    ensures codes { IfOk result (λ v. IsCodesOf message.now v.items) }
    ensures refused { IfErr result (λ f. IsMemoryOr (IsCodeFault message.now) f) }
{
    let found = read_capture(alloc, message, none_found(alloc))?;
    Ok(found.codes)
}
