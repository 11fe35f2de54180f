//! Parameters and feedback of a capture, read at once.
ghost use Rattle.std.specs.Prelude.{[], IfOk, IfErr};
ghost use Rattle.fints_params.specs.Captures.{IsParamsOf, IsCodesOf, IsEitherFault};
ghost use Rattle.fints_params.specs.Faults.{IsMemoryOr};
ghost use Rattle.fints_params.specs.Parameters.{fault_after};
ghost use Rattle.fints_params.specs.Steps.{HasComeIn};
ghost use Rattle.fints_params.specs.Taken.{IsBothSoFar};

use crate::capture::read_to_end;
use crate::code::Code;
use crate::fault::{ParamFault, is_memory};
use crate::feedback::{FoundCodes, is_feedback_view, none_found};
use crate::gathered::Gathered;
use crate::gathering::no_rows;
use crate::opening::SegmentTaker;
use crate::params::{Params, params_of};
use crate::progress::Progress;
use fints_syntax::{OwnedSegment, SegmentView};
use std::alloc::{AllocError, Global};

/// What a capture says.
#[derive(Drop)]
pub struct ParamsAndCodes {
    pub params: Params,
    pub codes: Vec<Code>,
}

/// The rows so far, and the codes, or the first segment that is refused for its code.
#[derive(Drop)]
pub struct Both {
    pub rows: Gathered,
    pub found: FoundCodes,
    pub refused: Option<ParamFault>,
}

/// The rows and the codes of no segment.
pub fn none_read(alloc: Global) -> Both
    ensures { IsBothSoFar [] result }
{
    Both {
        rows: no_rows(alloc),
        found: none_found(alloc),
        refused: None,
    }
}

impl SegmentTaker for Both {
    ghost use Rattle.fints_params.specs.Parameters.{fault_after};
    ghost use Rattle.fints_params.specs.Taken.{IsBothSoFar};

    ghost rule = { fault_after };

    ghost good = { IsBothSoFar };

    fn glance(&mut self, segment: &SegmentView<'_>) -> Result<bool, AllocError> {
        if is_feedback_view(segment) {
            return Ok(false);
        }
        self.rows.glance(segment)
    }

    fn take(&mut self, alloc: Global, segment: &OwnedSegment) -> Result<(), ParamFault> {
        self.rows.take(alloc, segment)?;
        if self.refused.is_some() {
            return Ok(());
        }
        match self.found.take(alloc, segment) {
            Ok(()) => Ok(()),
            Err(fault) => {
                if is_memory(&fault) {
                    return Err(fault);
                }
                self.refused = Some(fault);
                Ok(())
            }
        }
    }

    ghost none_refused = { λ seen both h. h.0.none };
}

/// The parameters of a capture and the codes of its feedback, of whose front so much was read before.
pub fn both_in(progress: Progress<Both>, capture: &[u8]) -> Result<ParamsAndCodes, ParamFault>
    requires { HasComeIn fault_after IsBothSoFar capture.now progress.to progress.reading.refused
        progress.reading.reader }
    ensures params { IfOk result (λ it. IsParamsOf capture.now it.params) }
    ensures codes { IfOk result (λ it. IsCodesOf capture.now it.codes.items) }
    ensures refused { IfErr result (λ f. IsMemoryOr (IsEitherFault capture.now) f) }
{
    let Both {
        rows,
        found,
        refused,
    } = read_to_end(progress, capture)?;
    let params = params_of(rows)?;
    if let Some(fault) = refused {
        return Err(fault);
    }
    Ok(ParamsAndCodes {
        params,
        codes: found.codes,
    })
}

/// The parameters of a capture and the codes of its feedback, as `Params::read` and
/// `feedback_codes` give them, in one pass. Of the refusals that of the parameters comes first.
pub fn params_and_codes(alloc: Global, capture: &[u8]) -> Result<ParamsAndCodes, ParamFault>
    ensures params { IfOk result (λ it. IsParamsOf capture.now it.params) }
    ensures codes { IfOk result (λ it. IsCodesOf capture.now it.codes.items) }
    ensures refused { IfErr result (λ f. IsMemoryOr (IsEitherFault capture.now) f) }
{
    both_in(Progress::new(alloc, none_read(alloc)), capture)
}
