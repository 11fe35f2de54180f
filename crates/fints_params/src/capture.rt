//! A capture, read segment by segment.
ghost use Rattle.std.specs.Prelude.{[], IfOk, IfErr};
ghost use Rattle.fints_params.specs.Faults.{IsMemoryOr};
ghost use Rattle.fints_params.specs.Refused.{IsRefusedOf};
ghost use Rattle.fints_params.specs.Steps.{HasComeIn, ReadsCapture};

use crate::fault::ParamFault;
use crate::opening::SegmentTaker;
use crate::progress::Progress;
use std::alloc::Global;

/// Reads a capture to its end, of whose front so much was read before. Its syntax fault comes before
/// any refusal of a segment.
pub fn read_to_end<R: SegmentTaker + Drop>(
    progress: Progress<R>,
    capture: &[u8],
) -> Result<R, ParamFault>
    requires { HasComeIn R.rule R.good capture.now progress.to progress.reading.refused
        progress.reading.reader }
    ensures ok { IfOk result (λ reader. ReadsCapture R.good capture.now reader) }
    ensures refused { IfErr result (λ f. IsMemoryOr (IsRefusedOf R.rule capture.now) f) }
{
    let progress = progress.go_on(capture)?;
    progress.end(capture)
}

/// Reads a capture into a reader that has seen no segment.
pub fn read_capture<R: SegmentTaker + Drop>(
    alloc: Global,
    capture: &[u8],
    reader: R,
) -> Result<R, ParamFault>
    requires { R.good [] reader }
    ensures ok { IfOk result (λ reader. ReadsCapture R.good capture.now reader) }
    ensures refused { IfErr result (λ f. IsMemoryOr (IsRefusedOf R.rule capture.now) f) }
{
    read_to_end(Progress::new(alloc, reader), capture)
}
