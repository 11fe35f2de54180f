//! The inputs of a call: their limits, and what is read of a capture and of a recording.
ghost use Rattle.std.specs.Prelude.{IfOk, IfErr};
ghost use Rattle.fints_c.specs.Calls.{AreWithin, IsTooLong};
ghost use Rattle.fints_params.specs.Captures.{IsReadOf};
ghost use Rattle.fints_cli_texts.specs.Audit.{IsLogReadOf};

use fints_cli::{Failure, Fault, Input};
use fints_params::{ParamFault, Params};
use fints_rules_dialogues::{DialogueFault, Log, read_log};
use std::alloc::Global;

/// That no input is longer than the program takes as a file. Each comes with its size.
pub fn within(inputs: &[(Input, usize)]) -> Result<(), Failure>
    ensures within { IfOk result (λ _. AreWithin inputs.now) }
    ensures too_long { IfErr result (λ f. IsTooLong inputs.now f) }
{
    for (input, size) in inputs {
        if input.limit() < *size {
            return Err(Failure::Unread(*input));
        }
    }
    Ok(())
}

/// The parameters of a capture, or why it is refused.
pub fn read_capture(alloc: Global, capture: &[u8]) -> Result<Params, ParamFault>
    ensures { IsReadOf capture.now result }
{
    Params::read(alloc, capture)
}

/// The log that a recording is, or why it is none.
pub fn read_recording(alloc: Global, recording: &[u8]) -> Result<Log<'_>, DialogueFault>
    ensures { IsLogReadOf recording.now result }
{
    read_log(alloc, recording)
}
