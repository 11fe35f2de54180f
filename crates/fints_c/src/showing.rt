//! What captures and messages say.
ghost use Rattle.std.specs.Prelude.{◌≤◌, ◌∷◌, [], length, IfOk, IfErr};
ghost use Rattle.fints_cli_texts.specs.Judge.{IsMessageRefusal};
ghost use Rattle.fints_cli_texts.specs.Show.{IsShowOf, IsMemoryOrShowFault};
ghost use Rattle.fints_cli_texts.specs.ShowMessage.{IsShownMessage};
ghost use Rattle.fints_cli_words.specs.declared.requests.Input.TheVariants as inputs;
ghost use Rattle.fints_c.specs.Calls.{AreWithin, IsFailure, IsGiven, IsRefused};

use crate::inputs::within;
use crate::putting::{put_failure, put_text};
use fints_cli::{Failure, Input, show, show_message};
use std::alloc::Global;

fn shown(alloc: Global, params: &[u8]) -> Result<Vec<u8>, Failure>
    ensures shown { IfOk result (λ text. IsShowOf params.now text.items) }
    ensures within { IfOk result (λ _. AreWithin ((inputs.Shown, length params.now) ∷ [])) }
    ensures refused { IfErr result (λ f.
        IsFailure (IsMemoryOrShowFault params.now) ((inputs.Shown, length params.now) ∷ []) f) }
{
    within(&[(Input::Shown, params.len())])?;
    match show(alloc, params) {
        Ok(text) => Ok(text),
        Err(fault) => Err(Failure::Input(fault)),
    }
}

/// The lines of a capture's parameters and of its feedback.
#[unsafe(no_mangle)]
pub extern "C" fn fints_show(
    alloc: Global,
    params: &[u8],
    buffer: &mut [u8],
    size: &mut usize,
) -> u32
    ensures status { result ≤ 5 }
    ensures shown { result ≤ 1 → IsGiven (IsShowOf params.now) buffer.old buffer.new size.new }
    ensures within { result ≤ 1 → AreWithin ((inputs.Shown, length params.now) ∷ []) }
    ensures refused { 2 ≤ result
        → IsRefused (IsMemoryOrShowFault params.now) ((inputs.Shown, length params.now) ∷ [])
        result buffer.old buffer.new size.new }
{
    match shown(alloc, params) {
        Ok(text) => put_text(&text, buffer, size),
        Err(failure) => put_failure(&failure, buffer, size),
    }
}

fn shown_message(alloc: Global, message: &[u8]) -> Result<Vec<u8>, Failure>
    ensures shown { IfOk result (λ text. IsShownMessage message.now text.items) }
    ensures within { IfOk result (λ _. AreWithin ((inputs.Message, length message.now) ∷ [])) }
    ensures refused { IfErr result (λ f.
        IsFailure (IsMessageRefusal message.now) ((inputs.Message, length message.now) ∷ []) f) }
{
    within(&[(Input::Message, message.len())])?;
    match show_message(alloc, message) {
        Ok(text) => Ok(text),
        Err(fault) => Err(Failure::Input(fault)),
    }
}

/// The segments of a message without its secrets.
#[unsafe(no_mangle)]
pub extern "C" fn fints_show_message(
    alloc: Global,
    message: &[u8],
    buffer: &mut [u8],
    size: &mut usize,
) -> u32
    ensures status { result ≤ 5 }
    ensures shown { result ≤ 1 → IsGiven (IsShownMessage message.now) buffer.old buffer.new size.new }
    ensures within { result ≤ 1 → AreWithin ((inputs.Message, length message.now) ∷ []) }
    ensures refused { 2 ≤ result
        → IsRefused (IsMessageRefusal message.now) ((inputs.Message, length message.now) ∷ [])
        result buffer.old buffer.new size.new }
{
    match shown_message(alloc, message) {
        Ok(text) => put_text(&text, buffer, size),
        Err(failure) => put_failure(&failure, buffer, size),
    }
}
