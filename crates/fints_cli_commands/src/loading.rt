//! The files that a request reads, and what was loaded of them.
ghost use Rattle.std.specs.Prelude.{◌≡◌, IfOk, IfErr};
ghost use Rattle.fints_cli_commands.specs.Commands.{HintsIfAsked};
ghost use Rattle.fints_cli_commands.specs.Loading.{file_at, files_at};
ghost use Rattle.fints_cli_commands.specs.Loading as loading;
ghost use Rattle.fints_cli_commands.specs.Loaded.{AreRead, IsFileAt, IsLoaded, IsOneUnread, IsReadAt, IsTableAt, table_text};
ghost use Rattle.fints_cli_files.specs.Captures.{HoldsCapture};
ghost use Rattle.fints_cli_words.specs.declared.requests.Input.TheVariants as inputs;

use crate::built_in::all_orders;
use crate::failing::{Refusal, unread};
use fints_cli_files::{Capture, Files, ReadCapture, load, load_into};
use fints_cli_hints::Inputs;
use fints_cli_words::{Input, Paths, Request};
use fints_params::{ParamFault, Params, ParamsAndCodes};
use std::alloc::Global;

/// The paths of what a request reads.
pub fn paths_of<'a>(request: &Request<'a>) -> Paths<'a>
    ensures { result ≡ loading.paths_of request.now }
{
    Paths {
        shown: request.path(Input::Shown),
        params: request.path(Input::Params),
        orders: request.path(Input::Orders),
        script: request.path(Input::Script),
        case: request.path(Input::Case),
        certificate: request.path(Input::Certificate),
        before: request.path(Input::Before),
        answer: request.path(Input::Answer),
        message: request.path(Input::Message),
        dialogue: request.path(Input::Dialogue),
    }
}

/// The text of an order table.
#[derive(Drop)]
pub enum TableText {
    /// The one that the program has.
    BuiltIn,
    /// The bytes of a file.
    Read(Vec<u8>),
}

impl TableText {
    pub fn as_slice(&self) -> &[u8]
        ensures { result.now ≡ table_text self.now }
    {
        match self {
            TableText::BuiltIn => all_orders(),
            TableText::Read(bytes) => bytes.as_slice(),
        }
    }
}

/// What was read of a capture that is shown, and the bytes of the other files; empty where there is no path, but for
/// the order table.
#[derive(Drop)]
pub struct Contents {
    pub shown: ReadCapture<ParamsAndCodes>,
    /// Those of a capture by which something is judged: empty where no hint may need them.
    pub capture: Vec<u8>,
    pub orders: TableText,
    pub script: Vec<u8>,
    pub case: Vec<u8>,
    pub certificate: Vec<u8>,
    pub before: Vec<u8>,
    pub answer: Vec<u8>,
    pub message: Vec<u8>,
    pub dialogue: Vec<u8>,
}

impl Contents {
    /// The bytes for a hint, and what was said of a message or a recording where it was refused.
    pub fn inputs<'a>(&'a self, seen: Option<&'a str>) -> Inputs<'a> {
        let params = if self.shown.bytes.is_empty() {
            &self.capture
        } else {
            &self.shown.bytes
        };
        Inputs {
            params: params.as_slice(),
            orders: self.orders.as_slice(),
            script: self.script.as_slice(),
            case: self.case.as_slice(),
            certificate: self.certificate.as_slice(),
            answer: self.answer.as_slice(),
            seen,
        }
    }
}

/// What was loaded: the parameters of a capture by which something is judged, or why it is refused,
/// and what the files hold.
#[derive(Drop)]
pub struct Loaded {
    pub params: Result<Params, ParamFault>,
    pub contents: Contents,
}

// Loads the file of an input; without a path there are no bytes.
fn load_option<F: Files>(
    alloc: Global,
    files: &mut F,
    input: Input,
    path: Option<&str>,
    hints: bool,
) -> Result<Vec<u8>, Refusal>
    ensures loaded { IfOk result (λ bytes. IsFileAt path.entry (F.holds files.old) bytes.items) }
    ensures read { IfOk result (λ _. AreRead (file_at input path.entry)
        (F.holds files.old) (F.holds files.new) (F.reads files.old) (F.reads files.new)) }
    ensures unread { IfErr result (λ r. IsOneUnread (file_at input path.entry)
        (F.holds files.old) (F.holds files.new) (F.reads files.old) (F.reads files.new) r.failure) }
    ensures unasked { IfErr result (λ r. HintsIfAsked hints r) }
{
    let Some(path) = path else {
        return Ok(Vec::new(alloc));
    };
    match load(alloc, files, path, input.limit()) {
        Ok(bytes) => Ok(bytes),
        Err(fault) => Err(unread(alloc, input, path, fault, hints)),
    }
}

// Loads the file of an order table; without a path it is the one that the program has.
fn load_table<F: Files>(
    alloc: Global,
    files: &mut F,
    path: Option<&str>,
    hints: bool,
) -> Result<TableText, Refusal>
    ensures loaded { IfOk result (IsTableAt path.entry (F.holds files.old)) }
    ensures read { IfOk result (λ _. AreRead (file_at inputs.Orders path.entry)
        (F.holds files.old) (F.holds files.new) (F.reads files.old) (F.reads files.new)) }
    ensures unread { IfErr result (λ r. IsOneUnread (file_at inputs.Orders path.entry)
        (F.holds files.old) (F.holds files.new) (F.reads files.old) (F.reads files.new) r.failure) }
    ensures unasked { IfErr result (λ r. HintsIfAsked hints r) }
{
    let Some(path) = path else {
        return Ok(TableText::BuiltIn);
    };
    match load(alloc, files, path, Input::Orders.limit()) {
        Ok(bytes) => Ok(TableText::Read(bytes)),
        Err(fault) => Err(unread(alloc, Input::Orders, path, fault, hints)),
    }
}

// Loads the file of a capture, where it has a path, and reads it as it comes. Its bytes are kept
// where a hint may need them.
fn load_capture<F: Files>(
    alloc: Global,
    files: &mut F,
    input: Input,
    path: Option<&str>,
    hints: bool,
) -> Result<Capture, Refusal>
    ensures loaded { IfOk result (λ capture. IsReadAt HoldsCapture path.entry (F.holds files.old) capture) }
    ensures read { IfOk result (λ _. AreRead (file_at input path.entry)
        (F.holds files.old) (F.holds files.new) (F.reads files.old) (F.reads files.new)) }
    ensures unread { IfErr result (λ r. IsOneUnread (file_at input path.entry)
        (F.holds files.old) (F.holds files.new) (F.reads files.old) (F.reads files.new) r.failure) }
    ensures unasked { IfErr result (λ r. HintsIfAsked hints r) }
{
    let capture = Capture::new(alloc, hints);
    let Some(path) = path else {
        return Ok(capture);
    };
    match load_into(files, path, input.limit(), capture) {
        Ok(capture) => Ok(capture),
        Err(fault) => Err(unread(alloc, input, path, fault, hints)),
    }
}

/// Loads the files of these paths in their order.
pub fn load_all<F: Files>(
    alloc: Global,
    files: &mut F,
    paths: &Paths<'_>,
    hints: bool,
) -> Result<Loaded, Refusal>
    ensures loaded { IfOk result (λ loaded.
        IsLoaded paths.now (F.holds files.old) loaded.params loaded.contents) }
    ensures read { IfOk result (λ _. AreRead (files_at paths.now)
        (F.holds files.old) (F.holds files.new) (F.reads files.old) (F.reads files.new)) }
    ensures unread { IfErr result (λ r. IsOneUnread (files_at paths.now)
        (F.holds files.old) (F.holds files.new) (F.reads files.old) (F.reads files.new) r.failure) }
    ensures unasked { IfErr result (λ r. HintsIfAsked hints r) }
{
    let shown = load_capture(alloc, files, Input::Shown, paths.shown, hints)?;
    let shown_read: ReadCapture<ParamsAndCodes> = shown.end();
    let capture = load_capture(alloc, files, Input::Params, paths.params, hints)?;
    let read: ReadCapture<Params> = capture.end();
    let orders = load_table(alloc, files, paths.orders, hints)?;
    let script = load_option(alloc, files, Input::Script, paths.script, hints)?;
    let case = load_option(alloc, files, Input::Case, paths.case, hints)?;
    let certificate = load_option(alloc, files, Input::Certificate, paths.certificate, hints)?;
    let before = load_option(alloc, files, Input::Before, paths.before, hints)?;
    let answer = load_option(alloc, files, Input::Answer, paths.answer, hints)?;
    let message = load_option(alloc, files, Input::Message, paths.message, hints)?;
    let dialogue = load_option(alloc, files, Input::Dialogue, paths.dialogue, hints)?;
    let contents = Contents {
        shown: shown_read,
        capture: read.bytes,
        orders,
        script,
        case,
        certificate,
        before,
        answer,
        message,
        dialogue,
    };
    Ok(Loaded {
        params: read.told,
        contents,
    })
}
