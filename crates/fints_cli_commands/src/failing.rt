//! Why a command has no answer.
ghost use Rattle.std.specs.Prelude.{◌≡◌, ◌≤◌, length};
ghost use Rattle.fints_cli_commands.specs.Commands.{failure_status, HintsIfAsked};
ghost use Rattle.fints_cli_commands.specs.FailureText.{failure_text};
ghost use Rattle.fints_cli_commands.specs.Loaded.{IsUnreadAs};
ghost use Rattle.fints_cli_commands.specs.declared.failing.Failure.TheVariants as failure;

use fints_cli_files::LoadFault;
use fints_cli_hints::{Inputs, hint};
use fints_cli_texts::Fault;
use fints_cli_words::Input;
use fints_syntax_segments::FaultText;
use std::alloc::{AllocError, Global};
use std::fmt;
use std::fmt::{Display, Formatter, Write};
use thiserror::Error;

/// Why a command has no answer.
#[derive(Clone, Copy, Debug, PartialEq, Eq, Error)]
#[error("{}", self.text())]
pub enum Failure {
    /// An input is refused, or memory ran out.
    Input(Fault),
    /// The file of this input couldn't be read.
    Unread(Input),
}

impl Failure {
    /// The status of a command that ends so: 2 for a message that a run doesn't reach, a finding or a
    /// dialogue that isn't there, 3 for a refused input, 4 where memory ran out, and 5 for a file that
    /// couldn't be read.
    pub fn status(&self) -> u8
        ensures { result ≡ failure_status self.now }
    {
        match self {
            Failure::Input(Fault::Memory) => 4,
            Failure::Input(Fault::NoMessage { .. }) => 2,
            Failure::Input(Fault::NoFinding { .. }) => 2,
            Failure::Input(Fault::NoPart { .. }) => 2,
            Failure::Input(_) => 3,
            Failure::Unread(_) => 5,
        }
    }

    /// What its line says after `error: `.
    pub fn text(&self) -> FaultText
        ensures text { result ≡ failure_text self.now }
        ensures short { length result ≤ 108 }
    {
        match self {
            Failure::Input(fault) => fault.text(),
            Failure::Unread(input) => FaultText::new("read --").and(input.option()),
        }
    }
}

/// Why inputs are refused, and what was said of a message or a recording where it was refused and a hint is
/// wanted.
#[derive(Drop)]
pub struct Refused {
    pub fault: Fault,
    pub seen: Option<String>,
}

impl From<Fault> for Refused {
    ghost from_gives = { λ fault r. r.fault ≡ fault };

    fn from(fault: Fault) -> Refused {
        Refused { fault, seen: None }
    }
}

/// Why a command has no answer, and what to look at, where that was asked for and is known.
#[derive(Drop)]
pub struct Refusal {
    pub failure: Failure,
    pub hint: Option<String>,
}

/// The refusal of inputs, with a hint where that is asked for.
pub fn refusal_of(alloc: Global, fault: Fault, inputs: &Inputs<'_>, hints: bool) -> Refusal
    ensures failure { result.failure ≡ failure.Input fault }
    ensures unasked { HintsIfAsked hints result }
{
    let hint = if hints {
        hint(alloc, &fault, inputs).unwrap_or(None)
    } else {
        None
    };
    Refusal {
        failure: Failure::Input(fault),
        hint,
    }
}

fn is_control(code: u32) -> bool {
    code < 0x20 || (0x7f <= code && code < 0xa0)
}

fn ends_line(code: u32) -> bool {
    code == 0x2028 || code == 0x2029
}

// Writes a character, or its number where it controls or ends a line.
fn write_shown<W: Write>(f: &mut Formatter<W>, ch: char) -> fmt::Result {
    let code = u32::from(ch);
    if is_control(code) {
        write!(f, "\\x{code:02x}")
    } else if ends_line(code) {
        write!(f, "\\u{{{code:x}}}")
    } else {
        f.write_char(ch)
    }
}

// A path in one line, or that it is standard input.
#[derive(Clone, Copy)]
struct Path<'a>(&'a str);

impl Display for Path<'_> {
    fn fmt<W: Write>(&self, f: &mut Formatter<W>) -> fmt::Result {
        if self.0 == "-" {
            return f.write_str("standard input");
        }
        for ch in self.0.chars() {
            write_shown(f, ch)?;
        }
        Ok(())
    }
}

// What keeps a file from being read.
fn file_hint(
    alloc: Global,
    path: &str,
    fault: LoadFault,
    limit: usize,
) -> Result<Option<String>, AllocError> {
    let path = Path(path);
    let line = match fault {
        LoadFault::Memory => return Ok(None),
        LoadFault::TooLong => format!(in alloc; "{path} is longer than {limit} bytes")?,
        LoadFault::TooManyCalls => format!(in alloc; "{path} comes in too many pieces")?,
        LoadFault::Unreadable(cause) => format!(in alloc; "{path}: {cause}")?,
    };
    Ok(Some(line))
}

/// The refusal of a file that wasn't loaded, with a hint where that is asked for.
pub fn unread(alloc: Global, input: Input, path: &str, fault: LoadFault, hints: bool) -> Refusal
    ensures failure { IsUnreadAs input fault result.failure }
    ensures unasked { HintsIfAsked hints result }
{
    let failure = match fault {
        LoadFault::Memory => Failure::Input(Fault::Memory),
        _ => Failure::Unread(input),
    };
    let hint = if hints {
        file_hint(alloc, path, fault, input.limit()).unwrap_or(None)
    } else {
        None
    };
    Refusal { failure, hint }
}
