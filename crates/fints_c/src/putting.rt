//! Texts in a caller's buffer.
ghost use Rattle.std.specs.Prelude.{◌≡◌, ◌≤◌};
ghost use Rattle.fints_c.specs.Calls.{filled, IsPut};
ghost use Rattle.fints_cli.specs.Responses.{fault_line};
ghost use Rattle.fints_cli_commands.specs.Commands.{failure_status};

use fints_cli::{Failure, Reply};
use fints_syntax_segments::FaultText;

// Puts as much of a text into the buffer as fits.
fn put(text: &[u8], buffer: &mut [u8])
    ensures { buffer.new ≡ filled text.now buffer.old }
{
    let n = text.len().min(buffer.len());
    let (front, _) = buffer.split_at_mut(n);
    front.copy_from_slice(&text[..n]);
}

/// Puts a text into the buffer, with status 0.
pub fn put_text(text: &[u8], buffer: &mut [u8], size: &mut usize) -> u32
    ensures status { result ≡ 0 }
    ensures text { IsPut text.now buffer.old buffer.new size.new }
{
    put(text, buffer);
    *size = text.len();
    0
}

/// Puts a reply into the buffer, and returns its status.
pub fn put_reply(reply: &Reply, buffer: &mut [u8], size: &mut usize) -> u32
    ensures status { result ≡ reply.now.status }
    ensures text { IsPut reply.now.text.items buffer.old buffer.new size.new }
{
    put(&reply.text, buffer);
    *size = reply.text.len();
    u32::from(reply.status)
}

// The line that the program writes.
fn line_of(failure: &Failure) -> FaultText
    ensures { result ≡ fault_line failure.now }
{
    let text = failure.text();
    FaultText::new("error: ").and(text.as_str()).and("\n")
}

/// Puts the line of a failure into the buffer, and returns its status. It takes no memory.
pub fn put_failure(failure: &Failure, buffer: &mut [u8], size: &mut usize) -> u32
    ensures status { result ≡ failure_status failure.now }
    ensures refuses { 2 ≤ result }
    ensures most { result ≤ 5 }
    ensures line { IsPut (fault_line failure.now) buffer.old buffer.new size.new }
{
    let line = line_of(failure);
    put(line.as_bytes(), buffer);
    *size = line.as_bytes().len();
    u32::from(failure.status())
}
