//! From words to a status: the answer of a command on the output, and what it says on the errors.
ghost use Rattle.std.specs.Prelude.{◌≡◌, ◌≤◌, ◌+◌, ◌*◌, ◌++◌, ◌⊎◌, ℕ, List, [], None, OnOk, OnErr, string_bytes};
ghost use Rattle.fints_cli_files.specs.Streams.{Gets, GetsNothing, GetsPrefix, one_more};
ghost use Rattle.fints_cli_files.specs.Loading.{MAX_READS, NoneFailed};
ghost use Rattle.fints_cli_words.specs.Requests.{built_in_request};
ghost use Rattle.fints_cli_words.specs.declared.requests.Asked.{Asked};
ghost use Rattle.fints_cli_words.specs.declared.requests.Asked.TheVariants as asked;
ghost use Rattle.fints_cli_commands.specs.Commands.{failure_status};
ghost use Rattle.fints_cli.specs.Responses.{IsAnswered, IsCutOff, IsResponse, RanOut, IsSilent, SaysText, IsUsage, FailsWith, FilesAreWithin, SaysFirst, SaysWhy, GetsOrFails, line_of, fault_line, memory_line, write_line};

use crate::emitting::emit;
use fints_cli_commands::{Answered, Refusal, perform};
use fints_cli_files::{Files, Out, WriteFault};
use fints_cli_words::{Asked, read_words};
use std::alloc::Global;

// Writes a text to the errors; a fault there changes nothing.
fn write_text<E: Out>(text: &[u8], err: &mut E)
    ensures { GetsOrFails (E.written err.old) (E.written err.new) (E.failed_calls err.old)
        (E.failed_calls err.new) text.now }
{
    let _ = emit(text, err);
}

fn write_memory<E: Out>(err: &mut E) -> u8
    ensures status { result ≡ 4 }
    ensures line { GetsOrFails (E.written err.old) (E.written err.new) (E.failed_calls err.old)
        (E.failed_calls err.new) memory_line }
{
    write_text(b"error: memory\n", err);
    4
}

// Writes a line: its front, a text, and a line feed.
fn emit_line<E: Out>(front: &[u8], text: &[u8], err: &mut E) -> Result<(), WriteFault>
    ensures written { OnOk result
        (Gets (E.written err.old) (E.written err.new) (line_of front.now text.now)) }
    ensures fine { OnOk result (E.failed_calls err.new ≡ E.failed_calls err.old) }
    ensures cut { OnErr result
        (GetsPrefix (E.written err.old) (E.written err.new) (line_of front.now text.now)) }
    ensures failed { OnErr result (E.failed_calls err.new ≡ one_more (E.failed_calls err.old)) }
{
    emit(front, err)?;
    emit(text, err)?;
    emit(b"\n", err)
}

// Writes the line of a fault, which takes no memory, and what to look at where there is a hint.
fn emit_refusal<E: Out>(refusal: &Refusal, err: &mut E) -> Result<(), WriteFault>
    ensures told { OnOk result (SaysFirst (refusal.now.hint ≡ None) (fault_line refusal.now.failure)
        (E.written err.old) (E.written err.new) (E.failed_calls err.old) (E.failed_calls err.new)) }
    ensures cut { OnErr result (SaysFirst (refusal.now.hint ≡ None) (fault_line refusal.now.failure)
        (E.written err.old) (E.written err.new) (E.failed_calls err.old) (E.failed_calls err.new)) }
{
    emit_line(b"error: ", refusal.failure.text().as_bytes(), err)?;
    match &refusal.hint {
        Some(hint) => emit_line(b"hint: ", hint.as_bytes(), err),
        None => Ok(()),
    }
}

// Says on the errors why there is no answer; where memory ran out there is no hint.
fn write_refusal<E: Out>(refusal: &Refusal, err: &mut E) -> u8
    ensures status { result ≡ failure_status refusal.now.failure }
    ensures memory { result ≡ 4
        → GetsOrFails (E.written err.old) (E.written err.new) (E.failed_calls err.old)
        (E.failed_calls err.new) memory_line }
    ensures line { SaysFirst (refusal.now.hint ≡ None) (fault_line refusal.now.failure)
        (E.written err.old) (E.written err.new) (E.failed_calls err.old) (E.failed_calls err.new) }
{
    let status = refusal.failure.status();
    if status == 4 {
        return write_memory(err);
    }
    let _ = emit_refusal(refusal, err);
    status
}

// Writes the text to the output.
fn deliver<O: Out, E: Out>(text: &[u8], status: u8, out: &mut O, err: &mut E) -> u8
    requires { status ≤ 1 }
    ensures statuses { (result ≡ status) ⊎ (result ≡ 5) }
    ensures written { result ≡ status → Gets (O.written out.old) (O.written out.new) text.now }
    ensures fine { result ≡ status → O.failed_calls out.new ≡ O.failed_calls out.old }
    ensures cut { result ≡ 5 → GetsPrefix (O.written out.old) (O.written out.new) text.now }
    ensures failed { result ≡ 5 → O.failed_calls out.new ≡ one_more (O.failed_calls out.old) }
    ensures quiet { result ≡ status
        → IsSilent (E.written err.old) (E.written err.new) (E.failed_calls err.old) (E.failed_calls err.new) }
    ensures line { result ≡ 5
        → GetsOrFails (E.written err.old) (E.written err.new) (E.failed_calls err.old)
        (E.failed_calls err.new) write_line }
{
    if emit(text, out).is_err() {
        write_text(b"error: write\n", err);
        return 5;
    }
    status
}

// Writes the note beside an answer, and then reasons and notes.
fn emit_beside<E: Out>(line: &[u8], reasons: &[u8], err: &mut E) -> Result<(), WriteFault>
    ensures written { OnOk result (Gets (E.written err.old) (E.written err.new) (line.now ++ reasons.now)) }
    ensures fine { OnOk result (E.failed_calls err.new ≡ E.failed_calls err.old) }
    ensures cut { OnErr result
        (GetsPrefix (E.written err.old) (E.written err.new) (line.now ++ reasons.now)) }
    ensures failed { OnErr result (E.failed_calls err.new ≡ one_more (E.failed_calls err.old)) }
{
    emit(line, err)?;
    emit(reasons, err)
}

// Writes both to the errors; a fault there changes nothing.
fn write_both<E: Out>(line: &[u8], reasons: &[u8], err: &mut E)
    ensures { GetsOrFails (E.written err.old) (E.written err.new) (E.failed_calls err.old)
        (E.failed_calls err.new) (line.now ++ reasons.now) }
{
    let _ = emit_beside(line, reasons, err);
}

// Writes a text to the errors, if there is one.
fn say<E: Out>(text: &[u8], err: &mut E)
    ensures { SaysText text.now (E.written err.old) (E.written err.new) (E.failed_calls err.old)
        (E.failed_calls err.new) }
{
    if !text.is_empty() {
        write_text(text, err);
    }
}

// Says the note beside an answer, and then reasons and notes, if there is any.
fn write_beside<E: Out>(line: &[u8], reasons: &[u8], err: &mut E)
    ensures { SaysText (line.now ++ reasons.now) (E.written err.old) (E.written err.new)
        (E.failed_calls err.old) (E.failed_calls err.new) }
{
    if line.is_empty() {
        return say(reasons, err);
    }
    write_both(line, reasons, err);
}

fn reasons_of(answered: &Answered) -> &[u8]
    ensures { answered.now.reasons ≡ None → result.now ≡ [] }
{
    match &answered.reasons {
        Some(reasons) => reasons.as_bytes(),
        None => b"",
    }
}

// Writes the answer to the output, and then to the errors what is said beside it.
fn respond_with<O: Out, E: Out>(answered: &Answered, out: &mut O, err: &mut E) -> u8
    requires { answered.now.reply.status ≤ 1 }
    ensures statuses { (result ≡ answered.now.reply.status) ⊎ (result ≡ 5) }
    ensures written { result ≡ answered.now.reply.status
        → Gets (O.written out.old) (O.written out.new) answered.now.reply.text.items }
    ensures fine { result ≡ answered.now.reply.status → O.failed_calls out.new ≡ O.failed_calls out.old }
    ensures cut { result ≡ 5
        → GetsPrefix (O.written out.old) (O.written out.new) answered.now.reply.text.items }
    ensures failed { result ≡ 5 → O.failed_calls out.new ≡ one_more (O.failed_calls out.old) }
    ensures beside { result ≡ answered.now.reply.status
        → SaysFirst (answered.now.reasons ≡ None) (string_bytes answered.now.note)
        (E.written err.old) (E.written err.new) (E.failed_calls err.old) (E.failed_calls err.new) }
    ensures line { result ≡ 5
        → GetsOrFails (E.written err.old) (E.written err.new) (E.failed_calls err.old)
        (E.failed_calls err.new) write_line }
{
    let reply = &answered.reply;
    let status = deliver(reply.text.as_slice(), reply.status, out, err);
    if status != 5 {
        write_beside(answered.note.as_bytes(), reasons_of(answered), err);
    }
    status
}

/// Does what is asked, and gives the status as `execute` does.
pub fn respond<F: Files, O: Out, E: Out>(
    alloc: Global,
    asked: &Asked<'_>,
    files: &mut F,
    out: &mut O,
    err: &mut E,
) -> u8
    ensures status { result ≤ 5 }
    ensures answered { result ≤ 1
        → IsAnswered asked.now (F.holds files.old) result (O.written out.old) (O.written out.new) }
    ensures usage { IsUsage asked.now → result ≡ 2 }
    ensures only_usage { result ≡ 2 → IsUsage asked.now
        ⊎ FailsWith 2 asked.now (F.holds files.old) (F.reads files.old) (F.reads files.new) }
    ensures refused { result ≡ 3
        → FailsWith 3 asked.now (F.holds files.old) (F.reads files.old) (F.reads files.new) }
    ensures memory { result ≡ 4 → RanOut asked.now
        ⊎ FailsWith 4 asked.now (F.holds files.old) (F.reads files.old) (F.reads files.new) }
    ensures silent { (result ≡ 2) ⊎ ((result ≡ 3) ⊎ (result ≡ 4))
        → GetsNothing (O.written out.old) (O.written out.new) }
    ensures fine { result ≤ 4 → O.failed_calls out.new ≡ O.failed_calls out.old }
    ensures failed { result ≡ 5
        → (FailsWith 5 asked.now (F.holds files.old) (F.reads files.old) (F.reads files.new)
        × GetsNothing (O.written out.old) (O.written out.new))
        ⊎ (IsCutOff asked.now (F.holds files.old) (O.written out.old) (O.written out.new)
        × (O.failed_calls out.new ≡ one_more (O.failed_calls out.old))) }
    ensures unread { IsUsage asked.now → (F.reads files.new).calls ≡ (F.reads files.old).calls }
    ensures read { result ≤ 3 → NoneFailed (F.reads files.old) (F.reads files.new) }
    ensures within { result ≤ 3 → FilesAreWithin asked.now (F.holds files.old) }
    ensures calls { (F.reads files.new).calls ≤ (F.reads files.old).calls + 5 * MAX_READS }
    ensures says { SaysWhy asked.now (F.holds files.old) (F.reads files.old) (F.reads files.new) result
        (E.written err.old) (E.written err.new) (E.failed_calls err.old) (E.failed_calls err.new) }
{
    match asked {
        Asked::Help(text) => deliver(text.as_bytes(), 0, out, err),
        Asked::Usage(text) => {
            write_text(text.as_bytes(), err);
            2
        }
        Asked::NoMemory => write_memory(err),
        Asked::Run(request) => match perform(alloc, request, files) {
            Ok(answered) => respond_with(&answered, out, err),
            Err(refusal) => write_refusal(&refusal, err),
        },
    }
}

/// Does what the words after the program's name ask for, and gives the status: 0 where the answer
/// or the help is on the output, 2 for bad words and for a message that a run doesn't reach, 3
/// for a refused input, 4 where memory ran out, and 5 where a file couldn't be read or the output
/// failed. Status 1 is that of a message that breaks
/// a rule, of a script with a run that does, and of a certificate that isn't closed. Each status from
/// 2 on has its line on the errors, where those take it.
pub fn execute<F: Files, O: Out, E: Out>(
    alloc: Global,
    words: &[&str],
    files: &mut F,
    out: &mut O,
    err: &mut E,
) -> u8
    ensures status { result ≤ 5 }
    ensures responds { (what : Asked) × (words.now ≡ [] → what ≡ asked.Run built_in_request)
        × IsResponse what (F.holds files.old) (F.reads files.old) (F.reads files.new)
        (O.failed_calls out.old) (O.failed_calls out.new) result (O.written out.old) (O.written out.new)
        × SaysWhy what (F.holds files.old) (F.reads files.old) (F.reads files.new) result
        (E.written err.old) (E.written err.new) (E.failed_calls err.old) (E.failed_calls err.new) }
    ensures calls { (F.reads files.new).calls ≤ (F.reads files.old).calls + 5 * MAX_READS }
{
    let asked = read_words(alloc, words);
    respond(alloc, &asked, files, out, err)
}
