//! The text of `record`, and its note.
ghost use Rattle.std.specs.Prelude.{◌≡◌, ◌++◌, ℕ, List, OnOk, IfOk, IfErr, string_bytes};
ghost use Rattle.std.specs.Fmt.{decimal};
ghost use Rattle.fints_cli_texts.specs.Audit.{IsLogReadOf};
ghost use Rattle.fints_cli_records.specs.Record.{count_of, forms_text, log_note, messages_text, passes_over, passed_text, record_note, record_text, same_form, IsRecordNote, IsRecordOf, IsRecordRefusal};

use fints_cli_texts::Fault;
use fints_rules_dialogues::DialogueFault;
use fints_rules_logs::{Form, Found, Log, Passed};
use itoa::Buffer;
use std::alloc::{AllocError, Global};

/// The messages of a file, one after the other; and the line that says in which forms they are, and what is
/// passed over.
#[derive(Drop)]
pub struct Record {
    pub text: Vec<u8>,
    pub note: String,
}

fn same_form(a: Form, b: Form) -> bool
    ensures { result ≡ same_form a b }
{
    match (a, b) {
        (Form::Raw, Form::Raw) => true,
        (Form::Utf8, Form::Utf8) => true,
        (Form::Base64, Form::Base64) => true,
        _ => false,
    }
}

// How many of the messages have that form.
fn count_of(form: Form, messages: &[Found<'_>]) -> usize
    ensures { result ≡ count_of form messages.now }
{
    let mut count = 0;
    for found in messages {
        if same_form(form, found.form()) {
            count += 1;
        }
    }
    count
}

// The messages, one after the other.
fn text_of(alloc: Global, log: &Log<'_>) -> Result<Vec<u8>, AllocError>
    ensures { IfOk result (λ text. text.items ≡ record_text log.now) }
{
    let mut text = Vec::new(alloc);
    for found in log.messages() {
        text.extend_from_slice(found.bytes())?;
    }
    Ok(text)
}

// Writes a number and a text after it.
fn write_count(note: &mut String, number: usize, after: &str) -> Result<(), AllocError>
    ensures { OnOk result (string_bytes note.new ≡ string_bytes note.old ++ (decimal number ++ after.now)) }
{
    let mut digits = Buffer::new();
    note.push_str(digits.format(number))?;
    note.push_str(after)
}

// Writes how many messages there are in each form.
fn write_forms(note: &mut String, raw: usize, utf8: usize, base64: usize) -> Result<(), AllocError>
    ensures { OnOk result (string_bytes note.new ≡ string_bytes note.old ++ forms_text raw utf8 base64) }
{
    write_count(note, raw, " raw, ")?;
    write_count(note, utf8, " utf-8, ")?;
    write_count(note, base64, " base64); passed over: ")
}

// Writes how many messages there are, and in which forms.
fn write_messages(note: &mut String, messages: &[Found<'_>]) -> Result<(), AllocError>
    ensures { OnOk result (string_bytes note.new ≡ string_bytes note.old ++ messages_text messages.now) }
{
    write_count(note, messages.len(), " messages (")?;
    let raw = count_of(Form::Raw, messages);
    let utf8 = count_of(Form::Utf8, messages);
    let base64 = count_of(Form::Base64, messages);
    write_forms(note, raw, utf8, base64)
}

// Writes how many finds are passed over.
fn write_passed(note: &mut String, passed: Passed) -> Result<(), AllocError>
    ensures { OnOk result (string_bytes note.new ≡ string_bytes note.old ++ passed_text passed) }
{
    write_count(note, passed.copies, " written twice, ")?;
    write_count(note, passed.twins, " unsealed beside a sealed one, ")?;
    write_count(note, passed.changed, " whose size doesn't fit\n")
}

// The line on a log.
fn note_of(alloc: Global, log: &Log<'_>) -> Result<String, AllocError>
    ensures { IfOk result (λ note. string_bytes note ≡ record_note log.now) }
{
    let mut note = String::new(alloc);
    note.push_str("note: ")?;
    write_messages(&mut note, log.messages())?;
    write_passed(&mut note, log.passed())?;
    Ok(note)
}

// The messages of a log, and the line on it.
fn record_of(alloc: Global, log: &Log<'_>) -> Result<Record, AllocError>
    ensures text { IfOk result (λ it. it.text.items ≡ record_text log.now) }
    ensures note { IfOk result (λ it. string_bytes it.note ≡ record_note log.now) }
{
    Ok(Record {
        text: text_of(alloc, log)?,
        note: note_of(alloc, log)?,
    })
}

/// The messages that are in a file, as they were sent, and what of it is passed over, by what was read of the
/// file. The refusal is the first message that is lost, or that there is none.
pub fn record_read(alloc: Global, log: &Result<Log<'_>, DialogueFault>) -> Result<Record, Fault>
    ensures text { IfOk result (λ it. (dialogue : List ℕ) → IsLogReadOf dialogue log.now
        → IsRecordOf dialogue it.text.items) }
    ensures note { IfOk result (λ it. (dialogue : List ℕ) → IsLogReadOf dialogue log.now
        → IsRecordNote dialogue (string_bytes it.note)) }
    ensures refused { IfErr result (λ f. (dialogue : List ℕ) → IsLogReadOf dialogue log.now
        → IsRecordRefusal dialogue f) }
{
    match log {
        Ok(log) => Ok(record_of(alloc, log)?),
        Err(fault) => Err(Fault::from(*fault)),
    }
}

fn passes_over(passed: Passed) -> bool
    ensures { result ≡ passes_over passed }
{
    passed.copies > 0 || passed.twins > 0 || passed.changed > 0
}

/// What is said of a log beside another answer: the line on it, where that is wanted or something is passed over;
/// else nothing.
pub fn log_note(alloc: Global, log: &Log<'_>, wanted: bool) -> Result<String, AllocError>
    ensures { IfOk result (λ note. string_bytes note ≡ log_note wanted log.now) }
{
    if wanted || passes_over(log.passed()) {
        return note_of(alloc, log);
    }
    Ok(String::new(alloc))
}
