//! What each command answers with reasons, of what was loaded of its files.
ghost use Rattle.std.specs.Prelude.{◌≡◌, ◌≤◌, ◌++◌, ℕ, List, [], IfOk, IfErr, string_bytes};
ghost use Rattle.fints_params.specs.Captures.{IsReadOf, IsBothReadOf};
ghost use Rattle.fints_cli_commands.specs.BuiltIn.{all_orders};
ghost use Rattle.fints_cli_commands.specs.Loaded.{table_text};
ghost use Rattle.fints_cli_commands.specs.Notes.{secrets_note, IsDraftWithNote, IsNoteOfLog};
ghost use Rattle.fints_cli_drafts.specs.Drafts.{IsDraftRefusal};
ghost use Rattle.fints_cli_drawings.specs.Drawn.{no_orders, IsDrawnOf, IsPictureOf};
ghost use Rattle.fints_cli_texts.specs.Audit.{IsAuditOf, IsAuditRefusal, IsLogReadOf, IsOwnAuditOf, IsOwnAuditRefusal};
ghost use Rattle.fints_cli_texts.specs.declared.fault.Fault.TheVariants as faults;
ghost use Rattle.fints_cli_records.specs.Record.{IsLogNote, IsRecordNote, IsRecordOf, IsRecordRefusal};
ghost use Rattle.fints_cli_scripts.specs.Plans.{IsPlanRefusal};
ghost use Rattle.fints_cli_scripts.specs.RunText.{IsRunOf, IsRunRefusal};
ghost use Rattle.fints_cli_scripts.specs.Told.{IsRefused, IsTellRefusal, IsToldOf};
ghost use Rattle.fints_cli_scripts.specs.Verified.{IsUnverified, IsVerifiedOf};
ghost use Rattle.fints_cli_texts.specs.Judge.{IsJudgeRefusal, IsMessageRefusal, IsVerdictOf};
ghost use Rattle.fints_cli_texts.specs.JudgeAfter.{IsJudgeAfterRefusal, IsVerdictAfter};
ghost use Rattle.fints_cli_texts.specs.Show.{IsMemoryOrShowFault, IsShowOf};
ghost use Rattle.fints_cli_texts.specs.ShowMessage.{IsShownMessage};

use crate::built_in::all_orders;
use crate::failing::Refused;
use crate::loading::Contents;
use crate::reasons::Reasons;
use fints_cli_drafts::{DraftText, Drafted, draft_read};
use fints_cli_drawings::{draw_read, draw_script};
use fints_cli_hints::DraftHint;
use fints_cli_hints_dialogues::{AuditReasons, Source, file_hint};
use fints_cli_hints_reasons::JudgeReasons;
use fints_cli_hints_segments::{UnreadHint, skipped_notes};
use fints_cli_hints_verdicts::{ReportReasons, VerifyReason};
use fints_cli_records::{Record, log_note, record_read};
use fints_cli_scripts::{Wanted, run_case, tell_read, verify_read};
use fints_cli_texts::{
    Fault, Reply, audit_own, audit_read, judge_after_read, judge_read, show_message_with, show_read,
};
use fints_params::{ParamFault, Params};
use fints_rules_dialogues::{DialogueFault, Log, read_log};
use std::alloc::{AllocError, Global};

/// The answer of a command, and what is printed beside it: the note, whether hints are wanted or not; and where they
/// are, the reasons of what is broken, the notes on a script or a dialogue, and those on what is skipped of a
/// capture, a line each.
#[derive(Drop)]
pub struct Answered {
    pub reply: Reply,
    pub note: String,
    pub reasons: Option<Reasons>,
}

// An answer with status 0 and with nothing beside it.
fn text_only(alloc: Global, text: Vec<u8>) -> Answered
    ensures status { result.reply.status ≡ 0 }
    ensures text { result.reply.text ≡ text }
    ensures note { string_bytes result.note ≡ [] }
{
    Answered {
        reply: Reply { status: 0, text },
        note: String::new(alloc),
        reasons: None,
    }
}

// What is read of the recorded dialogue.
fn log_of(alloc: Global, contents: &Contents) -> Result<Log<'_>, DialogueFault>
    ensures { IsLogReadOf contents.now.dialogue.items result }
{
    read_log(alloc, contents.dialogue.as_slice())
}

// That a case holds a secret.
#[tactic(auto, unfolding(crate::specs::Notes::secrets_line))]
fn secrets_note(drafted: Drafted, has_secret: bool) -> &'static str
    ensures { result.now ≡ secrets_note drafted has_secret }
{
    match drafted {
        Drafted::Case if has_secret =>
            "note: this case holds the PIN and the TANs of the dialogue\n",
        _ => "",
    }
}

// What is said of the log in a recording beside an answer; nothing of what is no log.
fn note_of(
    alloc: Global,
    log: &Result<Log<'_>, DialogueFault>,
    hints: bool,
) -> Result<String, Fault>
    ensures note { IfOk result (λ note. IsNoteOfLog hints log.now (string_bytes note)) }
    ensures refused { IfErr result (λ fault. fault ≡ faults.Memory) }
{
    match log {
        Ok(log) => match log_note(alloc, log, hints) {
            Ok(note) => Ok(note),
            Err(AllocError) => Err(Fault::Memory),
        },
        Err(_) => Ok(String::new(alloc)),
    }
}

// The refusal of a recording, with what was said of its messages. Where the file is no log, and a hint is wanted, it
// is made of the file.
fn refused_log(
    alloc: Global,
    fault: Fault,
    log: &Result<Log<'_>, DialogueFault>,
    contents: &Contents,
    seen: Option<String>,
    hints: bool,
) -> Refused
    ensures { result.fault ≡ fault }
{
    let Fault::Dialogue(refused) = &fault else {
        return Refused { fault, seen };
    };
    let seen = match log {
        Err(_) if hints => {
            file_hint(alloc, refused, contents.dialogue.as_slice()).unwrap_or(None)
        }
        _ => seen,
    };
    Refused { fault, seen }
}

/// The order table that is taken where none is named.
pub fn answer_orders(alloc: Global) -> Result<Answered, Refused>
    ensures status { IfOk result (λ it. it.reply.status ≡ 0) }
    ensures text { IfOk result (λ it. it.reply.text.items ≡ all_orders) }
    ensures note { IfOk result (λ it. string_bytes it.note ≡ []) }
    ensures refused { IfErr result (λ r. r.fault ≡ faults.Memory) }
{
    match all_orders().to_vec(alloc) {
        Ok(text) => Ok(text_only(alloc, text)),
        Err(AllocError) => Err(Refused::from(Fault::Memory)),
    }
}

/// What a capture says. Its notes look at the bytes again, since its reader passes over what it skips.
pub fn answer_show(alloc: Global, contents: &Contents, hints: bool) -> Result<Answered, Refused>
    ensures status { IfOk result (λ it. it.reply.status ≡ 0) }
    ensures shown { IfOk result (λ it. (capture : List ℕ) → IsBothReadOf capture contents.now.shown.told
        → IsShowOf capture it.reply.text.items) }
    ensures note { IfOk result (λ it. string_bytes it.note ≡ []) }
    ensures refused { IfErr result (λ r. (capture : List ℕ) → IsBothReadOf capture contents.now.shown.told
        → IsMemoryOrShowFault capture r.fault) }
{
    let text = show_read(alloc, &contents.shown.told)?;
    let reasons = if hints {
        Reasons::of(skipped_notes(alloc, contents.shown.bytes.as_slice()))
    } else {
        None
    };
    Ok(Answered {
        reply: Reply { status: 0, text },
        note: String::new(alloc),
        reasons,
    })
}

/// The rules that a message breaks.
pub fn answer_judge(
    alloc: Global,
    params: Result<Params, ParamFault>,
    contents: &Contents,
    hints: bool,
) -> Result<Answered, Refused>
    ensures status { IfOk result (λ it. it.reply.status ≤ 1) }
    ensures judged { IfOk result (λ it. (capture : List ℕ) → IsReadOf capture params
        → IsVerdictOf capture (table_text contents.now.orders) contents.now.message.items
        it.reply.status it.reply.text.items) }
    ensures note { IfOk result (λ it. string_bytes it.note ≡ []) }
    ensures refused { IfErr result (λ r. (capture : List ℕ) → IsReadOf capture params
        → IsJudgeRefusal capture (table_text contents.now.orders) contents.now.message.items r.fault) }
{
    let Contents {
        orders,
        message,
        ..
    } = contents;
    let mut reasons = JudgeReasons::new(alloc, hints, contents.capture.as_slice());
    match judge_read(
        alloc,
        params,
        orders.as_slice(),
        message.as_slice(),
        &mut reasons,
    ) {
        Ok(reply) => Ok(Answered {
            reply,
            note: String::new(alloc),
            reasons: Reasons::of(reasons.into_text()),
        }),
        Err(fault) => Err(Refused {
            fault,
            seen: reasons.into_hint(),
        }),
    }
}

/// Those that it breaks after the message before it and the bank's answer to that.
pub fn answer_judge_after(
    alloc: Global,
    params: Result<Params, ParamFault>,
    contents: &Contents,
    hints: bool,
) -> Result<Answered, Refused>
    ensures status { IfOk result (λ it. it.reply.status ≤ 1) }
    ensures judged { IfOk result (λ it. (capture : List ℕ) → IsReadOf capture params
        → IsVerdictAfter capture (table_text contents.now.orders) contents.now.before.items
        contents.now.answer.items contents.now.message.items it.reply.status it.reply.text.items) }
    ensures note { IfOk result (λ it. string_bytes it.note ≡ []) }
    ensures refused { IfErr result (λ r. (capture : List ℕ) → IsReadOf capture params
        → IsJudgeAfterRefusal capture (table_text contents.now.orders) contents.now.before.items
        contents.now.answer.items contents.now.message.items r.fault) }
{
    let mut reasons = JudgeReasons::new(alloc, hints, contents.capture.as_slice());
    match judge_after_read(
        alloc,
        params,
        contents.orders.as_slice(),
        contents.before.as_slice(),
        contents.answer.as_slice(),
        contents.message.as_slice(),
        &mut reasons,
    ) {
        Ok(reply) => Ok(Answered {
            reply,
            note: String::new(alloc),
            reasons: Reasons::of(reasons.into_text()),
        }),
        Err(fault) => Err(Refused {
            fault,
            seen: reasons.into_hint(),
        }),
    }
}

// What looks on while the recording is audited.
fn audit_reasons<'c>(
    alloc: Global,
    hints: bool,
    source: Source<'c>,
    contents: &'c Contents,
) -> AuditReasons<'c> {
    AuditReasons::new(alloc, hints, source, contents.dialogue.as_slice())
}

/// The rules that the client's messages of a dialogue break.
pub fn answer_audit(
    alloc: Global,
    params: Result<Params, ParamFault>,
    contents: &Contents,
    hints: bool,
) -> Result<Answered, Refused>
    ensures status { IfOk result (λ it. it.reply.status ≤ 1) }
    ensures audited { IfOk result (λ it. (capture : List ℕ) → IsReadOf capture params
        → IsAuditOf capture (table_text contents.now.orders) contents.now.dialogue.items
        it.reply.status it.reply.text.items) }
    ensures note { IfOk result (λ it. IsLogNote hints contents.now.dialogue.items (string_bytes it.note)) }
    ensures refused { IfErr result (λ r. (capture : List ℕ) → IsReadOf capture params
        → IsAuditRefusal capture (table_text contents.now.orders) contents.now.dialogue.items r.fault) }
{
    let log = log_of(alloc, contents);
    let source = Source::Capture(contents.capture.as_slice());
    let mut reasons = audit_reasons(alloc, hints, source, contents);
    match audit_read(
        alloc,
        params,
        contents.orders.as_slice(),
        &log,
        &mut reasons,
    ) {
        Ok(reply) => Ok(Answered {
            reply,
            note: note_of(alloc, &log, hints)?,
            reasons: Reasons::of(reasons.into_text()),
        }),
        Err(fault) => {
            let seen = reasons.into_hint();
            Err(refused_log(alloc, fault, &log, contents, seen, hints))
        }
    }
}

/// The same, by the parameters in the dialogue's own answers.
pub fn answer_audit_own(
    alloc: Global,
    contents: &Contents,
    hints: bool,
) -> Result<Answered, Refused>
    ensures status { IfOk result (λ it. it.reply.status ≤ 1) }
    ensures audited { IfOk result (λ it. IsOwnAuditOf (table_text contents.now.orders)
        contents.now.dialogue.items it.reply.status it.reply.text.items) }
    ensures note { IfOk result (λ it. IsLogNote hints contents.now.dialogue.items (string_bytes it.note)) }
    ensures refused { IfErr result (λ r.
        IsOwnAuditRefusal (table_text contents.now.orders) contents.now.dialogue.items r.fault) }
{
    let log = log_of(alloc, contents);
    let mut reasons = audit_reasons(alloc, hints, Source::Answers, contents);
    match audit_own(alloc, contents.orders.as_slice(), &log, &mut reasons) {
        Ok(reply) => Ok(Answered {
            reply,
            note: note_of(alloc, &log, hints)?,
            reasons: Reasons::of(reasons.into_text()),
        }),
        Err(fault) => {
            let seen = reasons.into_hint();
            Err(refused_log(alloc, fault, &log, contents, seen, hints))
        }
    }
}

/// What is wanted of a script.
pub fn answer_check(
    alloc: Global,
    params: Result<Params, ParamFault>,
    contents: &Contents,
    wanted: Wanted,
    hints: bool,
) -> Result<Answered, Refused>
    ensures status { IfOk result (λ it. it.reply.status ≤ 1) }
    ensures told { IfOk result (λ it. (capture : List ℕ) → IsReadOf capture params
        → IsToldOf wanted capture (table_text contents.now.orders) contents.now.script.items
        it.reply.status it.reply.text.items) }
    ensures note { IfOk result (λ it. string_bytes it.note ≡ []) }
    ensures refused { IfErr result (λ r. (capture : List ℕ) → IsReadOf capture params
        → IsTellRefusal wanted capture (table_text contents.now.orders) contents.now.script.items r.fault) }
{
    let Contents { orders, script, .. } = contents;
    let mut reasons = ReportReasons::new(alloc, hints, contents.capture.as_slice());
    let reply = tell_read(
        alloc,
        params,
        orders.as_slice(),
        script.as_slice(),
        wanted,
        &mut reasons,
    )?;
    Ok(Answered {
        reply,
        note: String::new(alloc),
        reasons: Reasons::of(reasons.into_text()),
    })
}

/// The picture of a script with what its runs break.
pub fn answer_draw(
    alloc: Global,
    params: Result<Params, ParamFault>,
    contents: &Contents,
    hints: bool,
) -> Result<Answered, Refused>
    ensures status { IfOk result (λ it. it.reply.status ≤ 1) }
    ensures drawn { IfOk result (λ it. (capture : List ℕ) → IsReadOf capture params
        → IsDrawnOf capture (table_text contents.now.orders) contents.now.script.items
        it.reply.status it.reply.text.items) }
    ensures note { IfOk result (λ it. string_bytes it.note ≡ []) }
    ensures refused { IfErr result (λ r. (capture : List ℕ) → IsReadOf capture params
        → IsRefused capture (table_text contents.now.orders) contents.now.script.items r.fault) }
{
    let Contents { orders, script, .. } = contents;
    let mut reasons = ReportReasons::new(alloc, hints, contents.capture.as_slice());
    let reply = draw_read(
        alloc,
        params,
        orders.as_slice(),
        script.as_slice(),
        &mut reasons,
    )?;
    Ok(Answered {
        reply,
        note: String::new(alloc),
        reasons: Reasons::of(reasons.into_text()),
    })
}

/// Whether a certificate is closed.
pub fn answer_verify(
    alloc: Global,
    params: Result<Params, ParamFault>,
    contents: &Contents,
    hints: bool,
) -> Result<Answered, Refused>
    ensures status { IfOk result (λ it. it.reply.status ≤ 1) }
    ensures told { IfOk result (λ it. (capture : List ℕ) → IsReadOf capture params
        → IsVerifiedOf capture (table_text contents.now.orders) contents.now.script.items
        contents.now.certificate.items it.reply.status it.reply.text.items) }
    ensures note { IfOk result (λ it. string_bytes it.note ≡ []) }
    ensures refused { IfErr result (λ r. (capture : List ℕ) → IsReadOf capture params
        → IsUnverified capture (table_text contents.now.orders) contents.now.script.items
        contents.now.certificate.items r.fault) }
{
    let mut reason = VerifyReason::new(alloc, hints);
    let reply = verify_read(
        alloc,
        params,
        contents.orders.as_slice(),
        contents.script.as_slice(),
        contents.certificate.as_slice(),
        &mut reason,
    )?;
    Ok(Answered {
        reply,
        note: String::new(alloc),
        reasons: Reasons::of(reason.into_text()),
    })
}

/// The segments of a message.
pub fn answer_show_message(
    alloc: Global,
    contents: &Contents,
    hints: bool,
) -> Result<Answered, Refused>
    ensures status { IfOk result (λ it. it.reply.status ≡ 0) }
    ensures shown { IfOk result (λ it. IsShownMessage contents.now.message.items it.reply.text.items) }
    ensures note { IfOk result (λ it. string_bytes it.note ≡ []) }
    ensures refused { IfErr result (λ r. IsMessageRefusal contents.now.message.items r.fault) }
{
    let mut hint = UnreadHint::new(alloc, hints);
    match show_message_with(alloc, contents.message.as_slice(), &mut hint) {
        Ok(text) => Ok(text_only(alloc, text)),
        Err(fault) => Err(Refused {
            fault,
            seen: hint.into_text(),
        }),
    }
}

/// The messages that are in a file, and beside them how many they are, and what is passed over.
pub fn answer_record(alloc: Global, contents: &Contents, hints: bool) -> Result<Answered, Refused>
    ensures status { IfOk result (λ it. it.reply.status ≡ 0) }
    ensures recorded { IfOk result (λ it. IsRecordOf contents.now.dialogue.items it.reply.text.items) }
    ensures note { IfOk result (λ it. IsRecordNote contents.now.dialogue.items (string_bytes it.note)) }
    ensures refused { IfErr result (λ r. IsRecordRefusal contents.now.dialogue.items r.fault) }
{
    let log = log_of(alloc, contents);
    match record_read(alloc, &log) {
        Ok(Record { text, note }) => Ok(Answered {
            reply: Reply { status: 0, text },
            note,
            reasons: None,
        }),
        Err(fault) => Err(refused_log(alloc, fault, &log, contents, None, hints)),
    }
}

// What is said beside a text of a draft: of the log, and that the case holds a secret.
fn draft_note(
    alloc: Global,
    log: &Result<Log<'_>, DialogueFault>,
    hints: bool,
    drafted: Drafted,
    has_secret: bool,
) -> Result<String, Fault>
    ensures note { IfOk result (λ note. (of_log : List ℕ) × IsNoteOfLog hints log.now of_log
        × (string_bytes note ≡ of_log ++ secrets_note drafted has_secret)) }
    ensures refused { IfErr result (λ fault. fault ≡ faults.Memory) }
{
    let mut note = note_of(alloc, log, hints)?;
    note.push_str(secrets_note(drafted, has_secret))?;
    Ok(note)
}

/// What is drafted of a dialogue: that of the number in the recording, or of the whole recording.
pub fn answer_draft(
    alloc: Global,
    contents: &Contents,
    number: Option<u32>,
    drafted: Drafted,
    hints: bool,
) -> Result<Answered, Refused>
    ensures status { IfOk result (λ it. it.reply.status ≡ 0) }
    ensures drafted { IfOk result (λ it. IsDraftWithNote hints drafted number (table_text contents.now.orders)
        contents.now.dialogue.items it.reply.text.items (string_bytes it.note)) }
    ensures refused { IfErr result (λ r.
        IsDraftRefusal (table_text contents.now.orders) number contents.now.dialogue.items r.fault) }
{
    let table = contents.orders.as_slice();
    let log = log_of(alloc, contents);
    let mut hint = DraftHint::new(alloc, hints, contents.dialogue.as_slice());
    match draft_read(alloc, table, &log, number, drafted, &mut hint) {
        Ok(DraftText { text, has_secret }) => Ok(Answered {
            reply: Reply { status: 0, text },
            note: draft_note(alloc, &log, hints, drafted, has_secret)?,
            reasons: None,
        }),
        Err(fault) => {
            let seen = hint.into_text();
            Err(refused_log(alloc, fault, &log, contents, seen, hints))
        }
    }
}

/// The messages of a case, or the one of this number.
pub fn answer_run(
    alloc: Global,
    contents: &Contents,
    message: Option<u32>,
) -> Result<Answered, Refused>
    ensures status { IfOk result (λ it. it.reply.status ≡ 0) }
    ensures run { IfOk result (λ it. IsRunOf (table_text contents.now.orders) contents.now.script.items
        contents.now.case.items message it.reply.text.items) }
    ensures note { IfOk result (λ it. string_bytes it.note ≡ []) }
    ensures refused { IfErr result (λ r. IsRunRefusal (table_text contents.now.orders)
        contents.now.script.items contents.now.case.items message r.fault) }
{
    let Contents {
        orders,
        script,
        case,
        ..
    } = contents;
    let text = run_case(
        alloc,
        orders.as_slice(),
        script.as_slice(),
        case.as_slice(),
        message,
    )?;
    Ok(text_only(alloc, text))
}

/// The picture of a script.
pub fn answer_draw_script(alloc: Global, contents: &Contents) -> Result<Answered, Refused>
    ensures status { IfOk result (λ it. it.reply.status ≡ 0) }
    ensures drawn { IfOk result (λ it. IsPictureOf contents.now.script.items it.reply.text.items) }
    ensures note { IfOk result (λ it. string_bytes it.note ≡ []) }
    ensures refused { IfErr result (λ r. IsPlanRefusal no_orders contents.now.script.items r.fault) }
{
    let text = draw_script(alloc, contents.script.as_slice())?;
    Ok(text_only(alloc, text))
}
