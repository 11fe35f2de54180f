//! The commands: what each answers, of the files that it names.
ghost use Rattle.std.specs.Prelude.{◌≡◌, ◌≤◌, ◌+◌, ◌*◌, false, None, IfOk, IfErr, string_bytes};
ghost use Rattle.fints_cli_commands.specs.BuiltIn as texts;
ghost use Rattle.fints_cli_scripts.specs.Told.{IsToldOf, IsTellRefusal};
ghost use Rattle.fints_cli_scripts.specs.declared.telling.Wanted.TheVariants as wants;
ghost use Rattle.fints_cli_commands.specs.Loading.{files_of, paths_of as paths_read};
ghost use Rattle.fints_cli_commands.specs.Loading.{AreWithin, FollowsReading, Held};
ghost use Rattle.fints_cli_commands.specs.Loaded.{IsLoaded};
ghost use Rattle.fints_cli_files.specs.Loading.{MAX_READS, NoneFailed};
ghost use Rattle.fints_cli_commands.specs.Commands.{cases_wanted, failure_status, AnswersTo, FailsFor, HintsIfAsked, IsNoteOf, RefusesRequest};

use crate::answering::{
    Answered, answer_audit, answer_audit_own, answer_check, answer_draft, answer_draw,
    answer_draw_script, answer_judge, answer_judge_after, answer_orders, answer_record, answer_run,
    answer_show, answer_show_message, answer_verify,
};
use crate::built_in;
use crate::failing::{Refusal, Refused, refusal_of};
use crate::loading::{Contents, Loaded, load_all, paths_of};
use fints_cli_drafts::Drafted;
use fints_cli_files::Files;
use fints_cli_scripts::{Wanted, tell_script};
use fints_cli_texts::{Fault, Reply};
use fints_cli_words::{Command, Request};
use fints_params::{ParamFault, Params};
use std::alloc::Global;

#[tactic(auto, unfolding(crate::specs::BuiltIn::capture, crate::specs::BuiltIn::orders, crate::specs::BuiltIn::script))]
fn tell_built_in(alloc: Global) -> Result<Reply, Fault>
    ensures status { IfOk result (λ reply. reply.status ≤ 1) }
    ensures told { IfOk result (λ reply.
        IsToldOf wants.Report texts.capture texts.orders texts.script reply.status reply.text.items) }
    ensures refused { IfErr result (λ fault.
        IsTellRefusal wants.Report texts.capture texts.orders texts.script fault) }
{
    tell_script(
        alloc,
        built_in::CAPTURE,
        built_in::ORDERS,
        built_in::SCRIPT,
        Wanted::Report,
    )
}

// What `explain` prints: the cases of all findings, or that of the one of a number.
fn cases_wanted(finding: Option<u32>) -> Wanted
    ensures { result ≡ cases_wanted finding }
{
    match finding {
        None => Wanted::Cases,
        Some(number) => Wanted::OneCase(number),
    }
}

// Answers a request, of what was loaded of its files.
fn answer(
    alloc: Global,
    request: &Request<'_>,
    params: Result<Params, ParamFault>,
    contents: &Contents,
) -> Result<Answered, Refused>
    ensures status { IfOk result (λ it. it.reply.status ≤ 1) }
    ensures answers { IfOk result (λ it.
        (holds : Held) → IsLoaded (paths_read request.now) holds params contents.now
        → AnswersTo request.now holds it.reply.status it.reply.text.items) }
    ensures note { IfOk result (λ it.
        (holds : Held) → IsLoaded (paths_read request.now) holds params contents.now
        → IsNoteOf request.now holds (string_bytes it.note)) }
    ensures refused { IfErr result (λ r.
        (holds : Held) → IsLoaded (paths_read request.now) holds params contents.now
        → RefusesRequest request.now holds r.fault) }
{
    let hints = request.hints;
    match request.command {
        Command::BuiltIn => {
            let reply = tell_built_in(alloc)?;
            Ok(Answered {
                reply,
                note: String::new(alloc),
                reasons: None,
            })
        }
        Command::Orders => answer_orders(alloc),
        Command::Show => answer_show(alloc, contents, hints),
        Command::ShowMessage => answer_show_message(alloc, contents, hints),
        Command::Judge => answer_judge(alloc, params, contents, hints),
        Command::JudgeAfter => answer_judge_after(alloc, params, contents, hints),
        Command::Audit => answer_audit(alloc, params, contents, hints),
        Command::AuditOwn => answer_audit_own(alloc, contents, hints),
        Command::Record => answer_record(alloc, contents, hints),
        Command::Draft => answer_draft(alloc, contents, request.number, Drafted::Script, hints),
        Command::DraftCase => answer_draft(alloc, contents, request.number, Drafted::Case, hints),
        Command::Check => answer_check(alloc, params, contents, Wanted::Report, hints),
        Command::Explain => {
            answer_check(alloc, params, contents, cases_wanted(request.number), hints)
        }
        Command::Certify => answer_check(alloc, params, contents, Wanted::Certificate, hints),
        Command::Verify => answer_verify(alloc, params, contents, hints),
        Command::Run => answer_run(alloc, contents, request.number),
        Command::Draw => answer_draw_script(alloc, contents),
        Command::DrawFound => answer_draw(alloc, params, contents, hints),
    }
}

/// Answers a request over the files, which are all read before any fault in them is answered. Where
/// hints are wanted, a refusal has a hint, and what is broken has reasons.
pub fn perform<F: Files>(
    alloc: Global,
    request: &Request<'_>,
    files: &mut F,
) -> Result<Answered, Refusal>
    ensures status { IfOk result (λ it. it.reply.status ≤ 1) }
    ensures answers { IfOk result (λ it.
        AnswersTo request.now (F.holds files.old) it.reply.status it.reply.text.items) }
    ensures note { IfOk result (λ it. IsNoteOf request.now (F.holds files.old) (string_bytes it.note)) }
    ensures refused { IfErr result (λ r. FailsFor request.now (F.holds files.old) r.failure) }
    ensures read { IfOk result (λ _. NoneFailed (F.reads files.old) (F.reads files.new)) }
    ensures within { IfOk result (λ _. AreWithin (files_of request.now) (F.holds files.old)) }
    ensures refused_within { IfErr result (λ r.
        failure_status r.failure ≤ 3 → AreWithin (files_of request.now) (F.holds files.old)) }
    ensures reason { IfErr result (λ r.
        FollowsReading (files_of request.now) (F.holds files.old) (F.reads files.old)
        (F.reads files.new) r.failure) }
    ensures calls { (F.reads files.new).calls ≤ (F.reads files.old).calls + 5 * MAX_READS }
    ensures keeps { F.holds files.new ≡ F.holds files.old }
    ensures unasked { IfErr result (λ r. HintsIfAsked request.now.hints r) }
    ensures no_reasons { IfOk result (λ it. request.now.hints ≡ false → it.reasons ≡ None) }
{
    let paths = paths_of(request);
    let Loaded { params, contents } = load_all(alloc, files, &paths, request.hints)?;
    match answer(alloc, request, params, &contents) {
        Ok(
            Answered {
                reply,
                note,
                reasons,
            },
        ) => {
            let reasons = if request.hints { reasons } else { None };
            Ok(Answered {
                reply,
                note,
                reasons,
            })
        }
        Err(Refused { fault, seen }) => {
            let inputs = contents.inputs(seen.as_ref().map(|text| text.as_str()));
            Err(refusal_of(alloc, fault, &inputs, request.hints))
        }
    }
}
