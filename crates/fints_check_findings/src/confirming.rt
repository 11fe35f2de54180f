//! Whether a case shows a finding, whoever wrote it.
ghost use Rattle.std.specs.Prelude.{◌≡◌, ◌↔◌, ◌≤◌, ◌+◌, false, Contains, IfOk, IsTrue, MatchOption, length};
ghost use Rattle.fints_script_cases.specs.Answers.{IsAnswer};
ghost use Rattle.std.specs.List.{All};
ghost use Rattle.fints_script.specs.Plans.{Admits};
ghost use Rattle.fints_rules.specs.Breaks.{BytesBreak, BytesBreakAfter};
ghost use Rattle.fints_wire.specs.Runs.{EndsWith, at_first, came_after};
ghost use Rattle.fints_check_findings.specs.Findings.{BreaksBehind, IsReal, Shows};
ghost use Rattle.fints_check_findings.specs.Confirming.{IsShownBy};

use crate::finding::Finding;
use fints_params::Code;
use fints_rules::{Broken, JudgeFault, Permissions, judge, judge_after};
use fints_script::{Answer, Case, Plan};
use fints_syntax::Memory;
use fints_wire::{Sent, run};
use std::alloc::Global;

fn is_of(broken: &Broken, finding: &Finding) -> bool
    ensures { IsTrue result ↔ (broken.now
        ≡ record { rule = finding.now.rule; segment = finding.now.segment }) }
{
    *broken
        == Broken {
            rule: finding.rule,
            segment: finding.segment,
        }
}

fn has_finding(broken: &[Broken], finding: &Finding) -> bool
    ensures { IsTrue result ↔ Contains broken.now
        (record { rule = finding.now.rule; segment = finding.now.segment }) }
{
    broken.iter().any(|one| is_of(one, finding))
}

// Whether the bytes are a message that breaks the finding's rule at its segment.
fn bytes_break(
    alloc: Global,
    permissions: &Permissions<'_>,
    finding: &Finding,
    bytes: &[u8],
) -> Result<bool, Memory>
    ensures { IfOk result (λ answer.
        IsTrue answer ↔ BytesBreak permissions.now bytes.now finding.now.rule finding.now.segment) }
{
    match judge(alloc, permissions, bytes) {
        Ok(broken) => Ok(has_finding(broken.as_slice(), finding)),
        Err(fault) => match fault {
            JudgeFault::Memory => Err(Memory),
            JudgeFault::NotAMessage { offset: _ } => Ok(false),
            JudgeFault::NotAMessageBefore { offset: _ } => Ok(false),
        },
    }
}

// Whether they do after another message and the answer to it. Both are messages of a run, so that
// nothing but running out of memory keeps them from being judged.
fn bytes_break_after(
    alloc: Global,
    permissions: &Permissions<'_>,
    finding: &Finding,
    before: &[u8],
    codes: &[Code],
    bytes: &[u8],
) -> Result<bool, Memory>
    ensures { IfOk result (λ answer. IsTrue answer
        ↔ BytesBreakAfter permissions.now before.now codes.now bytes.now finding.now.rule
        finding.now.segment) }
{
    match judge_after(alloc, permissions, before, codes, bytes) {
        Ok(broken) => Ok(has_finding(broken.as_slice(), finding)),
        Err(_) => Err(Memory),
    }
}

// Whether the last of what is sent breaks the finding's rule at its segment, by itself or given the
// message before it and the answer between them.
fn last_breaks(
    alloc: Global,
    permissions: &Permissions<'_>,
    finding: &Finding,
    sent: &[Sent],
    answers: &[Answer],
    last: &Sent,
) -> Result<bool, Memory>
    requires last { EndsWith sent.now last.now }
    requires enough { length sent.now ≤ length answers.now + 1 }
    ensures { IfOk result (λ answer. IsTrue answer
        ↔ BreaksBehind permissions.now (came_after at_first sent.now answers.now) last.now finding.now.rule
        finding.now.segment) }
{
    if sent.len() < 2 {
        return bytes_break(alloc, permissions, finding, last.bytes.as_slice());
    }
    let i = sent.len() - 2;
    let codes = answers[i].codes();
    bytes_break_after(
        alloc,
        permissions,
        finding,
        sent[i].bytes.as_slice(),
        codes,
        last.bytes.as_slice(),
    )
}

// Whether the last of what is sent is of the finding's step and breaks its rule at its segment.
fn shows(
    alloc: Global,
    permissions: &Permissions<'_>,
    finding: &Finding,
    sent: &[Sent],
    answers: &[Answer],
    last: &Sent,
) -> Result<bool, Memory>
    requires last { EndsWith sent.now last.now }
    requires enough { length sent.now ≤ length answers.now + 1 }
    ensures { IfOk result (λ answer. IsTrue answer
        ↔ IsShownBy permissions.now finding.now (came_after at_first sent.now answers.now) last.now) }
{
    if last.step != finding.step {
        return Ok(false);
    }
    last_breaks(alloc, permissions, finding, sent, answers, last)
}

fn last_sent(sent: &[Sent]) -> Option<&Sent>
    ensures { MatchOption result (length sent.now ≡ 0) (λ last. EndsWith sent.now last.now) }
{
    match sent.last() {
        Some(last) => Some(last),
        None => None,
    }
}

// Whether it has a code. Each answer has.
fn has_code(answer: &Answer) -> bool
    ensures always { IsTrue result }
    ensures answer { IsTrue result → IsAnswer answer.now }
{
    !answer.codes().is_empty()
}

// Whether each of them has a code.
fn have_codes(answers: &[Answer]) -> bool
    ensures always { IsTrue result }
    ensures answers { IsTrue result → All IsAnswer answers.now }
{
    answers.iter().all(|answer| has_code(answer))
}

/// Whether the values of the case are admitted, and the last message that the run of the case sends
/// is of the finding's step and breaks its rule at its segment, by itself or given the message before
/// it and the answer between them. Then the finding is real, whoever wrote the case.
pub fn confirm(
    alloc: Global,
    permissions: &Permissions<'_>,
    plan: &Plan<'_>,
    finding: &Finding,
    case: &Case,
) -> Result<bool, Memory>
    ensures shows { IfOk result (λ answer. IsTrue answer
        ↔ Shows permissions.now plan.now.script finding.now case.now.values case.now.answers.items) }
    ensures real { IfOk result (λ answer.
        IsTrue answer → IsReal permissions.now plan.now.script finding.now) }
    ensures unadmitted { (Admits plan.now.script.fields case.now.values → ⊥) → result ≡ Ok false }
{
    if !plan.admits(&case.values) {
        return Ok(false);
    }
    let answers = case.answers.as_slice();
    prove!(have_codes(answers));
    let sent = run(alloc, plan, &case.values, answers)?;
    match last_sent(sent.as_slice()) {
        Some(last) => {
            let answer = shows(alloc, permissions, finding, sent.as_slice(), answers, last)?;
            Ok(answer)
        }
        None => Ok(false),
    }
}
