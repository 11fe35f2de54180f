//! Whether a certificate is closed, whoever wrote it, and what is open of it first.
ghost use Rattle.std.specs.Prelude.{◌≡◌, ◌↔◌, ◌≤◌, ◌^◌, Some, true, length, IsTrue, IsNone, IfErr, IfSome, OkIff};
ghost use Rattle.fints_script_cases.specs.Answers.{IsOpenTo};
ghost use Rattle.fints_check_findings.specs.Findings.{EachIsPermitted};
ghost use Rattle.fints_script.specs.Numbered.{numbered};
ghost use Rattle.fints_script.specs.Scripts.{IsRead};
ghost use Rattle.fints_check.specs.Certificates.{figures_at, line_names, step_names, GoesOn, IsClosedCertificate, IsEntered, KeepsPromise};
ghost use Rattle.fints_check.specs.Unclosed.{found_at, source_of, IsFirstOpen};
ghost use Rattle.fints_check.specs.Verifying.{AreClaimsClosed, AreRepeats, AreStepsClosed, IsFoundAt, IsLeast, TellsFigures, TellsLine, TellsOnward, TellsStep};

use crate::certificate::{Certificate, Line};
use crate::unclosed::{Open, Way};
use fints_check_findings::{AtStep, Reached, is_released_step};
use fints_check_reach::PlanStep;
use fints_rules::{Permissions, Rule, figures_break};
use fints_script::{MAX_STEPS, Plan, Step, Target};
use fints_wire::worst_size;
use std::marker::Model;

// Whether an open branch leads back to the step.
fn is_repeated(step: &Step) -> bool
    ensures { IsTrue result ↔ IsOpenTo step.now.branches step.now.otherwise Target.Again }
{
    for branch in 1..step.branches().len() + 2 {
        if step.target(branch) == Target::Again && step.opener(branch).is_some() {
            return true;
        }
    }
    false
}

// For each step whether an open branch leads back to it.
fn repeats(plan: &Plan<'_>) -> [bool; MAX_STEPS]
    ensures { AreRepeats plan.now.script.steps result }
{
    let mut flags = [false; MAX_STEPS];
    for i in 0..plan.step_count() {
        flags[i] = is_repeated(plan.step(i + 1));
    }
    flags
}

#[tactic(auto, using(crate::proofs::Numbered::numbered_is))]
// The flag of step n.
fn flag(flags: &[bool], n: usize) -> bool
    ensures { IsTrue result ↔ (numbered flags.now n ≡ Some true) }
{
    if n == 0 {
        return false;
    }
    match flags.get(n - 1) {
        Some(flag) => *flag,
        None => false,
    }
}

fn is_named(line: &Line, step: &Step) -> bool
    ensures { IsTrue result ↔ (line.now.name ≡ step.now.name) }
{
    line.name == step.name()
}

// Where first there isn't one line for each step, in order, with its name.
fn other_name(plan: &Plan<'_>, lines: &[Line]) -> Option<Open>
    ensures at { IsFoundAt 0 result }
    ensures read { IsRead plan.now.script }
    ensures none { IsNone result ↔ (line_names lines.now ≡ step_names plan.now.script.steps) }
{
    let count = plan.step_count();
    for i in 0..lines.len() {
        if i == count {
            return Some(Open::NoStep { line: i + 1 });
        }
        if !is_named(&lines[i], plan.step(i + 1)) {
            return Some(Open::OtherName { step: i + 1 });
        }
    }
    if lines.len() < count {
        return Some(Open::NoLine {
            step: lines.len() + 1,
        });
    }
    None
}

// What a certificate names of the steps of a plan, one line for each, in order, with its name; and which
// of the steps an open branch leads back to. A contract sees the permissions, the script and the lines.
#[derive(Drop)]
struct Claims<'a> {
    permissions: &'a Permissions<'a>,
    plan: &'a Plan<'a>,
    lines: &'a [Line],
    repeats: [bool; MAX_STEPS],
}

impl<'a> Model for Claims<'a> {
    ghost use Rattle.std.specs.Prelude.{◌≡◌};
    ghost use Rattle.fints_check.specs.Certificates.{line_names, step_names};
    ghost use Rattle.fints_check.specs.Verifying.{AreRepeats, ClaimsValue};

    ghost Value = { ClaimsValue };

    ghost view = { λ c. record {
      granted = c.permissions.now;
      script = c.plan.now.script;
      lines = c.lines.now;
    } };

    ghost invariant = { λ c. (c.permissions.now.orders ≡ c.plan.now.orders)
        × AreRepeats c.plan.now.script.steps c.repeats
        × (line_names c.lines.now ≡ step_names c.plan.now.script.steps) };
}

impl<'a> Claims<'a> {
    // What the lines name of the steps, or where they don't have the steps' names.
    fn of(
        permissions: &'a Permissions<'a>,
        plan: &'a Plan<'a>,
        lines: &'a [Line],
    ) -> Result<Claims<'a>, Open>
        requires { permissions.now.orders ≡ plan.now.orders }
        ensures at { IfErr result (λ found. found_at found ≡ 0) }
        ensures read { IsRead plan.now.script }
        ensures claims { OkIff result (line_names lines.now ≡ step_names plan.now.script.steps)
            (record { granted = permissions.now; script = plan.now.script; lines = lines.now }) }
    {
        if let Some(found) = other_name(plan, lines) {
            return Err(found);
        }
        Ok(Claims {
            permissions,
            plan,
            lines,
            repeats: repeats(plan),
        })
    }

    // The figures of step n, if it is named as reached; it is one of the script's then.
    fn figures(&self, n: usize) -> Option<Reached>
        ensures figures { result ≡ figures_at self.now.lines n }
        ensures within { IfSome result (λ _. (1 ≤ n) × (n ≤ length self.now.script.steps)) }
    {
        let line = self.lines.get(n.checked_sub(1)?)?;
        line.reached
    }

    // What is open where a run comes this way to step n, whose first message in a row has at most number
    // `from` then.
    fn open_entry(&self, n: usize, way: Way, from: u64) -> Option<Open>
        requires { from ≤ 2 ^ 32 }
        ensures at { IsFoundAt (source_of way) result }
        ensures none { IsNone result ↔ IsEntered self.now.script.steps self.now.lines n from }
    {
        let Some(reached) = self.figures(n) else {
            return Some(Open::Unreached { step: n, way });
        };
        let step = ClaimedStep { claims: self, n };
        let least = step.least(from);
        let number = reached.number;
        if u64::from(number) < least {
            return Some(Open::LowNumber {
                step: n,
                way,
                least,
                number,
            });
        }
        None
    }

    // What is open where a branch leads this way to the target, after messages of at most this number.
    fn open_target(&self, target: Target, way: Way, number: u32) -> Option<Open>
        ensures at { IsFoundAt (source_of way) result }
        ensures none { IsNone result ↔ GoesOn self.now.script.steps self.now.lines number target }
    {
        match target {
            Target::Step(to) => self.open_entry(to as usize, way, u64::from(number) + 1),
            _ => None,
        }
    }

    // What is open of the first step that has something open.
    fn open_steps(&self) -> Option<Open>
        ensures first { IfSome result (λ found.
            IsFirstOpen self.now.granted self.now.script self.now.lines (found_at found)) }
        ensures none { IsNone result ↔ AreStepsClosed self.now }
    {
        for n in 1..self.plan.step_count() + 1 {
            let step = ClaimedStep { claims: self, n };
            if let Some(found) = step.open_step() {
                return Some(found);
            }
        }
        None
    }

    // What is open first where the lines have the steps' names.
    fn first_open(&self) -> Option<Open>
        ensures first { IfSome result (λ found.
            IsFirstOpen self.now.granted self.now.script self.now.lines (found_at found)) }
        ensures none { IsNone result ↔ AreClaimsClosed self.now }
    {
        if let Some(found) = self.open_entry(1, Way::Begin, 1) {
            return Some(found);
        }
        self.open_steps()
    }
}

// A step of the script by its number, counted from 1, with what a certificate names.
#[derive(Clone, Copy)]
struct ClaimedStep<'c, 'a> {
    claims: &'c Claims<'a>,
    n: usize,
    ghost first: { 1 ≤ n },
    ghost last: { n ≤ length claims.now.script.steps },
}

impl ClaimedStep<'_, '_> {
    // The least number that is enough for step n where its first message in a row has at most number
    // `from`.
    fn least(self, from: u64) -> u64
        requires { from ≤ 2 ^ 32 }
        ensures { IsLeast self.entry.claims.now self.entry.n from result }
    {
        let ClaimedStep { claims, n } = self;
        if flag(&claims.repeats, n) {
            let more = (claims.plan.step(n).repeat() as u64).saturating_sub(1);
            return from + more;
        }
        from
    }

    // What is open of the first open branch of step n that doesn't go on. A branch's opener is looked for
    // last.
    fn open_branch(self, number: u32) -> Option<Open>
        ensures at { IsFoundAt self.entry.n result }
        ensures none { TellsOnward self.entry.claims.now self.entry.n number result }
    {
        let ClaimedStep { claims, n } = self;
        let step = claims.plan.step(n);
        for branch in 1..step.branches().len() + 2 {
            let way = Way::Branch {
                from: n,
                branch,
                number,
            };
            let found = claims.open_target(step.target(branch), way, number);
            if found.is_some() && step.opener(branch).is_some() {
                return found;
            }
        }
        None
    }

    // What is open of these figures of step n. The number is looked at before a size is asked for at it.
    fn open_figures(self, reached: Reached) -> Option<Open>
        ensures at { IsFoundAt self.entry.n result }
        ensures none { TellsFigures self.entry.claims.now self.entry.n reached result }
    {
        let Reached { number, size } = reached;
        let ClaimedStep { claims, n } = self;
        let bank = claims.permissions.bank();
        let figures = reached.figures();
        if figures_break(bank, figures, Rule::Number) {
            return Some(Open::BreaksNumber { step: n, number });
        }
        let longest = worst_size(claims.plan, n, number);
        if size < longest {
            return Some(Open::LowSize {
                step: n,
                number,
                longest,
                size,
            });
        }
        if figures_break(bank, figures, Rule::Size) {
            return Some(Open::BreaksSize { step: n, size });
        }
        None
    }

    // What is open of step n, which is named as reached with these figures.
    fn open_line(self, reached: Reached) -> Option<Open>
        ensures at { IsFoundAt self.entry.n result }
        ensures none { TellsLine self.entry.claims.now self.entry.n reached result }
    {
        if let Some(found) = self.open_figures(reached) {
            return Some(found);
        }
        let ClaimedStep { claims, n } = self;
        let at = PlanStep {
            plan: claims.plan,
            n,
        };
        if !AtStep::new(claims.permissions, at).is_clean() {
            return Some(Open::BreaksRule { step: n });
        }
        if !is_released_step(at) {
            return Some(Open::Unreleased { step: n });
        }
        self.open_branch(reached.number)
    }

    // What is open of step n, if it is named as reached.
    fn open_step(self) -> Option<Open>
        ensures at { IsFoundAt self.entry.n result }
        ensures none { TellsStep self.entry.claims.now self.entry.n result }
    {
        match self.claims.figures(self.n) {
            Some(reached) => self.open_line(reached),
            None => None, // named as unreached
        }
    }
}

/// What is open of the certificate, the first in this order: the names of its lines; that runs begin with
/// step 1; and then step by step the figures, the rules that what the step's messages hold breaks, P11,
/// and where its branches lead. None exactly where the certificate is closed: it then keeps its promise,
/// whoever wrote it, and every message of every run is permitted. It takes no memory.
/// Permissions and plan were made with order tables of the same rows.
pub fn first_open(
    permissions: &Permissions<'_>,
    plan: &Plan<'_>,
    certificate: &Certificate,
) -> Option<Open>
    requires { permissions.now.orders ≡ plan.now.orders }
    ensures first { IfSome result (λ found.
        IsFirstOpen permissions.now plan.now.script certificate.now (found_at found)) }
    ensures none { IsNone result ↔ IsClosedCertificate permissions.now plan.now.script certificate.now }
    ensures promise { IsNone result → KeepsPromise plan.now.script certificate.now }
    ensures permitted { IsNone result → EachIsPermitted permissions.now plan.now.script }
{
    match Claims::of(permissions, plan, certificate.lines()) {
        Ok(claims) => claims.first_open(),
        Err(found) => Some(found),
    }
}

/// Whether the certificate is closed, whoever wrote it. It then keeps its promise, and every message
/// of every run is permitted. It takes no memory, and its work grows only with the steps and branches of
/// the plan. Permissions and plan were made with order tables of the same rows.
pub fn verify(permissions: &Permissions<'_>, plan: &Plan<'_>, certificate: &Certificate) -> bool
    requires { permissions.now.orders ≡ plan.now.orders }
    ensures closed { IsTrue result ↔ IsClosedCertificate permissions.now plan.now.script certificate.now }
    ensures promise { IsTrue result → KeepsPromise plan.now.script certificate.now }
    ensures permitted { IsTrue result → EachIsPermitted permissions.now plan.now.script }
{
    first_open(permissions, plan, certificate).is_none()
}
