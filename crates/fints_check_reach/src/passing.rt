//! The pass over the steps, from the first to the last, that finds their greatest numbers, and for each
//! step the first marked one that it may be sent after.
ghost use Rattle.std.specs.Prelude.{◌≡◌, ◌<◌, ◌≤◌, ◌+◌, ◌*◌, ◌^◌, ℕ, length, map, replicate, is_some, IfOk, IsTrue, IsFalse, Some, None, ◌↔◌};
ghost use Rattle.fints_script.specs.Numbered.{numbered};
ghost use Rattle.fints_script_cases.specs.Answers.{IsOpen};
ghost use Rattle.fints_script.specs.Sound.{IsOnward};
ghost use Rattle.fints_script.specs.Steps.{StepValue};
ghost use Rattle.fints_script_cases.specs.declared.answers.Target.{Target};
ghost use Rattle.fints_check_reach.specs.Following.{AreBehind, CarriesTo, IsCarriedTo};
ghost use Rattle.fints_check_reach.specs.Leading.{Leads};
ghost use Rattle.fints_check_reach.specs.Numbers.{AreGreatest, Has, branch_count, looked_at, visits_at};
ghost use Rattle.fints_check_reach.specs.Passes.{AreKept, AreOpen, AreRaised, Asks, BranchAsks, IsRaised, PassAsks, StepAsks, StepIsPassed};
ghost use Rattle.fints_script_rows.specs.declared.limits.TheConstants.{MAX_STEPS};
ghost use Rattle.fints_check_reach.specs.Sources.{AreSources};

use crate::following::carried_step;
use crate::opening::{FlaggedBranch, later_step, spare};
use crate::plan_step::{PlanStep, StepBranch};
use fints_params::Code;
use fints_script::{Plan, Step};
use fints_syntax::Memory;
use std::alloc::Global;

/// The greatest number of each step's messages over all runs, in order of steps, or none for a step
/// that no run sends; the step that each comes from, counted from 1, or none for the first step and
/// those that no run sends; the first marked step that each may be sent after, or none; and how many
/// steps and branches were looked at for them.
#[derive(Drop)]
pub struct Numbers {
    pub greatest: Vec<Option<u32>>,
    pub sources: Vec<Option<u16>>,
    pub behind: Vec<Option<u16>>,
    pub visits: u64,
}

impl Numbers {
    /// The greatest number of step n's messages, or none where no run sends it; steps count from 1.
    pub fn greatest_of(&self, n: usize) -> Option<u32>
        requires from { 1 ≤ n }
        requires to { n ≤ length self.now.greatest.items }
        ensures { numbered self.now.greatest.items n ≡ Some result }
    {
        self.greatest[n - 1]
    }
}

// The most branches of a step, its default counted.
const MAX_BRANCHES: usize = 21;

// What is asked of the steps after others: after which steps, and the code of the answers between.
#[derive(Clone, Copy)]
struct Asked<'a> {
    marks: &'a [bool],
    code: Code,
}

impl Asked<'_> {
    // Whether step n is asked about; steps count from 1.
    fn has(&self, n: usize) -> bool
        ensures { IsTrue result ↔ Asks self.now.marks.now n }
    {
        if n == 0 {
            return false;
        }
        match self.marks.get(n - 1) {
            Some(mark) => *mark,
            None => false,
        }
    }
}

// Whether there is no entry, or a lower one than the number.
fn is_greater(number: u32, entry: Option<u32>) -> bool
    ensures greater { IsTrue result → (e : ℕ) → entry ≡ Some e → e < number }
    ensures kept { IsFalse result → (e : ℕ) × (entry ≡ Some e) × (number ≤ e) }
{
    match entry {
        None => true,
        Some(entry) => entry < number,
    }
}

// Keeps a number for a step, and the step that it comes from, unless the step has a number as great.
fn raise(
    entries: &mut Vec<Option<u32>>,
    sources: &mut Vec<Option<u16>>,
    to: usize,
    number: u32,
    source: u16,
)
    requires from { 1 ≤ to }
    requires to { to ≤ length entries.old.items }
    requires wide { length sources.old.items ≡ length entries.old.items }
    ensures { IsRaised entries.old.items entries.new.items sources.old.items sources.new.items to number
        source }
{
    if is_greater(number, entries[to - 1]) {
        entries[to - 1] = Some(number);
        sources[to - 1] = Some(source);
    }
}

// Keeps a number, as coming from step n, for each step that an open branch of n leads to.
fn raise_targets(
    step: &Step,
    flags: &[bool],
    n: u16,
    number: u32,
    entries: &mut Vec<Option<u32>>,
    sources: &mut Vec<Option<u16>>,
)
    requires flags { AreOpen step.now flags.now }
    requires onward { (to : Target) → Leads step.now to → IsOnward (length entries.old.items) n to }
    requires wide { length sources.old.items ≡ length entries.old.items }
    ensures { AreRaised step.now entries.old.items entries.new.items sources.old.items sources.new.items
        number n }
{
    for b in 0..step.branches().len() + 1 {
        match later_step(FlaggedBranch { step, flags, b }) {
            None => {}
            Some(to) => raise(entries, sources, to as usize, number, n),
        }
    }
}

// Keeps step n for step s, unless one is kept for it.
fn keep(behind: &mut Vec<Option<u16>>, s: usize, n: u16)
    requires from { 1 ≤ s }
    requires to { s ≤ length behind.old.items }
    ensures { AreKept n (λ k. k ≡ s) behind.old.items behind.new.items }
{
    if behind[s - 1].is_none() {
        behind[s - 1] = Some(n);
    }
}

// Looks at a branch of step n: whether some answer fires it; and where it carries the code that is
// asked for, step n is kept for the step that it goes to. Branches count from 1.
fn look_at_branch(
    at: StepBranch<'_>,
    n: u16,
    asked: &Asked<'_>,
    behind: &mut Vec<Option<u16>>,
) -> bool
    requires { (s : ℕ) → IsCarriedTo at.step.now n at.branch asked.now.code s → (1 ≤ s)
        × (s ≤ length behind.old.items) }
    ensures fired { IsTrue result ↔ IsOpen at.entry.step.now.branches at.entry.branch }
    ensures kept { AreKept n
        (BranchAsks at.entry.step.now asked.now.marks.now n asked.now.code at.entry.branch)
        behind.old.items behind.new.items }
{
    if at.step.opener(at.branch).is_none() {
        return false;
    }
    if asked.has(n as usize) {
        match carried_step(at, n as usize, asked.code) {
            None => {}
            Some(s) => keep(behind, s, n),
        }
    }
    true
}

// For each branch of step n whether some answer fires it; each is looked at once, and counted so.
// Branches count from 0, and the default counts as the last.
fn look_at_branches(
    step: &Step,
    n: u16,
    asked: &Asked<'_>,
    behind: &mut Vec<Option<u16>>,
    visits: &mut u64,
) -> [bool; MAX_BRANCHES]
    requires few { length step.now.branches < 21 }
    requires room { visits.old < 2 ^ 62 }
    requires within { (s : ℕ) → CarriesTo step.now n asked.now.code s → (1 ≤ s)
        × (s ≤ length behind.old.items) }
    ensures flags { AreOpen step.now result }
    ensures kept { AreKept n (StepAsks step.now asked.now.marks.now n asked.now.code) behind.old.items
        behind.new.items }
    ensures counted { visits.new ≡ visits.old + branch_count step.now }
{
    let mut flags = [false; MAX_BRANCHES];
    for b in 0..step.branches().len() + 1 {
        *visits += 1;
        let branch = b + 1;
        flags[b] = look_at_branch(StepBranch { step, branch }, n, asked, behind);
    }
    flags
}

// Passes over a step: its greatest number, if it was entered, the targets of its open branches raised
// above it, and the step kept for what may follow it as asked. The step and each of its branches are counted.
fn pass_step(
    at: PlanStep<'_, '_>,
    asked: &Asked<'_>,
    entries: &mut Vec<Option<u32>>,
    sources: &mut Vec<Option<u16>>,
    behind: &mut Vec<Option<u16>>,
    visits: &mut u64,
) -> Option<u32>
    requires room { visits.old < 2 ^ 61 }
    requires long { length entries.old.items ≡ length at.plan.now.script.steps }
    requires wide { length sources.old.items ≡ length at.plan.now.script.steps }
    requires kept { length behind.old.items ≡ length at.plan.now.script.steps }
    requires small { (e : ℕ) → Has entries.old.items at.n e → e < 100 * MAX_STEPS }
    ensures passed { StepIsPassed at.entry.plan.now.script.steps at.entry.n result entries.old.items
        entries.new.items sources.old.items sources.new.items }
    ensures behind { (step : StepValue) → numbered at.entry.plan.now.script.steps at.entry.n ≡ Some step
        → AreKept at.entry.n (PassAsks step result asked.now.marks.now at.entry.n asked.now.code)
        behind.old.items behind.new.items }
    ensures counted { (step : StepValue) → numbered at.entry.plan.now.script.steps at.entry.n ≡ Some step
        → visits.new ≡ visits.old + visits_at step (is_some result) }
{
    let PlanStep { plan, n } = at;
    let step = plan.step(n);
    *visits += 1;
    match entries[n - 1] {
        None => None,
        Some(entry) => {
            let flags = look_at_branches(step, n as u16, asked, behind, visits);
            let number = entry + spare(step, &flags);
            raise_targets(step, &flags, n as u16, number + 1, entries, sources);
            Some(number)
        }
    }
}

// Nothing for any step.
fn blank<T: Drop>(alloc: Global, count: usize) -> Result<Vec<Option<T>>, Memory>
    ensures { IfOk result (λ cells. cells.items ≡ replicate count None) }
{
    let mut cells = Vec::with_capacity(alloc, count)?;
    for _i in 0..count {
        cells.push(None)?;
    }
    Ok(cells)
}

/// The greatest numbers, by one pass over the steps in which each open branch of a reached step
/// raises its target's number. Of several steps that give a step its greatest number, the first in
/// order is kept as its source; of several marked steps that have it sent next after an answer
/// with the code, the first is kept as well. Each step is looked at once, each branch of a reached one
/// once, and each of these is counted where it is looked at.
pub fn greatest_numbers(
    alloc: Global,
    plan: &Plan,
    marks: &[bool],
    code: Code,
) -> Result<Numbers, Memory>
    ensures greatest { IfOk result (λ numbers. AreGreatest plan.now.script.steps numbers.greatest.items) }
    ensures sources { IfOk result (λ numbers.
        AreSources plan.now.script.steps numbers.greatest.items numbers.sources.items) }
    ensures behind { IfOk result (λ numbers.
        AreBehind plan.now.script.steps numbers.greatest.items marks.now code numbers.behind.items) }
    ensures visits { IfOk result (λ numbers.
        numbers.visits ≡ looked_at plan.now.script.steps (map is_some numbers.greatest.items)) }
{
    let count = plan.step_count();
    let mut entries = blank(alloc, count)?;
    let mut sources = blank(alloc, count)?;
    let mut behind = blank(alloc, count)?;
    let mut greatest = Vec::with_capacity(alloc, count)?;
    let mut visits = 0;
    let asked = Asked { marks, code };
    entries[0] = Some(1);
    for i in 0..count {
        let number = pass_step(
            PlanStep { plan, n: i + 1 },
            &asked,
            &mut entries,
            &mut sources,
            &mut behind,
            &mut visits,
        );
        greatest.push(number)?;
    }
    Ok(Numbers {
        greatest,
        sources,
        behind,
        visits,
    })
}
