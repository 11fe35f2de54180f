//! Why a certificate isn't closed: what is open of it first, in words.

use crate::steps::step_at;
use fints_check::{Certificate, Line, Open, Way};
use fints_cli_hints_reasons::branches::BranchOf;
use fints_cli_hints_reasons::lines::Called;
use fints_cli_hints_words::places::{HintText, say};
use fints_cli_scripts::VerifyObserver;
use fints_rules::LAST_NUMBER;
use fints_script::Plan;
use std::alloc::Global;
use std::fmt;
use std::fmt::{Display, Formatter, Write};

const ANEW: &str = "make the certificate anew by certify";

// A step by its name.
#[derive(Clone, Copy)]
struct StepName<'a> {
    plan: &'a Plan<'a>,
    step: usize,
}

impl Display for StepName<'_> {
    fn fmt<W: Write>(&self, f: &mut Formatter<W>) -> fmt::Result {
        match step_at(self.plan, self.step) {
            Some(step) => {
                let name = step.name();
                Called(&name).fmt(f)
            }
            None => Ok(()),
        }
    }
}

// A line by its name.
#[derive(Clone, Copy)]
struct LineName<'a> {
    lines: &'a [Line],
    line: usize,
}

impl Display for LineName<'_> {
    fn fmt<W: Write>(&self, f: &mut Formatter<W>) -> fmt::Result {
        match self.lines.get(self.line.saturating_sub(1)) {
            Some(line) => Called(&line.name).fmt(f),
            None => Ok(()),
        }
    }
}

// What is open of a plan's certificate with these lines.
#[derive(Clone, Copy)]
struct Why<'p, 'l> {
    plan: &'p Plan<'p>,
    lines: &'l [Line],
    open: Open,
}

impl<'p, 'l> Why<'p, 'l> {
    fn step(&self, step: usize) -> StepName<'p> {
        StepName {
            plan: self.plan,
            step,
        }
    }

    fn line(&self, line: usize) -> LineName<'l> {
        LineName {
            lines: self.lines,
            line,
        }
    }

    fn branch(&self, step: usize, number: usize) -> BranchOf {
        match step_at(self.plan, step) {
            Some(step) => BranchOf::at(step, number),
            None => BranchOf { number, count: 0 },
        }
    }
}

fn write_name<W: Write>(f: &mut Formatter<W>, why: &Why<'_, '_>) -> fmt::Result {
    match why.open {
        Open::OtherName { step } => {
            let (line, named, name) = (step.saturating_add(1), why.line(step), why.step(step));
            write!(
                f,
                "line {line} is of step {named}, and step {step} of the script is {name}: {ANEW}"
            )
        }
        Open::NoLine { step } => {
            let name = why.step(step);
            write!(f, "no line is of step {name}: {ANEW}")
        }
        Open::NoStep { line } => {
            let (named, line) = (why.line(line), line.saturating_add(1));
            write!(
                f,
                "line {line} is of step {named}, and the script has no further step: {ANEW}"
            )
        }
        _ => Ok(()),
    }
}

fn write_way<W: Write>(
    f: &mut Formatter<W>,
    why: &Why<'_, '_>,
    step: usize,
    way: Way,
) -> fmt::Result {
    let name = why.step(step);
    match way {
        Way::Begin => write!(f, "each run begins with step {name}"),
        Way::Branch { from, branch, .. } => {
            let (branch, from) = (why.branch(from, branch), why.step(from));
            write!(f, "{branch} of step {from} leads to step {name}")
        }
    }
}

fn write_need<W: Write>(
    f: &mut Formatter<W>,
    why: &Why<'_, '_>,
    step: usize,
    way: Way,
) -> fmt::Result {
    let name = why.step(step);
    match way {
        Way::Begin => write!(f, "step {name}, the first,"),
        Way::Branch { from, number, .. } => {
            let from = why.step(from);
            write!(f, "after number {number} of step {from}, step {name}")
        }
    }
}

fn write_entry<W: Write>(f: &mut Formatter<W>, why: &Why<'_, '_>) -> fmt::Result {
    match why.open {
        Open::Unreached { step, way } => {
            write_way(f, why, step, way)?;
            write!(f, ", which is named as unreached: {ANEW}")
        }
        Open::LowNumber {
            step,
            way,
            least,
            number,
        } => {
            write_need(f, why, step, way)?;
            write!(
                f,
                " needs number {least}, and its line says {number}: {ANEW}"
            )
        }
        _ => write_name(f, why),
    }
}

fn write_figures<W: Write>(f: &mut Formatter<W>, why: &Why<'_, '_>) -> fmt::Result {
    match why.open {
        Open::BreaksNumber { step, number } => {
            let name = why.step(step);
            write!(
                f,
                "step {name}: number {number} breaks P2 (1 to {LAST_NUMBER}): {ANEW}"
            )
        }
        Open::LowSize {
            step,
            number,
            longest,
            size,
        } => {
            let name = why.step(step);
            write!(
                f,
                "step {name}: its longest message of number {number} has {longest} bytes, and its line says {size}: {ANEW}"
            )
        }
        Open::BreaksSize { step, size } => {
            let name = why.step(step);
            write!(
                f,
                "step {name}: a message of {size} bytes breaks P3 (HIBPA, element 8): {ANEW}"
            )
        }
        _ => write_entry(f, why),
    }
}

impl Display for Why<'_, '_> {
    fn fmt<W: Write>(&self, f: &mut Formatter<W>) -> fmt::Result {
        match self.open {
            Open::BreaksRule { step } => {
                let name = self.step(step);
                write!(
                    f,
                    "step {name} is named as reached, and its messages break a rule: name it as unreached where no run sends it, or fix the script"
                )
            }
            Open::Unreleased { step } => {
                let name = self.step(step);
                write!(
                    f,
                    "step {name} is named as reached, and a message after it leaves its order unreleased (P11): name it as unreached where no run sends it, or fix the branches of the script"
                )
            }
            _ => write_figures(f, self),
        }
    }
}

fn why_text<'p>(alloc: Global, plan: &'p Plan<'p>, lines: &[Line], open: Open) -> HintText {
    let why = Why { plan, lines, open };
    say(alloc, format_args!("why: {why}\n"))
}

/// A line that says what is open of a certificate first. None where it is closed, and where the line isn't
/// wanted.
#[derive(Drop)]
pub struct VerifyReason {
    alloc: Global,
    wanted: bool,
    text: HintText,
}

impl VerifyReason {
    pub fn new(alloc: Global, wanted: bool) -> VerifyReason {
        VerifyReason {
            alloc,
            wanted,
            text: Ok(None),
        }
    }

    /// The line. An error where memory ran out while it was made.
    pub fn into_text(self) -> HintText {
        self.text
    }
}

impl VerifyObserver for VerifyReason {
    fn verified(&mut self, plan: &Plan<'_>, certificate: &Certificate, open: Option<Open>) {
        if let (true, Some(open)) = (self.wanted, open) {
            self.text = why_text(self.alloc, plan, certificate.lines(), open);
        }
    }
}
