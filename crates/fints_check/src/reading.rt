//! Certificates from their texts.
ghost use Rattle.std.specs.Prelude.{◌≡◌, ◌≢◌, ◌≤◌, ◌<◌, ◌↔◌, [], ◌∷◌, ◌++◌, length, get_or, IsTrue, IfOk, IfErr, IfSome, MatchOption};
ghost use Rattle.std.specs.Fmt.{decimal};
ghost use Rattle.fints_check_findings.specs.declared.finding.Reached.{Reached as ReachedValue};
ghost use Rattle.fints_script_fields.specs.NameSets.{HoldsNames};
ghost use Rattle.fints_syntax_texts.specs.Lines.{IsReadAs};
ghost use Rattle.fints_check.specs.Certificates.{line_names};
ghost use Rattle.fints_check.specs.CertTexts.{figures_text, step_text, IsFigure, AreShown, IsStepLine, IsCertificateOf, IsCertFault};
ghost use Rattle.fints_check.specs.CertReading.{IsNew};

use crate::cert_fault::CertFault;
use crate::certificate::{Certificate, Line};
use fints_check_findings::Reached;
use fints_script_fields::Name;
use fints_syntax::Memory;
use fints_syntax_texts::{LineTaker, after, read_lines, split_once};
use std::alloc::Global;
use std::collections::BTreeSet;

// The number of these 1 to 9 digits, the first no zero.
fn parse_digits(digits: &str) -> Option<u32>
    requires some { 0 < length digits.now }
    requires short { length digits.now ≤ 9 }
    requires first { 49 ≤ get_or digits.now 0 0 }
    ensures { IsReadAs IsFigure decimal digits.now result }
{
    match digits.parse::<u32>() {
        Ok(number) => Some(number),
        Err(_) => None,
    }
}

// A number of 1 to 9 digits without leading zeros, at least 1.
fn parse_figure(text: &[u8]) -> Option<u32>
    ensures { IsReadAs IsFigure decimal text.now result }
{
    if text.is_empty() {
        return None;
    }
    if text.len() > 9 {
        return None;
    }
    if text[0] < b'1' {
        return None;
    }
    match str::from_utf8(text) {
        Ok(digits) => parse_digits(digits),
        Err(_) => None,
    }
}

// Number and size, with a space between.
fn parse_reached(text: &[u8]) -> Option<Reached>
    ensures { MatchOption result
        ((r : ReachedValue) → AreShown (Some r) → text.now ≢ figures_text (Some r))
        (λ r. AreShown (Some r) × (text.now ≡ figures_text (Some r))) }
{
    let Some((number, size)) = split_once(text, b' ') else {
        return None;
    };
    let Some(number) = parse_figure(number) else {
        return None;
    };
    let Some(size) = parse_figure(size) else {
        return None;
    };
    Some(Reached {
        number,
        size: size as u64,
    })
}

// What a step's line says of it: `-`, or its figures.
fn parse_figures(text: &[u8]) -> Option<Option<Reached>>
    ensures { IsReadAs AreShown figures_text text.now result }
{
    if text == b"-".as_slice() {
        return Some(None);
    }
    match parse_reached(text) {
        Some(reached) => Some(Some(reached)),
        None => None,
    }
}

fn parse_line(text: &[u8]) -> Option<Line>
    ensures { IsReadAs IsStepLine step_text text.now result }
{
    let Some(rest) = after(text, b"step ") else {
        return None;
    };
    let Some((name, figures)) = split_once(rest, b' ') else {
        return None;
    };
    let Some(name) = Name::parse(name) else {
        return None;
    };
    match parse_figures(figures) {
        Some(reached) => Some(Line { name, reached }),
        None => None,
    }
}

/// The lines so far, and their names, in which one is looked up without a walk over the lines.
#[derive(Drop)]
pub struct LinesSoFar {
    lines: Vec<Line>,
    names: BTreeSet<Name>,
}

// Adds the line, if no earlier one has its name.
fn add(taken: &mut LinesSoFar, line: Line) -> Result<bool, Memory>
    requires names { HoldsNames (line_names taken.old.lines.items) taken.old.names }
    ensures added { IfOk result (λ added. IsTrue added ↔ IsNew taken.old.lines.items line) }
    ensures lines { IfOk result (λ added.
        IsTrue added → taken.new.lines.items ≡ taken.old.lines.items ++ line ∷ []) }
    ensures names { IfOk result (λ added.
        IsTrue added → HoldsNames (line_names taken.new.lines.items) taken.new.names) }
{
    let fresh = taken.names.insert(line.name)?;
    if !fresh {
        return Ok(false);
    }
    taken.lines.push(line)?;
    Ok(true)
}

impl LineTaker for LinesSoFar {
    ghost use Rattle.fints_check.specs.CertTexts.{cert_lines, AreCertLines};
    ghost use Rattle.fints_check.specs.CertReading.{IsReady};

    ghost kind = { AreCertLines };

    ghost lines = { λ t. cert_lines t.lines.items };

    ghost ready = { IsReady };

    fn take(&mut self, text: &[u8]) -> Result<bool, Memory> {
        match parse_line(text) {
            Some(line) => add(self, line),
            None => Ok(false),
        }
    }

    fn is_whole(&self) -> bool {
        !self.lines.is_empty()
    }
}

impl Certificate {
    /// The certificate that the text denotes. Each name is looked up in an ordered set.
    pub fn read(alloc: Global, text: &[u8]) -> Result<Certificate, CertFault>
        ensures certificate { IfOk result (λ certificate. IsCertificateOf text.now certificate) }
        ensures refusal { IfErr result (IsCertFault text.now) }
    {
        let mut taken = LinesSoFar {
            lines: Vec::new(alloc),
            names: BTreeSet::new(alloc),
        };
        match read_lines(text, b"fints-cert 2\n", &mut taken)? {
            Some(line) => Err(CertFault::Bad { line }),
            None => Ok(Certificate::new(taken.lines)),
        }
    }
}
