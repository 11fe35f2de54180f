//! Cases from their texts.
ghost use Rattle.std.specs.Prelude.{◌≡◌, ◌≢◌, ◌≤◌, ◌↔◌, ℕ, List, codes, ◌∷◌, ◌++◌, ◌<◌, length, IsTrue, IfOk, IfErr, IfSome, OnOk, MatchOption};
ghost use Rattle.std.specs.List.{All, Any};
ghost use Rattle.fints_script_fields.specs.NameSets.{HoldsNames};
ghost use Rattle.hex.specs.Hex.{encode_lower};
ghost use Rattle.fints_syntax_texts.specs.Lines.{IsReadAs};
ghost use Rattle.fints_script_cases.specs.Patterns.{code_text};
ghost use Rattle.fints_script_cases.specs.Answers.{IsAnswer};
ghost use Rattle.fints_script_cases.specs.Cases.{value_text, field_text, codes_text, answer_text, IsNamedValue, IsCaseOf, IsCaseFault};
ghost use Rattle.fints_script_cases.specs.CaseReading.{IsCapital, IsValue, IsCaseLine, line_text, IsNext, values_with, answers_with, value_names};

use crate::case::{Answer, Case};
use crate::case_fault::CaseFault;
use crate::values::{NamedValue, Values};
use fints_params::Code;
use fints_script_fields::Name;
use fints_syntax::{Bytes, Memory};
use fints_syntax_texts::{LineTaker, after, read_lines, split_once};
use hex::FromHexError;
use std::alloc::Global;
use std::collections::BTreeSet;

/// What a line after the first says.
#[derive(Drop)]
pub enum CaseLine {
    Field(NamedValue),
    Reply(Answer),
}

fn has_capital(text: &[u8]) -> bool
    ensures { IsTrue result ↔ Any IsCapital text.now }
{
    text.iter().any(|b| b.is_ascii_uppercase())
}

/// The bytes that lower hex spells.
fn parse_hex(alloc: Global, text: &[u8]) -> Result<Option<Vec<u8>>, Memory>
    ensures { IfOk result (λ found. MatchOption found
        ((value : List ℕ) → IsValue value → text.now ≢ encode_lower value)
        (λ value. IsValue value.items × (text.now ≡ encode_lower value.items))) }
{
    if has_capital(text) {
        return Ok(None);
    }
    match hex::decode(alloc, text) {
        Ok(value) => Ok(Some(value)),
        Err(fault) => match fault {
            FromHexError::OutOfMemory => Err(Memory),
            _ => Ok(None),
        },
    }
}

/// The value that a field's line says: no bytes by `-`, others by lower hex.
fn parse_value(alloc: Global, text: &[u8]) -> Result<Option<Bytes>, Memory>
    ensures { IfOk result (IsReadAs IsValue value_text text.now) }
{
    if text == b"-".as_slice() {
        return Ok(Some(Bytes::new(Vec::new(alloc))));
    }
    if text.is_empty() {
        return Ok(None);
    }
    match parse_hex(alloc, text)? {
        Some(value) => Ok(Some(Bytes::new(value))),
        None => Ok(None),
    }
}

fn parse_field(alloc: Global, text: &[u8]) -> Result<Option<NamedValue>, Memory>
    ensures { IfOk result (IsReadAs IsNamedValue field_text text.now) }
{
    let Some(rest) = after(text, b"field ") else {
        return Ok(None);
    };
    let Some((name, value)) = split_once(rest, b' ') else {
        return Ok(None);
    };
    let Some(name) = Name::parse(name) else {
        return Ok(None);
    };
    match parse_value(alloc, value)? {
        Some(value) => Ok(Some(NamedValue { name, value })),
        None => Ok(None),
    }
}

/// The code after a space that the text begins with, and what comes after it.
fn first_code(text: &[u8]) -> Option<(Code, &[u8])>
    ensures { MatchOption result
        ((code : ℕ) (rest : List ℕ) → code < 10000 → text.now ≢ (32 ∷ code_text code) ++ rest)
        (λ parts. (parts.0 < 10000) × (text.now ≡ (32 ∷ code_text parts.0) ++ parts.1.now)) }
{
    match text {
        [b' ', a, b, c, d, rest @ ..] => Some((Code::parse(&[*a, *b, *c, *d])?, rest)),
        _ => None,
    }
}

/// The codes that the text lists, each after a space.
fn parse_codes(alloc: Global, text: &[u8]) -> Result<Option<Vec<Code>>, Memory>
    ensures { IfOk result (λ found. MatchOption found
        ((answer : List ℕ) → All (λ code. code < 10000) answer → text.now ≢ codes_text answer)
        (λ codes. All (λ code. code < 10000) codes.items × (text.now ≡ codes_text codes.items))) }
{
    let mut codes = Vec::new(alloc);
    let mut rest = text;
    while !rest.is_empty() {
        let Some((code, more)) = first_code(rest) else {
            return Ok(None);
        };
        codes.push(code)?;
        rest = more;
    }
    Ok(Some(codes))
}

fn parse_answer(alloc: Global, text: &[u8]) -> Result<Option<Answer>, Memory>
    ensures { IfOk result (IsReadAs IsAnswer answer_text text.now) }
{
    let Some(rest) = after(text, b"answer") else {
        return Ok(None);
    };
    match parse_codes(alloc, rest)? {
        Some(codes) => Ok(Answer::new(codes)),
        None => Ok(None),
    }
}

fn parse_line(alloc: Global, text: &[u8]) -> Result<Option<CaseLine>, Memory>
    ensures { IfOk result (IsReadAs IsCaseLine line_text text.now) }
{
    if let Some(pair) = parse_field(alloc, text)? {
        return Ok(Some(CaseLine::Field(pair)));
    }
    match parse_answer(alloc, text)? {
        Some(answer) => Ok(Some(CaseLine::Reply(answer))),
        None => Ok(None),
    }
}

fn is_dialog(name: Name) -> bool
    ensures { IsTrue result ↔ (name ≡ codes "dialog") }
{
    name.as_bytes() == b"dialog".as_slice()
}

/// The case so far, and the names in it, in which one is looked up without a walk over its values.
#[derive(Drop)]
pub struct CaseSoFar {
    case: Case,
    names: BTreeSet<Name>,
}

/// Whether no value has the name.
fn is_new(taken: &CaseSoFar, name: Name) -> bool
    requires { HoldsNames (value_names taken.now.case.values) taken.now.names }
    ensures { IsTrue result ↔ All (λ pair. pair.name ≢ name) taken.now.case.values }
{
    !taken.names.contains(&name)
}

/// Whether the line may come after what the case holds.
fn is_next(taken: &CaseSoFar, line: &CaseLine) -> bool
    requires { HoldsNames (value_names taken.now.case.values) taken.now.names }
    ensures { IsTrue result ↔ IsNext taken.now.case.values taken.now.case.answers.items line.now }
{
    let case = &taken.case;
    match line {
        CaseLine::Field(pair) => {
            case.answers.is_empty()
                && is_new(taken, pair.name)
                && (!case.values.pairs().is_empty() || is_dialog(pair.name))
        }
        CaseLine::Reply(_) => !case.values.pairs().is_empty(),
    }
}

fn add(taken: &mut CaseSoFar, line: CaseLine) -> Result<(), Memory>
    requires { HoldsNames (value_names taken.old.case.values) taken.old.names }
    ensures values { OnOk result (taken.new.case.values ≡ values_with taken.old.case.values line) }
    ensures answers { OnOk result
        (taken.new.case.answers.items ≡ answers_with taken.old.case.answers.items line) }
    ensures names { OnOk result (HoldsNames (value_names taken.new.case.values) taken.new.names) }
{
    match line {
        CaseLine::Field(pair) => {
            taken.names.insert(pair.name)?;
            taken.case.values.add(pair)?;
        }
        CaseLine::Reply(answer) => taken.case.answers.push(answer)?,
    }
    Ok(())
}

impl LineTaker for CaseSoFar {
    ghost use Rattle.fints_script_cases.specs.Cases.{case_lines, AreCaseLines};
    ghost use Rattle.fints_script_cases.specs.CaseReading.{IsReady};

    ghost kind = { AreCaseLines };

    ghost lines = { λ t. case_lines t.case.values t.case.answers.items };

    ghost ready = { IsReady };

    fn take(&mut self, text: &[u8]) -> Result<bool, Memory> {
        let alloc = *self.case.answers.allocator();
        let Some(line) = parse_line(alloc, text)? else {
            return Ok(false);
        };
        if !is_next(self, &line) {
            return Ok(false);
        }
        add(self, line)?;
        Ok(true)
    }

    fn is_whole(&self) -> bool {
        !self.case.values.pairs().is_empty()
    }
}

impl Case {
    /// The case that the text denotes. Each name is looked up in an ordered set.
    pub fn read(alloc: Global, text: &[u8]) -> Result<Case, CaseFault>
        ensures case { IfOk result (λ case. IsCaseOf text.now case.values case.answers.items) }
        ensures refusal { IfErr result (IsCaseFault text.now) }
    {
        let mut taken = CaseSoFar {
            case: Case {
                values: Values::new(alloc),
                answers: Vec::new(alloc),
            },
            names: BTreeSet::new(alloc),
        };
        match read_lines(text, b"fints-case 1\n", &mut taken)? {
            Some(line) => Err(CaseFault::Bad { line }),
            None => Ok(taken.case),
        }
    }
}
