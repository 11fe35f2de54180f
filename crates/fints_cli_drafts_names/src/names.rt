//! Whether the names of a draft are made of constants, numbers and kinds of segments only.
ghost use Rattle.std.specs.Prelude.{◌≡◌, ◌≤◌, ◌⊎◌, ℕ, Any, IsTrue, codes};
ghost use Rattle.fints_cli_drafts_names.specs.Names.{IsBinWord, IsFieldName, IsNameAfter, IsNameFor, IsNumbered, IsSignerName, IsStepName, IsWord, SpellsKind};

use crate::purposes::Purpose;
use fints_script::{Signer, Step, Template};
use fints_syntax_segments::FaultText;
use fints_syntax_texts::after;

// One of each purpose.
const PURPOSES: [Purpose; 9] = [
    Purpose::Reference(1),
    Purpose::Date,
    Purpose::Time,
    Purpose::Pin,
    Purpose::Tan(1),
    Purpose::FurtherSecret,
    Purpose::NewPin,
    Purpose::OrderReference,
    Purpose::Account(0),
];

const MOST_NUMBERED: u64 = 100;

// The number at the end of a name; 0 where it ends with no digit.
fn number_at_end(name: &[u8]) -> u64 {
    let digits = name
        .iter()
        .rposition(|b| !b.is_ascii_digit())
        .map_or(0, |last| last.saturating_add(1));
    let mut number: u64 = 0;
    for b in name.get(digits..).unwrap_or(&[]) {
        number = number
            .saturating_mul(10)
            .saturating_add(u64::from(b.saturating_sub(b'0')));
    }
    number
}

fn is_same(name: &[u8], text: &[u8]) -> bool
    ensures { IsTrue result → name.now ≡ text.now }
{
    name == text
}

// Whether the name is the word and a number.
fn is_numbered(name: &[u8], word: &str) -> bool
    ensures { IsTrue result → IsNumbered word.now name.now }
{
    let number = number_at_end(name);
    if number > MOST_NUMBERED || word.len() > 40 {
        return false;
    }
    is_same(name, FaultText::new(word).number(number).as_bytes())
}

fn is_word(name: &[u8], word: &str) -> bool
    ensures { IsTrue result → IsWord word.now name.now }
{
    is_same(name, word.as_bytes()) || is_numbered(name, word)
}

fn is_bin_word(name: &[u8], word: &str) -> bool
    ensures { IsTrue result → IsBinWord word.now name.now }
{
    match after(name, b"bin") {
        Some(rest) => is_word(rest, word),
        None => false,
    }
}

fn is_name_for(name: &[u8], purpose: Purpose) -> bool
    ensures { IsTrue result → IsNameFor purpose name.now }
{
    let word = purpose.word();
    is_word(name, word) || is_bin_word(name, word)
}

/// Whether it is the name of a field.
pub fn is_field_name(name: &[u8]) -> bool
    ensures { IsTrue result → IsFieldName name.now }
{
    for purpose in PURPOSES {
        if is_name_for(name, purpose) {
            return true;
        }
    }
    is_same(name, b"dialog")
}

/// Whether a signer is named by its number.
pub fn is_signer_named(signer: &Signer) -> bool
    ensures { IsTrue result → IsSignerName signer.now }
{
    is_word(signer.name.as_bytes(), "signer")
}

fn spells_kind(letters: &[u8], templates: &[Template]) -> bool
    ensures { IsTrue result → Any (SpellsKind letters.now) templates.now }
{
    for template in templates {
        if letters.eq_ignore_ascii_case(template.kind.as_bytes()) {
            return true;
        }
    }
    false
}

// Whether the name is the front, or it, a dash and a kind.
fn is_name_after(name: &[u8], front: &[u8], templates: &[Template]) -> bool
    ensures { IsTrue result → IsNameAfter front.now templates.now name.now }
{
    if is_same(name, front) {
        return true;
    }
    let Some(rest) = after(name, front) else {
        return false;
    };
    match after(rest, b"-") {
        Some(letters) => spells_kind(letters, templates),
        None => false,
    }
}

// The number of the message in the name of a step.
fn number_before_dash(name: &[u8]) -> u64 {
    let front = name.split(|b| *b == b'-').next();
    number_at_end(front.unwrap_or(name))
}

/// Whether a step is named by the number of its message, up to the most of a recording, and by the kind of a segment.
pub fn is_step_named(step: &Step, most: usize) -> bool
    ensures { IsTrue result → IsStepName most step.now }
{
    let name = step.name();
    let number = number_before_dash(name.as_bytes());
    if number > most as u64 {
        return false;
    }
    let front = FaultText::new("m").number(number);
    is_name_after(name.as_bytes(), front.as_bytes(), step.templates())
}
