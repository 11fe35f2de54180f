//! Patterns of feedback codes.
ghost use Rattle.std.specs.Prelude.{◌≡◌, ◌<◌, ◌≤◌, ◌==◌, IsTrue, MatchOption, get_or};
ghost use Rattle.std.specs.List.{list_all, list_any, zip};
ghost use Rattle.fints_script_cases.specs.CodeBlocks.{MatchesByBlocks, MissesBlock, size_at, has_digit};
ghost use Rattle.fints_script_cases.specs.Patterns.{is_pattern, is_place, pattern_in, fits, code_text, matches};

use fints_params::Code;
use std::marker::Model;

/// A pattern of codes: four characters, each a digit or `*`; a contract sees the characters.
#[derive(Clone, Copy, PartialEq, Eq)]
pub struct Pattern {
    places: [u8; 4],
}

impl Model for Pattern {
    ghost use Rattle.std.specs.Prelude.{ℕ, List, IsTrue};

    ghost Value = { List ℕ };

    ghost use Rattle.fints_script_cases.specs.Patterns.{is_pattern};

    ghost view = { λ p. p.places };

    ghost invariant = { λ p. IsTrue (is_pattern p.places) };

    ghost inverse = { λ text. record { places = text } };
}

fn is_place(c: u8) -> bool
    ensures { result ≡ is_place c }
{
    c.is_ascii_digit() || c == b'*'
}

fn place_fits(place: u8, digit: u8) -> bool
    ensures { result ≡ fits place digit }
{
    place == b'*' || place == digit
}

fn all_fit(places: &[u8], digits: &[u8]) -> bool
    ensures { result ≡ list_all (λ p. fits p.0 p.1) (zip places.now digits.now) }
{
    places
        .iter()
        .zip(digits.iter())
        .all(|(place, digit)| place_fits(*place, *digit))
}

/// The four digits of a code, as characters.
pub fn digits_of(code: Code) -> [u8; 4]
    ensures digits { result ≡ code_text code }
    ensures small { code < 10000 }
{
    let number = code.number();
    [
        b'0' + (number / 1000) as u8,
        b'0' + (number / 100 % 10) as u8,
        b'0' + (number / 10 % 10) as u8,
        b'0' + (number % 10) as u8,
    ]
}

/// How many codes have the same digits up to a place, which counts from 0.
pub fn size_at(place: usize) -> u16
    ensures size { result ≡ size_at place }
    ensures some { 1 ≤ result }
    ensures most { result ≤ 1000 }
{
    match place {
        0 => 1000,
        1 => 100,
        2 => 10,
        _ => 1,
    }
}

/// A place of a pattern that is not the last, counted from 0.
#[derive(Clone, Copy)]
pub struct EarlierPlace {
    pub index: usize,
    pub ghost within: { index < 3 },
}

impl Pattern {
    /// The pattern that the characters are, if they are one.
    pub fn parse(text: &[u8]) -> Option<Pattern>
        ensures { result ≡ pattern_in text.now }
    {
        match text {
            [a, b, c, d] if is_place(*a) && is_place(*b) && is_place(*c) && is_place(*d) => {
                Some(Pattern {
                    places: [*a, *b, *c, *d],
                })
            }
            _ => None,
        }
    }

    /// Its four characters.
    pub fn as_bytes(&self) -> &[u8]
        ensures text { result.now ≡ self.now }
        ensures pattern { IsTrue (is_pattern self.now) }
    {
        &self.places
    }

    /// Whether each place is `*` or has the digit there.
    pub(crate) fn fits(&self, digits: &[u8; 4]) -> bool
        ensures { result ≡ list_all (λ p. fits p.0 p.1) (zip self.now digits.now) }
    {
        all_fit(&self.places, digits)
    }

    /// Whether each place is `*` or has the code's digit.
    pub fn matches(&self, code: Code) -> bool
        ensures { result ≡ matches self.now code }
    {
        all_fit(&self.places, &digits_of(code))
    }

    /// Whether it matches some of the codes.
    pub fn matches_any(&self, codes: &[Code]) -> bool
        ensures { result ≡ list_any (matches self.now) codes.now }
    {
        codes.iter().any(|code| self.matches(*code))
    }

    /// Whether it has `*` at a place.
    pub(crate) fn is_free(&self, place: EarlierPlace) -> bool
        ensures { result ≡ (get_or self.now place.index 0 == 42) }
    {
        self.places[place.index] == b'*'
    }

    /// Whether it fits the digits before a place, and has this digit there.
    pub(crate) fn has_digit(&self, digits: [u8; 4], place: EarlierPlace, digit: u8) -> bool
        ensures { result ≡ has_digit self.now digits place.index digit }
    {
        let place = place.index;
        all_fit(&self.places[..place], &digits[..place]) && self.places[place] == digit
    }

    /// The size of the blocks of codes: of the codes in one block it matches all or none.
    pub(crate) fn block(&self) -> u16
        ensures some { 1 ≤ result }
        ensures most { result ≤ 10000 }
        ensures alike { MatchesByBlocks self.now result }
    {
        if self.places[3] != b'*' {
            return 1;
        }
        if self.places[2] != b'*' {
            return 10;
        }
        if self.places[1] != b'*' {
            return 100;
        }
        if self.places[0] != b'*' {
            return 1000;
        }
        10000
    }

    /// The size of the block about the code in which it matches none, if it doesn't match the code.
    pub(crate) fn missed(&self, code: Code) -> Option<u16>
        ensures { MatchOption result
            (IsTrue (matches self.now code))
            (λ size. (1 ≤ size) × (size ≤ 10000) × MissesBlock self.now code size) }
    {
        let digits = digits_of(code);
        for place in 0..4 {
            if !place_fits(self.places[place], digits[place]) {
                return Some(size_at(place));
            }
        }
        None
    }
}
