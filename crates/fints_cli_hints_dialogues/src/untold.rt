//! Why a recording has no parameters for one of its messages.
use fints_cli_hints_words::places::{HintText, say};
use fints_cli_hints_words::quoting::Sample;
use fints_rules_dialogues::{Heard, Party};
use fints_syntax::Memory;
use std::alloc::Global;
use std::fmt;
use std::fmt::{Display, Formatter, Write};

const ADVICE: &str =
    "has both HIBPA version 3 and HIPINS version 1, the bank's parameters: record the dialogue from its initialisation on, or hand over a capture by --params";

// The bank of the message of a number sends no parameters, and another bank does.
#[derive(Clone, Copy)]
struct OtherBank<'a> {
    number: usize,
    party: &'a Party,
}

impl Display for OtherBank<'_> {
    fn fmt<W: Write>(&self, f: &mut Formatter<W>) -> fmt::Result {
        let country = Sample(self.party.country.as_slice());
        let code = Sample(self.party.code.as_slice());
        let number = self.number;
        write!(
            f,
            "message {number} is for the bank of country {country} and code {code} (HKIDN, element 2), and no answer in a dialogue with it {ADVICE}"
        )
    }
}

// What names a bank.
fn bank_of<'h>(heard: &'h Heard<'_>) -> (&'h [u8], &'h [u8]) {
    let party = heard.party();
    (party.country.as_slice(), party.code.as_slice())
}

// The banks that send their parameters, in order.
fn banks_told<'h>(
    alloc: Global,
    heard: &'h [Heard<'_>],
) -> Result<Vec<(&'h [u8], &'h [u8])>, Memory> {
    let mut banks = Vec::new(alloc);
    for one in heard {
        if one.bank().is_some() {
            banks.push(bank_of(one))?;
        }
    }
    banks.sort_unstable();
    Ok(banks)
}

// The first message whose bank sends no parameters, where another one does.
fn first_untold<'h>(
    alloc: Global,
    heard: &'h [Heard<'_>],
) -> Result<Option<OtherBank<'h>>, Memory> {
    let banks = banks_told(alloc, heard)?;
    if banks.is_empty() {
        return Ok(None);
    }
    for (i, one) in heard.iter().enumerate() {
        if banks.binary_search(&bank_of(one)).is_err() {
            return Ok(Some(OtherBank {
                number: i + 1,
                party: one.party(),
            }));
        }
    }
    Ok(None)
}

/// Why the parameters are missing by which a message of the recording is to be judged, by what its answers say.
pub fn parameters_hint(alloc: Global, heard: &[Heard<'_>]) -> HintText {
    match first_untold(alloc, heard)? {
        Some(other) => say(alloc, other),
        None => say(alloc, format_args!("no answer {ADVICE}")),
    }
}
