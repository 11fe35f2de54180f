//! What is wrong with a script.
ghost use Rattle.std.specs.Prelude.{◌≡◌, ◌≤◌, length, Some};
ghost use Rattle.fints_script_rows.specs.FaultText.{kind_name, script_text};
ghost use Rattle.fints_script_rows.specs.Rows.{place_text};
ghost use Rattle.fints_script_rows.specs.declared.fault.FaultKind.TheVariants as kinds;
ghost use Rattle.fints_script_rows.specs.declared.fault.Place.TheVariants as places;

use fints_syntax_segments::{FaultText, Memory};
use std::alloc::{AllocError, AllocFailed};
use std::fmt;
use std::fmt::{Display, Formatter, Write};
use thiserror::Error;

/// What is wrong, in the order in which the kinds are tried in one place.
#[derive(Clone, Copy, Debug, PartialEq, Eq)]
pub enum FaultKind {
    /// An allocation was refused; the place is `Top`.
    Memory,
    /// No TOML, or refused by `toml` for another cause than memory; the place is `Top`.
    NotToml,
    /// A key that its place doesn't have.
    UnknownKey,
    /// A required key is absent, or a sealed step is in a script without a seal.
    Missing,
    /// A value of another TOML type, a bad name, class or identifier, an empty array as an element,
    /// an empty `segments` or `step`, an account of no or more than 6 texts, or an account field
    /// where it may not be.
    WrongKind,
    /// A text with a character that is not one byte of ISO 8859-1, or is a control.
    NotLatin1,
    /// After `%` an odd number of hex digits, or another character.
    BadHex,
    /// A name or a listed value that is there already.
    Duplicate,
    /// No field, signer or step has the name.
    NoSuchName,
    /// A target that is the step itself by name, or an earlier step.
    BackwardJump,
    /// A pattern that isn't four characters, each a digit or `*`.
    BadPattern,
    /// A number outside its range, `min` over `max`, a `bin` with `min` 0, an empty `values`, or
    /// too many or too long entries.
    Limit,
}

impl FaultKind {
    /// The name, as it is printed.
    pub fn name(self) -> &'static str
        ensures name { result.now ≡ kind_name self }
        ensures short { length result.now ≤ 12 }
    {
        match self {
            FaultKind::Memory => "Memory",
            FaultKind::NotToml => "NotToml",
            FaultKind::UnknownKey => "UnknownKey",
            FaultKind::Missing => "Missing",
            FaultKind::WrongKind => "WrongKind",
            FaultKind::NotLatin1 => "NotLatin1",
            FaultKind::BadHex => "BadHex",
            FaultKind::Duplicate => "Duplicate",
            FaultKind::NoSuchName => "NoSuchName",
            FaultKind::BackwardJump => "BackwardJump",
            FaultKind::BadPattern => "BadPattern",
            FaultKind::Limit => "Limit",
        }
    }
}

impl From<Memory> for FaultKind {
    ghost from_gives = { λ _ kind. kind ≡ kinds.Memory };

    fn from(_e: Memory) -> FaultKind {
        FaultKind::Memory
    }
}

impl<T: Drop> From<AllocFailed<T>> for FaultKind {
    ghost from_gives = { λ _ kind. kind ≡ kinds.Memory };

    fn from(_e: AllocFailed<T>) -> FaultKind {
        FaultKind::from(Memory)
    }
}

/// Where a fault is; rows count from 1.
#[derive(Clone, Copy, Debug, PartialEq, Eq)]
pub enum Place {
    Top,
    Field(u16),
    Signer(u16),
    Seal,
    Step(u16),
}

impl Place {
    /// What it is, and which.
    pub fn text(&self) -> FaultText
        ensures text { result ≡ place_text self.now }
        ensures short { length result ≤ 27 }
    {
        match self {
            Place::Top => FaultText::new("top"),
            Place::Field(row) => FaultText::new("field ").number(u64::from(*row)),
            Place::Signer(row) => FaultText::new("signer ").number(u64::from(*row)),
            Place::Seal => FaultText::new("seal"),
            Place::Step(row) => FaultText::new("step ").number(u64::from(*row)),
        }
    }
}

impl Display for Place {
    ghost output = { λ place. Some (place_text place) };

    fn fmt<W: Write>(&self, f: &mut Formatter<W>) -> fmt::Result {
        f.write_str(self.text().as_str())
    }
}

/// A fault of a script, at its place.
#[derive(Clone, Copy, Debug, PartialEq, Eq, Error)]
#[error("{}", self.text())]
pub struct ScriptFault {
    pub kind: FaultKind,
    pub place: Place,
}

impl ScriptFault {
    /// What is wrong, and where.
    pub fn text(&self) -> FaultText
        ensures text { result ≡ script_text self.now }
        ensures short { length result ≤ 40 }
    {
        FaultText::new(self.kind.name())
            .and(" ")
            .and(self.place.text().as_str())
    }
}

impl From<Memory> for ScriptFault {
    ghost from_gives = { λ _ f. f ≡ record { kind = kinds.Memory; place = places.Top } };

    fn from(_e: Memory) -> ScriptFault {
        ScriptFault {
            kind: FaultKind::Memory,
            place: Place::Top,
        }
    }
}

impl From<AllocError> for ScriptFault {
    ghost from_gives = { λ _ f. f ≡ record { kind = kinds.Memory; place = places.Top } };

    fn from(_e: AllocError) -> ScriptFault {
        ScriptFault::from(Memory)
    }
}

impl<T: Drop> From<AllocFailed<T>> for ScriptFault {
    ghost from_gives = { λ _ f. f ≡ record { kind = kinds.Memory; place = places.Top } };

    fn from(_e: AllocFailed<T>) -> ScriptFault {
        ScriptFault::from(Memory)
    }
}
