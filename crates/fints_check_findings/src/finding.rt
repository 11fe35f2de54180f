//! Findings, and the figures of reached steps.
ghost use Rattle.std.specs.Prelude.{◌≡◌};

use fints_rules::{Figures, Rule};

/// A rule that some run breaks: at which step, counted from 1, and at which segment, by its number
/// in the message; 0 is the whole message.
#[derive(Clone, Copy, PartialEq, Eq)]
pub struct Finding {
    pub step: u16,
    pub rule: Rule,
    pub segment: u16,
}

/// The greatest number and the greatest length in bytes of a step's messages.
#[derive(Clone, Copy, PartialEq, Eq)]
pub struct Reached {
    pub number: u32,
    pub size: u64,
}

impl Reached {
    ghost use Rattle.fints_check_findings.specs.Figures.{reached_figures};

    /// What P2 and P3 ask of a message of this number and length.
    pub fn figures(self) -> Figures
        ensures { result ≡ reached_figures self }
    {
        Figures {
            number: u64::from(self.number),
            size: self.size,
        }
    }
}
