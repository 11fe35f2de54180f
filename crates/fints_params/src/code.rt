//! The codes of feedback.
ghost use Rattle.std.specs.Prelude.{◌≡◌, ◌<◌, SomeIff};
ghost use Rattle.fints_params.specs.Feedback.{code_in};

use std::marker::Model;

/// A code of feedback, 0 to 9,999; a contract sees the number. 0 to 999 mean success, 3,000 to
/// 3,999 a warning, 9,000 to 9,999 an error (FinTS 3.0, Formals, feedback).
#[derive(Clone, Copy, PartialEq, Eq, Hash)]
pub struct Code {
    number: u16,
}

impl Model for Code {
    ghost use Rattle.std.specs.Prelude.{ℕ, ◌<◌, ◌^◌};

    ghost Value = { ℕ };

    ghost view = { λ c. c.number };

    ghost invariant = { λ c. c.number < 10000 };

    ghost inverse = { λ n. record { number = n } };
}

impl Code {
    /// The code that exactly four digits spell.
    pub fn parse(text: &[u8]) -> Option<Code>
        ensures { result ≡ code_in text.now }
    {
        match text {
            [a, b, c, d] => {
                if a.is_ascii_digit()
                    && b.is_ascii_digit()
                    && c.is_ascii_digit()
                    && d.is_ascii_digit()
                {
                    let high = u16::from(*a - b'0') * 1000 + u16::from(*b - b'0') * 100;
                    let low = u16::from(*c - b'0') * 10 + u16::from(*d - b'0');
                    return Some(Code { number: high + low });
                }
                None
            }
            _ => None,
        }
    }

    /// The code of a number, if there is one.
    pub fn from_number(number: u16) -> Option<Code>
        ensures { SomeIff result (number < 10000) number }
    {
        if number < 10000 {
            Some(Code { number })
        } else {
            None
        }
    }

    /// What each code keeps.
    pub fn keeps(&self)
        ensures { self.now < 10000 }
    {
        let _ = &self.number;
    }

    /// The number of the code.
    pub fn number(&self) -> u16
        ensures number { result ≡ self.now }
        ensures small { result < 10000 }
    {
        self.number
    }
}
