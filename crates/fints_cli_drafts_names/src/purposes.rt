//! What the values of a draft's fields are: what a client makes new for each message, its secrets (FinTS 3.0,
//! Formals, HNSHK and HNSHA; Security PIN/TAN, HNSHA, HKPAE and HKTAN), and the accounts of orders.
ghost use Rattle.std.specs.Prelude.{◌≡◌};
ghost use Rattle.fints_cli_drafts_names.specs.Names.{word_of};

use fints_script_fields::Alphabet;

/// What the value of a field is. A signature has the place of its HNSHK among those of a message, from 1.
#[derive(Clone, Copy, PartialEq, Eq)]
pub enum Purpose {
    /// The control reference of a signature.
    Reference(usize),
    Date,
    Time,
    Pin,
    /// The TAN of a signature.
    Tan(usize),
    /// What comes after PIN and TAN, which the standard doesn't know.
    FurtherSecret,
    NewPin,
    /// The bank's reference of an order.
    OrderReference,
    /// An account of a list, by the place of the list among all, from 0.
    Account(usize),
}

impl Purpose {
    /// Whether it is a secret.
    pub fn is_secret(self) -> bool {
        matches!(
            self,
            Purpose::Pin | Purpose::Tan(_) | Purpose::FurtherSecret | Purpose::NewPin
        )
    }

    /// Whether one field serves for all its values, so that a run sends the first of them in each message.
    pub fn has_one_field(self, binary: bool) -> bool {
        match self {
            Purpose::Pin | Purpose::FurtherSecret | Purpose::NewPin | Purpose::Account(_) => false,
            _ => !binary,
        }
    }

    /// The word in the name of its field.
    pub fn word(self) -> &'static str
        ensures { result.now ≡ word_of self }
    {
        match self {
            Purpose::Reference(_) => "ref",
            Purpose::Date => "date",
            Purpose::Time => "time",
            Purpose::Pin => "pin",
            Purpose::Tan(_) => "tan",
            Purpose::FurtherSecret => "secret",
            Purpose::NewPin => "newpin",
            Purpose::OrderReference => "orderref",
            Purpose::Account(_) => "account",
        }
    }

    /// The class of its field where it was sent as a text, and the least and the most bytes of a value. They
    /// are those of the standard: nothing in them comes from a recorded value. An account has the length of a
    /// listed one.
    pub fn bounds(self) -> (&'static str, usize, usize) {
        match self {
            Purpose::Reference(_) => ("text", 1, 14),
            Purpose::Date => ("digits", 8, 8),
            Purpose::Time => ("digits", 6, 6),
            Purpose::Pin | Purpose::Tan(_) | Purpose::FurtherSecret | Purpose::NewPin => {
                ("text", 1, 99)
            }
            Purpose::OrderReference => ("text", 1, 35),
            Purpose::Account(_) => ("account", 1, usize::MAX),
        }
    }

    /// Whether its field can have these bytes as its value.
    pub fn admits(self, binary: bool, value: &[u8]) -> bool {
        let (class, least, most) = self.bounds();
        let alphabet = if class == "digits" {
            Alphabet::Digits
        } else {
            Alphabet::Latin
        };
        let is_spelled = if binary {
            self.is_secret()
        } else {
            value.iter().all(|b| alphabet.has(*b))
        };
        is_spelled && least <= value.len() && value.len() <= most
    }
}
