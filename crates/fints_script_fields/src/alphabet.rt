//! The alphabets of texts.
ghost use Rattle.std.specs.Prelude.{◌≡◌, ◌↔◌, IsTrue};
ghost use Rattle.fints_script_fields.specs.Classes.{IsCharacter, longest_character, shortest_character};

/// The characters of a text, one byte each.
#[derive(Clone, Copy)]
pub enum Alphabet {
    /// 0 to 9.
    Digits,
    /// A to Z, a to z and 0 to 9.
    Plain,
    /// Those of ISO 8859-1 that are no controls: 20 to 7E and A0 to FF.
    Latin,
}

impl Alphabet {
    /// Whether the byte is a character of the alphabet.
    pub fn has(self, b: u8) -> bool
        ensures { IsTrue result ↔ IsCharacter self b }
    {
        match self {
            Alphabet::Digits => b.is_ascii_digit(),
            Alphabet::Plain => b.is_ascii_alphanumeric(),
            Alphabet::Latin => (b' '..=b'~').contains(&b) || b >= 160,
        }
    }

    /// A character of greatest written length.
    pub fn longest(self) -> u8
        ensures { result ≡ longest_character self }
    {
        match self {
            Alphabet::Digits => b'9',
            Alphabet::Plain => b'Z',
            Alphabet::Latin => b'?',
        }
    }

    /// A character of least written length.
    pub fn shortest(self) -> u8
        ensures { result ≡ shortest_character self }
    {
        match self {
            Alphabet::Digits => b'0',
            Alphabet::Plain | Alphabet::Latin => b'A',
        }
    }
}
