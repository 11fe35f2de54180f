//! The classes of digits, and of letters and digits.
ghost use Rattle.std.specs.Prelude.{◌≡◌, ◌↔◌, ◌≤◌, IfSome, IsSome, refl, replicate};
ghost use Rattle.std.proofs.Common.{arith};
ghost use Rattle.fints_script_fields.specs.declared.alphabet.Alphabet.TheVariants as alphabets;
ghost use Rattle.fints_script_fields.specs.declared.counted.TheConstants.{MAX_LEN};
ghost use Rattle.fints_script_fields.specs.Classes.{Counts, IsCharacter, as_text};
ghost use Rattle.fints_script_fields.specs.Lengths.{text_len};
ghost use Rattle.fints_script_fields.specs.ClassLaws.{counted_least, counted_most, longest_has, shortest_has, text_least, text_most};

use crate::alphabet::Alphabet;
use crate::class::FieldClass;
use crate::counted::Text;
use fints_syntax_segments::Memory;
use std::alloc::Global;

/// Digits, `min` to `max` of them.
#[derive(Clone, Copy)]
pub struct Digits {
    pub min: u16,
    pub max: u16,
    pub ghost ordered: { min ≤ max },
    pub ghost short: { max ≤ MAX_LEN },
}

impl Digits {
    /// A field of `min` to `max` bytes.
    pub fn new(min: u16, max: u16) -> Option<Digits>
        ensures some { IsSome result ↔ ((min ≤ max) × (max ≤ MAX_LEN)) }
        ensures bounds { IfSome result (λ c. (c.min ≡ min) × (c.max ≡ max)) }
    {
        match Text::new(Alphabet::Digits, min, max) {
            Some(_) => Some(Digits { min, max }),
            None => None,
        }
    }

    /// The class as one of texts.
    pub fn text(self) -> Text
        ensures { (result.alphabet ≡ alphabets.Digits) × (result.min ≡ self.min) × (result.max ≡ self.max) }
    {
        Text {
            alphabet: Alphabet::Digits,
            min: self.min,
            max: self.max,
        }
    }
}

impl FieldClass for Digits {
    ghost domain = { λ c v. Counts (IsCharacter alphabets.Digits) c.min c.max v };

    ghost items_of = { λ c v. as_text v };

    ghost written = { λ c v. text_len v };

    ghost longest = { λ c. replicate c.max 57 };

    ghost shortest = { λ c. replicate c.min 48 };

    fn admits(&self, value: &[u8]) -> bool {
        self.text().admits(value)
    }

    fn longest(&self, alloc: Global) -> Result<Vec<u8>, Memory> {
        self.text().longest(alloc)
    }

    fn shortest(&self, alloc: Global) -> Result<Vec<u8>, Memory> {
        self.text().shortest(alloc)
    }

    fn written(&self, value: &[u8]) -> u64 {
        self.text().written(value)
    }

    fn longest_written(&self) -> u64 {
        self.text().longest_written()
    }

    ghost longest_admitted = { λ c.
        counted_most (IsCharacter alphabets.Digits) c.min c.max 57 (longest_has alphabets.Digits) c.ordered };

    ghost shortest_admitted = { λ c.
        counted_least (IsCharacter alphabets.Digits) c.min c.max 48
        (shortest_has alphabets.Digits) c.ordered };

    ghost some_item = { λ c v h. Prim.omega arith };

    ghost written_as_items = { λ c v h. refl };

    ghost none_longer = { λ c v h. text_most alphabets.Digits c.min c.max v h };

    ghost none_shorter = { λ c v h. text_least alphabets.Digits c.min c.max v h };
}

/// Letters A to Z and a to z, and digits, `min` to `max` of them.
#[derive(Clone, Copy)]
pub struct Plain {
    pub min: u16,
    pub max: u16,
    pub ghost ordered: { min ≤ max },
    pub ghost short: { max ≤ MAX_LEN },
}

impl Plain {
    /// A field of `min` to `max` bytes.
    pub fn new(min: u16, max: u16) -> Option<Plain>
        ensures some { IsSome result ↔ ((min ≤ max) × (max ≤ MAX_LEN)) }
        ensures bounds { IfSome result (λ c. (c.min ≡ min) × (c.max ≡ max)) }
    {
        match Text::new(Alphabet::Plain, min, max) {
            Some(_) => Some(Plain { min, max }),
            None => None,
        }
    }

    /// The class as one of texts.
    pub fn text(self) -> Text
        ensures { (result.alphabet ≡ alphabets.Plain) × (result.min ≡ self.min) × (result.max ≡ self.max) }
    {
        Text {
            alphabet: Alphabet::Plain,
            min: self.min,
            max: self.max,
        }
    }
}

impl FieldClass for Plain {
    ghost domain = { λ c v. Counts (IsCharacter alphabets.Plain) c.min c.max v };

    ghost items_of = { λ c v. as_text v };

    ghost written = { λ c v. text_len v };

    ghost longest = { λ c. replicate c.max 90 };

    ghost shortest = { λ c. replicate c.min 65 };

    fn admits(&self, value: &[u8]) -> bool {
        self.text().admits(value)
    }

    fn longest(&self, alloc: Global) -> Result<Vec<u8>, Memory> {
        self.text().longest(alloc)
    }

    fn shortest(&self, alloc: Global) -> Result<Vec<u8>, Memory> {
        self.text().shortest(alloc)
    }

    fn written(&self, value: &[u8]) -> u64 {
        self.text().written(value)
    }

    fn longest_written(&self) -> u64 {
        self.text().longest_written()
    }

    ghost longest_admitted = { λ c.
        counted_most (IsCharacter alphabets.Plain) c.min c.max 90 (longest_has alphabets.Plain) c.ordered };

    ghost shortest_admitted = { λ c.
        counted_least (IsCharacter alphabets.Plain) c.min c.max 65 (shortest_has alphabets.Plain) c.ordered };

    ghost some_item = { λ c v h. Prim.omega arith };

    ghost written_as_items = { λ c v h. refl };

    ghost none_longer = { λ c v h. text_most alphabets.Plain c.min c.max v h };

    ghost none_shorter = { λ c v h. text_least alphabets.Plain c.min c.max v h };
}
