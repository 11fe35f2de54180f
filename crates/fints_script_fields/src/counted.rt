//! The classes whose fields bound the number of bytes.
ghost use Rattle.std.specs.Prelude.{◌≡◌, ◌↔◌, ◌+◌, ◌^◌, ◌<◌, ◌≤◌, IfOk, IfSome, IsSome, IsTrue, length, refl, replicate};
ghost use Rattle.std.specs.Fmt.{decimal};
ghost use Rattle.std.proofs.Common.{arith};
ghost use Rattle.fints_script_fields.specs.declared.counted.TheConstants.{MAX_LEN};
ghost use Rattle.fints_script_fields.specs.Classes.{Counts, IsByte, IsCharacter, as_binary, as_text, longest_character, shortest_character};
ghost use Rattle.fints_script_fields.specs.Lengths.{binary_len, text_len};
ghost use Rattle.fints_script_fields.specs.ClassLaws.{binary_least, binary_most, counted_least, counted_most, longest_has, shortest_has, text_least, text_most};

use crate::alphabet::Alphabet;
use crate::class::FieldClass;
use fints_syntax_segments::{Memory, written_binary_len, written_len};
use std::alloc::Global;

/// The most bytes of a field's value.
pub const MAX_LEN: u16 = 10_000;

fn are_bounds(min: u16, max: u16) -> bool
    ensures { IsTrue result ↔ ((min ≤ max) × (max ≤ MAX_LEN)) }
{
    min <= max && max <= MAX_LEN
}

fn is_within(min: u16, max: u16, value: &[u8]) -> bool
    ensures { IsTrue result ↔ ((min ≤ length value.now) × (length value.now ≤ max)) }
{
    value.len() >= usize::from(min) && value.len() <= usize::from(max)
}

/// `count` times the byte.
fn repeated(alloc: Global, b: u8, count: u16) -> Result<Vec<u8>, Memory>
    ensures { IfOk result (λ v. v.items ≡ replicate count b) }
{
    let bytes = vec![in alloc; b; usize::from(count)]?;
    Ok(bytes)
}

/// Texts of one alphabet, `min` to `max` bytes.
#[derive(Clone, Copy)]
pub struct Text {
    pub alphabet: Alphabet,
    pub min: u16,
    pub max: u16,
    pub ghost ordered: { min ≤ max },
    pub ghost short: { max ≤ MAX_LEN },
}

impl Text {
    /// A field of `min` to `max` bytes.
    pub fn new(alphabet: Alphabet, min: u16, max: u16) -> Option<Text>
        ensures some { IsSome result ↔ ((min ≤ max) × (max ≤ MAX_LEN)) }
        ensures kept { IfSome result (λ c. (c.alphabet ≡ alphabet) × (c.min ≡ min) × (c.max ≡ max)) }
    {
        if !are_bounds(min, max) {
            return None;
        }
        Some(Text { alphabet, min, max })
    }
}

impl FieldClass for Text {
    ghost domain = { λ c v. Counts (IsCharacter c.alphabet) c.min c.max v };

    ghost items_of = { λ c v. as_text v };

    ghost written = { λ c v. text_len v };

    ghost longest = { λ c. replicate c.max (longest_character c.alphabet) };

    ghost shortest = { λ c. replicate c.min (shortest_character c.alphabet) };

    fn admits(&self, value: &[u8]) -> bool {
        let alphabet = self.alphabet;
        is_within(self.min, self.max, value) && value.iter().all(|b| alphabet.has(*b))
    }

    fn longest(&self, alloc: Global) -> Result<Vec<u8>, Memory> {
        repeated(alloc, self.alphabet.longest(), self.max)
    }

    fn shortest(&self, alloc: Global) -> Result<Vec<u8>, Memory> {
        repeated(alloc, self.alphabet.shortest(), self.min)
    }

    fn written(&self, value: &[u8]) -> u64 {
        written_len(value)
    }

    #[tactic(auto, using(crate::specs::ClassLaws::text_len_capitals, crate::specs::ClassLaws::text_len_marks, crate::specs::ClassLaws::text_len_nines))]
    fn longest_written(&self) -> u64 {
        match self.alphabet {
            Alphabet::Digits | Alphabet::Plain => u64::from(self.max),
            Alphabet::Latin => 2 * u64::from(self.max),
        }
    }

    ghost longest_admitted = { λ c.
        counted_most (IsCharacter c.alphabet) c.min c.max (longest_character c.alphabet)
        (longest_has c.alphabet) c.ordered };

    ghost shortest_admitted = { λ c.
        counted_least (IsCharacter c.alphabet) c.min c.max (shortest_character c.alphabet)
        (shortest_has c.alphabet) c.ordered };

    ghost some_item = { λ c v h. Prim.omega arith };

    ghost written_as_items = { λ c v h. refl };

    ghost none_longer = { λ c v h. text_most c.alphabet c.min c.max v h };

    ghost none_shorter = { λ c v h. text_least c.alphabet c.min c.max v h };
}

/// Bytes, `min` to `max` of them and at least one, written as a binary item.
#[derive(Clone, Copy)]
pub struct Bin {
    pub min: u16,
    pub max: u16,
    pub ghost ordered: { min ≤ max },
    pub ghost short: { max ≤ MAX_LEN },
    pub ghost some: { 1 ≤ min },
}

impl Bin {
    /// A field of `min` to `max` bytes.
    pub fn new(min: u16, max: u16) -> Option<Bin>
        ensures some { IsSome result ↔ ((1 ≤ min) × (min ≤ max) × (max ≤ MAX_LEN)) }
        ensures bounds { IfSome result (λ c. (c.min ≡ min) × (c.max ≡ max)) }
    {
        if min == 0 || !are_bounds(min, max) {
            return None;
        }
        Some(Bin { min, max })
    }
}

impl FieldClass for Bin {
    ghost domain = { λ c v. Counts IsByte c.min c.max v };

    ghost items_of = { λ c v. as_binary v };

    ghost written = { λ c v. binary_len v };

    ghost longest = { λ c. replicate c.max 255 };

    ghost shortest = { λ c. replicate c.min 0 };

    fn admits(&self, value: &[u8]) -> bool {
        is_within(self.min, self.max, value)
    }

    fn longest(&self, alloc: Global) -> Result<Vec<u8>, Memory> {
        repeated(alloc, 255, self.max)
    }

    fn shortest(&self, alloc: Global) -> Result<Vec<u8>, Memory> {
        repeated(alloc, 0, self.min)
    }

    #[tactic(auto, using(crate::specs::ClassLaws::binary_length))]
    fn written(&self, value: &[u8]) -> u64 {
        written_binary_len(value.len() as u64)
    }

    #[tactic(auto, using(crate::specs::ClassLaws::binary_length))]
    fn longest_written(&self) -> u64 {
        written_binary_len(u64::from(self.max))
    }

    ghost longest_admitted = { λ c. counted_most IsByte c.min c.max 255 (Prim.omega arith) c.ordered };

    ghost shortest_admitted = { λ c. counted_least IsByte c.min c.max 0 (Prim.omega arith) c.ordered };

    ghost some_item = { λ c v h. Prim.omega arith };

    ghost written_as_items = { λ c v h. refl };

    ghost none_longer = { λ c v h. binary_most c.min c.max v c.short h };

    ghost none_shorter = { λ c v h. binary_least c.min c.max v c.short h };
}
