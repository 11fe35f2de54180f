//! What a class of fields is.
ghost use Rattle.std.specs.Prelude.{◌≡◌, ◌↔◌, ◌<◌, ◌≤◌, ℕ, IfOk, IsTrue, List, length};
ghost use Rattle.fints_syntax_segments.specs.declared.item.OwnedItem.{OwnedItem};
ghost use Rattle.fints_script_fields.specs.Joined.{joined};

use fints_syntax_segments::Memory;
use std::alloc::Global;

/// A class of fields: which values a field admits, and how long they are written.
pub trait FieldClass {
    // the values that it admits
    ghost domain: { Self → List ℕ → Type 0 };

    // the items that a value has
    ghost items_of: { Self → List ℕ → List OwnedItem };

    // how many bytes a value takes when it is written
    ghost written: { Self → List ℕ → ℕ };

    ghost longest: { Self → List ℕ };

    ghost shortest: { Self → List ℕ };

    /// Whether the value is one of the field's.
    fn admits(&self, value: &[u8]) -> bool
        ensures { IsTrue result ↔ domain self.now value.now };

    /// A value of greatest written length.
    fn longest(&self, alloc: Global) -> Result<Vec<u8>, Memory>
        ensures { IfOk result (λ v. v.items ≡ longest self.now) };

    /// A value of least written length.
    fn shortest(&self, alloc: Global) -> Result<Vec<u8>, Memory>
        ensures { IfOk result (λ v. v.items ≡ shortest self.now) };

    /// How many bytes the value takes when it is written as the field's element.
    fn written(&self, value: &[u8]) -> u64
        ensures { result ≡ written self.now value.now };

    /// How many bytes the longest value takes when it is written.
    fn longest_written(&self) -> u64
        ensures { result ≡ written self.now (longest self.now) };

    ghost longest_admitted: { (c : Self) → domain c (longest c) };

    ghost shortest_admitted: { (c : Self) → domain c (shortest c) };

    // a value has one item at least
    ghost some_item: { (c : Self) (v : List ℕ) → domain c v → 0 < length (items_of c v) };

    // it is written as these items
    ghost written_as_items: { (c : Self) (v : List ℕ) → domain c v
        → written c v ≡ length (joined (items_of c v)) };

    ghost none_longer: { (c : Self) (v : List ℕ) → domain c v → written c v ≤ written c (longest c) };

    ghost none_shorter: { (c : Self) (v : List ℕ) → domain c v → written c (shortest c) ≤ written c v };
}
