//! Listed values, and the greatest and least among them.
ghost use Rattle.std.specs.Prelude.{◌≡◌, ◌≢◌, ◌↔◌, ◌<◌, ℕ, IfOk, IsTrue, List, OnOk, ◌++◌, length};
ghost use Rattle.fints_syntax_segments.specs.Spelling.{written};
ghost use Rattle.fints_syntax_segments.specs.declared.item.OwnedItem.TheVariants.{Text};
ghost use Rattle.std.specs.List.{AllPairs, Contains};
ghost use Rattle.fints_script_fields.specs.Listed.{IsListed, account_text, first_longest, first_shortest};

use fints_syntax_segments::{Bytes, Memory, OwnedItem, write_item, written_len};
use std::alloc::Global;
use std::collections::BTreeSet;
use std::marker::Model;

/// A listed value: its text, and the size by which it is compared.
pub trait Listed {
    ghost text: { Self → List ℕ };

    ghost size: { Self → ℕ };

    ghost count: { Self → ℕ };

    ghost told: { (a b : Self) → text a ≡ text b → count a ≡ count b → a ≡ b };

    fn text(&self) -> &[u8]
        ensures { result.now ≡ text self.now };

    /// How many items it has. With the text they determine the value.
    fn count(&self) -> usize
        ensures { result ≡ count self.now };

    fn size(&self) -> u64
        ensures { result ≡ size self.now };

    fn is_same(&self, other: &Self) -> bool
        ensures { IsTrue result ↔ (self.now ≡ other.now) };
}

/// Whether a listed value has this text.
pub fn is_listed<T: Listed>(values: &[T], value: &[u8]) -> bool
    ensures { IsTrue result ↔ IsListed T.text values.now value.now }
{
    for v in values {
        if v.text() == value {
            return true;
        }
    }
    false
}

/// Whether the value is among those.
fn is_among<T: Listed>(values: &[T], value: &T) -> bool
    ensures { IsTrue result ↔ Contains values.now value.now }
{
    values.iter().any(|v| v.is_same(value))
}

/// Whether no two of these are equal, where they are few: each is compared with all before it.
pub fn are_few_distinct<T: Listed>(values: &[T]) -> bool
    ensures { IsTrue result ↔ AllPairs (λ u v. u ≢ v) values.now }
{
    for i in 0..values.len() {
        if is_among(&values[..i], &values[i]) {
            return false;
        }
    }
    true
}

/// Whether no two values are equal, however many there are: each is looked up among those before it
/// by its text.
pub fn are_distinct<T: Listed>(alloc: Global, values: &[T]) -> Result<bool, Memory>
    ensures { IfOk result (λ distinct. IsTrue distinct ↔ AllPairs (λ u v. u ≢ v) values.now) }
{
    let mut seen = BTreeSet::new(alloc);
    for value in values {
        let fresh = seen.insert((value.text(), value.count()))?;
        if !fresh {
            return Ok(false);
        }
    }
    Ok(true)
}

/// The first of greatest size.
pub fn longest_of<T: Listed>(values: &[T]) -> &T
    requires { 0 < length values.now }
    ensures { (none : T) → result.now ≡ first_longest T.size none values.now }
{
    let mut best = &values[0];
    for v in values {
        if best.size() < v.size() {
            best = v;
        }
    }
    best
}

/// The first of least size.
pub fn shortest_of<T: Listed>(values: &[T]) -> &T
    requires { 0 < length values.now }
    ensures { (none : T) → result.now ≡ first_shortest T.size none values.now }
{
    let mut best = &values[0];
    for v in values {
        if v.size() < best.size() {
            best = v;
        }
    }
    best
}

impl Listed for Bytes {
    ghost use Rattle.fints_script_fields.specs.Lengths.{text_len};

    ghost text = { λ b. b };

    ghost size = { text_len };

    ghost count = { λ b. 1 };

    ghost told = { λ a b same count. same };

    fn text(&self) -> &[u8] {
        self.as_slice()
    }

    fn count(&self) -> usize {
        1
    }

    fn size(&self) -> u64 {
        written_len(self.as_slice())
    }

    fn is_same(&self, other: &Bytes) -> bool {
        self.as_slice() == other.as_slice()
    }
}

/// The items of a listed account, and the written text of the element; a contract sees the items.
#[derive(Drop)]
pub struct AccountValue {
    items: Vec<Bytes>,
    text: Bytes,
}

impl Model for AccountValue {
    ghost use Rattle.std.specs.Prelude.{List, ℕ};

    ghost Value = { List (List ℕ) };

    ghost use Rattle.fints_script_fields.specs.AccountFields.{kept_items, IsAccountValue};

    ghost view = { kept_items };

    ghost invariant = { IsAccountValue };
}

impl AccountValue {
    ghost use Rattle.fints_script_fields.specs.Listed.{account_text};

    /// The account of these items.
    pub fn new(alloc: Global, items: Vec<Bytes>) -> Result<AccountValue, Memory>
        ensures { IfOk result (λ account. account ≡ items.items) }
    {
        let text = joined_text(alloc, items.as_slice())?;
        Ok(AccountValue {
            items,
            text: Bytes::new(text),
        })
    }

    /// The values of the items.
    pub fn items(&self) -> &[Bytes]
        ensures { result.now ≡ self.now }
    {
        self.items.as_slice()
    }

    /// The text of the element, without the byte that ends it.
    pub fn text(&self) -> &[u8]
        ensures { result.now ≡ account_text self.now }
    {
        self.text.as_slice()
    }
}

/// Writes a text item.
fn append_text(alloc: Global, out: &mut Vec<u8>, text: &[u8]) -> Result<(), Memory>
    ensures { OnOk result (out.new.items ≡ out.old.items ++ written (Text text.now)) }
{
    let mut bytes = Vec::new(alloc);
    bytes.extend_from_slice(text)?;
    write_item(out, &OwnedItem::Text(Bytes::new(bytes)))
}

/// The written text of an element of these items.
fn joined_text(alloc: Global, items: &[Bytes]) -> Result<Vec<u8>, Memory>
    ensures { IfOk result (λ text. text.items ≡ account_text items.now) }
{
    let mut text = Vec::new(alloc);
    for (i, item) in items.iter().enumerate() {
        append_text(alloc, &mut text, item.as_slice())?;
        if items.len() - i > 1 {
            text.push(b':')?;
        }
    }
    Ok(text)
}

/// Whether the lists are equal.
fn same_items(a: &[Bytes], b: &[Bytes]) -> bool
    ensures { IsTrue result ↔ (a.now ≡ b.now) }
{
    if a.len() != b.len() {
        return false;
    }
    for i in 0..a.len() {
        if !a[i].is_same(&b[i]) {
            return false;
        }
    }
    true
}

impl Listed for AccountValue {
    ghost use Rattle.std.specs.Prelude.{length};
    ghost use Rattle.fints_script_fields.specs.TextLaws.{text_and_count_tell};
    ghost use Rattle.fints_script_fields.specs.Listed.{account_len, account_text};

    ghost text = { account_text };

    ghost size = { account_len };

    ghost count = { length };

    ghost told = { text_and_count_tell };

    fn text(&self) -> &[u8] {
        self.text()
    }

    fn count(&self) -> usize {
        self.items().len()
    }

    fn size(&self) -> u64 {
        self.text().len() as u64
    }

    fn is_same(&self, other: &AccountValue) -> bool {
        same_items(self.items(), other.items())
    }
}
