//! The classes whose fields list their values.
ghost use Rattle.std.specs.Prelude.{◌≡◌, ◌≢◌, ◌↔◌, ◌<◌, ◌≤◌, All, IfOk, IfSome, IsSome, IsTrue, [], length, map, refl};
ghost use Rattle.std.specs.List.{AllPairs};
ghost use Rattle.std.proofs.Common.{arith};
ghost use Rattle.fints_script_fields.specs.declared.listing.TheConstants.{MAX_VALUES};
ghost use Rattle.fints_script_fields.specs.Classes.{as_text};
ghost use Rattle.fints_script_fields.specs.Lengths.{text_len};
ghost use Rattle.fints_script_fields.specs.Listed.{IsAccountList, IsListed, IsShort, account_items, account_len, account_text, first_longest, first_shortest, first_with, greatest};
ghost use Rattle.fints_script_fields.specs.ListedLaws.{account_as_items, account_some, longest_listed, longest_most, shortest_least, shortest_listed};

use crate::class::FieldClass;
use crate::counted::MAX_LEN;
use crate::listed::{AccountValue, Listed, are_few_distinct, is_listed, longest_of, shortest_of};
use crate::lists::{Accounts, Texts};
use fints_syntax_segments::{Bytes, Memory, written_len};
use std::alloc::Global;

/// The most listed values.
pub const MAX_VALUES: usize = 100;

/// The most items of a listed account.
pub const MAX_ITEMS: usize = 6;

fn is_count(count: usize) -> bool
    ensures { IsTrue result ↔ ((1 ≤ count) × (count ≤ MAX_VALUES)) }
{
    count > 0 && count <= MAX_VALUES
}

fn is_short(text: &Bytes) -> bool
    ensures { IsTrue result ↔ IsShort text.now }
{
    text.as_slice().len() <= usize::from(MAX_LEN)
}

fn are_short(texts: &[Bytes]) -> bool
    ensures { IsTrue result ↔ All IsShort texts.now }
{
    texts.iter().all(|text| is_short(text))
}

fn is_account(account: &AccountValue) -> bool
    ensures { IsTrue result ↔ IsAccountList account.now }
{
    let items = account.items();
    !items.is_empty() && items.len() <= MAX_ITEMS && are_short(items)
}

fn are_accounts(accounts: &[AccountValue]) -> bool
    ensures { IsTrue result ↔ All IsAccountList accounts.now }
{
    accounts.iter().all(|account| is_account(account))
}

/// The greatest number of items of an account.
fn most_items(accounts: &[AccountValue]) -> usize
    ensures { result ≡ greatest (map length accounts.now) }
{
    let mut most = 0;
    for account in accounts {
        most = account.items().len().max(most);
    }
    most
}

/// One of the listed texts. It keeps how long the longest is written.
#[derive(Drop)]
pub struct OneOf {
    pub values: Texts,
    most_written: u64,
    pub ghost some: { 1 ≤ length values },
    pub ghost few: { length values ≤ MAX_VALUES },
    pub ghost short: { All IsShort values },
    pub ghost distinct: { AllPairs (λ s t. s ≢ t) values },
    pub ghost most: { most_written ≡ text_len (first_longest text_len [] values) },
}

/// A field of texts that may be listed.
fn of_texts(values: Texts) -> OneOf
    requires some { 1 ≤ length values }
    requires few { length values ≤ MAX_VALUES }
    requires short { All IsShort values }
    requires distinct { AllPairs (λ s t. s ≢ t) values }
    ensures { result.values ≡ values }
{
    let most_written = written_len(longest_of(values.as_slice()).as_slice());
    OneOf {
        values,
        most_written,
    }
}

impl OneOf {
    /// A field of these values.
    pub fn new(values: Texts) -> Option<OneOf>
        ensures some { IsSome result ↔ ((1 ≤ length values) × (length values ≤ MAX_VALUES)
            × All IsShort values × AllPairs (λ s t. s ≢ t) values) }
        ensures values { IfSome result (λ c. c.values ≡ values) }
    {
        let texts = values.as_slice();
        if !(is_count(texts.len()) && are_short(texts) && are_few_distinct(texts)) {
            return None;
        }
        Some(of_texts(values))
    }
}

impl FieldClass for OneOf {
    ghost domain = { λ c v. IsListed (λ x. x) c.values v };

    ghost items_of = { λ c v. as_text v };

    ghost written = { λ c v. text_len v };

    ghost longest = { λ c. first_longest text_len [] c.values };

    ghost shortest = { λ c. first_shortest text_len [] c.values };

    fn admits(&self, value: &[u8]) -> bool {
        is_listed(self.values.as_slice(), value)
    }

    fn longest(&self, alloc: Global) -> Result<Vec<u8>, Memory> {
        let longest = longest_of(self.values.as_slice());
        Ok(longest.as_slice().to_vec(alloc)?)
    }

    fn shortest(&self, alloc: Global) -> Result<Vec<u8>, Memory> {
        let shortest = shortest_of(self.values.as_slice());
        Ok(shortest.as_slice().to_vec(alloc)?)
    }

    fn written(&self, value: &[u8]) -> u64 {
        written_len(value)
    }

    fn longest_written(&self) -> u64 {
        self.most_written
    }

    ghost longest_admitted = { λ c. longest_listed (λ x. x) text_len [] c.values c.some };

    ghost shortest_admitted = { λ c. shortest_listed (λ x. x) text_len [] c.values c.some };

    ghost some_item = { λ c v h. Prim.omega arith };

    ghost written_as_items = { λ c v h. refl };

    ghost none_longer = { λ c v h. longest_most (λ x. x) text_len [] c.values v h };

    ghost none_shorter = { λ c v h. shortest_least (λ x. x) text_len [] c.values v h };
}

/// One of the listed accounts; the value is the written text of the account's items. It keeps how
/// long the longest is written, and how many items the one with the most has.
#[derive(Drop)]
pub struct Account {
    pub values: Accounts,
    most_written: u64,
    most_items: u32,
    pub ghost some: { 1 ≤ length values },
    pub ghost few: { length values ≤ MAX_VALUES },
    pub ghost each: { All IsAccountList values },
    pub ghost distinct: { AllPairs (λ a b. a ≢ b) values },
    pub ghost most: { most_written ≡ account_len (first_longest account_len [] values) },
    pub ghost items: { most_items ≡ greatest (map length values) },
}

/// A field of accounts that may be listed.
#[tactic(auto, using(crate::proofs::Greatest::few_items))]
fn of_accounts(values: Accounts) -> Account
    requires some { 1 ≤ length values }
    requires few { length values ≤ MAX_VALUES }
    requires each { All IsAccountList values }
    requires distinct { AllPairs (λ a b. a ≢ b) values }
    ensures { result.values ≡ values }
{
    let most_written = longest_of(values.as_slice()).size();
    let most_items = most_items(values.as_slice()) as u32;
    Account {
        values,
        most_written,
        most_items,
    }
}

impl Account {
    /// A field of these values.
    pub fn new(values: Accounts) -> Option<Account>
        ensures some { IsSome result ↔ ((1 ≤ length values) × (length values ≤ MAX_VALUES)
            × All IsAccountList values × AllPairs (λ a b. a ≢ b) values) }
        ensures values { IfSome result (λ c. c.values ≡ values) }
    {
        let accounts = values.as_slice();
        if !(is_count(accounts.len()) && are_accounts(accounts) && are_few_distinct(accounts)) {
            return None;
        }
        Some(of_accounts(values))
    }

    /// The greatest number of items of a value.
    pub fn most_items(&self) -> u32
        ensures { result ≡ greatest (map length self.now.values) }
    {
        self.most_items
    }
}

impl FieldClass for Account {
    ghost domain = { λ c v. IsListed account_text c.values v };

    ghost items_of = { λ c v. account_items (first_with account_text [] c.values v) };

    ghost written = { λ c v. length v };

    ghost longest = { λ c. account_text (first_longest account_len [] c.values) };

    ghost shortest = { λ c. account_text (first_shortest account_len [] c.values) };

    fn admits(&self, value: &[u8]) -> bool {
        is_listed(self.values.as_slice(), value)
    }

    fn longest(&self, alloc: Global) -> Result<Vec<u8>, Memory> {
        let longest = longest_of(self.values.as_slice());
        Ok(longest.text().to_vec(alloc)?)
    }

    fn shortest(&self, alloc: Global) -> Result<Vec<u8>, Memory> {
        let shortest = shortest_of(self.values.as_slice());
        Ok(shortest.text().to_vec(alloc)?)
    }

    fn written(&self, value: &[u8]) -> u64 {
        value.len() as u64
    }

    fn longest_written(&self) -> u64 {
        self.most_written
    }

    ghost longest_admitted = { λ c. longest_listed account_text length [] c.values c.some };

    ghost shortest_admitted = { λ c. shortest_listed account_text length [] c.values c.some };

    ghost some_item = { λ c v h. account_some c.values v c.each h };

    ghost written_as_items = { λ c v h. account_as_items c.values v h };

    ghost none_longer = { λ c v h. longest_most account_text length [] c.values v h };

    ghost none_shorter = { λ c v h. shortest_least account_text length [] c.values v h };
}
