//! Lists of texts and of accounts.
ghost use Rattle.std.specs.Prelude.{◌≡◌};

use crate::listed::AccountValue;
use fints_syntax_segments::Bytes;
use std::marker::Model;

/// Texts in a row; a contract sees the lists.
#[derive(Drop)]
pub struct Texts {
    items: Vec<Bytes>,
}

impl Model for Texts {
    ghost use Rattle.std.specs.Prelude.{List, ℕ};

    ghost Value = { List (List ℕ) };

    ghost view = { λ t. t.items.items };
}

impl Texts {
    pub fn new(items: Vec<Bytes>) -> Texts
        ensures { result ≡ items.items }
    {
        Texts { items }
    }

    pub fn as_slice(&self) -> &[Bytes]
        ensures { result.now ≡ self.now }
    {
        self.items.as_slice()
    }
}

/// Accounts in a row; a contract sees the lists of items.
#[derive(Drop)]
pub struct Accounts {
    items: Vec<AccountValue>,
}

impl Model for Accounts {
    ghost use Rattle.std.specs.Prelude.{List, ℕ};

    ghost Value = { List (List (List ℕ)) };

    ghost view = { λ t. t.items.items };
}

impl Accounts {
    pub fn new(items: Vec<AccountValue>) -> Accounts
        ensures { result ≡ items.items }
    {
        Accounts { items }
    }

    pub fn as_slice(&self) -> &[AccountValue]
        ensures { result.now ≡ self.now }
    {
        &self.items
    }
}
