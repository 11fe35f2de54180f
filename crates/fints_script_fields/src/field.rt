//! Fields by their classes.
ghost use Rattle.std.specs.Prelude.{◌≡◌, ◌≤◌, List, length, ℕ};

use crate::class::FieldClass;
use crate::counted::{Bin, Text};
use crate::listed::AccountValue;
use crate::listing::{Account, OneOf};
use fints_syntax_segments::Memory;
use std::alloc::Global;

/// A field of a script, by its class.
#[derive(Drop)]
pub enum Field {
    Text(Text),
    Bin(Bin),
    OneOf(OneOf),
    Account(Account),
}

impl Field {
    ghost use Rattle.fints_script_fields.specs.Fields.{field_accounts, field_domain, field_items, field_most_items};

    /// The greatest number of items of a value: 1 for all but accounts.
    #[tactic(auto, using(crate::specs::FieldLaws::has_few_items))]
    pub fn most_items(&self) -> u32
        ensures most { result ≡ field_most_items self.now }
        ensures none_more { (v : List ℕ) → field_domain self.now v
            → length (field_items self.now v) ≤ result }
    {
        match self {
            Field::Account(c) => c.most_items(),
            _ => 1,
        }
    }

    /// The listed values of an account field, and none for a field of another class.
    pub fn accounts(&self) -> &[AccountValue]
        ensures { result.now ≡ field_accounts self.now }
    {
        match self {
            Field::Account(c) => c.values.as_slice(),
            _ => &[],
        }
    }
}

impl FieldClass for Field {
    ghost use Rattle.fints_script_fields.specs.Fields.{field_domain, field_items, field_longest, field_shortest, field_written};
    ghost use Rattle.fints_script_fields.specs.FieldLaws.{has_some_item, is_written_as_items, longest_is_admitted, none_is_longer, none_is_shorter, shortest_is_admitted};

    ghost domain = { field_domain };

    ghost items_of = { field_items };

    ghost written = { field_written };

    ghost longest = { field_longest };

    ghost shortest = { field_shortest };

    fn admits(&self, value: &[u8]) -> bool {
        match self {
            Field::Text(c) => c.admits(value),
            Field::Bin(c) => c.admits(value),
            Field::OneOf(c) => c.admits(value),
            Field::Account(c) => c.admits(value),
        }
    }

    fn longest(&self, alloc: Global) -> Result<Vec<u8>, Memory> {
        match self {
            Field::Text(c) => c.longest(alloc),
            Field::Bin(c) => c.longest(alloc),
            Field::OneOf(c) => c.longest(alloc),
            Field::Account(c) => c.longest(alloc),
        }
    }

    fn shortest(&self, alloc: Global) -> Result<Vec<u8>, Memory> {
        match self {
            Field::Text(c) => c.shortest(alloc),
            Field::Bin(c) => c.shortest(alloc),
            Field::OneOf(c) => c.shortest(alloc),
            Field::Account(c) => c.shortest(alloc),
        }
    }

    fn written(&self, value: &[u8]) -> u64 {
        match self {
            Field::Text(c) => c.written(value),
            Field::Bin(c) => c.written(value),
            Field::OneOf(c) => c.written(value),
            Field::Account(c) => c.written(value),
        }
    }

    fn longest_written(&self) -> u64 {
        match self {
            Field::Text(c) => c.longest_written(),
            Field::Bin(c) => c.longest_written(),
            Field::OneOf(c) => c.longest_written(),
            Field::Account(c) => c.longest_written(),
        }
    }

    ghost longest_admitted = { longest_is_admitted };

    ghost shortest_admitted = { shortest_is_admitted };

    ghost some_item = { has_some_item };

    ghost written_as_items = { is_written_as_items };

    ghost none_longer = { none_is_longer };

    ghost none_shorter = { none_is_shorter };
}
