//! The values of fields.
ghost use Rattle.std.specs.Prelude.{◌≡◌, [], ◌∷◌, ◌++◌, OnOk, OnErr, find};
ghost use Rattle.std.specs.Option.{option_map, option_copied};
ghost use Rattle.std.specs.Str.{bytes_eq};

use fints_script_fields::Name;
use fints_syntax::{Bytes, Memory};
use std::alloc::Global;
use std::marker::Model;

/// A field's name with its value.
#[derive(Drop)]
pub struct NamedValue {
    pub name: Name,
    pub value: Bytes,
}

/// Values of fields, in order; a contract sees the list.
#[derive(Drop)]
pub struct Values {
    pairs: Vec<NamedValue>,
}

impl Model for Values {
    ghost use Rattle.std.specs.Prelude.{List};
    ghost use Rattle.fints_script_cases.specs.declared.values.NamedValue.{NamedValue};

    ghost Value = { List NamedValue };

    ghost view = { λ v. v.pairs.items };
}

impl Values {
    /// No values.
    pub fn new(alloc: Global) -> Values
        ensures { result ≡ [] }
    {
        Values {
            pairs: Vec::new(alloc),
        }
    }

    /// Adds a value at the end.
    pub fn push(&mut self, name: Name, value: &[u8]) -> Result<(), Memory>
        ensures ok { OnOk result (self.new ≡ self.old ++ record { name = name; value = value.now } ∷ []) }
        ensures err { OnErr result (self.new ≡ self.old) }
    {
        let alloc = *self.pairs.allocator();
        let mut bytes = Vec::new(alloc);
        bytes.extend_from_slice(value)?;
        self.add(NamedValue {
            name,
            value: Bytes::new(bytes),
        })?;
        Ok(())
    }

    /// Adds a pair at the end.
    pub fn add(&mut self, pair: NamedValue) -> Result<(), Memory>
        ensures ok { OnOk result (self.new ≡ self.old ++ pair ∷ []) }
        ensures err { OnErr result (self.new ≡ self.old) }
    {
        self.pairs.push(pair)?;
        Ok(())
    }

    /// Each name with its value, in order.
    pub fn pairs(&self) -> &[NamedValue]
        ensures { result.now ≡ self.now }
    {
        &self.pairs
    }

    /// The first value of a name.
    pub fn get(&self, name: Name) -> Option<&[u8]>
        ensures { option_copied result ≡ option_map (λ pair. pair.value)
            (find (λ pair. bytes_eq pair.name name) self.now) }
    {
        let pair = self.pairs.iter().find(|pair| pair.name == name)?;
        Some(pair.value.as_slice())
    }
}
