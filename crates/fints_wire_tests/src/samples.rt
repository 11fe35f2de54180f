//! Values of fields, for many tests.
use fints_script::{Name, Values};
use std::alloc::Global;
use std::test::*;

pub fn name(text: &[u8]) -> Result<Name, Fail> {
    Ok(Name::parse(text).ok_or("name")?)
}

/// Names of fields, each with its value.
pub type Pairs<'a> = &'a [(&'a [u8], &'a [u8])];

pub fn values(alloc: Global, pairs: Pairs<'_>) -> Result<Values, Fail> {
    let mut values = Values::new(alloc);
    for (field, value) in pairs {
        values.push(name(field)?, value)?;
    }
    Ok(values)
}
