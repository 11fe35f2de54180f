//! Parts of a row: each gives its value or the first kind of fault in it.
ghost use Rattle.std.specs.Prelude.{◌≡◌, map};
ghost use Rattle.toml.specs.View.{table_view, view};
ghost use Rattle.fints_script_rows.specs.FaultOrder.{first_of, rank};
ghost use Rattle.fints_script_rows.specs.Parts.{Gives, at_most, both, entries_of, flag_in, integer_in, more, not_empty, required, seen};

use crate::fault::FaultKind;
use fints_syntax_texts::document::{member, number_between};
use toml::{Table, Value};

fn rank(kind: FaultKind) -> u8
    ensures { result ≡ rank kind }
{
    match kind {
        FaultKind::Memory => 0,
        FaultKind::NotToml => 1,
        FaultKind::UnknownKey => 2,
        FaultKind::Missing => 3,
        FaultKind::WrongKind => 4,
        FaultKind::NotLatin1 => 5,
        FaultKind::BadHex => 6,
        FaultKind::Duplicate => 7,
        FaultKind::NoSuchName => 8,
        FaultKind::BackwardJump => 9,
        FaultKind::BadPattern => 10,
        FaultKind::Limit => 11,
    }
}

fn first_of(a: FaultKind, b: FaultKind) -> FaultKind
    ensures { result ≡ first_of a b }
{
    if rank(a) <= rank(b) { a } else { b }
}

/// Both values, or the first of their faults.
pub fn both<X: Drop, Y: Drop>(
    x: Result<X, FaultKind>,
    y: Result<Y, FaultKind>,
) -> Result<(X, Y), FaultKind>
    ensures { result ≡ both x y }
{
    match (x, y) {
        (Ok(x), Ok(y)) => Ok((x, y)),
        (Ok(_), Err(kind)) => Err(kind),
        (Err(kind), Ok(_)) => Err(kind),
        (Err(a), Err(b)) => Err(first_of(a, b)),
    }
}

/// The values so far and one more, or the first fault of any.
pub fn more<X: Drop>(
    items: Result<Vec<X>, FaultKind>,
    item: Result<X, FaultKind>,
) -> Result<Vec<X>, FaultKind>
    ensures { Gives (λ v. v.items) result (more (seen (λ v. v.items) items) item) }
{
    let (mut items, item) = both(items, item)?;
    items.push(item)?;
    Ok(items)
}

/// The value at a key that must be there.
pub fn required<'a>(table: &'a Table, key: &str) -> Result<&'a Value, FaultKind>
    ensures { seen (λ v. view v.now) result ≡ required key.now (table_view table.now) }
{
    match member(table, key) {
        Some(value) => Ok(value),
        None => Err(FaultKind::Missing),
    }
}

/// The list, unless it has more than `most` entries.
pub fn at_most<X: Drop>(most: usize, items: Vec<X>) -> Result<Vec<X>, FaultKind>
    ensures { seen (λ v. v.items) result ≡ at_most most items.items }
{
    if items.len() > most {
        return Err(FaultKind::Limit);
    }
    Ok(items)
}

/// The entries, if there are some.
pub fn not_empty(entries: &[Value]) -> Result<&[Value], FaultKind>
    ensures { seen (λ v. map view v.now) result ≡ not_empty (map view entries.now) }
{
    if entries.is_empty() {
        return Err(FaultKind::WrongKind);
    }
    Ok(entries)
}

/// An integer from `low` to `high`.
pub fn integer_in(low: u16, high: u16, value: &Value) -> Result<u16, FaultKind>
    ensures { result ≡ integer_in low high (view value.now) }
{
    match value {
        Value::Integer(_) => number_between(low, high, value).ok_or(FaultKind::Limit),
        _ => Err(FaultKind::WrongKind),
    }
}

/// A flag.
pub fn flag_in(value: &Value) -> Result<bool, FaultKind>
    ensures { result ≡ flag_in (view value.now) }
{
    match value {
        Value::Boolean(flag) => Ok(*flag),
        _ => Err(FaultKind::WrongKind),
    }
}

/// The entries of an array.
pub fn entries_of(value: &Value) -> Result<&[Value], FaultKind>
    ensures { seen (λ v. map view v.now) result ≡ entries_of (view value.now) }
{
    match value {
        Value::Array(entries) => Ok(entries.as_slice()),
        _ => Err(FaultKind::WrongKind),
    }
}
