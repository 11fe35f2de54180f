//! The bounds and the listed values of a field.
ghost use Rattle.std.specs.Prelude.{◌≡◌, ◌≤◌, All, length, map};
ghost use Rattle.toml.specs.View.{table_view, view};
ghost use Rattle.fints_script_rows.specs.Fields.{account_in, account_of, accounts_class, class_value, length_at, lengths_in, listed_in, text_in, texts_class};
ghost use Rattle.fints_script_rows.specs.Parts.{Gives, each, seen};

use crate::fault::FaultKind;
use crate::parts::{both, entries_of, integer_in, more, required};
use crate::text::{is_latin1, latin1};
use fints_script_fields::{
    Account, AccountValue, Accounts, Field, MAX_ITEMS, MAX_LEN, OneOf, Texts, are_distinct,
};
use fints_syntax_segments::Bytes;
use std::alloc::Global;
use toml::{Table, Value};

// ---- bounds

fn length_at(table: &Table, key: &str) -> Result<u16, FaultKind>
    ensures { result ≡ length_at key.now (table_view table.now) }
{
    integer_in(0, MAX_LEN, required(table, key)?)
}

/// The values of `min` and `max`.
pub fn lengths_in(table: &Table) -> Result<(u16, u16), FaultKind>
    ensures { result ≡ lengths_in (table_view table.now) }
{
    both(length_at(table, "min"), length_at(table, "max"))
}

// ---- listed values

fn text_in(alloc: Global, value: &Value) -> Result<Bytes, FaultKind>
    ensures { Gives (λ text. text) result (text_in (view value.now)) }
{
    match value {
        Value::String(text) => {
            if !is_latin1(text.as_str()) {
                return Err(FaultKind::NotLatin1);
            }
            Ok(Bytes::new(latin1(alloc, text.as_str())?))
        }
        _ => Err(FaultKind::WrongKind),
    }
}

/// The texts of a list.
pub fn texts_in(alloc: Global, values: &[Value]) -> Result<Vec<Bytes>, FaultKind>
    ensures { Gives (λ v. v.items) result (each text_in (map view values.now)) }
{
    let mut texts = Ok(Vec::new(alloc));
    for value in values {
        texts = more(texts, text_in(alloc, value));
    }
    texts
}

fn account_of(alloc: Global, items: &[Value]) -> Result<AccountValue, FaultKind>
    ensures { Gives (λ account. account) result (account_of (map view items.now)) }
{
    if items.is_empty() || items.len() > MAX_ITEMS {
        return Err(FaultKind::WrongKind);
    }
    let texts = texts_in(alloc, items)?;
    Ok(AccountValue::new(alloc, texts)?)
}

fn account_in(alloc: Global, value: &Value) -> Result<AccountValue, FaultKind>
    ensures { Gives (λ account. account) result (account_in (view value.now)) }
{
    account_of(alloc, entries_of(value)?)
}

/// The accounts of a list.
pub fn accounts_in(alloc: Global, values: &[Value]) -> Result<Vec<AccountValue>, FaultKind>
    ensures { Gives (λ v. v.items) result (each account_in (map view values.now)) }
{
    let mut accounts = Ok(Vec::new(alloc));
    for value in values {
        accounts = more(accounts, account_in(alloc, value));
    }
    accounts
}

/// The entries of `values`.
pub fn listed_in(table: &Table) -> Result<&[Value], FaultKind>
    ensures { seen (λ v. map view v.now) result ≡ listed_in (table_view table.now) }
{
    entries_of(required(table, "values")?)
}

/// A field of one of these texts, however many there are.
pub fn texts_class(alloc: Global, texts: Vec<Bytes>) -> Result<Field, FaultKind>
    ensures { Gives class_value result (texts_class texts.items) }
{
    let distinct = are_distinct(alloc, &texts)?;
    if !distinct {
        return Err(FaultKind::Duplicate);
    }
    match OneOf::new(Texts::new(texts)) {
        Some(class) => Ok(Field::OneOf(class)),
        None => Err(FaultKind::Limit),
    }
}

/// A field of one of these accounts, however many there are.
pub fn accounts_class(alloc: Global, accounts: Vec<AccountValue>) -> Result<Field, FaultKind>
    requires { All (λ account. (1 ≤ length account) × (length account ≤ MAX_ITEMS)) accounts.items }
    ensures { Gives class_value result (accounts_class accounts.items) }
{
    let distinct = are_distinct(alloc, &accounts)?;
    if !distinct {
        return Err(FaultKind::Duplicate);
    }
    match Account::new(Accounts::new(accounts)) {
        Some(class) => Ok(Field::Account(class)),
        None => Err(FaultKind::Limit),
    }
}
