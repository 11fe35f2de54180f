//! The order table: which orders name an account, and how.
ghost use Rattle.std.specs.Prelude.{◌≡◌, ◌≤◌, ◌↔◌, IsTrue, length, map, [], Some, IfOk, IfErr};
ghost use Rattle.std.specs.List.{list_any};
ghost use Rattle.std.specs.Str.{bytes_eq};
ghost use Rattle.toml.specs.Data.{array};
ghost use Rattle.toml.specs.View.{view, table_view, items_view};
ghost use Rattle.fints_rules_permissions.specs.declared.orders.TableFault.TheVariants.{Memory};
ghost use Rattle.fints_rules_permissions.specs.FaultText.{table_text};
ghost use Rattle.fints_rules_permissions.specs.Orders.{row_of, row_kind, account_form, AreRows, IsTableAt, DenotesTable, IsTableFault, form_of};
ghost use Rattle.fints_rules_permissions.specs.OrderFaults.{IsEntryFault, IsFaultAt, IsTableIn, IsFaultIn};

use crate::keys::{OrderKey, row_hashing, row_key};
use crate::kinds::is_table_kind;
use fints_syntax::{FaultText, Kind, Memory};
use fints_syntax_hashing::KeyedHashing;
use fints_syntax_texts::document;
use fints_syntax_texts::document::Unread;
use indexmap::IndexMap;
use std::alloc::{AllocFailed, Global};
use std::marker::Model;
use thiserror::Error;
use toml::{Table, Value};

// The most rows of a table.
pub const MAX_ROWS: usize = 1000;

/// How element 2 of an order names an account.
#[derive(Clone, Copy, PartialEq, Eq)]
pub enum AccountForm {
    /// It names none.
    Nameless,
    /// By number, subaccount, country and bank code.
    National,
    /// By IBAN, BIC, and then as a national one.
    International,
}

/// A row of the order table.
#[derive(Clone, Copy, PartialEq, Eq)]
pub struct OrderRow {
    pub kind: Kind,
    pub version: u16,
    pub form: AccountForm,
}

/// Why a text is no order table. Rows count from 1.
#[derive(Clone, Copy, Debug, PartialEq, Eq, Error)]
#[error("{}", self.text())]
pub enum TableFault {
    /// Over 1 MiB, no UTF-8, or refused by `toml` for another cause than memory.
    NotToml,
    /// A key at the top other than `order`.
    UnknownKey,
    /// An entry that is no row; 0 where `order` is no array, 1,001 where it has too many entries.
    BadRow { row: u16 },
    /// A row of a kind and version that an earlier row has.
    TwoRows { row: u16 },
    Memory,
}

impl TableFault {
    /// What is wrong, and where.
    pub fn text(&self) -> FaultText
        ensures text { result ≡ table_text self.now }
        ensures short { length result ≤ 28 }
    {
        match self {
            TableFault::NotToml => FaultText::new("NotToml"),
            TableFault::UnknownKey => FaultText::new("UnknownKey"),
            TableFault::BadRow { row } => FaultText::new("BadRow ").number(u64::from(*row)),
            TableFault::TwoRows { row } => FaultText::new("TwoRows ").number(u64::from(*row)),
            TableFault::Memory => FaultText::new("memory"),
        }
    }
}

impl From<Memory> for TableFault {
    ghost from_gives = { λ _ e. e ≡ Memory };

    fn from(_e: Memory) -> TableFault {
        TableFault::Memory
    }
}

impl<T: Drop> From<AllocFailed<T>> for TableFault {
    ghost from_gives = { λ _ e. e ≡ Memory };

    fn from(_e: AllocFailed<T>) -> TableFault {
        TableFault::Memory
    }
}

/// The forms of a table by kind and version.
type FormMap = IndexMap<OrderKey, AccountForm, KeyedHashing>;

/// Which orders name an account, and how; a contract sees the rows.
#[derive(Drop)]
pub struct OrderTable {
    rows: Vec<OrderRow>,
    forms: FormMap,
}

impl Model for OrderTable {
    ghost use Rattle.std.specs.Prelude.{List};
    ghost use Rattle.fints_rules_permissions.specs.declared.orders.OrderRow.{OrderRow};

    ghost Value = { List OrderRow };

    ghost use Rattle.indexmap.specs.IndexMap.{get};
    ghost use Rattle.fints_rules_permissions.specs.FormMaps.{HoldsForms};
    ghost use Rattle.fints_rules_permissions.specs.OrderKeys.{key_eq};

    ghost view = { λ t. t.rows.items };

    ghost invariant = { λ t. HoldsForms t.rows.items (get key_eq t.forms) };
}

impl OrderTable {
    /// The table that a text denotes, or the first refusal.
    pub fn read(alloc: Global, text: &[u8]) -> Result<OrderTable, TableFault>
        ensures table { IfOk result (λ t. DenotesTable text.now t) }
        ensures fault { IfErr result (λ f. IsTableFault text.now f) }
    {
        let table = match document::read(alloc, text) {
            Ok(table) => table,
            Err(Unread::NotToml) => return Err(TableFault::NotToml),
            Err(Unread::Memory) => return Err(TableFault::Memory),
        };
        rows_in(alloc, &table)
    }

    /// Whether both tables have equal rows in equal order.
    pub fn same(&self, other: &OrderTable) -> bool
        ensures { IsTrue result ↔ (self.now ≡ other.now) }
    {
        self.rows == other.rows
    }

    /// How an order names its account, where the table has the order.
    pub fn form(&self, kind: Kind, version: u16) -> Option<AccountForm>
        ensures { result ≡ form_of self.now kind version }
    {
        self.forms.get(&OrderKey { kind, version }).copied()
    }
}

// The rows of a document.
fn rows_in(alloc: Global, table: &Table) -> Result<OrderTable, TableFault>
    ensures table { IfOk result (λ t. IsTableIn (table_view table.now) t) }
    ensures fault { IfErr result (λ f. IsFaultIn (table_view table.now) f) }
{
    if !document::only_keys(&*table, &["order"]) {
        return Err(TableFault::UnknownKey);
    }
    let Some(value) = document::member(table, "order") else {
        return Ok(no_rows(alloc));
    };
    match value {
        Value::Array(entries) => rows_at(alloc, entries.as_slice()),
        _ => Err(TableFault::BadRow { row: 0 }),
    }
}

// The rows of the entries of `order`, whatever their number.
fn rows_at(alloc: Global, entries: &[Value]) -> Result<OrderTable, TableFault>
    ensures table { IfOk result (λ t. IsTableAt (Some (array (items_view entries.now))) t) }
    ensures fault { IfErr result (λ f. IsFaultAt (Some (array (items_view entries.now))) f) }
{
    if entries.len() > MAX_ROWS {
        return Err(TableFault::BadRow {
            row: MAX_ROWS as u16 + 1,
        });
    }
    rows_of(alloc, entries)
}

// No rows.
fn no_rows(alloc: Global) -> OrderTable
    ensures { result ≡ [] }
{
    OrderTable {
        rows: Vec::new(alloc),
        forms: IndexMap::with_hasher(alloc, row_hashing(&[])),
    }
}

// What each entry is as a row.
fn read_rows(alloc: Global, entries: &[Value]) -> Result<Vec<Option<OrderRow>>, Memory>
    ensures { IfOk result (λ read. read.items ≡ map row_of (map view entries.now)) }
{
    let mut read = Vec::new(alloc);
    for entry in entries {
        read.push(row_of(entry))?;
    }
    Ok(read)
}

// The rows of the entries, each good and of another kind or version than those before it.
fn rows_of(alloc: Global, entries: &[Value]) -> Result<OrderTable, TableFault>
    requires { length entries.now ≤ MAX_ROWS }
    ensures rows { IfOk result (λ t. AreRows (map view entries.now) t) }
    ensures fault { IfErr result (λ f. IsEntryFault (map view entries.now) f) }
{
    let read = read_rows(alloc, entries)?;
    let mut rows = Vec::new(alloc);
    let mut forms = IndexMap::with_hasher(alloc, row_hashing(read.as_slice()));
    let mut number = 0;
    for entry in read.as_slice() {
        number += 1;
        let Some(row) = *entry else {
            return Err(TableFault::BadRow { row: number });
        };
        let key = row_key(&row);
        if forms.contains_key(&key) {
            return Err(TableFault::TwoRows { row: number });
        }
        forms.insert(key, row.form)?;
        rows.push(row)?;
    }
    Ok(OrderTable { rows, forms })
}

// The row that an entry is.
#[tactic(auto, unfolding(crate::specs::Orders::row_of))]
fn row_of(value: &Value) -> Option<OrderRow>
    ensures { result ≡ row_of (view value.now) }
{
    let table = value.as_table()?;
    if !document::only_keys(table, &["kind", "version", "account"]) {
        return None;
    }
    let kind = row_kind(document::member(table, "kind")?)?;
    let version = document::number_between(1, 999, document::member(table, "version")?)?;
    let form = account_form(document::member(table, "account")?)?;
    Some(OrderRow {
        kind,
        version,
        form,
    })
}

// The kind of an order.
#[tactic(auto, unfolding(crate::specs::Orders::row_kind))]
fn row_kind(value: &Value) -> Option<Kind>
    ensures { result ≡ row_kind (view value.now) }
{
    let text = value.as_str()?;
    let kind = Kind::parse(text.as_bytes())?;
    if is_table_kind(kind) {
        Some(kind)
    } else {
        None
    }
}

#[tactic(auto, unfolding(crate::specs::Orders::account_form))]
fn account_form(value: &Value) -> Option<AccountForm>
    ensures { result ≡ account_form (view value.now) }
{
    match value.as_str()? {
        "none" => Some(AccountForm::Nameless),
        "national" => Some(AccountForm::National),
        "international" => Some(AccountForm::International),
        _ => None,
    }
}
