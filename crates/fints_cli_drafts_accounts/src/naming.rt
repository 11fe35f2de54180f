//! Which account the items of element 2 name.
ghost use Rattle.std.specs.Prelude.{◌≡◌, ◌↔◌, Any, IsTrue, [], slice_index_or};
ghost use Rattle.fints_rules_permissions.specs.Accounts.{account_named, national_of};
ghost use Rattle.fints_cli_drafts_accounts.specs.Accounts.{IsAccountOf};

use fints_params::AccountRow;
use fints_rules_permissions::{AccountForm, AccountKey};
use fints_syntax::Bytes;

// The item at a place from 0; an absent one is empty.
fn item(items: &[Bytes], i: usize) -> &[u8]
    ensures { result.now ≡ slice_index_or items.now i [] }
{
    match items.get(i) {
        Some(item) => item.as_slice(),
        None => &[],
    }
}

/// The account that the items name.
pub fn key_of(form: AccountForm, items: &[Bytes]) -> AccountKey<'_>
    ensures { result ≡ account_named form items.now }
{
    let six = [
        item(items, 0),
        item(items, 1),
        item(items, 2),
        item(items, 3),
        item(items, 4),
        item(items, 5),
    ];
    AccountKey::of(form, &six)
}

// Whether the row has the four national items from a place on, with a number.
fn has_national(row: &AccountRow, items: &[Bytes], first: u8) -> bool
    ensures { IsTrue result ↔ IsAccountOf (national_of items.now first) row.now }
{
    let first = usize::from(first);
    let number = item(items, first);
    if number.is_empty() {
        return false;
    }
    if row.national.number() != number {
        return false;
    }
    if row.national.subaccount() != item(items, first + 1) {
        return false;
    }
    if row.national.country() != item(items, first + 2) {
        return false;
    }
    row.national.bank() == item(items, first + 3)
}

/// Whether the items name the account of a row.
pub fn is_account_of(form: AccountForm, items: &[Bytes], row: &AccountRow) -> bool
    ensures { IsTrue result ↔ IsAccountOf (account_named form items.now) row.now }
{
    match form {
        AccountForm::Nameless => false,
        AccountForm::National => has_national(row, items, 0),
        AccountForm::International => {
            let iban = item(items, 0);
            if iban.is_empty() {
                has_national(row, items, 2)
            } else {
                row.iban.as_slice() == iban
            }
        }
    }
}

/// Whether the items name the account of some row.
pub fn is_known(form: AccountForm, items: &[Bytes], rows: &[AccountRow]) -> bool
    ensures { IsTrue result ↔ Any (IsAccountOf (account_named form items.now)) rows.now }
{
    rows.iter().any(|row| is_account_of(form, items, row))
}
