//! The items of a recorded element 2, filled with those of another account.
ghost use Rattle.std.specs.Prelude.{◌≡◌, ◌↔◌, All, IfOk, IsTrue, None, slice_index_or};
ghost use Rattle.std.specs.Option.{option_map};
ghost use Rattle.fints_cli_drafts_accounts.specs.Accounts.{IsListable, filled, filled_item, national_items, row_items};

use fints_params::{AccountRow, National};
use fints_rules_permissions::AccountForm;
use fints_script_fields::{Alphabet, MAX_LEN};
use fints_syntax::{Bytes, Memory};
use std::alloc::Global;

// Whether a script can list the text.
fn is_listable(text: &[u8]) -> bool
    ensures { IsTrue result ↔ IsListable text.now }
{
    text.len() <= usize::from(MAX_LEN) && text.iter().all(|b| Alphabet::Latin.has(*b))
}

/// Whether a script can list each of the texts.
pub fn are_listable(items: &[Bytes]) -> bool
    ensures { IsTrue result ↔ All IsListable items.now }
{
    items.iter().all(|item| is_listable(item.as_slice()))
}

// A national item of an account, from 0 on.
fn national_item(national: &National, i: usize) -> Option<&[u8]>
    ensures { option_map (λ x. x.now) result ≡ slice_index_or (national_items national.now) i None }
{
    match i {
        0 => Some(national.number()),
        1 => Some(national.subaccount()),
        2 => Some(national.country()),
        3 => Some(national.bank()),
        _ => None,
    }
}

// What a row has for an item of element 2, from 0 on.
fn row_item(form: AccountForm, row: &AccountRow, i: usize) -> Option<&[u8]>
    ensures { option_map (λ x. x.now) result ≡ slice_index_or (row_items form row.now) i None }
{
    match form {
        AccountForm::Nameless => None,
        AccountForm::National => national_item(&row.national, i),
        AccountForm::International => match i {
            0 => Some(row.iban.as_slice()),
            1 => None,
            _ => national_item(&row.national, i - 2),
        },
    }
}

// A recorded item, which is that of a place from 0 on, filled with what a row has for it.
fn filled_item<'a>(form: AccountForm, recorded: &'a [u8], row: &'a AccountRow, i: usize) -> &'a [u8]
    ensures { result.now ≡ filled_item recorded.now (slice_index_or (row_items form row.now) i None) }
{
    match row_item(form, row, i) {
        Some(found) if !recorded.is_empty() => found,
        _ => recorded,
    }
}

/// The recorded items, filled with those of a row.
pub fn filled(
    alloc: Global,
    form: AccountForm,
    recorded: &[Bytes],
    row: &AccountRow,
) -> Result<Vec<Bytes>, Memory>
    ensures { IfOk result (λ items. items.items ≡ filled form recorded.now row.now) }
{
    let mut items = Vec::new(alloc);
    for (i, item) in recorded.iter().enumerate() {
        let value = filled_item(form, item.as_slice(), row, i);
        items.push(Bytes::copied(alloc, value)?)?;
    }
    Ok(items)
}
