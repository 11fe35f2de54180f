//! The list of the accounts that an order may name.
ghost use Rattle.std.specs.Prelude.{◌≡◌, ◌≢◌, ◌+◌, ◌<◌, ◌≤◌, ◌^◌, ◌∷◌, ◌++◌, ◌↔◌, [], ℕ, All, AllPairs, IfOk, IsSome, IsTrue, List, OnOk, length, slice_get, Some};
ghost use Rattle.fints_syntax_segments.specs.Values.{values_at};
ghost use Rattle.fints_params.specs.declared.rows.AccountRow.{AccountRow as AccountRowValue};
ghost use Rattle.fints_script_fields.specs.declared.listing.TheConstants.{MAX_VALUES};
ghost use Rattle.fints_script_fields.specs.Listed.{account_text};
ghost use Rattle.fints_cli_drafts_accounts.specs.Accounts.{HasAccounts, IfListed, IsPermitted, ListsAll, MayHave, asked, form_in};
ghost use Rattle.fints_cli_drafts_accounts.specs.Walks.{FilledIs, FormIs, Holds, IsOwn, Shows, asked_of};

use crate::filling::{are_listable, filled};
use crate::naming::{is_account_of, is_known, key_of};
use crate::recorded::recorded_items;
use fints_params::AccountRow;
use fints_rules_permissions::{AccountForm, Permissions, Permit};
use fints_script_fields::{AccountValue, MAX_VALUES};
use fints_syntax::{Bytes, Kind, Memory, OwnedSegment};
use std::alloc::Global;
use std::collections::BTreeSet;

/// The accounts that an order may name, by the items of its element 2. No two are equal.
#[derive(Drop)]
pub struct AccountList {
    /// Those under which the bank permits the order, at most 100: first the recorded one, then others in
    /// the order of the capture.
    pub values: Vec<AccountValue>,
    /// How many other accounts of the user the bank doesn't permit the order for.
    pub left_out: usize,
    /// How many other accounts it permits the order for that aren't listed, because the list is full.
    pub further: usize,
}

// A recorded order.
#[derive(Clone, Copy)]
struct Order<'a, 'p> {
    permissions: &'a Permissions<'p>,
    kind: Kind,
    form: AccountForm,
    signatures: usize,
    recorded: &'a [Bytes],
}

// The list of the rows that were met, and the texts of their elements.
#[derive(Drop)]
struct Walk {
    list: AccountList,
    seen: BTreeSet<Vec<u8>>,
}

impl AccountList {
    // Lists a permitted account, or counts it where the list is full.
    fn add(&mut self, value: AccountValue) -> Result<(), Memory>
        requires { self.old.further + 1 < 2 ^ 64 }
        ensures shows { (permitted refused : List (List (List ℕ))) → Shows permitted refused self.old
            → OnOk result (Shows (permitted ++ value ∷ []) refused self.new) }
        ensures bound { self.new.left_out + self.new.further ≤ self.old.left_out + self.old.further + 1 }
    {
        if self.values.len() < MAX_VALUES {
            self.values.push(value)?;
        } else {
            self.further += 1;
        }
        Ok(())
    }
}

impl Order<'_, '_> {
    // Whether the bank permits the order for the account of these items.
    fn is_permitted(&self, items: &[Bytes]) -> bool
        ensures { IsTrue result ↔ IsPermitted (asked_of self.now) items.now }
    {
        let account = key_of(self.form, items);
        match self
            .permissions
            .permit(self.kind, &account, self.signatures)
        {
            Permit::Allowed => true,
            Permit::Refused => false,
            Permit::MoreSignatures => false,
        }
    }

    // Whether the recorded account is one of the user that the bank permits the order for.
    fn has_accounts(&self) -> bool
        ensures { IsTrue result ↔ IsOwn (asked_of self.now) }
    {
        is_known(self.form, self.recorded, self.permissions.accounts())
            && self.is_permitted(self.recorded)
    }

    // The recorded items, filled with those of a row, where they are listed as its account.
    fn filled(&self, alloc: Global, row: &AccountRow) -> Result<Option<AccountValue>, Memory>
        ensures { IfOk result (FilledIs (asked_of self.now) row.now) }
    {
        let items = filled(alloc, self.form, self.recorded, row)?;
        if is_account_of(self.form, items.as_slice(), row) && are_listable(items.as_slice()) {
            Ok(Some(AccountValue::new(alloc, items)?))
        } else {
            Ok(None)
        }
    }
}

impl Walk {
    // The walk over no row.
    fn new(alloc: Global, order: &Order<'_, '_>) -> Result<Walk, Memory>
        ensures holds { IfOk result (Holds (asked_of order.now) []) }
        ensures none { IfOk result (λ walk. walk.list.left_out + walk.list.further ≡ 0) }
    {
        let value = AccountValue::new(alloc, copies_of(alloc, order.recorded)?)?;
        let mut seen = BTreeSet::new(alloc);
        seen.insert(text_of(alloc, &value)?)?;
        let mut listed = Vec::new(alloc);
        listed.push(value)?;
        let list = AccountList {
            values: listed,
            left_out: 0,
            further: 0,
        };
        Ok(Walk { list, seen })
    }

    // Lists the account of a row, or counts it, if its items are new.
    fn add(&mut self, alloc: Global, order: &Order<'_, '_>, row: &AccountRow) -> Result<(), Memory>
        requires { self.old.list.left_out + self.old.list.further + 1 < 2 ^ 64 }
        ensures holds { (rows : List AccountRowValue) → Holds (asked_of order.now) rows self.old
            → OnOk result (Holds (asked_of order.now) (rows ++ row.now ∷ []) self.new) }
        ensures bound { self.new.list.left_out + self.new.list.further
            ≤ self.old.list.left_out + self.old.list.further + 1 }
    {
        let value = match order.filled(alloc, row)? {
            None => return Ok(()),
            Some(value) => value,
        };
        let is_new = self.seen.insert(text_of(alloc, &value)?)?;
        if !is_new {
            return Ok(());
        }
        if order.is_permitted(value.items()) {
            self.list.add(value)?;
            return Ok(());
        }
        self.list.left_out += 1;
        Ok(())
    }
}

// The text of the element, by which the account is looked up.
fn text_of(alloc: Global, value: &AccountValue) -> Result<Vec<u8>, Memory>
    ensures { IfOk result (λ text. text.items ≡ account_text value.now) }
{
    Ok(value.text().to_vec(alloc)?)
}

// Copies of the items.
fn copies_of(alloc: Global, items: &[Bytes]) -> Result<Vec<Bytes>, Memory>
    ensures { IfOk result (λ copies. copies.items ≡ items.now) }
{
    let mut copies = Vec::new(alloc);
    for item in items {
        copies.push(Bytes::copied(alloc, item.as_slice())?)?;
    }
    Ok(copies)
}

// The recorded account, and the others of the user.
fn list_of(alloc: Global, order: &Order<'_, '_>) -> Result<AccountList, Memory>
    ensures { IfOk result (ListsAll (asked_of order.now)) }
{
    let mut walk = Walk::new(alloc, order)?;
    for row in order.permissions.accounts() {
        walk.add(alloc, order, row)?;
    }
    let Walk { list, .. } = walk;
    Ok(list)
}

// How an order names its account, where it names one.
fn form_of(permissions: &Permissions<'_>, segment: &OwnedSegment) -> Option<AccountForm>
    ensures { FormIs (form_in permissions.now segment.now) result }
{
    match permissions.form(segment.head.id, segment.head.version) {
        None => None,
        Some(AccountForm::Nameless) => None,
        Some(form) => Some(form),
    }
}

/// The accounts that a recorded order may name, where its message has this number of signatures: the
/// recorded one, and each other account of the user under which the bank permits the order. The items of
/// another account are written like the recorded ones: what is empty there is empty, and the BIC stays.
///
/// None where the order names no account by the order table; where the recorded account is none of the
/// user's, or the bank doesn't permit the order for it; and where a script can't list it: it has more than
/// six items, a binary item, or a text that is longer than 10,000 bytes or has a byte that is no character
/// of ISO 8859-1.
///
/// Accounts whose items are equal when they are written like the recorded ones are one account here. An
/// account that can't be written like that, or that a script can't list, is neither listed nor counted: one
/// without IBAN where the recorded one is named by its IBAN, or one with a subaccount where the recorded
/// one has none.
///
/// The time grows with the number of the user's accounts times its logarithm.
pub fn accounts_for(
    alloc: Global,
    permissions: &Permissions<'_>,
    segment: &OwnedSegment,
    signatures: usize,
) -> Result<Option<AccountList>, Memory>
    ensures some { IfOk result (λ found. IsSome found
        ↔ HasAccounts permissions.now segment.now signatures) }
    ensures first { IfListed result (λ list. slice_get list.values.items 0 ≡ Some (values_at segment.now 2)) }
    ensures each { IfListed result (λ list.
        All (MayHave (asked permissions.now segment.now signatures)) list.values.items) }
    ensures count { IfListed result (λ list.
        (1 ≤ length list.values.items) × (length list.values.items ≤ MAX_VALUES)) }
    ensures once { IfListed result (λ list. AllPairs (λ x y. x ≢ y) list.values.items) }
    ensures all { IfListed result (ListsAll (asked permissions.now segment.now signatures)) }
{
    let form = match form_of(permissions, segment) {
        None => return Ok(None),
        Some(form) => form,
    };
    let recorded = match recorded_items(alloc, segment)? {
        None => return Ok(None),
        Some(recorded) => recorded,
    };
    let order = Order {
        permissions,
        kind: segment.head.id,
        form,
        signatures,
        recorded: recorded.as_slice(),
    };
    if order.has_accounts() {
        Ok(Some(list_of(alloc, &order)?))
    } else {
        Ok(None)
    }
}
