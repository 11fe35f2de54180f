//! The account that an order names.
ghost use Rattle.std.specs.Prelude.{◌≡◌, ◌<◌, map, slice_index_or, []};
ghost use Rattle.fints_rules_permissions.specs.Accounts.{account_named, national_of};
ghost use Rattle.fints_rules_permissions.specs.AccountFields.{named_account};
ghost use Rattle.fints_rules_permissions.specs.Needs.{KeyIs};

use crate::needs::NeedKey;
use crate::orders::AccountForm;
use fints_syntax::Kind;
use std::marker::Model;

// An account by what names it.
#[derive(Clone, Copy)]
enum Named<'a> {
    Nobody,
    National {
        number: &'a [u8],
        subaccount: &'a [u8],
        country: &'a [u8],
        bank: &'a [u8],
    },
    Iban(&'a [u8]),
}

/// The account that element 2 of an order names: none, one by its four national items (number,
/// subaccount, country and bank code), or one by its IBAN, which is not empty.
#[derive(Drop)]
pub struct AccountKey<'a> {
    named: Named<'a>,
}

impl<'a> Model for AccountKey<'a> {
    ghost use Rattle.fints_rules_permissions.specs.Accounts.{Account};

    ghost Value = { Account };

    ghost use Rattle.fints_rules_permissions.specs.AccountFields.{key_account, HasIban};

    ghost view = { key_account };

    ghost invariant = { HasIban };
}

// The item at a place from 0; an absent one is empty.
fn item<'a>(items: &[&'a [u8]], i: usize) -> &'a [u8]
    ensures { result.now ≡ slice_index_or (map (λ x. x.now) items.now) i [] }
{
    match items.get(i) {
        Some(item) => *item,
        None => &[],
    }
}

// The account of four items from a place on.
fn national<'a>(items: &[&'a [u8]], first: usize) -> Named<'a>
    requires { first < 3 }
    ensures { named_account result ≡ national_of (map (λ x. x.now) items.now) first }
{
    Named::National {
        number: item(&*items, first),
        subaccount: item(&*items, first + 1),
        country: item(&*items, first + 2),
        bank: item(&*items, first + 3),
    }
}

impl<'a> AccountKey<'a> {
    /// The account that the items of element 2 name. Further items are ignored, and absent ones
    /// are empty.
    pub fn of(form: AccountForm, items: &[&'a [u8]]) -> AccountKey<'a>
        ensures { result ≡ account_named form (map (λ x. x.now) items.now) }
    {
        let named = match form {
            AccountForm::Nameless => Named::Nobody,
            AccountForm::National => national(&*items, 0),
            AccountForm::International => {
                let iban = item(&*items, 0);
                if iban.is_empty() {
                    national(&*items, 2)
                } else {
                    Named::Iban(iban)
                }
            }
        };
        AccountKey { named }
    }

    /// What the account's entries of a kind are looked for by; none where it names nobody.
    pub(crate) fn need_key<'k>(&'k self, kind: &'k Kind) -> Option<NeedKey<'k>>
        ensures { KeyIs self.now kind.now result }
    {
        let kind = kind.as_bytes();
        match self.named {
            Named::Nobody => None,
            Named::National {
                number,
                subaccount,
                country,
                bank,
            } => Some(NeedKey {
                by_iban: false,
                account: number,
                subaccount,
                country,
                bank,
                kind,
            }),
            Named::Iban(iban) => Some(NeedKey {
                by_iban: true,
                account: iban,
                subaccount: &[],
                country: &[],
                bank: &[],
                kind,
            }),
        }
    }
}
