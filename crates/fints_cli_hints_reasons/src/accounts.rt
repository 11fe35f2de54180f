//! The account that an order names, among those of a capture.
use crate::bank::{Accounts, Bank};
use crate::elements::Items;
use crate::lines::{Called, name_of};
use crate::segment::{KindName, Seen};
use fints_cli_hints_words::quoting::Sample;
use fints_rules::{AccountForm, AccountKey};
use fints_script::Name;
use fints_syntax::Kind;
use std::fmt;
use std::fmt::{Display, Formatter, Write};

fn are_empty(items: &Items<'_>) -> bool {
    items.iter().all(|it| it.is_empty())
}

/// An account as an order names it: by its IBAN where it has one here, or else by its number and its bank
/// code.
#[derive(Clone, Copy)]
pub struct Account<'a> {
    iban: &'a [u8],
    number: &'a [u8],
    subaccount: &'a [u8],
    country: &'a [u8],
    bank: &'a [u8],
}

impl Display for Account<'_> {
    fn fmt<W: Write>(&self, f: &mut Formatter<W>) -> fmt::Result {
        if !self.iban.is_empty() {
            let iban = Sample(self.iban);
            return write!(f, "the account of IBAN {iban}");
        }
        let (number, subaccount) = (Sample(self.number), Sample(self.subaccount));
        let (country, bank) = (Sample(self.country), Sample(self.bank));
        write!(
            f,
            "the account of number {number}, subaccount {subaccount}, country {country}, bank code {bank}"
        )
    }
}

fn is_international(form: Option<AccountForm>) -> bool {
    matches!(form, Some(AccountForm::International))
}

fn account_of<'a>(form: Option<AccountForm>, items: &Items<'a>) -> Account<'a> {
    let [first, second, third, fourth, fifth, sixth] = *items;
    let international = is_international(form);
    if international && first.is_empty() {
        return Account {
            iban: b"",
            number: third,
            subaccount: fourth,
            country: fifth,
            bank: sixth,
        };
    }
    Account {
        iban: if international { first } else { b"" },
        number: first,
        subaccount: second,
        country: third,
        bank: fourth,
    }
}

fn form_of(bank: &Bank<'_>, seen: &Seen<'_>) -> Option<AccountForm> {
    bank.orders().form(seen.kind, seen.version)
}

/// The account that the order names.
pub fn account_named<'a>(bank: &Bank<'_>, seen: &Seen<'a>) -> Account<'a> {
    account_of(form_of(bank, seen), &seen.elements.items(2))
}

fn has_account(accounts: &Accounts<'_>, account: &Account<'_>) -> bool {
    if !account.iban.is_empty() {
        return accounts.has_iban(account.iban);
    }
    accounts.has_national((
        account.number,
        account.subaccount,
        account.country,
        account.bank,
    ))
}

/// The least number of signatures that an entry of the order's kind wants, in the rows of its account.
pub fn least_need(bank: &Bank<'_>, seen: &Seen<'_>) -> u32 {
    let Some(form) = form_of(bank, seen) else {
        return 0;
    };
    let account = AccountKey::of(form, &seen.elements.items(2));
    bank.permissions
        .least_need(seen.kind, &account)
        .unwrap_or(0)
}

// ---- what was meant

// The most characters of an IBAN.
const LONGEST_IBAN: usize = 34;

// Whether it is an account's IBAN as soon as the blanks in it are taken away.
fn is_iban_with_blanks(accounts: &Accounts<'_>, written: &[u8]) -> bool {
    let mut joined = [0; LONGEST_IBAN];
    let mut len: usize = 0;
    for byte in written.iter().filter(|b| **b != b' ') {
        match joined.get_mut(len) {
            Some(place) => *place = *byte,
            None => return false,
        }
        len = len.saturating_add(1);
    }
    len > 0 && len < written.len() && accounts.has_iban(joined.get(..len).unwrap_or(&[]))
}

// What to write in place of the first item of element 2, by what can be said of it.
fn advice(
    accounts: &Accounts<'_>,
    form: Option<AccountForm>,
    first: &[u8],
) -> Option<&'static str> {
    match is_international(form) {
        _ if first.is_empty() => None,
        true if is_iban_with_blanks(accounts, first) => Some("write the IBAN without blanks"),
        true if accounts.has_number(first) => Some(
            "it is an account's number, and the order table says that it is an IBAN (international): write the IBAN, or fix the row of the order table",
        ),
        false if accounts.has_iban(first) => Some(
            "it is an account's IBAN, and the order table says that it is a number (national): write number, subaccount, country and bank code, or fix the row of the order table",
        ),
        _ => None,
    }
}

/// Why no row of an order's account lists it.
#[derive(Clone, Copy)]
pub enum Locked<'a> {
    /// The account is one of the capture, and doesn't list the order.
    Unlisted {
        account: Account<'a>,
        kind: Kind,
    },
    NoAccounts,
    /// An account of the capture is in another element, and in element 2 none of them, or nothing;
    /// what is said of element 2.
    Elsewhere {
        named: Option<Account<'a>>,
        count: usize,
        account: Account<'a>,
        element: usize,
        kind: Kind,
        second: &'static str,
    },
    /// Element 2 is the name of a field.
    Field {
        name: &'a Name,
        kind: Kind,
    },
    Empty {
        kind: Kind,
    },
    /// The account is none of the capture's.
    Unknown {
        account: Account<'a>,
        count: usize,
        advice: &'static str,
    },
}

// The first element after element 2 that has an account of the capture.
fn other_place(bank: &Bank<'_>, seen: &Seen<'_>) -> Option<usize> {
    let form = form_of(bank, seen);
    for element in 3..seen.elements.last().saturating_add(1) {
        let items = seen.elements.items(element);
        if !are_empty(&items) && has_account(&bank.accounts(), &account_of(form, &items)) {
            return Some(element);
        }
    }
    None
}

// An account that is in this element.
fn elsewhere_in<'a>(bank: &Bank<'_>, seen: &Seen<'a>, element: usize) -> Locked<'a> {
    let elements = seen.elements;
    let named = if are_empty(&elements.items(2)) {
        None
    } else {
        Some(account_named(bank, seen))
    };
    let second = if elements.are_filled() {
        ", the first entry of elements"
    } else {
        ""
    };
    Locked::Elsewhere {
        named,
        count: bank.accounts().count(),
        account: account_of(form_of(bank, seen), &elements.items(element)),
        element,
        kind: seen.kind,
        second,
    }
}

fn unknown<'a>(bank: &Bank<'_>, seen: &Seen<'a>) -> Locked<'a> {
    let kind = seen.kind;
    if let Some(name) = seen.elements.field_meant() {
        return Locked::Field { name, kind };
    }
    let items = seen.elements.items(2);
    let [first, ..] = items;
    let advice = match (
        advice(&bank.accounts(), form_of(bank, seen), first),
        other_place(bank, seen),
    ) {
        (Some(advice), _) => advice,
        (None, Some(element)) => return elsewhere_in(bank, seen, element),
        (None, None) => "name one that show lists",
    };
    if are_empty(&items) {
        return Locked::Empty { kind };
    }
    Locked::Unknown {
        account: account_named(bank, seen),
        count: bank.accounts().count(),
        advice,
    }
}

/// Why no row of the order's account lists it.
pub fn locked_by<'a>(bank: &Bank<'_>, seen: &Seen<'a>) -> Locked<'a> {
    let account = account_named(bank, seen);
    let kind = seen.kind;
    if bank.accounts().count() == 0 {
        return Locked::NoAccounts;
    }
    if !are_empty(&seen.elements.items(2)) && has_account(&bank.accounts(), &account) {
        return Locked::Unlisted { account, kind };
    }
    unknown(bank, seen)
}

// That an account is none of the capture's.
fn write_none_of<W: Write>(f: &mut Formatter<W>, count: usize) -> fmt::Result {
    if count == 1 {
        f.write_str("isn't the one account of the capture")
    } else {
        write!(f, "is none of the {count} accounts of the capture")
    }
}

// What is said of an account that isn't one of the capture, or is elsewhere.
fn write_unknown<W: Write>(f: &mut Formatter<W>, locked: &Locked<'_>) -> fmt::Result {
    match locked {
        Locked::Elsewhere {
            named,
            count,
            account,
            element,
            kind,
            second,
        } => {
            let kind = KindName(*kind);
            match named {
                None => write!(f, "element 2 of {kind} is empty")?,
                Some(named) => {
                    write!(f, "{named} ")?;
                    write_none_of(f, *count)?;
                }
            }
            write!(
                f,
                ", and {account} is in element {element}: the account of {kind} belongs in element 2{second}"
            )
        }
        Locked::Unknown {
            account,
            count,
            advice,
        } => {
            write!(f, "{account} ")?;
            write_none_of(f, *count)?;
            write!(f, ": {advice}")
        }
        _ => Ok(()),
    }
}

impl Display for Locked<'_> {
    fn fmt<W: Write>(&self, f: &mut Formatter<W>) -> fmt::Result {
        match self {
            Locked::Unlisted { account, kind } => {
                let kind = KindName(*kind);
                write!(
                    f,
                    "{account} doesn't list {kind} (HIUPD), and what isn't listed is locked (HIUPA): name another account"
                )
            }
            Locked::NoAccounts => f.write_str(
                "the capture has no account (HIUPD): take that of the answer to the initialisation",
            ),
            Locked::Field { name, kind } => {
                let (field, kind) = (Called(name), KindName(*kind));
                let name = name_of(name);
                write!(
                    f,
                    "element 2 of {kind} is the text {field}, and so is a field named: write \"${name}\""
                )
            }
            Locked::Empty { kind } => {
                let kind = KindName(*kind);
                write!(
                    f,
                    "element 2 of {kind} is empty, and the account belongs there: name one that show lists"
                )
            }
            _ => write_unknown(f, self),
        }
    }
}
