//! By which answers each message of a recording is judged.
ghost use Rattle.std.specs.Prelude.{◌≡◌, List, [], map, Some, None, IfOk, IfErr, OnOk, if◌then◌else◌, option_copied};
ghost use Rattle.std.specs.Option.{option_and_then};
ghost use Rattle.fints_params.specs.Parameters.{unknown_user};
ghost use Rattle.fints_rules_permissions.specs.declared.orders.OrderRow.{OrderRow as OrderRowValue};
ghost use Rattle.fints_rules_dialogues.specs.Dialogues.{IsMemoryOrRefusal};
ghost use Rattle.fints_rules_dialogues.specs.OwnParams.{LacksBank, bank_for, granted_each, granted_for};
ghost use Rattle.fints_rules_dialogues.specs.Sources.{IsAtPlace, IsGranting, IsKeyOf, HoldsNearest, bank_of, got, heard_in, is_told, tells, user_of};
ghost use Rattle.fints_rules_dialogues.specs.declared.fault.DialogueFault.TheVariants as fault;
ghost use Rattle.fints_rules_dialogues.specs.declared.parties.Party.{Party as PartyValue};
ghost use Rattle.fints_rules_dialogues.specs.declared.sources.Granting.{Granting as GrantingValue};
ghost use Rattle.fints_rules_dialogues.specs.declared.sources.Key.{Key as KeyValue};
ghost use Rattle.fints_rules_dialogues.specs.declared.sources.Side.TheVariants.{Bank, User};
ghost use Rattle.fints_rules_dialogues.specs.Nearest.{nearest};

use crate::fault::DialogueFault;
use crate::messages::RecordedMessage;
use crate::own_params::{Heard, OwnParams, boxed, boxed_in};
use crate::parties::Party;
use fints_rules_permissions::{BankPermissions, OrderTable, Permissions, UserPermissions};
use fints_syntax::Memory;
use std::alloc::Global;
use std::collections::BTreeMap;
use std::marker::Model;

/// The side that an answer says something of.
#[derive(Clone, Copy)]
pub enum Side {
    Bank,
    User,
}

/// What an exchange and its answer permit. Most answers have no parameters, so what one permits is in a box.
#[derive(Drop)]
pub struct Granting<'a> {
    heard: &'a Heard<'a>,
    bank: Option<Box<BankPermissions<'a>>>,
    user: Option<Box<UserPermissions<'a>>>,
}

/// What all exchanges that share parameters have in common: the bank's country and code, and where these are
/// the user's parameters, the customer's id.
#[derive(Clone, Copy, PartialEq, Eq, PartialOrd, Ord)]
pub struct Key<'a> {
    country: &'a [u8],
    code: &'a [u8],
    customer: &'a [u8],
}

/// The answers with the parameters by which a message is judged: none where no answer has them, or where
/// a capture is handed in.
#[derive(Clone, Copy)]
pub struct ToldIn<'a> {
    pub bank: Option<RecordedMessage<'a>>,
    pub user: Option<RecordedMessage<'a>>,
}

/// By what a message is judged, and the answers that this comes from; a contract sees what is permitted.
#[derive(Drop)]
pub struct Basis<'g> {
    bank: &'g BankPermissions<'g>,
    user: &'g UserPermissions<'g>,
    told_in: ToldIn<'g>,
}

impl<'g> Model for Basis<'g> {
    ghost use Rattle.fints_rules_permissions.specs.Permits.{Granted, granted};

    ghost Value = { Granted };

    ghost view = { λ b. granted b.bank.now b.user.now };
}

impl<'g> Basis<'g> {
    /// What is permitted.
    pub fn permissions(&self) -> Permissions<'g>
        ensures { result ≡ self.now }
    {
        Permissions::of(self.bank, self.user)
    }

    /// The answers. No contract says which.
    pub fn told_in(&self) -> ToldIn<'g> {
        self.told_in
    }
}

type Sources<'g, 'a> = BTreeMap<Key<'g>, &'g Granting<'a>>;

fn key_of<'g>(side: Side, party: &'g Party) -> Key<'g>
    ensures { IsKeyOf side party.now result }
{
    Key {
        country: party.country.as_slice(),
        code: party.code.as_slice(),
        customer: match side {
            Side::Bank => &[],
            Side::User => party.customer.as_slice(),
        },
    }
}

fn is_told(side: Side, heard: &Heard<'_>) -> bool
    ensures { result ≡ is_told side heard.now }
{
    match side {
        Side::Bank => heard.bank().is_some(),
        Side::User => heard.user().is_some(),
    }
}

// From here on, where its answer says something of the side, the granting is the nearest of its party.
fn note<'g, 'a>(
    sources: &mut Sources<'g, 'a>,
    side: Side,
    granting: &'g Granting<'a>,
) -> Result<(), Memory>
    ensures { OnOk result ((party : PartyValue) (key : KeyValue) → IsKeyOf side party key
        → got sources.new key
        ≡ if tells side party granting.now.heard.now then Some granting.now else got sources.old key) }
{
    if is_told(side, granting.heard) {
        sources.insert(key_of(side, granting.heard.party()), granting)?;
    }
    Ok(())
}

// The first of each party whose answer says something of the side.
fn first_sources<'g, 'a>(
    alloc: Global,
    side: Side,
    all: &'g [Granting<'a>],
) -> Result<Sources<'g, 'a>, Memory>
    ensures { IfOk result (λ sources. HoldsNearest side [] all.now sources) }
{
    let mut sources = BTreeMap::new(alloc);
    let mut at = all.len();
    while at > 0 {
        at -= 1;
        note(&mut sources, side, &all[at])?;
    }
    Ok(sources)
}

// What the bank permits that is the nearest of the party.
fn bank_at<'g, 'a>(banks: &Sources<'g, 'a>, party: &'g Party) -> Option<&'g BankPermissions<'a>>
    ensures { (before after : List GrantingValue) → HoldsNearest Bank before after banks.now
        → option_copied result ≡ option_and_then bank_of
        (nearest (λ g. tells Bank party.now g.heard.now) before after) }
{
    match banks.get(&key_of(Side::Bank, party)) {
        Some(granting) => boxed_in(&granting.bank),
        None => None,
    }
}

// What the user is permitted who is the nearest of the party, if there is one.
fn user_at<'g, 'a>(users: &Sources<'g, 'a>, party: &'g Party) -> Option<&'g UserPermissions<'a>>
    ensures { (before after : List GrantingValue) → HoldsNearest User before after users.now
        → option_copied result ≡ option_and_then user_of
        (nearest (λ g. tells User party.now g.heard.now) before after) }
{
    match users.get(&key_of(Side::User, party)) {
        Some(granting) => boxed_in(&granting.user),
        None => None,
    }
}

// The answer that is the nearest of the party to say something of the side, if there is one.
fn answer_at<'g, 'a>(
    sources: &Sources<'g, 'a>,
    side: Side,
    party: &'g Party,
) -> Option<RecordedMessage<'a>> {
    match sources.get(&key_of(side, party)) {
        Some(granting) => granting.heard.answer(),
        None => None,
    }
}

// By what the message of an exchange is judged. The refusal is that its bank sends no parameters.
fn basis_at<'g, 'a>(
    banks: &Sources<'g, 'a>,
    users: &Sources<'g, 'a>,
    unknown: &'g UserPermissions<'a>,
    granting: &'g Granting<'a>,
) -> Result<Basis<'g>, DialogueFault>
    ensures granted { IfOk result (λ basis. (orders : List OrderRowValue) (before after : List GrantingValue)
        → IsAtPlace orders before granting.now after banks.now users.now → unknown.now ≡ unknown_user
        → Some basis ≡ granted_for orders (heard_in before) granting.now.heard.now (heard_in after)) }
    ensures refused { IfErr result (λ f. (f ≡ fault.NoParameters)
        × ((orders : List OrderRowValue) (before after : List GrantingValue)
        → IsAtPlace orders before granting.now after banks.now users.now
        → bank_for (heard_in before) granting.now.heard.now (heard_in after) ≡ None)) }
{
    let party = granting.heard.party();
    match bank_at(banks, party) {
        None => Err(DialogueFault::NoParameters),
        Some(bank) => Ok(Basis {
            bank,
            user: user_at(users, party).unwrap_or(unknown),
            told_in: ToldIn {
                bank: answer_at(banks, Side::Bank, party),
                user: answer_at(users, Side::User, party),
            },
        }),
    }
}

// What an exchange and its answer permit.
fn granting_of<'a>(
    alloc: Global,
    heard: &'a Heard<'a>,
    orders: &'a OrderTable,
) -> Result<Granting<'a>, Memory>
    ensures heard { IfOk result (λ g. g.heard.now ≡ heard.now) }
    ensures granting { IfOk result (λ g. IsGranting orders.now g) }
{
    let bank = match heard.bank() {
        Some(params) => Some(BankPermissions::of(alloc, params, orders)?),
        None => None,
    };
    let user = match heard.user() {
        Some(params) => Some(UserPermissions::of(alloc, params)?),
        None => None,
    };
    Ok(Granting {
        heard,
        bank: boxed(alloc, bank)?,
        user: boxed(alloc, user)?,
    })
}

/// What the answers of a recording permit, by an order table; a contract sees the rows that they have.
#[derive(Drop)]
pub struct OwnPermissions<'a> {
    orders: &'a OrderTable,
    all: Vec<Granting<'a>>,
    unknown: UserPermissions<'a>,
}

impl<'a> Model for OwnPermissions<'a> {
    ghost use Rattle.std.specs.Prelude.{◌≡◌};
    ghost use Rattle.std.specs.List.{AllByRecursion};
    ghost use Rattle.fints_params.specs.Parameters.{unknown_user};
    ghost use Rattle.fints_rules_dialogues.specs.Sources.{IsGranting, OwnGranted, heard_in};

    ghost Value = { OwnGranted };

    ghost view = { λ p. record { heard = heard_in p.all.items; orders = p.orders.now } };

    ghost invariant = { λ p. AllByRecursion (IsGranting p.orders.now) p.all.items
        × (p.unknown ≡ unknown_user) };
}

impl<'a> OwnPermissions<'a> {
    /// What the answers with these parameters permit.
    pub fn of(
        alloc: Global,
        own: &'a OwnParams<'a>,
        orders: &'a OrderTable,
    ) -> Result<OwnPermissions<'a>, Memory>
        ensures { IfOk result (λ p. p ≡ record { heard = own.now; orders = orders.now }) }
    {
        let mut all = Vec::new(alloc);
        let told = own.heard();
        for heard in told {
            all.push(granting_of(alloc, heard, orders)?)?;
        }
        let unknown = UserPermissions::of(alloc, own.unknown())?;
        Ok(OwnPermissions {
            orders,
            all,
            unknown,
        })
    }

    /// By what the message of each exchange is judged: the bank's parameters that were sent last before it
    /// in a dialogue with the bank, or where there are none, the first ones after it; and in the same way
    /// the user's in a dialogue of the same customer. Where no answer says anything of the user, there are no
    /// accounts, and nothing can be said of orders that aren't listed. The refusal is that the bank of some
    /// message sends no parameters.
    pub fn each<'g>(&'g self, alloc: Global) -> Result<Vec<Basis<'g>>, DialogueFault>
        ensures granted { IfOk result (λ v. map Some v.items
            ≡ granted_each self.now.orders self.now.heard) }
        ensures refused { IfErr result
            (λ f. IsMemoryOrRefusal (λ f. LacksBank self.now.heard × (f ≡ fault.NoParameters)) f) }
    {
        let all = self.all.as_slice();
        let mut banks = first_sources(alloc, Side::Bank, all)?;
        let mut users = first_sources(alloc, Side::User, all)?;
        let mut bases = Vec::new(alloc);
        for granting in all {
            bases.push(basis_at(&banks, &users, &self.unknown, granting)?)?;
            note(&mut banks, Side::Bank, granting)?;
            note(&mut users, Side::User, granting)?;
        }
        Ok(bases)
    }
}
