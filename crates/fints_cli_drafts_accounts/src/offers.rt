//! The accounts that the orders of a recorded dialogue may name, order by order.
ghost use Rattle.std.specs.Prelude.{◌≡◌, [], All, IfOk, IsTrue, OnOk};
ghost use Rattle.fints_rules_dialogues.specs.OwnParams.{AreHeard};
ghost use Rattle.fints_cli_drafts_accounts.specs.Offers.{Adds, AreOffered, IsListIn, IsListOf, IsOffer, IsOfferBy};

use crate::keys::key_of;
use crate::listing::{AccountList, accounts_for};
use fints_rules_dialogues::{
    Basis, DialogueFault, DialoguePart, Exchange, OwnParams, OwnPermissions,
};
use fints_rules_messages::Message;
use fints_rules_permissions::OrderTable;
use fints_script_fields::{AccountValue, Listed};
use fints_syntax::{Memory, OwnedSegment, owned_segments};
use std::alloc::Global;
use std::collections::BTreeMap;

// The most lists of a draft, so that it can have other fields.
const MAX_LISTS: usize = 50;

// The most different orders that are asked for.
const MAX_ASKED: usize = 1_000;

/// What an order of a recorded message may name.
#[derive(Clone, Copy)]
pub struct Offer {
    /// The place of its list, from 0.
    pub list: usize,
    /// How many other accounts of the user the bank doesn't permit the order for.
    pub left_out: usize,
    /// How many other accounts it permits the order for that aren't listed, because the list is full.
    pub further: usize,
}

/// What the orders of a recorded dialogue may name.
#[derive(Drop)]
pub struct Offers {
    /// At most 50 lists.
    pub lists: Vec<AccountList>,
    /// For each message of the dialogue, what each segment of its body may name.
    pub orders: Vec<Vec<Option<Offer>>>,
}

// The lists that were found, and what was asked.
#[derive(Drop)]
struct Offering {
    lists: Vec<AccountList>,
    asked: BTreeMap<Vec<u8>, Option<Offer>>,
}

impl Offers {
    /// What an order may name, and the text of the recorded account: the first of its list. Messages of the
    /// dialogue count from 1, segments of the body from 0.
    pub fn account_of(&self, message: usize, order: usize) -> Option<(Offer, &[u8])> {
        let offers = self.orders.get(message.checked_sub(1)?)?;
        let offer = (*offers.get(order)?)?;
        let list = self.lists.get(offer.list)?;
        Some((offer, list.values.first()?.text()))
    }
}

/// Whether both have the same accounts in the same order.
pub fn are_same(own: &[AccountValue], other: &[AccountValue]) -> bool
    ensures { IsTrue result → own.now ≡ other.now }
{
    if own.len() != other.len() {
        return false;
    }
    for i in 0..own.len() {
        if !own[i].is_same(&other[i]) {
            return false;
        }
    }
    true
}

/// Whether these are the accounts of one of the lists.
pub fn are_offered(lists: &[AccountList], values: &[AccountValue]) -> bool
    ensures { IsTrue result → AreOffered lists.now values.now }
{
    for list in lists {
        if are_same(list.values.as_slice(), values) {
            return true;
        }
    }
    false
}

impl Offering {
    // The place of the list with the same accounts, if there is one.
    fn place_of(&self, list: &AccountList) -> Option<usize> {
        self.lists.iter().position(|own| are_same(own.values.as_slice(), list.values.as_slice()))
    }

    // The place of a list among all, which may be a new one; there is none where there are too many.
    fn add(&mut self, list: AccountList) -> Result<Option<usize>, Memory>
        ensures { OnOk result (Adds (λ added. added ≡ list) self.old.lists.items self.new.lists.items) }
    {
        if let Some(place) = self.place_of(&list) {
            return Ok(Some(place));
        }
        let place = self.lists.len();
        if place == MAX_LISTS {
            return Ok(None);
        }
        self.lists.push(list)?;
        Ok(Some(place))
    }

    // What an order may name by these permissions, in a message with this number of signatures.
    fn ask(
        &mut self,
        alloc: Global,
        basis: &Basis<'_>,
        segment: &OwnedSegment,
        signatures: usize,
    ) -> Result<Option<Offer>, Memory>
        ensures { OnOk result (Adds (λ list. IsListOf basis.now signatures list segment.now)
            self.old.lists.items self.new.lists.items) }
    {
        let Some(list) = accounts_for(alloc, &basis.permissions(), segment, signatures)? else {
            return Ok(None);
        };
        let (left_out, further) = (list.left_out, list.further);
        Ok(
            self.add(list)?.map(|list| Offer {
                list,
                left_out,
                further,
            }),
        )
    }

    // The same, asked once.
    fn offer_of(
        &mut self,
        alloc: Global,
        basis: &Basis<'_>,
        segment: &OwnedSegment,
        signatures: usize,
    ) -> Result<Option<Offer>, Memory>
        ensures { OnOk result (Adds (λ list. IsListOf basis.now signatures list segment.now)
            self.old.lists.items self.new.lists.items) }
    {
        let key = key_of(alloc, basis, segment, signatures)?;
        if let Some(offer) = self.asked.get(&key) {
            return Ok(*offer);
        }
        if self.asked.len() == MAX_ASKED {
            return Ok(None);
        }
        let offer = self.ask(alloc, basis, segment, signatures)?;
        self.asked.insert(key, offer)?;
        Ok(offer)
    }

    // What each segment in the body of a message may name.
    fn offers_in(
        &mut self,
        alloc: Global,
        basis: &Basis<'_>,
        message: &Message<'_>,
    ) -> Result<Vec<Option<Offer>>, Memory>
        ensures { OnOk result (Adds (IsListIn basis.now message.now)
            self.old.lists.items self.new.lists.items) }
    {
        let signatures = message.ends().len();
        let body = owned_segments(alloc, message.body())?;
        let mut offers = Vec::new(alloc);
        for segment in body.iter() {
            offers.push(self.offer_of(alloc, basis, segment, signatures)?)?;
        }
        Ok(offers)
    }

    // The same of the message at a place in a recording, which is judged by the permissions at that place.
    fn offers_at(
        &mut self,
        alloc: Global,
        bases: &[Basis<'_>],
        exchanges: &[Exchange<'_>],
        place: usize,
    ) -> Result<Vec<Option<Offer>>, Memory>
        ensures { OnOk result (Adds (IsOfferBy exchanges.now bases.now)
            self.old.lists.items self.new.lists.items) }
    {
        if place < bases.len() && place < exchanges.len() {
            return self.offers_in(alloc, &bases[place], &exchanges[place].message);
        }
        Ok(Vec::new(alloc))
    }
}

// What the orders of the messages from a place on may name, which are judged by these permissions.
fn offers_by(
    alloc: Global,
    bases: &[Basis<'_>],
    exchanges: &[Exchange<'_>],
    part: &DialoguePart<'_, '_>,
) -> Result<Offers, Memory>
    ensures { IfOk result (λ offers. All (IsOfferBy exchanges.now bases.now) offers.lists.items) }
{
    let mut offering = Offering {
        lists: Vec::new(alloc),
        asked: BTreeMap::new(alloc),
    };
    let mut orders = Vec::new(alloc);
    for i in 0..part.exchanges.len() {
        let place = part.before.saturating_add(i);
        orders.push(offering.offers_at(alloc, bases, exchanges, place)?)?;
    }
    let Offering { lists, .. } = offering;
    Ok(Offers { lists, orders })
}

fn none(alloc: Global) -> Offers
    ensures { result.lists.items ≡ [] }
{
    Offers {
        lists: Vec::new(alloc),
        orders: Vec::new(alloc),
    }
}

// What the orders may name by what the answers say.
fn offers_told(
    alloc: Global,
    orders: &OrderTable,
    own: &OwnParams<'_>,
    exchanges: &[Exchange<'_>],
    part: &DialoguePart<'_, '_>,
) -> Result<Offers, Memory>
    ensures { IfOk result (λ offers. AreHeard exchanges.now own.now
        → All (IsOffer orders.now exchanges.now) offers.lists.items) }
{
    let permissions = OwnPermissions::of(alloc, own, orders)?;
    match permissions.each(alloc) {
        Ok(bases) => offers_by(alloc, bases.as_slice(), exchanges, part),
        Err(DialogueFault::Memory) => Err(Memory),
        Err(_) => Ok(none(alloc)),
    }
}

/// What the orders in the messages of a part of a recording may name, each by the parameters by which `audit`
/// judges its message. There are no lists where an answer is refused as a capture, or the bank of some
/// message sends no parameters. A draft has at most 50 lists: orders that need further ones have none, and so
/// has what comes after 1,000 different orders.
///
/// The time grows with the size of the recording times its logarithm.
pub fn offers_of(
    alloc: Global,
    orders: &OrderTable,
    exchanges: &[Exchange<'_>],
    part: &DialoguePart<'_, '_>,
) -> Result<Offers, Memory>
    ensures { IfOk result (λ offers. All (IsOffer orders.now exchanges.now) offers.lists.items) }
{
    match OwnParams::of(alloc, exchanges) {
        Ok(own) => offers_told(alloc, orders, &own, exchanges, part),
        Err(DialogueFault::Memory) => Err(Memory),
        Err(_) => Ok(none(alloc)),
    }
}
