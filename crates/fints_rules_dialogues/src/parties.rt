//! Whose an exchange is: the bank and the customer that the client names.
ghost use Rattle.std.specs.Prelude.{◌≡◌, ◌++◌, ◌∷◌, [], IfOk, List, option_copied};
ghost use Rattle.fints_syntax.specs.Owned.{segment_of};
ghost use Rattle.fints_rules_dialogues.specs.Nearest.{first_in};
ghost use Rattle.fints_rules_dialogues.specs.Parties.{is_hkidn, nobody, party_at, party_in, party_named};
ghost use Rattle.fints_rules_dialogues.specs.declared.reading.Exchange.{Exchange as ExchangeValue};

use crate::reading::Exchange;
use fints_rules_messages::Message;
use fints_syntax::{Bytes, Memory, SegmentView};
use std::alloc::Global;
use std::rc::Rc;

/// The bank and the customer that an HKIDN names (FinTS 3.0, Formals, identification).
#[derive(Drop)]
pub struct Party {
    /// The bank's country and code: items 1 and 2 of element 2.
    pub country: Bytes,
    pub code: Bytes,
    /// The customer's id: element 3.
    pub customer: Bytes,
}

fn is_hkidn(segment: &SegmentView<'_>) -> bool
    ensures { result ≡ is_hkidn (segment_of segment.now) }
{
    segment.head().id.is(b"HKIDN")
}

fn party_in(alloc: Global, segment: &SegmentView<'_>) -> Result<Party, Memory>
    ensures { IfOk result (λ party. party ≡ party_in (segment_of segment.now)) }
{
    let owned = segment.to_owned(alloc)?;
    Ok(Party {
        country: Bytes::copied(alloc, owned.value(2, 1))?,
        code: Bytes::copied(alloc, owned.value(2, 2))?,
        customer: Bytes::copied(alloc, owned.value(3, 1))?,
    })
}

fn nobody(alloc: Global) -> Party
    ensures { result ≡ nobody }
{
    Party {
        country: Bytes::new(Vec::new(alloc)),
        code: Bytes::new(Vec::new(alloc)),
        customer: Bytes::new(Vec::new(alloc)),
    }
}

fn hkidn_in<'b, 'a>(body: &'b [SegmentView<'a>]) -> Option<&'b SegmentView<'a>>
    ensures { option_copied result ≡ first_in (λ s. is_hkidn (segment_of s)) body.now }
{
    for segment in body {
        if is_hkidn(segment) {
            return Some(segment);
        }
    }
    None
}

// The party that the message names.
fn party_named(alloc: Global, message: &Message<'_>) -> Result<Option<Party>, Memory>
    ensures { IfOk result (λ party. party ≡ party_named message.now) }
{
    match hkidn_in(message.body()) {
        Some(segment) => Ok(Some(party_in(alloc, segment)?)),
        None => Ok(None),
    }
}

/// The party that the first of the exchanges names that names one.
pub fn first_party(alloc: Global, exchanges: &[Exchange<'_>]) -> Result<Rc<Party>, Memory>
    ensures { IfOk result (λ party. party.value ≡ party_at [] exchanges.now) }
{
    for exchange in exchanges {
        if let Some(party) = party_named(alloc, &exchange.message)? {
            return Ok(Rc::new(alloc, party)?);
        }
    }
    Ok(Rc::new(alloc, nobody(alloc))?)
}

/// The party of an exchange, where it is this one at the exchange before.
pub fn next_party(
    alloc: Global,
    party: Rc<Party>,
    exchange: &Exchange<'_>,
) -> Result<Rc<Party>, Memory>
    ensures { IfOk result (λ next. (before after : List ExchangeValue)
        → party.value ≡ party_at before (exchange.now ∷ after)
        → next.value ≡ party_at (before ++ exchange.now ∷ []) after) }
{
    match party_named(alloc, &exchange.message)? {
        Some(named) => Ok(Rc::new(alloc, named)?),
        None => Ok(party),
    }
}
