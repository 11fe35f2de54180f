//! Whose a dialogue is: the bank and the customer that the client names.
use fints_rules::Message;
use fints_syntax::Memory;
use std::alloc::Global;

/// The bank and the customer of an HKIDN.
#[derive(PartialEq, Eq, PartialOrd, Ord, Drop)]
pub struct Party {
    country: Vec<u8>,
    code: Vec<u8>,
    customer: Vec<u8>,
}

/// Those that a message names. None where it has no HKIDN.
pub fn party_in(alloc: Global, message: &Message<'_>) -> Result<Option<Party>, Memory> {
    let Some(segment) = message.body().iter().find(|it| it.id().is(b"HKIDN")) else {
        return Ok(None);
    };
    let named = segment.to_owned(alloc)?;
    Ok(Some(Party {
        country: named.value(2, 1).to_vec(alloc)?,
        code: named.value(2, 2).to_vec(alloc)?,
        customer: named.value(3, 1).to_vec(alloc)?,
    }))
}
