//! By what an order is known, so that what was asked once isn't asked again.
use fints_rules_dialogues::{Basis, RecordedMessage};
use fints_syntax::OwnedSegment;
use std::alloc::{AllocError, Global};

fn add_number(key: &mut Vec<u8>, number: usize) -> Result<(), AllocError> {
    key.extend_from_slice(&number.to_be_bytes())
}

// Adds where a message of the bank begins.
fn add_sent(key: &mut Vec<u8>, sent: &Option<RecordedMessage<'_>>) -> Result<(), AllocError> {
    match sent {
        None => key.push(0)?,
        Some(sent) => {
            key.push(1)?;
            add_number(key, sent.start)?;
        }
    }
    Ok(())
}

fn add_text(key: &mut Vec<u8>, text: &[u8]) -> Result<(), AllocError> {
    add_number(key, text.len())?;
    key.extend_from_slice(text)
}

/// A key that is another one for each kind, version, element 2, number of signatures and pair of answers by
/// which orders are judged. Binary items are taken for texts: an order with one has no list.
pub fn key_of(
    alloc: Global,
    basis: &Basis<'_>,
    segment: &OwnedSegment,
    signatures: usize,
) -> Result<Vec<u8>, AllocError> {
    let mut key = Vec::new(alloc);
    let told_in = basis.told_in();
    add_sent(&mut key, &told_in.bank)?;
    add_sent(&mut key, &told_in.user)?;
    add_number(&mut key, signatures)?;
    add_number(&mut key, usize::from(segment.head.version))?;
    add_text(&mut key, segment.head.id.as_bytes())?;
    let items = segment.items(2);
    for i in 0..items.len() {
        add_text(&mut key, items.value(i + 1))?;
    }
    Ok(key)
}
