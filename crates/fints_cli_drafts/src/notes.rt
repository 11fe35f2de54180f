//! What the comments of a draft say: of the accounts of orders, and of an HNVSK that isn't like the first one.
use fints_cli_drafts_accounts::Offer;
use fints_cli_drafts_alike::is_same_item;
use fints_cli_drafts_texts::{OrderNote, SealNote};
use fints_rules::{AccountForm, OrderTable};
use fints_syntax::{ElementRef, ItemRef, OwnedSegment};

// What is said of an order that isn't offered a list: whether it names an account.
fn account_note(orders: &OrderTable, segment: &OwnedSegment) -> OrderNote {
    match orders.form(segment.head.id, segment.head.version) {
        Some(AccountForm::National | AccountForm::International) => OrderNote::Account,
        _ => OrderNote::Nothing,
    }
}

/// What is said of a segment of the body.
pub fn order_note(orders: &OrderTable, segment: &OwnedSegment, offer: Option<Offer>) -> OrderNote {
    match offer {
        Some(
            Offer {
                left_out,
                further,
                ..
            },
        ) => OrderNote::Listed { left_out, further },
        None => account_note(orders, segment),
    }
}

// Whether both items are there and equal, or none is there.
fn is_same(one: Option<ItemRef<'_>>, other: Option<ItemRef<'_>>) -> bool {
    match (one, other) {
        (Some(one), Some(other)) => is_same_item(&one, &other),
        (None, None) => true,
        _ => false,
    }
}

fn is_same_element(one: &ElementRef<'_>, other: &ElementRef<'_>) -> bool {
    for i in 0..one.len() {
        if !is_same(one.get(i + 1), other.get(i + 1)) {
            return false;
        }
    }
    one.len() == other.len()
}

// The first element, from 2 on, in which two HNVSK differ, but for element 6, which is the time.
fn differing_element(one: &OwnedSegment, other: &OwnedSegment) -> Option<usize> {
    let most = one.elements.len().max(other.elements.len()) + 1;
    for element in 2..=most {
        if element != 6 && !is_same_element(&one.items(element), &other.items(element)) {
            return Some(element);
        }
    }
    None
}

/// What is said of the HNVSK of a message, if it differs from the first one in more than its time.
pub fn seal_note(first: &OwnedSegment, seal: &OwnedSegment, message: usize) -> Option<SealNote> {
    let element = differing_element(first, seal)?;
    Some(SealNote { element, message })
}
