//! The elements of a recorded segment, as they are written in a script.
use crate::fields::DraftFields;
use crate::place::{SegmentPlace, Undrafted};
use crate::recorded::Recorded;
use crate::texts::write_item;
use fints_cli_drafts_accounts::Offer;
use fints_cli_drafts_alike::{is_empty, refers};
use fints_cli_drafts_names::Purpose;
use fints_cli_texts::has_reference;
use fints_syntax::{ElementRef, ItemRef, OwnedSegment};
use std::alloc::Global;

/// A recorded segment, with what is written of it for another reason than its bytes.
#[derive(Clone, Copy)]
pub struct Written<'a> {
    pub segment: &'a OwnedSegment,
    /// The id of the dialogue in the message.
    pub dialogue_id: &'a [u8],
    /// The message, which counts from 1.
    pub message: usize,
    /// The signature that it belongs to, from 1: an HNSHA belongs to the HNSHK with its control reference.
    pub signature: usize,
    /// The control reference in the HNSHK of that signature.
    pub reference: &'a [u8],
    /// The list of its account, and the text of the account, where it is an order that has one.
    pub account: Option<(Offer, &'a [u8])>,
}

// Whether each item of an element is empty.
fn are_empty(items: &ElementRef<'_>) -> bool {
    (0..items.len()).all(|i| items.value(i + 1).is_empty())
}

impl<'a> Written<'a> {
    /// A segment of a message outside signatures, without an account.
    pub fn new(recorded: &'a Recorded, message: usize, segment: &'a OwnedSegment) -> Written<'a> {
        Written {
            segment,
            dialogue_id: recorded.dialogue_id(),
            message,
            signature: 1,
            reference: &[],
            account: None,
        }
    }

    /// Its place in the dialogue.
    pub fn place(&self) -> SegmentPlace {
        SegmentPlace {
            message: self.message,
            segment: usize::from(self.segment.head.number),
        }
    }

    // Whether an item of an element is the id of the dialogue, and is due there: in HKEND.
    fn is_dialogue_id(&self, element: usize, item: usize) -> bool {
        self.segment.head.id.is(b"HKEND")
            && element == 2
            && item == 1
            && self.segment.value(2, 1) == self.dialogue_id
    }

    // Whether an element that is no secret's may hold a part of one, as where a + is missing, or is written in
    // a secret without an escape.
    fn misplaces_secrets(&self) -> bool {
        let segment = self.segment;
        let count = segment.elements.len();
        if segment.head.id.is(b"HNSHA") {
            return count > 3 || !has_reference(segment) || !are_empty(&segment.items(3));
        }
        segment.head.id.is(b"HKPAE") && count > 1
    }

    // What an item of an HNSHA is.
    fn purpose_in_end(&self, element: usize, item: usize) -> Option<Purpose> {
        match (element, item) {
            (2, 1) if self.segment.value(2, 1) == self.reference => {
                Some(Purpose::Reference(self.signature))
            }
            (4, 1) => Some(Purpose::Pin),
            (4, 2) => Some(Purpose::Tan(self.signature)),
            (4, _) => Some(Purpose::FurtherSecret),
            _ => None,
        }
    }

    // What an item of an HNSHK is.
    fn purpose_in_opener(&self, element: usize, item: usize) -> Option<Purpose> {
        match (element, item) {
            (4, 1) => Some(Purpose::Reference(self.signature)),
            (9, 2) => Some(Purpose::Date),
            (9, 3) => Some(Purpose::Time),
            _ => None,
        }
    }

    // What an item is, where it may be the value of a field; items and elements count from 1.
    fn purpose(&self, element: usize, item: usize) -> Option<Purpose> {
        let kind = self.segment.head.id;
        if kind.is(b"HNSHK") {
            return self.purpose_in_opener(element, item);
        }
        if kind.is(b"HNSHA") {
            return self.purpose_in_end(element, item);
        }
        if kind.is(b"HKPAE") && element == 2 {
            return Some(Purpose::NewPin);
        }
        if refers(self.segment) && element == 6 && item == 1 {
            return Some(Purpose::OrderReference);
        }
        None
    }
}

// Writes the string of an item as a field, where it may be the value of one, and answers whether it did.
fn write_field(
    alloc: Global,
    text: &mut String,
    fields: &mut DraftFields,
    written: &Written<'_>,
    element: usize,
    item: usize,
    found: &ItemRef<'_>,
) -> Result<bool, Undrafted> {
    if is_empty(found) {
        return Ok(false);
    }
    match written.purpose(element, item) {
        Some(purpose) => fields.write(alloc, text, purpose, found, written.place()),
        None => Ok(false),
    }
}

// Writes the string of an item.
fn write_string(
    alloc: Global,
    text: &mut String,
    fields: &mut DraftFields,
    written: &Written<'_>,
    element: usize,
    item: usize,
    found: &ItemRef<'_>,
) -> Result<(), Undrafted> {
    if write_field(alloc, text, fields, written, element, item, found)? {
        return Ok(());
    }
    if written.is_dialogue_id(element, item) {
        text.push_str("\"$dialog\"")?;
        return Ok(());
    }
    write_item(alloc, text, found, written.place())
}

// Writes the strings of the items of an element, with commas between.
fn write_strings(
    alloc: Global,
    text: &mut String,
    fields: &mut DraftFields,
    written: &Written<'_>,
    element: usize,
    items: &ElementRef<'_>,
) -> Result<(), Undrafted> {
    for i in 0..items.len() {
        if i > 0 {
            text.push_str(", ")?;
        }
        if let Some(found) = items.get(i + 1) {
            write_string(alloc, text, fields, written, element, i + 1, &found)?;
        }
    }
    Ok(())
}

// Writes an element with these items: a string, or an array of strings.
fn write_element(
    alloc: Global,
    text: &mut String,
    fields: &mut DraftFields,
    written: &Written<'_>,
    element: usize,
    items: &ElementRef<'_>,
) -> Result<(), Undrafted> {
    if let (2, Some((offer, account))) = (element, written.account) {
        return fields.write_account(alloc, text, offer, account, written.place());
    }
    if items.len() == 1 {
        return write_strings(alloc, text, fields, written, element, items);
    }
    text.push('[')?;
    write_strings(alloc, text, fields, written, element, items)?;
    text.push(']')?;
    Ok(())
}

/// Writes the elements of a segment from element 2 on, as an array.
pub fn write_elements(
    alloc: Global,
    text: &mut String,
    fields: &mut DraftFields,
    written: &Written<'_>,
) -> Result<(), Undrafted> {
    if written.misplaces_secrets() {
        return Err(written.place().refused());
    }
    text.push('[')?;
    let elements = &written.segment.elements;
    for i in 0..elements.len() {
        if i > 0 {
            text.push_str(", ")?;
        }
        write_element(alloc, text, fields, written, i + 2, &elements.items(i))?;
    }
    text.push(']')?;
    Ok(())
}
