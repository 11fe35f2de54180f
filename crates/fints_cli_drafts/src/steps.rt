//! The steps of a draft: one for each message of the client.
use crate::elements::{Written, write_elements};
use crate::fields::DraftFields;
use crate::notes::order_note;
use crate::place::Undrafted;
use crate::recorded::Recorded;
use crate::signers::Signers;
use crate::texts::write_number;
use crate::turns::{Ways, write_name, write_ways};
use fints_cli_drafts_accounts::Offers;
use fints_cli_drafts_texts::{Notes, OrderNote};
use fints_rules::OrderTable;
use fints_syntax::OwnedSegment;
use std::alloc::Global;

/// What is known of the orders of a dialogue: how they name accounts, and which accounts they may name.
#[derive(Clone, Copy)]
pub struct Orders<'o> {
    pub table: &'o OrderTable,
    pub offers: &'o Offers,
}

// Writes a segment of the body.
fn write_segment(
    alloc: Global,
    text: &mut String,
    fields: &mut DraftFields,
    written: &Written<'_>,
) -> Result<(), Undrafted> {
    let OwnedSegment { head, elements } = written.segment;
    text.push_str("  {kind = \"")?;
    for b in head.id.as_bytes() {
        text.push(char::from(*b))?;
    }
    text.push_str("\", version = ")?;
    write_number(text, usize::from(head.version))?;
    if !elements.is_empty() {
        text.push_str(", elements = ")?;
        write_elements(alloc, text, fields, written)?;
    }
    text.push_str("},\n")?;
    Ok(())
}

// Writes the segments of the body, and returns what is said of each.
fn write_body(
    alloc: Global,
    text: &mut String,
    fields: &mut DraftFields,
    orders: &Orders<'_>,
    recorded: &Recorded,
    message: usize,
) -> Result<Vec<OrderNote>, Undrafted> {
    let mut notes = Vec::new(alloc);
    text.push_str("segments = [\n")?;
    for (i, segment) in recorded.body.iter().enumerate() {
        let written = Written {
            account: orders.offers.account_of(message, i),
            ..Written::new(recorded, message, segment)
        };
        let offer = written.account.map(|(offer, _)| offer);
        notes.push(order_note(orders.table, segment, offer))?;
        write_segment(alloc, text, fields, &written)?;
    }
    text.push_str("]\n")?;
    Ok(notes)
}

/// What the steps of a draft have in common.
#[derive(Drop)]
pub struct Common {
    pub fields: DraftFields,
    pub signers: Signers,
    /// What is said in comments.
    pub notes: Notes,
    /// How many messages of the client come before the dialogue in the recording.
    pub before: usize,
}

impl Common {
    /// The number in the recording of a message of the dialogue.
    pub fn number_of(&self, message: usize) -> usize {
        message.saturating_add(self.before)
    }
}

/// Writes the step of a message, which counts from 1 in its dialogue.
pub fn write_step(
    alloc: Global,
    text: &mut String,
    common: &mut Common,
    orders: &Orders<'_>,
    recorded: &Recorded,
    message: usize,
    ways: &Ways,
) -> Result<(), Undrafted> {
    let number = common.number_of(message);
    let Common {
        fields,
        signers,
        notes,
        before,
    } = common;
    text.push_str("\n[[step]]\nname = ")?;
    write_name(text, number, recorded.kind())?;
    text.push('\n')?;
    if recorded.seal().is_some() {
        text.push_str("sealed = true\n")?;
    }
    if recorded.signature(1).is_some() {
        text.push_str("signers = [")?;
        signers.write_names(alloc, text, fields, recorded, message)?;
        text.push_str("]\n")?;
    }
    let said = write_body(alloc, text, fields, orders, recorded, message)?;
    notes.orders.push(said)?;
    write_ways(text, ways, *before)?;
    Ok(())
}
