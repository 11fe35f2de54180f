//! The sketch of a draft: the text of its script, and the values of its case, before they are tried.
use crate::elements::{Written, write_elements};
use crate::fields::DraftFields;
use crate::notes::seal_note;
use crate::place::{SegmentPlace, Undrafted};
use crate::recorded::Recorded;
use crate::signers::Signers;
use crate::steps::{Common, Orders, write_step};
use crate::turns::{Turn, ways_of};
use fints_cli_drafts_accounts::Offers;
use fints_cli_drafts_texts::Notes;
use fints_rules_dialogues::{DialoguePart, Exchange};
use fints_script::limits::MAX_STEPS;
use fints_script::{Name, Values};
use fints_syntax_segments::{HNVSK_NUMBER, Memory};
use std::alloc::{AllocError, Global};

/// The seal of a script: the HNVSK that is met first.
#[derive(Drop)]
struct Seal {
    // The message that has it, and its number, which counts from 1.
    first: Option<(Recorded, usize)>,
    row: String,
}

impl Seal {
    // Looks at the HNVSK of a message.
    fn meet(
        &mut self,
        alloc: Global,
        common: &mut Common,
        recorded: Recorded,
        message: usize,
    ) -> Result<(), Undrafted> {
        let Some(segment) = recorded.seal() else {
            return Ok(());
        };
        if let Some((first, _)) = &self.first {
            if let Some(seal) = first.seal() {
                let number = common.number_of(message);
                if let Some(note) = seal_note(seal, segment, number) {
                    common.notes.seals.push(note)?;
                }
            }
            return Ok(());
        }
        let written = Written::new(&recorded, message, segment);
        self.row.push_str("\nseal = ")?;
        write_elements(alloc, &mut self.row, &mut common.fields, &written)?;
        self.row.push('\n')?;
        self.first = Some((recorded, message));
        Ok(())
    }
}

/// A draft before it is tried: the text of its script without comments, what the comments say, and the values of
/// its case.
#[derive(Drop)]
pub struct Sketch {
    pub script: String,
    pub notes: Notes,
    pub values: Values,
    signers: Signers,
    seal_met: SegmentPlace,
}

impl Sketch {
    /// The place in the dialogue that a place of the script was drafted from.
    pub fn source(&self, place: fints_script::Place) -> SegmentPlace {
        match place {
            fints_script::Place::Step(row) => SegmentPlace::whole(usize::from(row)),
            fints_script::Place::Seal => self.seal_met,
            fints_script::Place::Signer(row) => {
                self.signers
                    .met(usize::from(row))
                    .unwrap_or(SegmentPlace::whole(0))
            }
            fints_script::Place::Top | fints_script::Place::Field(_) => SegmentPlace::whole(0),
        }
    }
}

// What each message of the client does.
fn turns_of(alloc: Global, exchanges: &[Exchange<'_>]) -> Result<Vec<Turn>, Memory> {
    let mut turns = Vec::new(alloc);
    for exchange in exchanges {
        let recorded = Recorded::of(alloc, &exchange.message)?;
        turns.push(Turn::of(&recorded))?;
    }
    Ok(turns)
}

// Writes the steps of all messages, and meets their seals.
fn write_steps(
    alloc: Global,
    text: &mut String,
    common: &mut Common,
    seal: &mut Seal,
    orders: &Orders<'_>,
    exchanges: &[Exchange<'_>],
) -> Result<(), Undrafted> {
    let turns = turns_of(alloc, exchanges)?;
    for (i, exchange) in exchanges.iter().enumerate() {
        let message = i + 1;
        let recorded = Recorded::of(alloc, &exchange.message)?;
        let ways = ways_of(alloc, turns.as_slice(), i, exchange)?;
        write_step(alloc, text, common, orders, &recorded, message, &ways)?;
        seal.meet(alloc, common, recorded, message)?;
    }
    Ok(())
}

// The values of the fields. The id of the dialogue is that of the second message; a dialogue without one
// has it nowhere.
fn values_of(
    alloc: Global,
    fields: &DraftFields,
    exchanges: &[Exchange<'_>],
) -> Result<Values, Memory> {
    let mut values = Values::new(alloc);
    let Some(dialog) = Name::parse(b"dialog") else {
        return Ok(values);
    };
    match exchanges.get(1) {
        None => values.push(dialog, b"0")?,
        Some(exchange) => {
            let first = exchange.message.first().to_owned(alloc)?;
            values.push(dialog, first.value(4, 1))?;
        }
    }
    fields.add_values(alloc, &mut values)?;
    Ok(values)
}

// The text of the script, of its parts.
fn joined(
    alloc: Global,
    common: &Common,
    seal: &Seal,
    offers: &Offers,
    steps: &str,
) -> Result<String, AllocError> {
    let mut text = String::new(alloc);
    text.push_str(seal.row.as_str())?;
    common.fields.write_rows(&mut text, offers)?;
    common.signers.write_rows(&mut text)?;
    text.push_str(steps)?;
    Ok(text)
}

/// The sketch of a part of a recording. The account of an order is a field where there is a list for it, and else
/// a comment says which orders name one. The steps are named by the numbers of their messages in the recording;
/// places count the messages of the part.
pub fn sketch_of(
    alloc: Global,
    orders: &Orders<'_>,
    part: DialoguePart<'_, '_>,
) -> Result<Sketch, Undrafted> {
    let exchanges = part.exchanges;
    if exchanges.len() > MAX_STEPS {
        return Err(SegmentPlace::whole(MAX_STEPS + 1).refused());
    }
    let mut common = Common {
        fields: DraftFields::new(alloc),
        signers: Signers::new(alloc),
        notes: Notes {
            seals: Vec::new(alloc),
            orders: Vec::new(alloc),
        },
        before: part.before,
    };
    let mut seal = Seal {
        first: None,
        row: String::new(alloc),
    };
    let mut steps = String::new(alloc);
    write_steps(alloc, &mut steps, &mut common, &mut seal, orders, exchanges)?;
    let values = values_of(alloc, &common.fields, exchanges)?;
    let script = joined(alloc, &common, &seal, orders.offers, steps.as_str())?;
    let seal_met = match &seal.first {
        None => SegmentPlace::whole(0),
        Some((_, message)) => SegmentPlace {
            message: *message,
            segment: usize::from(HNVSK_NUMBER),
        },
    };
    let Common { signers, notes, .. } = common;
    Ok(Sketch {
        script,
        notes,
        values,
        signers,
        seal_met,
    })
}
