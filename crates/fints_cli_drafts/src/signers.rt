//! The signers of a draft: one for each pair of an HNSHK and an HNSHA that differs from the others, as a script
//! writes them.
use crate::elements::{Written, write_elements};
use crate::fields::DraftFields;
use crate::place::{SegmentPlace, Undrafted};
use crate::recorded::Recorded;
use crate::texts::write_number;
use fints_script::limits::{MAX_SIGNATURES, MAX_SIGNERS};
use std::alloc::{AllocError, Global};

// A signer: its row after its name, and the message in which it was met first.
#[derive(Drop)]
struct SignerRow {
    row: String,
    met: SegmentPlace,
}

/// The signers that were met.
#[derive(Drop)]
pub struct Signers {
    rows: Vec<SignerRow>,
}

// The row of the signer of a signature in a message, after its name, and where its HNSHK is. Signatures count
// from 1.
fn row_of(
    alloc: Global,
    fields: &mut DraftFields,
    recorded: &Recorded,
    message: usize,
    signature: usize,
) -> Result<Option<SignerRow>, Undrafted> {
    let Some((opener, end)) = recorded.signature(signature) else {
        return Ok(None);
    };
    let head = Written {
        signature,
        reference: opener.value(4, 1),
        ..Written::new(recorded, message, opener)
    };
    let owner = recorded.signature_of(signature, end);
    let end = Written {
        segment: end,
        signature: owner,
        reference: recorded.reference(owner),
        ..head
    };
    let mut row = String::new(alloc);
    row.push_str("head = ")?;
    write_elements(alloc, &mut row, fields, &head)?;
    row.push_str("\nend = ")?;
    write_elements(alloc, &mut row, fields, &end)?;
    row.push('\n')?;
    let met = head.place();
    Ok(Some(SignerRow { row, met }))
}

impl Signers {
    pub fn new(alloc: Global) -> Signers {
        Signers {
            rows: Vec::new(alloc),
        }
    }

    /// Where a signer, which counts from 1, was met first.
    pub fn met(&self, signer: usize) -> Option<SegmentPlace> {
        if signer == 0 {
            return None;
        }
        Some(self.rows.get(signer - 1)?.met)
    }

    // The number of the signer of a row, which may be a new one.
    fn number_of(&mut self, row: SignerRow) -> Result<usize, Undrafted> {
        if let Some(found) = self.rows.iter().position(|own| own.row == row.row) {
            return Ok(found + 1);
        }
        if self.rows.len() == MAX_SIGNERS {
            return Err(row.met.refused());
        }
        self.rows.push(row)?;
        Ok(self.rows.len())
    }

    /// Writes the names of a message's signers, with commas between.
    pub fn write_names(
        &mut self,
        alloc: Global,
        text: &mut String,
        fields: &mut DraftFields,
        recorded: &Recorded,
        message: usize,
    ) -> Result<(), Undrafted> {
        for signature in 1..=MAX_SIGNATURES {
            let Some(row) = row_of(alloc, fields, recorded, message, signature)? else {
                return Ok(());
            };
            let number = self.number_of(row)?;
            if signature > 1 {
                text.push_str(", ")?;
            }
            text.push_str("\"signer")?;
            write_number(text, number)?;
            text.push('"')?;
        }
        Ok(())
    }

    /// Writes the rows of the signers.
    pub fn write_rows(&self, text: &mut String) -> Result<(), AllocError> {
        for (i, signer) in self.rows.iter().enumerate() {
            text.push_str("\n[[signer]]\nname = \"signer")?;
            write_number(text, i + 1)?;
            text.push_str("\"\n")?;
            text.push_str(signer.row.as_str())?;
        }
        Ok(())
    }
}
