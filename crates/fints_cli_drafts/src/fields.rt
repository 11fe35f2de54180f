//! The fields of a draft: what a client makes new for each message, and its secrets. Neither is a text
//! of the script (FinTS 3.0, Formals, HNSHK and HNSHA; Security PIN/TAN, HNSHA, HKPAE and HKTAN); and the accounts
//! of orders.
use crate::place::{SegmentPlace, Undrafted};
use crate::texts::write_account;
use fints_cli_drafts_accounts::{Offer, Offers};
use fints_cli_drafts_names::Purpose;
use fints_script::limits::MAX_FIELDS;
use fints_script::{Name, Values};
use fints_syntax::{Bytes, ItemRef, Memory};
use std::alloc::{AllocError, Global};

// A field, and its number among those with its word, from 1.
#[derive(Drop)]
struct DraftField {
    purpose: Purpose,
    binary: bool,
    number: usize,
    value: Bytes,
}

// Whether an item is binary, and its value.
fn parts_of<'a>(item: &ItemRef<'a>) -> (bool, &'a [u8]) {
    match item {
        ItemRef::Text(value) => (false, value),
        ItemRef::Bin(value) => (true, value),
    }
}

impl DraftField {
    // Whether it is the field of a value.
    fn holds(&self, purpose: Purpose, binary: bool, value: &[u8]) -> bool {
        self.purpose == purpose
            && self.binary == binary
            && (purpose.has_one_field(binary) || self.value.as_slice() == value)
    }

    // Writes its name. One that serves for all values of the first signature has no number.
    fn write_name(&self, text: &mut String) -> Result<(), AllocError> {
        if self.binary {
            text.push_str("bin")?;
        }
        text.push_str(self.purpose.word())?;
        if self.number == 1 && self.purpose.has_one_field(self.binary) {
            return Ok(());
        }
        let number = self.number;
        write!(text, "{number}")
    }

    // Writes the rest of its row: its class, and which values it has.
    fn write_class(&self, text: &mut String, offers: &Offers) -> Result<(), AllocError> {
        if let Purpose::Account(place) = self.purpose {
            text.push_str("class = \"account\"\n")?;
            return write_lists(text, offers, place);
        }
        let (class, least, most) = self.purpose.bounds();
        let class = if self.binary { "bin" } else { class };
        write!(text, "class = \"{class}\"\nmin = {least}\nmax = {most}\n")
    }

    // Writes its row.
    fn write_row(&self, text: &mut String, offers: &Offers) -> Result<(), AllocError> {
        text.push_str("\n[[field]]\nname = \"")?;
        self.write_name(text)?;
        text.push_str("\"\n")?;
        self.write_class(text, offers)
    }
}

// Writes the accounts of a list, one in a line.
fn write_lists(text: &mut String, offers: &Offers, place: usize) -> Result<(), AllocError> {
    text.push_str("values = [\n")?;
    if let Some(list) = offers.lists.get(place) {
        for account in list.values.iter() {
            write_account(text, account.items())?;
        }
    }
    text.push_str("]\n")
}

/// The fields that were met, in the order of their first use.
#[derive(Drop)]
pub struct DraftFields {
    fields: Vec<DraftField>,
}

impl DraftFields {
    pub fn new(alloc: Global) -> DraftFields {
        DraftFields {
            fields: Vec::new(alloc),
        }
    }

    // The number of a new field.
    fn next_number(&self, purpose: Purpose, binary: bool) -> usize {
        if purpose.has_one_field(binary) {
            return match purpose {
                Purpose::Reference(place) | Purpose::Tan(place) => place,
                _ => 1,
            };
        }
        let earlier = self.fields.iter().filter(|field| field.binary == binary
            && field.purpose.word() == purpose.word());
        earlier.count() + 1
    }

    // The place of the field of an item, which may be a new one.
    fn place_of(
        &mut self,
        alloc: Global,
        purpose: Purpose,
        item: &ItemRef<'_>,
        place: SegmentPlace,
    ) -> Result<usize, Undrafted> {
        let (binary, value) = parts_of(item);
        if let Some(found) = self
            .fields
            .iter()
            .position(|field| field.holds(purpose, binary, value))
        {
            return Ok(found);
        }
        if self.fields.len() == MAX_FIELDS {
            return Err(place.refused());
        }
        let number = self.next_number(purpose, binary);
        let value = Bytes::copied(alloc, value)?;
        self.fields.push(DraftField {
            purpose,
            binary,
            number,
            value,
        })?;
        Ok(self.fields.len() - 1)
    }

    // Writes the string of an item: the name of the field of a place.
    fn write_use(&self, text: &mut String, place: usize) -> Result<(), AllocError> {
        let Some(field) = self.fields.get(place) else {
            return Ok(());
        };
        text.push_str("\"$")?;
        field.write_name(text)?;
        text.push('"')
    }

    /// Writes the string of an item, the name of its field, and answers whether it did: what no value of the
    /// field can be is a text of the script, and where it is a secret there is no draft.
    pub fn write(
        &mut self,
        alloc: Global,
        text: &mut String,
        purpose: Purpose,
        item: &ItemRef<'_>,
        place: SegmentPlace,
    ) -> Result<bool, Undrafted> {
        let (binary, value) = parts_of(item);
        if !purpose.admits(binary, value) {
            return if purpose.is_secret() {
                Err(place.refused())
            } else {
                Ok(false)
            };
        }
        let found = self.place_of(alloc, purpose, item, place)?;
        self.write_use(text, found)?;
        Ok(true)
    }

    /// Writes the string of an account: the name of the field with its list.
    pub fn write_account(
        &mut self,
        alloc: Global,
        text: &mut String,
        offer: Offer,
        account: &[u8],
        place: SegmentPlace,
    ) -> Result<(), Undrafted> {
        let purpose = Purpose::Account(offer.list);
        let found = self.place_of(alloc, purpose, &ItemRef::Text(account), place)?;
        self.write_use(text, found)?;
        Ok(())
    }

    /// Writes the rows of the fields.
    pub fn write_rows(&self, text: &mut String, offers: &Offers) -> Result<(), AllocError> {
        for field in &self.fields {
            field.write_row(text, offers)?;
        }
        Ok(())
    }

    /// Adds the values of the fields.
    pub fn add_values(&self, alloc: Global, values: &mut Values) -> Result<(), Memory> {
        for field in &self.fields {
            let mut name = String::new(alloc);
            field.write_name(&mut name)?;
            if let Some(name) = Name::parse(name.as_bytes()) {
                values.push(name, field.value.as_slice())?;
            }
        }
        Ok(())
    }
}
