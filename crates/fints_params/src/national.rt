//! An account as it is named within its country.
ghost use Rattle.std.specs.Prelude.{◌≡◌, IfOk};

use fints_syntax::Memory;
use std::alloc::Global;
use std::marker::Model;

/// An account as it is named within its country, by four texts in one list of bytes; what
/// is absent is empty. A contract sees the texts.
#[derive(Drop)]
pub struct National {
    texts: Vec<u8>,
    number_end: usize,
    subaccount_end: usize,
    country_end: usize,
}

impl Model for National {
    ghost use Rattle.fints_params.specs.Nationals.{NationalValue};

    ghost Value = { NationalValue };

    ghost use Rattle.fints_params.specs.NationalFields.{four_texts, IsNational};

    ghost view = { four_texts };

    ghost invariant = { IsNational };
}

impl National {
    /// The account of these texts, which are copied.
    pub fn copied(
        alloc: Global,
        number: &[u8],
        subaccount: &[u8],
        country: &[u8],
        bank: &[u8],
    ) -> Result<National, Memory>
        ensures { IfOk result (λ n. n ≡ record {
          number = number.now;
          subaccount = subaccount.now;
          country = country.now;
          bank = bank.now;
        }) }
    {
        let front = number.len().saturating_add(subaccount.len());
        let back = country.len().saturating_add(bank.len());
        let mut texts = Vec::with_capacity(alloc, front.saturating_add(back))?;
        texts.extend_from_slice(number)?;
        let number_end = texts.len();
        texts.extend_from_slice(subaccount)?;
        let subaccount_end = texts.len();
        texts.extend_from_slice(country)?;
        let country_end = texts.len();
        texts.extend_from_slice(bank)?;
        Ok(National {
            texts,
            number_end,
            subaccount_end,
            country_end,
        })
    }

    /// The number of the account.
    pub fn number(&self) -> &[u8]
        ensures { result.now ≡ self.now.number }
    {
        &self.texts[..self.number_end]
    }

    /// What distinguishes accounts with the same number.
    pub fn subaccount(&self) -> &[u8]
        ensures { result.now ≡ self.now.subaccount }
    {
        &self.texts[self.number_end..self.subaccount_end]
    }

    /// The country of the bank.
    pub fn country(&self) -> &[u8]
        ensures { result.now ≡ self.now.country }
    {
        &self.texts[self.subaccount_end..self.country_end]
    }

    /// The code of the bank within its country.
    pub fn bank(&self) -> &[u8]
        ensures { result.now ≡ self.now.bank }
    {
        &self.texts[self.country_end..]
    }
}
