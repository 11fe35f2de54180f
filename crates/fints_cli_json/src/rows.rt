//! The rows of parameter data, as objects.
ghost use Rattle.fints_cli_json.specs.Shows.{account_members, account_value, bank_code, bank_limits, bank_members, entry_members, order_members, pin_members, tan_members};
ghost use Rattle.std.specs.Prelude.{◌≡◌, ◌++◌, OnOk};
ghost use Rattle.fints_cli_json.specs.Tokens.{all_members, member_tokens};

use crate::latin::write_latin;
use crate::objects::{Object, write_list};
use crate::values::{write_numbers, write_texts};
use crate::writing::{write_flag, write_u16, write_u32};
use fints_params::{AccountRow, BankRow, Entry, National, OrderParam, PinRow, TanRow};
use json::Writer;
use std::alloc::{AllocError, Global};

#[tactic(auto, using(crate::proofs::ObjectLemmas::two_members))]
fn write_bank_code(alloc: Global, out: &mut Writer, bank: &BankRow) -> Result<(), AllocError>
    ensures tokens { OnOk result (out.new.tokens ≡ out.old.tokens ++ all_members (bank_code bank.now)) }
    ensures before { out.new.before ≡ out.old.before }
{
    write_latin(alloc, out, "country", bank.country.as_slice())?;
    write_latin(alloc, out, "code", bank.code.as_slice())
}

#[tactic(auto, using(crate::proofs::ObjectLemmas::three_members))]
fn write_limits(out: &mut Writer, bank: &BankRow) -> Result<(), AllocError>
    ensures tokens { OnOk result (out.new.tokens ≡ out.old.tokens ++ all_members (bank_limits bank.now)) }
    ensures before { out.new.before ≡ out.old.before }
{
    write_u32(out, "kinds", bank.kinds)?;
    write_u32(out, "kilobytes", bank.kilobytes)?;
    write_numbers(out, "protocols", bank.protocols.as_slice())
}

impl Object for BankRow {
    ghost members = { bank_members };

    #[tactic(auto, using(crate::proofs::ObjectLemmas::then_members))]
    fn write_members(&self, alloc: Global, out: &mut Writer) -> Result<(), AllocError> {
        write_bank_code(alloc, out, self)?;
        write_limits(out, self)
    }
}

impl Object for OrderParam {
    ghost members = { order_members };

    #[tactic(auto, using(crate::proofs::ObjectLemmas::four_members))]
    fn write_members(&self, alloc: Global, out: &mut Writer) -> Result<(), AllocError> {
        write_latin(alloc, out, "kind", self.kind.as_bytes())?;
        write_u16(out, "version", self.version)?;
        write_u32(out, "orders", self.orders)?;
        write_u32(out, "signatures", self.signatures)
    }
}

impl Object for PinRow {
    ghost members = { pin_members };

    #[tactic(auto, using(crate::proofs::ObjectLemmas::two_members))]
    fn write_members(&self, alloc: Global, out: &mut Writer) -> Result<(), AllocError> {
        write_latin(alloc, out, "kind", self.kind.as_bytes())?;
        write_flag(out, "tan", self.tan)
    }
}

impl Object for TanRow {
    ghost members = { tan_members };

    #[tactic(auto, using(crate::proofs::ObjectLemmas::three_members))]
    fn write_members(&self, _alloc: Global, out: &mut Writer) -> Result<(), AllocError> {
        write_u16(out, "version", self.version)?;
        write_flag(out, "one_step", self.one_step)?;
        write_flag(out, "several", self.several)
    }
}

impl Object for Entry {
    ghost members = { entry_members };

    #[tactic(auto, using(crate::proofs::ObjectLemmas::two_members))]
    fn write_members(&self, alloc: Global, out: &mut Writer) -> Result<(), AllocError> {
        write_latin(alloc, out, "kind", self.kind.as_bytes())?;
        write_u32(out, "signatures", self.signatures)
    }
}

fn write_account(alloc: Global, out: &mut Writer, account: &National) -> Result<(), AllocError>
    ensures tokens { OnOk result
        (out.new.tokens ≡ out.old.tokens ++ member_tokens (account_value account.now)) }
    ensures before { out.new.before ≡ out.old.before }
{
    let texts = [
        account.number(),
        account.subaccount(),
        account.country(),
        account.bank(),
    ];
    write_texts(alloc, out, "account", &texts)
}

impl Object for AccountRow {
    ghost members = { account_members };

    #[tactic(auto, using(crate::proofs::ObjectLemmas::three_members))]
    fn write_members(&self, alloc: Global, out: &mut Writer) -> Result<(), AllocError> {
        write_account(alloc, out, &self.national)?;
        write_latin(alloc, out, "iban", self.iban.as_slice())?;
        write_list(alloc, out, "entries", self.entries.as_slice())
    }
}
