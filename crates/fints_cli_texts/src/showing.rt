//! The text of `show`: what a capture says of the bank and the user.
ghost use Rattle.std.specs.Prelude.{◌≡◌, ◌++◌, ℕ, List, Err, OnOk, IfOk, IfErr};
ghost use Rattle.std.specs.List.{flat_map};
ghost use Rattle.fints_cli_texts.specs.Show.{shown, after_space, figure, bank_text, protocols_text, kind_text, flag_text, bank_line, order_line, pin_line, tan_line, usage_line, item_text, national_text, account_line, entry_line, account_lines, skipped_line, code_line, rows_text, IsShowOf, IsMemoryOrShowFault};
ghost use Rattle.fints_cli_texts.specs.Fault.{fault_of};
ghost use Rattle.fints_params.specs.Captures.{IsBothReadOf};
ghost use Rattle.fints_params.specs.declared.fault.ParamFault.{ParamFault as ParamFaultValue};

use crate::fault::Fault;
use fints_params::{
    AccountRow, BankRow, Code, Entry, National, OrderParam, ParamFault, Params, ParamsAndCodes,
    PinRow, TanRow, Usage, params_and_codes,
};
use fints_syntax::{Bytes, Kind, Memory, OwnedItem, write_item};
use itoa::Buffer;
use std::alloc::Global;

// The bytes of a row's line, in round numbers.
const LINE: usize = 64;

// Room for the lines of all rows, so that the text isn't copied while it grows.
fn room_for(params: &Params) -> usize {
    let orders = params.orders().len().saturating_add(params.pins().len());
    let accounts = params.tans().len().saturating_add(params.accounts().len());
    orders.saturating_add(accounts).saturating_mul(LINE)
}

/// The lines of a capture's parameters and of its feedback, by what was read of it. The capture itself
/// need not be there any more.
pub fn show_read(alloc: Global, read: &Result<ParamsAndCodes, ParamFault>) -> Result<Vec<u8>, Fault>
    ensures shown { IfOk result (λ text. (capture : List ℕ) → IsBothReadOf capture read.now
        → IsShowOf capture text.items) }
    ensures refused { IfErr result (λ f. (capture : List ℕ) → IsBothReadOf capture read.now
        → IsMemoryOrShowFault capture f) }
    ensures read_first { (f : ParamFaultValue) → read.now ≡ Err f → result ≡ Err (fault_of f) }
{
    let told = match read {
        Ok(told) => told,
        Err(fault) => return Err(Fault::from(*fault)),
    };
    let mut text = Vec::with_capacity(alloc, room_for(&told.params))?;
    write_params(alloc, &mut text, &told.params)?;
    write_codes(&mut text, told.codes.as_slice())?;
    Ok(text)
}

/// The lines of a capture's parameters and of its feedback. Of the refusals that of the parameters
/// comes first.
pub fn show(alloc: Global, capture: &[u8]) -> Result<Vec<u8>, Fault>
    ensures shown { IfOk result (λ text. IsShowOf capture.now text.items) }
    ensures refused { IfErr result (λ f. IsMemoryOrShowFault capture.now f) }
{
    show_read(alloc, &params_and_codes(alloc, capture))
}

#[tactic(auto, unfolding(crate::specs::Show::rows_text))]
fn write_params(alloc: Global, text: &mut Vec<u8>, params: &Params) -> Result<(), Memory>
    ensures { OnOk result (text.new.items ≡ text.old.items ++ rows_text params.now) }
{
    write_bank(text, params.bank())?;
    write_orders(text, params.orders())?;
    write_pins(text, params.pins())?;
    write_tans(text, params.tans())?;
    write_usage(text, params.usage())?;
    write_accounts(alloc, text, params.accounts())?;
    write_skipped(text, params.skipped())
}

#[tactic(auto, unfolding(crate::specs::Show::shown))]
fn write_shown(text: &mut Vec<u8>, value: &[u8]) -> Result<(), Memory>
    ensures { OnOk result (text.new.items ≡ text.old.items ++ shown value.now) }
{
    match value {
        [] => text.push(b'-')?,
        [_, ..] => text.extend_from_slice(value)?,
    }
    Ok(())
}

// Writes the number, with these words before it; its digits are made in the buffer.
#[inline(always)]
#[tactic(auto, unfolding(crate::specs::Show::figure))]
fn write_figure(
    text: &mut Vec<u8>,
    digits: &mut Buffer,
    words: &[u8],
    number: u32,
) -> Result<(), Memory>
    ensures { OnOk result (text.new.items ≡ text.old.items ++ figure words.now number) }
{
    text.extend_from_slice(words)?;
    text.extend_from_slice(digits.format(number).as_bytes())?;
    Ok(())
}

#[inline(always)]
#[tactic(auto, unfolding(crate::specs::Show::after_space))]
fn write_number(text: &mut Vec<u8>, digits: &mut Buffer, number: u32) -> Result<(), Memory>
    ensures { OnOk result (text.new.items ≡ text.old.items ++ after_space number) }
{
    write_figure(text, digits, b" ", number)
}

fn write_numbers(text: &mut Vec<u8>, digits: &mut Buffer, numbers: &[u32]) -> Result<(), Memory>
    ensures { OnOk result (text.new.items ≡ text.old.items ++ flat_map after_space numbers.now) }
{
    for number in numbers {
        write_number(text, digits, *number)?;
    }
    Ok(())
}

#[tactic(auto, unfolding(crate::specs::Show::bank_text))]
fn write_bank_text(text: &mut Vec<u8>, bank: &BankRow) -> Result<(), Memory>
    ensures { OnOk result (text.new.items ≡ text.old.items ++ bank_text bank.now) }
{
    text.extend_from_slice(b"bank ")?;
    write_shown(text, bank.country.as_slice())?;
    text.push(b' ')?;
    write_shown(text, bank.code.as_slice())
}

#[tactic(auto, unfolding(crate::specs::Show::protocols_text))]
fn write_protocols(text: &mut Vec<u8>, digits: &mut Buffer, protocols: &[u32]) -> Result<(), Memory>
    ensures { OnOk result (text.new.items ≡ text.old.items ++ protocols_text protocols.now) }
{
    text.extend_from_slice(b" protocols")?;
    write_numbers(text, digits, protocols)
}

#[tactic(auto, unfolding(crate::specs::Show::bank_line))]
fn write_bank(text: &mut Vec<u8>, bank: &BankRow) -> Result<(), Memory>
    ensures { OnOk result (text.new.items ≡ text.old.items ++ bank_line bank.now) }
{
    let mut digits = Buffer::new();
    write_bank_text(text, bank)?;
    write_figure(text, &mut digits, b" kinds ", bank.kinds)?;
    write_figure(text, &mut digits, b" kilobytes ", bank.kilobytes)?;
    write_protocols(text, &mut digits, bank.protocols.as_slice())?;
    text.push(b'\n')?;
    Ok(())
}

// Writes the kind, with a word before it.
#[inline(always)]
#[tactic(auto, unfolding(crate::specs::Show::kind_text))]
fn write_kind(text: &mut Vec<u8>, word: &[u8], kind: &Kind) -> Result<(), Memory>
    ensures { OnOk result (text.new.items ≡ text.old.items ++ kind_text word.now kind.now) }
{
    text.extend_from_slice(word)?;
    text.extend_from_slice(kind.as_bytes())?;
    Ok(())
}

#[tactic(auto, unfolding(crate::specs::Show::order_line))]
fn write_order(text: &mut Vec<u8>, digits: &mut Buffer, row: &OrderParam) -> Result<(), Memory>
    ensures { OnOk result (text.new.items ≡ text.old.items ++ order_line row.now) }
{
    write_kind(text, b"order ", &row.kind)?;
    write_number(text, digits, u32::from(row.version))?;
    write_figure(text, digits, b" orders ", row.orders)?;
    write_figure(text, digits, b" signatures ", row.signatures)?;
    text.push(b'\n')?;
    Ok(())
}

fn write_orders(text: &mut Vec<u8>, rows: &[OrderParam]) -> Result<(), Memory>
    ensures { OnOk result (text.new.items ≡ text.old.items ++ flat_map order_line rows.now) }
{
    let mut digits = Buffer::new();
    for row in rows {
        write_order(text, &mut digits, row)?;
    }
    Ok(())
}

// Writes whether something holds: ja or nein.
#[tactic(auto, unfolding(crate::specs::Show::flag_text))]
fn write_flag(text: &mut Vec<u8>, flag: bool) -> Result<(), Memory>
    ensures { OnOk result (text.new.items ≡ text.old.items ++ flag_text flag) }
{
    if flag {
        text.extend_from_slice(b" J")?;
    } else {
        text.extend_from_slice(b" N")?;
    }
    Ok(())
}

#[tactic(auto, unfolding(crate::specs::Show::pin_line))]
fn write_pin(text: &mut Vec<u8>, row: &PinRow) -> Result<(), Memory>
    ensures { OnOk result (text.new.items ≡ text.old.items ++ pin_line row.now) }
{
    write_kind(text, b"pin ", &row.kind)?;
    write_flag(text, row.tan)?;
    text.push(b'\n')?;
    Ok(())
}

fn write_pins(text: &mut Vec<u8>, rows: &[PinRow]) -> Result<(), Memory>
    ensures { OnOk result (text.new.items ≡ text.old.items ++ flat_map pin_line rows.now) }
{
    for row in rows {
        write_pin(text, row)?;
    }
    Ok(())
}

#[tactic(auto, unfolding(crate::specs::Show::tan_line))]
fn write_tan(text: &mut Vec<u8>, digits: &mut Buffer, row: &TanRow) -> Result<(), Memory>
    ensures { OnOk result (text.new.items ≡ text.old.items ++ tan_line row.now) }
{
    write_figure(text, digits, b"tan ", u32::from(row.version))?;
    write_flag(text, row.one_step)?;
    write_flag(text, row.several)?;
    text.push(b'\n')?;
    Ok(())
}

fn write_tans(text: &mut Vec<u8>, rows: &[TanRow]) -> Result<(), Memory>
    ensures { OnOk result (text.new.items ≡ text.old.items ++ flat_map tan_line rows.now) }
{
    let mut digits = Buffer::new();
    for row in rows {
        write_tan(text, &mut digits, row)?;
    }
    Ok(())
}

#[tactic(auto, unfolding(crate::specs::Show::usage_line))]
fn write_usage(text: &mut Vec<u8>, usage: Usage) -> Result<(), Memory>
    ensures { OnOk result (text.new.items ≡ text.old.items ++ usage_line usage) }
{
    match usage {
        Usage::Locked => text.extend_from_slice(b"usage 0\n")?,
        Usage::Unsaid => text.extend_from_slice(b"usage 1\n")?,
    }
    Ok(())
}

#[tactic(auto, unfolding(crate::specs::Show::item_text))]
fn write_item_text(alloc: Global, text: &mut Vec<u8>, value: &[u8]) -> Result<(), Memory>
    ensures { OnOk result (text.new.items ≡ text.old.items ++ item_text value.now) }
{
    write_item(text, &OwnedItem::Text(Bytes::new(value.to_vec(alloc)?)))
}

#[tactic(auto, unfolding(crate::specs::Show::national_text))]
fn write_national(alloc: Global, text: &mut Vec<u8>, account: &National) -> Result<(), Memory>
    ensures { OnOk result (text.new.items ≡ text.old.items ++ national_text account.now) }
{
    write_item_text(alloc, text, account.number())?;
    text.push(b':')?;
    write_item_text(alloc, text, account.subaccount())?;
    text.push(b':')?;
    write_item_text(alloc, text, account.country())?;
    text.push(b':')?;
    write_item_text(alloc, text, account.bank())
}

#[tactic(auto, unfolding(crate::specs::Show::account_line))]
fn write_account_line(alloc: Global, text: &mut Vec<u8>, account: &AccountRow) -> Result<(), Memory>
    ensures { OnOk result (text.new.items ≡ text.old.items ++ account_line account.now) }
{
    text.extend_from_slice(b"account ")?;
    write_national(alloc, text, &account.national)?;
    text.extend_from_slice(b" iban ")?;
    write_shown(text, account.iban.as_slice())?;
    text.push(b'\n')?;
    Ok(())
}

#[tactic(auto, unfolding(crate::specs::Show::entry_line))]
fn write_entry(text: &mut Vec<u8>, digits: &mut Buffer, entry: &Entry) -> Result<(), Memory>
    ensures { OnOk result (text.new.items ≡ text.old.items ++ entry_line entry.now) }
{
    write_kind(text, b"entry ", &entry.kind)?;
    write_number(text, digits, entry.signatures)?;
    text.push(b'\n')?;
    Ok(())
}

fn write_entries(text: &mut Vec<u8>, entries: &[Entry]) -> Result<(), Memory>
    ensures { OnOk result (text.new.items ≡ text.old.items ++ flat_map entry_line entries.now) }
{
    let mut digits = Buffer::new();
    for entry in entries {
        write_entry(text, &mut digits, entry)?;
    }
    Ok(())
}

#[tactic(auto, unfolding(crate::specs::Show::account_lines))]
fn write_account(alloc: Global, text: &mut Vec<u8>, account: &AccountRow) -> Result<(), Memory>
    ensures { OnOk result (text.new.items ≡ text.old.items ++ account_lines account.now) }
{
    write_account_line(alloc, text, account)?;
    write_entries(text, account.entries.as_slice())
}

fn write_accounts(alloc: Global, text: &mut Vec<u8>, accounts: &[AccountRow]) -> Result<(), Memory>
    ensures { OnOk result (text.new.items ≡ text.old.items ++ flat_map account_lines accounts.now) }
{
    for account in accounts {
        write_account(alloc, text, account)?;
    }
    Ok(())
}

#[tactic(auto, unfolding(crate::specs::Show::skipped_line))]
fn write_skipped(text: &mut Vec<u8>, skipped: u32) -> Result<(), Memory>
    ensures { OnOk result (text.new.items ≡ text.old.items ++ skipped_line skipped) }
{
    write_figure(text, &mut Buffer::new(), b"skipped ", skipped)?;
    text.push(b'\n')?;
    Ok(())
}

#[tactic(auto, unfolding(crate::specs::Show::code_line))]
fn write_code(text: &mut Vec<u8>, code: &Code) -> Result<(), Memory>
    ensures { OnOk result (text.new.items ≡ text.old.items ++ code_line code.now) }
{
    let mut buffer = Buffer::new();
    let digits = buffer.format(code.number()).as_bytes();
    text.extend_from_slice(b"code ")?;
    text.extend_from_slice(b"0000".get(digits.len()..).unwrap_or(&[]))?;
    text.extend_from_slice(digits)?;
    text.push(b'\n')?;
    Ok(())
}

fn write_codes(text: &mut Vec<u8>, codes: &[Code]) -> Result<(), Memory>
    ensures { OnOk result (text.new.items ≡ text.old.items ++ flat_map code_line codes.now) }
{
    for code in codes {
        write_code(text, code)?;
    }
    Ok(())
}
