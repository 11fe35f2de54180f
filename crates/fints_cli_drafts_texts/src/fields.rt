//! The rows of the fields.
ghost use Rattle.std.specs.Prelude.{◌≡◌, ◌++◌, OnOk, codes};
ghost use Rattle.std.specs.List.{flat_map};
ghost use Rattle.fints_cli_drafts_texts.specs.DraftText.{account_line, alphabet_name, bounds_text, class_name, field_row, field_rows, values_text};

use crate::strings::{write_array, write_quoted};
use fints_script_fields::{AccountValue, Alphabet, Field};
use fints_script_rows::NamedField;
use fints_syntax_segments::Memory;
use itoa::Buffer;

#[tactic(auto, unfolding(crate::specs::DraftText::alphabet_name))]
fn alphabet_name(alphabet: Alphabet) -> &'static [u8]
    ensures { result.now ≡ alphabet_name alphabet }
{
    match alphabet {
        Alphabet::Digits => b"digits",
        Alphabet::Plain => b"plain",
        Alphabet::Latin => b"text",
    }
}

fn class_name(class: &Field) -> &'static [u8]
    ensures { result.now ≡ class_name class.now }
{
    match class {
        Field::Text(text) => alphabet_name(text.alphabet),
        Field::Bin(_) => b"bin",
        Field::OneOf(_) => b"oneof",
        Field::Account(_) => b"account",
    }
}

#[tactic(auto, unfolding(crate::specs::DraftText::bounds_text))]
fn write_bounds(text: &mut Vec<u8>, least: u16, most: u16) -> Result<(), Memory>
    ensures { OnOk result (text.new.items ≡ text.old.items ++ bounds_text least most) }
{
    let mut digits = Buffer::new();
    text.extend_from_slice(b"min = ")?;
    text.extend_from_slice(digits.format(least).as_bytes())?;
    text.extend_from_slice(b"\nmax = ")?;
    text.extend_from_slice(digits.format(most).as_bytes())?;
    text.push(b'\n')?;
    Ok(())
}

// Writes the line of a listed account.
#[tactic(auto, unfolding(crate::specs::DraftText::account_line))]
fn write_account(text: &mut Vec<u8>, account: &AccountValue) -> Result<(), Memory>
    ensures { OnOk result (text.new.items ≡ text.old.items ++ account_line account.now) }
{
    text.extend_from_slice(b"  ")?;
    write_array(text, account.items())?;
    text.extend_from_slice(b",\n")?;
    Ok(())
}

fn write_accounts(text: &mut Vec<u8>, accounts: &[AccountValue]) -> Result<(), Memory>
    ensures { OnOk result (text.new.items ≡ text.old.items ++ flat_map account_line accounts.now) }
{
    for account in accounts {
        write_account(text, account)?;
    }
    Ok(())
}

fn write_account_list(text: &mut Vec<u8>, accounts: &[AccountValue]) -> Result<(), Memory>
    ensures { OnOk result (text.new.items
        ≡ text.old.items ++ (codes "values = [\n" ++ flat_map account_line accounts.now ++ codes "]\n")) }
{
    text.extend_from_slice(b"values = [\n")?;
    write_accounts(text, accounts)?;
    text.extend_from_slice(b"]\n")?;
    Ok(())
}

// Writes the keys of a field after its class.
#[tactic(auto, unfolding(crate::specs::DraftText::values_text))]
fn write_values(text: &mut Vec<u8>, class: &Field) -> Result<(), Memory>
    ensures { OnOk result (text.new.items ≡ text.old.items ++ values_text class.now) }
{
    match class {
        Field::Text(own) => write_bounds(text, own.min, own.max)?,
        Field::Bin(own) => write_bounds(text, own.min, own.max)?,
        Field::OneOf(own) => {
            text.extend_from_slice(b"values = ")?;
            write_array(text, own.values.as_slice())?;
            text.push(b'\n')?;
        }
        Field::Account(own) => write_account_list(text, own.values.as_slice())?,
    }
    Ok(())
}

#[tactic(auto, unfolding(crate::specs::DraftText::field_row))]
fn write_field(text: &mut Vec<u8>, field: &NamedField) -> Result<(), Memory>
    ensures { OnOk result (text.new.items ≡ text.old.items ++ field_row field.now) }
{
    text.extend_from_slice(b"\n[[field]]\nname = ")?;
    write_quoted(text, field.name.as_bytes())?;
    text.extend_from_slice(b"\nclass = ")?;
    write_quoted(text, class_name(&field.class))?;
    text.push(b'\n')?;
    write_values(text, &field.class)
}

fn write_own_fields(text: &mut Vec<u8>, fields: &[NamedField]) -> Result<(), Memory>
    ensures { OnOk result (text.new.items ≡ text.old.items ++ flat_map field_row fields.now) }
{
    for field in fields {
        write_field(text, field)?;
    }
    Ok(())
}

/// Writes the rows of a script's fields. The built-in `dialog`, which is the first, has none.
pub fn write_fields(text: &mut Vec<u8>, fields: &[NamedField]) -> Result<(), Memory>
    ensures { OnOk result (text.new.items ≡ text.old.items ++ field_rows fields.now) }
{
    match fields {
        [] => Ok(()),
        [_, own @ ..] => write_own_fields(text, own),
    }
}
