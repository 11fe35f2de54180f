//! Lists of texts and of numbers.
ghost use Rattle.std.specs.Prelude.{◌≡◌, ◌++◌, map, OnOk};
ghost use Rattle.json.specs.Tree.{json_tokens};
ghost use Rattle.fints_cli_json.specs.Case.{code_value};
ghost use Rattle.fints_cli_json.specs.Objects.{latin_value, list, number_value};
ghost use Rattle.fints_cli_json.specs.Tokens.{all_values, member_tokens};

use crate::latin::latin;
use fints_params::Code;
use fints_script_cases::digits_of;
use json::Writer;
use std::alloc::{AllocError, Global};

// Writes a text of bytes.
fn write_value(alloc: Global, out: &mut Writer, bytes: &[u8]) -> Result<(), AllocError>
    ensures tokens { OnOk result (out.new.tokens ≡ out.old.tokens ++ json_tokens (latin_value bytes.now)) }
    ensures before { out.new.before ≡ out.old.before }
{
    let value = latin(alloc, bytes)?;
    out.string(value.as_str())
}

fn write_each_text(alloc: Global, out: &mut Writer, texts: &[&[u8]]) -> Result<(), AllocError>
    ensures tokens { OnOk result
        (out.new.tokens ≡ out.old.tokens ++ all_values (map (λ text. latin_value text.now) texts.now)) }
    ensures before { out.new.before ≡ out.old.before }
{
    for text in texts {
        write_value(alloc, out, *text)?;
    }
    Ok(())
}

/// Writes a member whose value is a list of texts.
#[tactic(auto, using(crate::proofs::ObjectLemmas::in_list))]
pub fn write_texts(
    alloc: Global,
    out: &mut Writer,
    name: &str,
    texts: &[&[u8]],
) -> Result<(), AllocError>
    ensures tokens { OnOk result (out.new.tokens ≡ out.old.tokens
        ++ member_tokens (list name.now (map (λ text. latin_value text.now) texts.now))) }
    ensures before { out.new.before ≡ out.old.before }
{
    out.key(name)?;
    out.begin_array()?;
    write_each_text(alloc, out, texts)?;
    out.end_array()
}

fn write_each_number(out: &mut Writer, numbers: &[u32]) -> Result<(), AllocError>
    ensures tokens { OnOk result
        (out.new.tokens ≡ out.old.tokens ++ all_values (map number_value numbers.now)) }
    ensures before { out.new.before ≡ out.old.before }
{
    for number in numbers {
        out.u64(u64::from(*number))?;
    }
    Ok(())
}

/// Writes a member whose value is a list of numbers.
#[tactic(auto, using(crate::proofs::ObjectLemmas::in_list))]
pub fn write_numbers(out: &mut Writer, name: &str, numbers: &[u32]) -> Result<(), AllocError>
    ensures tokens { OnOk result (out.new.tokens ≡ out.old.tokens
        ++ member_tokens (list name.now (map number_value numbers.now))) }
    ensures before { out.new.before ≡ out.old.before }
{
    out.key(name)?;
    out.begin_array()?;
    write_each_number(out, numbers)?;
    out.end_array()
}

fn write_code(alloc: Global, out: &mut Writer, code: Code) -> Result<(), AllocError>
    ensures tokens { OnOk result (out.new.tokens ≡ out.old.tokens ++ json_tokens (code_value code)) }
    ensures before { out.new.before ≡ out.old.before }
{
    write_value(alloc, out, &digits_of(code))
}

/// Writes feedback codes, one after another.
pub fn write_each_code(alloc: Global, out: &mut Writer, codes: &[Code]) -> Result<(), AllocError>
    ensures tokens { OnOk result (out.new.tokens ≡ out.old.tokens ++ all_values (map code_value codes.now)) }
    ensures before { out.new.before ≡ out.old.before }
{
    for code in codes {
        write_code(alloc, out, *code)?;
    }
    Ok(())
}

/// Writes a member whose value is a list of feedback codes.
#[tactic(auto, using(crate::proofs::ObjectLemmas::in_list))]
pub fn write_codes(
    alloc: Global,
    out: &mut Writer,
    name: &str,
    codes: &[Code],
) -> Result<(), AllocError>
    ensures tokens { OnOk result (out.new.tokens ≡ out.old.tokens
        ++ member_tokens (list name.now (map code_value codes.now))) }
    ensures before { out.new.before ≡ out.old.before }
{
    out.key(name)?;
    out.begin_array()?;
    write_each_code(alloc, out, codes)?;
    out.end_array()
}
