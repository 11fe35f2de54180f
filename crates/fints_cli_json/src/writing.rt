//! Members of objects, written one after another.
ghost use Rattle.std.specs.Prelude.{◌≡◌, ◌∷◌, ◌++◌, [], codes, OnOk};
ghost use Rattle.fints_cli_json.specs.Objects.{count, flag, heading, outcome_of, shape_of, some_text, text};
ghost use Rattle.fints_cli_json.specs.Tokens.{all_members, member_tokens};

use json::Writer;
use std::alloc::AllocError;

/// Writes a member whose value is a text.
#[tactic(auto, unfolding(crate::specs::Tokens::member_tokens))]
pub fn write_text(out: &mut Writer, name: &str, value: &str) -> Result<(), AllocError>
    ensures tokens { OnOk result
        (out.new.tokens ≡ out.old.tokens ++ member_tokens (text name.now value.now)) }
    ensures before { out.new.before ≡ out.old.before }
{
    out.key(name)?;
    out.string(value)
}

/// Writes a member whose value is a number.
#[tactic(auto, unfolding(crate::specs::Tokens::member_tokens))]
pub fn write_count(out: &mut Writer, name: &str, value: u64) -> Result<(), AllocError>
    ensures tokens { OnOk result (out.new.tokens ≡ out.old.tokens ++ member_tokens (count name.now value)) }
    ensures before { out.new.before ≡ out.old.before }
{
    out.key(name)?;
    out.u64(value)
}

/// The same, of a number of 32 bits.
pub fn write_u32(out: &mut Writer, name: &str, value: u32) -> Result<(), AllocError>
    ensures tokens { OnOk result (out.new.tokens ≡ out.old.tokens ++ member_tokens (count name.now value)) }
    ensures before { out.new.before ≡ out.old.before }
{
    write_count(out, name, u64::from(value))
}

/// The same, of a number of 16 bits.
pub fn write_u16(out: &mut Writer, name: &str, value: u16) -> Result<(), AllocError>
    ensures tokens { OnOk result (out.new.tokens ≡ out.old.tokens ++ member_tokens (count name.now value)) }
    ensures before { out.new.before ≡ out.old.before }
{
    write_count(out, name, u64::from(value))
}

/// Writes a member whose value is yes or no.
#[tactic(auto, unfolding(crate::specs::Tokens::member_tokens))]
pub fn write_flag(out: &mut Writer, name: &str, value: bool) -> Result<(), AllocError>
    ensures tokens { OnOk result (out.new.tokens ≡ out.old.tokens ++ member_tokens (flag name.now value)) }
    ensures before { out.new.before ≡ out.old.before }
{
    out.key(name)?;
    out.boolean(value)
}

/// Writes a member whose value is a text, if there is one.
#[tactic(auto, using(crate::proofs::ObjectLemmas::no_members, crate::proofs::ObjectLemmas::one_member))]
pub fn write_some_text(
    out: &mut Writer,
    name: &str,
    value: &Option<String>,
) -> Result<(), AllocError>
    ensures tokens { OnOk result
        (out.new.tokens ≡ out.old.tokens ++ all_members (some_text name.now value.now)) }
    ensures before { out.new.before ≡ out.old.before }
{
    let Some(value) = value else {
        return Ok(());
    };
    write_text(out, name, value.as_str())
}

// Writes the number of the shape, and the command.
#[tactic(auto, using(crate::proofs::ObjectLemmas::two_members))]
fn write_shape(out: &mut Writer, command: &str) -> Result<(), AllocError>
    ensures tokens { OnOk result (out.new.tokens ≡ out.old.tokens ++ all_members (shape_of command.now)) }
    ensures before { out.new.before ≡ out.old.before }
{
    write_count(out, "fints", 1)?;
    write_text(out, "command", command)
}

// Writes the status, and the word of the verdict.
#[tactic(auto, using(crate::proofs::ObjectLemmas::two_members))]
fn write_outcome(out: &mut Writer, status: u8, verdict: &str) -> Result<(), AllocError>
    ensures tokens { OnOk result
        (out.new.tokens ≡ out.old.tokens ++ all_members (outcome_of status verdict.now)) }
    ensures before { out.new.before ≡ out.old.before }
{
    write_count(out, "status", u64::from(status))?;
    write_text(out, "verdict", verdict)
}

/// Writes what an answer begins with.
#[tactic(auto, unfolding(crate::specs::Objects::heading), using(crate::proofs::ObjectLemmas::then_members))]
pub fn write_heading(
    out: &mut Writer,
    command: &str,
    status: u8,
    verdict: &str,
) -> Result<(), AllocError>
    ensures tokens { OnOk result
        (out.new.tokens ≡ out.old.tokens ++ all_members (heading command.now status verdict.now)) }
    ensures before { out.new.before ≡ out.old.before }
{
    write_shape(out, command)?;
    write_outcome(out, status, verdict)
}
