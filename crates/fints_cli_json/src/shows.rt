//! What `show` answers.
ghost use Rattle.std.specs.Prelude.{◌≡◌, ◌++◌, OnOk};
ghost use Rattle.fints_cli_json.specs.Shows.{bank_part, beside_part, params_part, segment_members, shown_members, shown_segments, usage_number, user_part};
ghost use Rattle.fints_cli_json.specs.Tokens.{all_members};

use crate::latin::write_latin;
use crate::note::JsonNote;
use crate::objects::{Object, write_list, write_nested};
use crate::values::write_codes;
use crate::writing::{write_count, write_flag, write_heading};
use fints_params::{Code, Params, Usage};
use json::Writer;
use std::alloc::{AllocError, Global};

/// What a capture says, the codes of its feedback, and notes.
#[derive(Clone, Copy)]
pub struct ShownParams<'a> {
    pub params: &'a Params,
    pub codes: &'a [Code],
    pub notes: &'a [JsonNote],
}

// What it says of the bank.
#[tactic(auto, using(crate::proofs::ObjectLemmas::four_members))]
fn write_bank(alloc: Global, out: &mut Writer, params: &Params) -> Result<(), AllocError>
    ensures tokens { OnOk result (out.new.tokens ≡ out.old.tokens ++ all_members (bank_part params.now)) }
    ensures before { out.new.before ≡ out.old.before }
{
    write_nested(alloc, out, "bank", params.bank())?;
    write_list(alloc, out, "orders", params.orders())?;
    write_list(alloc, out, "pins", params.pins())?;
    write_list(alloc, out, "tans", params.tans())
}

fn usage_number(usage: Usage) -> u64
    ensures { result ≡ usage_number usage }
{
    match usage {
        Usage::Locked => 0,
        Usage::Unsaid => 1,
    }
}

// What it says of the user, and how many segments were skipped.
#[tactic(auto, using(crate::proofs::ObjectLemmas::three_members))]
fn write_user(alloc: Global, out: &mut Writer, params: &Params) -> Result<(), AllocError>
    ensures tokens { OnOk result (out.new.tokens ≡ out.old.tokens ++ all_members (user_part params.now)) }
    ensures before { out.new.before ≡ out.old.before }
{
    write_count(out, "usage", usage_number(params.usage()))?;
    write_list(alloc, out, "accounts", params.accounts())?;
    write_count(out, "skipped", u64::from(params.skipped()))
}

#[tactic(auto, unfolding(crate::specs::Shows::params_part), using(crate::proofs::ObjectLemmas::then_members))]
fn write_params(alloc: Global, out: &mut Writer, params: &Params) -> Result<(), AllocError>
    ensures tokens { OnOk result (out.new.tokens ≡ out.old.tokens ++ all_members (params_part params.now)) }
    ensures before { out.new.before ≡ out.old.before }
{
    write_bank(alloc, out, params)?;
    write_user(alloc, out, params)
}

// The codes of its feedback, and notes.
#[tactic(auto, using(crate::proofs::ObjectLemmas::two_members))]
fn write_beside(
    alloc: Global,
    out: &mut Writer,
    codes: &[Code],
    notes: &[JsonNote],
) -> Result<(), AllocError>
    ensures tokens { OnOk result
        (out.new.tokens ≡ out.old.tokens ++ all_members (beside_part codes.now notes.now)) }
    ensures before { out.new.before ≡ out.old.before }
{
    write_codes(alloc, out, "codes", codes)?;
    write_list(alloc, out, "notes", notes)
}

impl Object for ShownParams<'_> {
    ghost members = { λ s. shown_members s.params.now s.codes.now s.notes.now };

    #[tactic(auto, using(crate::proofs::ObjectLemmas::members_append))]
    fn write_members(&self, alloc: Global, out: &mut Writer) -> Result<(), AllocError> {
        write_heading(out, "show", 0, "shown")?;
        write_params(alloc, out, self.params)?;
        write_beside(alloc, out, self.codes, self.notes)
    }
}

/// A segment of a message: the line that `show --message` prints of it, and whether it is one of the sealed segments.
#[derive(Drop)]
pub struct ShownSegment {
    pub sealed: bool,
    pub text: Vec<u8>,
}

impl Object for ShownSegment {
    ghost members = { λ s. segment_members s.sealed s.text.items };

    #[tactic(auto, using(crate::proofs::ObjectLemmas::two_members))]
    fn write_members(&self, alloc: Global, out: &mut Writer) -> Result<(), AllocError> {
        write_flag(out, "sealed", self.sealed)?;
        write_latin(alloc, out, "text", self.text.as_slice())
    }
}

/// The segments of a message, without its secrets.
#[derive(Drop)]
pub struct ShownMessage {
    pub segments: Vec<ShownSegment>,
}

impl Object for ShownMessage {
    ghost members = { λ m. shown_segments m.segments.items };

    #[tactic(auto, using(crate::proofs::ObjectLemmas::then_member))]
    fn write_members(&self, alloc: Global, out: &mut Writer) -> Result<(), AllocError> {
        write_heading(out, "show", 0, "shown")?;
        write_list(alloc, out, "segments", self.segments.as_slice())
    }
}
