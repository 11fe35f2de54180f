//! What `audit` answers.
ghost use Rattle.std.specs.Prelude.{◌≡◌, map, IfOk};
ghost use Rattle.fints_cli_json.specs.Placed.{AreWithoutCase, placed_in, sizes_in};
ghost use Rattle.fints_cli_json.specs.Audits.{audit_members, size_members};
ghost use Rattle.fints_cli_json.specs.Verdicts.{found_status};

use crate::findings::write_findings;
use crate::found::JsonFinding;
use crate::note::JsonNote;
use crate::objects::{Object, write_list};
use crate::placed::{GivesReasons, placed_in, with_reasons};
use crate::words::judge_word;
use crate::writing::{write_count, write_heading};
use fints_rules_dialogues::Audited;
use fints_syntax::Memory;
use json::Writer;
use std::alloc::{AllocError, Global};

/// A message of the client: its number, which counts from 1, and its size in bytes.
#[derive(Clone, Copy)]
pub struct MessageSize {
    pub message: u64,
    pub size: u64,
}

impl Object for MessageSize {
    ghost members = { size_members };

    #[tactic(auto, using(crate::proofs::ObjectLemmas::two_members))]
    fn write_members(&self, _alloc: Global, out: &mut Writer) -> Result<(), AllocError> {
        write_count(out, "message", self.message)?;
        write_count(out, "size", self.size)
    }
}

/// The client's messages of a recorded dialogue, the rules that they break, and notes.
#[derive(Drop)]
pub struct JsonAudit {
    pub messages: Vec<MessageSize>,
    pub founds: Vec<JsonFinding>,
    pub notes: Vec<JsonNote>,
}

// The client's messages, and their sizes.
fn sizes_of(alloc: Global, audited: &[Audited<'_>]) -> Result<Vec<MessageSize>, Memory>
    ensures { IfOk result (λ sizes. sizes.items ≡ sizes_in 1 audited.now) }
{
    let mut sizes = Vec::new(alloc);
    for (i, one) in audited.iter().enumerate() {
        sizes.push(MessageSize {
            message: i as u64 + 1,
            size: one.sent.bytes.len() as u64,
        })?;
    }
    Ok(sizes)
}

impl JsonAudit {
    /// That of audited messages, with a reason for each rule that is broken.
    pub fn of<R: GivesReasons>(
        alloc: Global,
        audited: &[Audited<'_>],
        reasons: &mut R,
        notes: Vec<JsonNote>,
    ) -> Result<JsonAudit, Memory>
        ensures messages { IfOk result (λ a. a.messages.items ≡ sizes_in 1 audited.now) }
        ensures findings { IfOk result (λ a. map (λ f. f.placed) a.founds.items ≡ placed_in 1 audited.now) }
        ensures cases { IfOk result (λ a. AreWithoutCase a.founds.items) }
        ensures notes { IfOk result (λ a. a.notes.items ≡ notes.items) }
    {
        let messages = sizes_of(alloc, audited)?;
        let placed = placed_in(alloc, audited)?;
        let founds = with_reasons(alloc, placed.as_slice(), reasons)?;
        Ok(JsonAudit {
            messages,
            founds,
            notes,
        })
    }

    /// The exit status: 0 where nothing is broken, else 1.
    pub fn status(&self) -> u8
        ensures { result ≡ found_status self.now.founds.items }
    {
        if self.founds.is_empty() { 0 } else { 1 }
    }
}

impl Object for JsonAudit {
    ghost members = { λ a. audit_members a.messages.items a.founds.items a.notes.items };

    #[tactic(auto, using(crate::proofs::ObjectLemmas::members_append, crate::proofs::ObjectLemmas::one_member))]
    fn write_members(&self, alloc: Global, out: &mut Writer) -> Result<(), AllocError> {
        let status = self.status();
        write_heading(out, "audit", status, judge_word(status))?;
        write_list(alloc, out, "messages", self.messages.as_slice())?;
        write_findings(alloc, out, self.founds.as_slice(), self.notes.as_slice())
    }
}
