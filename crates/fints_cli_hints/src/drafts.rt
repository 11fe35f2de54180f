//! What the refusal of a draft is about, by what was read of its recording.
use fints_cli_drafts::DraftObserver;
use fints_cli_hints_dialogues::{RefusedHint, draft_hint, part_hint};
use fints_cli_hints_words::places::HintText;
use fints_cli_texts::Fault;
use fints_rules_dialogues::{
    DialogueFault, Exchange, RecordedMessage, Turn, TurnObserver, Unread, UnreadObserver,
};
use std::alloc::Global;

fn undrafted_hint(alloc: Global, exchanges: &[Exchange<'_>], fault: &Fault) -> HintText {
    match fault {
        Fault::NotDraftable { message, segment } => {
            draft_hint(alloc, *message, *segment, exchanges)
        }
        Fault::NoPart { .. } => part_hint(alloc, exchanges),
        _ => Ok(None),
    }
}

/// The hint of a recording that has no draft, or in which a message is refused.
#[derive(Drop)]
pub struct DraftHint<'f> {
    alloc: Global,
    wanted: bool,
    refused: RefusedHint<'f>,
    undrafted: Option<String>,
}

impl<'f> DraftHint<'f> {
    /// One that has seen nothing yet of that file, and says nothing where no hint is wanted.
    pub fn new(alloc: Global, wanted: bool, file: &'f [u8]) -> DraftHint<'f> {
        DraftHint {
            alloc,
            wanted,
            refused: RefusedHint::new(alloc, wanted, file),
            undrafted: None,
        }
    }

    /// What it says. None where nothing was refused, or memory ran out.
    pub fn into_text(self) -> Option<String> {
        let DraftHint {
            refused,
            undrafted,
            ..
        } = self;
        match undrafted {
            Some(text) => Some(text),
            None => refused.into_text(),
        }
    }
}

impl UnreadObserver for DraftHint<'_> {
    fn unread(&mut self, bytes: &[u8], unread: &Unread<'_>) {
        self.refused.unread(bytes, unread);
    }
}

impl TurnObserver for DraftHint<'_> {
    fn refused(&mut self, due: Turn, sent: &RecordedMessage<'_>, fault: &DialogueFault) {
        self.refused.refused(due, sent, fault);
    }
}

impl DraftObserver for DraftHint<'_> {
    fn undrafted(&mut self, exchanges: &[Exchange<'_>], fault: &Fault) {
        if self.wanted {
            self.undrafted = undrafted_hint(self.alloc, exchanges, fault).unwrap_or(None);
        }
    }
}
