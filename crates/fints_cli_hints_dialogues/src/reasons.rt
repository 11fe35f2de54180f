//! Why the messages of a recorded dialogue break the rules that `audit` names.
use crate::captured::CapturedNotes;
use crate::notes::Notes;
use crate::refused::RefusedHint;
use crate::sources::{Indexes, Source, capture_of};
use crate::untold::parameters_hint;
use fints_cli_hints_words::places::{HintText, written};
use fints_rules::{AccountForm, Broken, Message, Permissions};
use fints_rules_dialogues::{
    DialogueFault, Exchange, Heard, Observer, RecordedMessage, ToldIn, Turn, TurnObserver, Unread,
    UnreadObserver,
};
use fints_syntax::Memory;
use std::alloc::Global;

// Whether an order of the message names an account.
fn names_account(permissions: &Permissions<'_>, message: &Message<'_>) -> bool {
    message.body().iter().any(|it| match permissions.form(it.id(), it.version()) {
        Some(AccountForm::National) => true,
        Some(AccountForm::International) => true,
        _ => false,
    })
}

/// The reasons of what the client's messages of a dialogue break, in the order in which `audit` names them:
/// a line for each rule, why it is broken and what to change; and then the notes on its messages. And the hint
/// of a message that is refused, or of parameters that are missing.
#[derive(Drop)]
pub struct AuditReasons<'c> {
    alloc: Global,
    wanted: bool,
    source: Source<'c>,
    indexes: Indexes,
    reasons: String,
    notes: Notes,
    captured: CapturedNotes,
    // Whether it was noted of the dialogue that no answer has the user's accounts.
    unknown: bool,
    // Whether memory ran out.
    failed: bool,
    hint: RefusedHint<'c>,
    // Whose parameters are missing.
    lacking: Option<String>,
}

impl<'c> AuditReasons<'c> {
    /// Those of the recording in a file, by the parameters that were read there.
    pub fn new(
        alloc: Global,
        wanted: bool,
        source: Source<'c>,
        file: &'c [u8],
    ) -> AuditReasons<'c> {
        AuditReasons {
            alloc,
            wanted,
            source,
            indexes: Indexes::new(alloc),
            reasons: String::new(alloc),
            notes: Notes::new(alloc),
            captured: CapturedNotes::new(alloc),
            unknown: false,
            failed: false,
            hint: RefusedHint::new(alloc, wanted, file),
            lacking: None,
        }
    }

    /// The lines. An error where memory ran out while they were made.
    pub fn into_text(self) -> HintText {
        let AuditReasons {
            reasons: mut text,
            notes,
            failed,
            ..
        } = self;
        if failed {
            return Err(Memory);
        }
        text.push_str(notes.text())?;
        Ok(Some(text))
    }

    /// Why a message is refused, or whose parameters are missing; none where nothing is wrong.
    pub fn into_hint(self) -> Option<String> {
        let AuditReasons { hint, lacking, .. } = self;
        match lacking {
            Some(text) => Some(text),
            None => hint.into_text(),
        }
    }

    // Adds the reasons of what the next message breaks.
    fn add_broken(
        &mut self,
        permissions: &Permissions<'_>,
        told_in: ToldIn<'_>,
        exchange: &Exchange<'_>,
        broken: &[Broken],
    ) -> Result<(), Memory> {
        if broken.is_empty() {
            return Ok(());
        }
        let number = self.notes.place();
        let called = written(self.alloc, format_args!("message {number}"))?;
        self.indexes.add(
            &mut self.reasons,
            self.alloc,
            permissions,
            capture_of(self.source, told_in),
            told_in,
            called.as_str(),
            &exchange.message,
            broken,
        )
    }

    // Adds the note that no answer has the user's accounts, at the first order of a dialogue that names one.
    fn add_unknown(
        &mut self,
        permissions: &Permissions<'_>,
        told_in: ToldIn<'_>,
        exchange: &Exchange<'_>,
    ) -> Result<(), Memory> {
        if exchange.begins {
            self.unknown = false;
        }
        if self.unknown || told_in.user.is_some() || !self.source.is_own() {
            return Ok(());
        }
        if !names_account(permissions, &exchange.message) {
            return Ok(());
        }
        self.unknown = true;
        let place = self.notes.place();
        let line = written(
            self.alloc,
            format_args!(
                "note: message {place}: no answer has the user's accounts (HIUPD), so P9 and P8 don't ask for them: hand over a capture by --params\n"
            ),
        )?;
        self.notes.text_mut().push_str(line.as_str())?;
        Ok(())
    }

    fn add(
        &mut self,
        permissions: &Permissions<'_>,
        told_in: ToldIn<'_>,
        exchange: &Exchange<'_>,
        broken: &[Broken],
    ) -> Result<(), Memory> {
        self.add_broken(permissions, told_in, exchange, broken)?;
        self.add_unknown(permissions, told_in, exchange)?;
        let place = self.notes.place();
        self.notes.add(self.alloc, exchange)?;
        let capture = capture_of(self.source, told_in);
        let text = self.notes.text_mut();
        self.captured
            .add(text, self.alloc, place, capture, permissions, exchange)
    }
}

impl UnreadObserver for AuditReasons<'_> {
    fn unread(&mut self, bytes: &[u8], unread: &Unread<'_>) {
        self.hint.unread(bytes, unread);
    }
}

impl TurnObserver for AuditReasons<'_> {
    fn refused(&mut self, due: Turn, sent: &RecordedMessage<'_>, fault: &DialogueFault) {
        self.hint.refused(due, sent, fault);
    }
}

impl Observer for AuditReasons<'_> {
    fn observe(
        &mut self,
        permissions: &Permissions<'_>,
        told_in: ToldIn<'_>,
        exchange: &Exchange<'_>,
        broken: &[Broken],
    ) {
        if self.wanted && !self.failed {
            self.failed = self.add(permissions, told_in, exchange, broken).is_err();
        }
    }

    fn lacks_bank(&mut self, heard: &[Heard<'_>]) {
        if self.wanted {
            self.lacking = parameters_hint(self.alloc, heard).unwrap_or(None);
        }
    }
}
