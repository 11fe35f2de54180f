//! Drafts of recorded dialogues, each tried before it is handed out.
ghost use Rattle.std.specs.Prelude.{◌≡◌, ℕ, All, List, Option, length, IfErr, IfOk, IsOk, IsTrue};
ghost use Rattle.fints_cli_texts.specs.Audit.{IsLogReadOf};
ghost use Rattle.fints_script_cases.specs.Cases.{IsCaseOf};
ghost use Rattle.fints_rules_permissions.specs.declared.orders.OrderRow.{OrderRow as OrderRowValue};
ghost use Rattle.fints_rules_dialogues.specs.declared.reading.Exchange.{Exchange as ExchangeValue};
ghost use Rattle.fints_cli_drafts_accounts.specs.Offers.{IsOffer};
ghost use Rattle.fints_cli_drafts.specs.Drafts.{answers_of, drafted_text, IsDraft, IsDraftOf, IsDraftRefusal, IsPartDraft, IsUndrafted};

use crate::blank::{has_secret, keeps_secrets};
use crate::place::{SegmentPlace, Undrafted};
use crate::printing::printed;
use crate::replaying::{answers_of, replay};
use crate::sketching::{Sketch, sketch_of};
use crate::steps::Orders;
use crate::within::place_within;
use fints_cli_drafts_accounts::offers_of;
use fints_cli_texts::{Fault, good_log};
use fints_rules::OrderTable;
use fints_rules_dialogues::{
    DialogueFault, DialoguePart, Exchange, Log, TurnObserver, part_of, read_dialogue_with,
};
use fints_script::{Answer, Case, CaseFault, Values};
use std::alloc::Global;

/// What looks on while a recording is drafted. No contract says what it makes of it.
pub trait DraftObserver: TurnObserver {
    /// Looks at the exchanges of a recording that has no draft, and at the refusal.
    fn undrafted(&mut self, exchanges: &[Exchange<'_>], fault: &Fault);
}

/// Which text of a draft is wanted.
#[derive(Clone, Copy, PartialEq, Eq)]
pub enum Drafted {
    Script,
    Case,
}

/// A text of a draft, and whether the draft's case holds a PIN, a TAN or a new PIN.
#[derive(Drop)]
pub struct DraftText {
    pub text: Vec<u8>,
    pub has_secret: bool,
}

// A draft: the text of its script, and that of its case; and whether that holds a secret.
#[derive(Drop)]
struct Draft {
    script: Vec<u8>,
    case: Vec<u8>,
    has_secret: bool,
}

// The case that a text denotes, read back.
fn case_of(alloc: Global, text: &[u8]) -> Result<Case, Undrafted>
    ensures { IfOk result (λ case. IsCaseOf text.now case.values case.answers.items) }
{
    match Case::read(alloc, text) {
        Ok(case) => Ok(case),
        Err(CaseFault::Memory) => Err(Undrafted::Memory),
        Err(CaseFault::Bad { .. }) => Err(SegmentPlace::whole(0).refused()),
    }
}

fn has_same_codes(own: &Answer, other: &Answer) -> bool
    ensures { IsTrue result → own.now ≡ other.now }
{
    own.codes() == other.codes()
}

// Whether two lists of answers have the same codes.
fn are_same(own: &[Answer], other: &[Answer]) -> bool
    ensures { IsTrue result → own.now ≡ other.now }
{
    if own.len() != other.len() {
        return false;
    }
    for i in 0..own.len() {
        if !has_same_codes(&own[i], &other[i]) {
            return false;
        }
    }
    true
}

// The text of a case of these values and the bank's answers, which can be read back as that.
fn case_text(
    alloc: Global,
    values: Values,
    exchanges: &[Exchange<'_>],
) -> Result<(Vec<u8>, Case), Undrafted>
    ensures text { IfOk result (λ r. IsCaseOf r.0.items r.1.values r.1.answers.items) }
    ensures answers { IfOk result (λ r. r.1.answers.items ≡ answers_of exchanges.now) }
{
    let answers = answers_of(alloc, exchanges)?;
    let case = Case { values, answers };
    let text = case.write(alloc)?;
    let read = case_of(alloc, text.as_slice())?;
    if !are_same(read.answers.as_slice(), case.answers.as_slice()) {
        return Err(SegmentPlace::whole(0).refused());
    }
    Ok((text, read))
}

// The draft of a sketch, once it was tried: its script is printed and read back, and sends what was recorded. The
// recording has that number of messages of the client.
fn tried(
    alloc: Global,
    orders: &Orders<'_>,
    messages: usize,
    exchanges: &[Exchange<'_>],
    sketch: Sketch,
) -> Result<Draft, Undrafted>
    ensures { IfOk result (λ draft. (table : List OrderRowValue) (recording : List ExchangeValue)
        → All (IsOffer table recording) orders.now.offers.now.lists.items → length recording ≡ messages
        → IsDraft table recording exchanges.now draft.script.items draft.case.items draft.has_secret) }
{
    let draft = printed(alloc, &sketch)?;
    if !keeps_secrets(orders.offers.lists.as_slice(), messages, &draft.script) {
        return Err(SegmentPlace::whole(0).refused());
    }
    let (case, read) = case_text(alloc, sketch.values, exchanges)?;
    replay(alloc, orders.table, exchanges, &draft.script, &read)?;
    Ok(Draft {
        has_secret: has_secret(&draft.script),
        script: draft.text,
        case,
    })
}

// The draft of a part of a recording.
fn draft_of(
    alloc: Global,
    table: &OrderTable,
    exchanges: &[Exchange<'_>],
    part: &DialoguePart<'_, '_>,
) -> Result<Draft, Undrafted>
    ensures { IfOk result (λ draft. IsDraft table.now exchanges.now part.now.exchanges.now
        draft.script.items draft.case.items draft.has_secret) }
{
    let offers = offers_of(alloc, table, exchanges, part)?;
    let orders = Orders {
        table,
        offers: &offers,
    };
    let sketch = sketch_of(alloc, &orders, *part)?;
    tried(alloc, &orders, exchanges.len(), part.exchanges, sketch)
}

// The refusal where a part of a recording has no draft, with the place in the recording.
fn refusal_of(exchanges: &[Exchange<'_>], before: usize, undrafted: Undrafted) -> Fault
    ensures { (number : Option ℕ) → IsUndrafted exchanges.now number result }
{
    match undrafted {
        Undrafted::Memory => Fault::Memory,
        Undrafted::At(place) => {
            let SegmentPlace { message, segment } = place_within(exchanges, place.after(before));
            Fault::NotDraftable { message, segment }
        }
    }
}

// The wanted text of a draft.
fn text_of(draft: Draft, drafted: Drafted) -> DraftText
    ensures text { result.text.items ≡ drafted_text drafted draft.script.items draft.case.items }
    ensures secret { result.has_secret ≡ draft.has_secret }
{
    let Draft {
        script,
        case,
        has_secret,
    } = draft;
    let text = match drafted {
        Drafted::Script => script,
        Drafted::Case => case,
    };
    DraftText { text, has_secret }
}

// The wanted text of the draft of a part.
fn part_text(
    alloc: Global,
    orders: &OrderTable,
    exchanges: &[Exchange<'_>],
    number: Option<u32>,
    drafted: Drafted,
) -> Result<DraftText, Fault>
    ensures draft { IfOk result (λ it. IsPartDraft orders.now drafted number exchanges.now it.text.items
        it.has_secret) }
    ensures refused { IfErr result (λ f. IsUndrafted exchanges.now number f) }
{
    let Some(part) = part_of(exchanges, number) else {
        return Err(Fault::NoPart {
            number: number.unwrap_or(0),
        });
    };
    match draft_of(alloc, orders, exchanges, &part) {
        Ok(draft) => Ok(text_of(draft, drafted)),
        Err(undrafted) => Err(refusal_of(exchanges, part.before, undrafted)),
    }
}

// The same. Where there is none, the observer sees why.
fn draft_part<O: DraftObserver>(
    alloc: Global,
    orders: &OrderTable,
    exchanges: &[Exchange<'_>],
    number: Option<u32>,
    drafted: Drafted,
    observer: &mut O,
) -> Result<DraftText, Fault>
    ensures draft { IfOk result (λ it. IsPartDraft orders.now drafted number exchanges.now it.text.items
        it.has_secret) }
    ensures refused { IfErr result (λ f. IsUndrafted exchanges.now number f) }
{
    match part_text(alloc, orders, exchanges, number, drafted) {
        Ok(text) => Ok(text),
        Err(fault) => {
            observer.undrafted(exchanges, &fault);
            Err(fault)
        }
    }
}

/// The script that sends the client's messages of a recorded dialogue once more, or the case that has it
/// do so, by what was read of a file; of the dialogue of a number, which counts from 1, or else of the whole
/// recording. In comments the script says which orders name an account, by the text of an order table. Of
/// the refusals that of the order table comes first, then that of the recording, then that it has no dialogue
/// of the number, and then that no draft was found, with the first segment that would be sent otherwise.
/// Where a message is refused, or there is no draft, the observer sees why.
pub fn draft_read<O: DraftObserver>(
    alloc: Global,
    orders: &[u8],
    log: &Result<Log<'_>, DialogueFault>,
    number: Option<u32>,
    drafted: Drafted,
    observer: &mut O,
) -> Result<DraftText, Fault>
    ensures draft { IfOk result (λ it. (dialogue : List ℕ) → IsLogReadOf dialogue log.now
        → IsDraftOf orders.now drafted number dialogue it.text.items it.has_secret) }
    ensures refused { IfErr result (λ f. (dialogue : List ℕ) → IsLogReadOf dialogue log.now
        → IsDraftRefusal orders.now number dialogue f) }
    ensures log { IfOk result (λ _. IsOk log.now) }
{
    let orders = OrderTable::read(alloc, orders)?;
    let log = good_log(log)?;
    let exchanges = read_dialogue_with(alloc, log, observer)?;
    draft_part(
        alloc,
        &orders,
        exchanges.as_slice(),
        number,
        drafted,
        observer,
    )
}
