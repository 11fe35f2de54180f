//! What the bank's answers in a recording say of banks and users.
ghost use Rattle.std.specs.Prelude.{◌≡◌, IfOk, IfErr, option_copied};
ghost use Rattle.std.specs.Option.{option_map};
ghost use Rattle.fints_params.specs.Captures.{TellsBank, TellsUser};
ghost use Rattle.fints_params.specs.Parameters.{unknown_user};
ghost use Rattle.fints_rules_dialogues.specs.Dialogues.{IsMemoryOrRefusal};
ghost use Rattle.fints_rules_dialogues.specs.OwnParams.{AnswerTells, AreHeard, IsCaptureFault, IsRefusedAnswer, IsTellingFault};

use crate::fault::DialogueFault;
use crate::messages::RecordedMessage;
use crate::parties::{Party, first_party, next_party};
use crate::reading::{Answer, Exchange};
use fints_params::{BankParams, ParamFault, Told, UserParams, told_in};
use fints_syntax::Memory;
use std::alloc::Global;
use std::marker::Model;
use std::rc::Rc;

/// What is there, in a box.
pub fn boxed<T: Drop>(alloc: Global, one: Option<T>) -> Result<Option<Box<T>>, Memory>
    ensures { IfOk result (λ o. option_map (λ b. b.value) o ≡ one) }
{
    match one {
        None => Ok(None),
        Some(one) => Ok(Some(Box::new(alloc, one)?)),
    }
}

/// What is in the box, if there is one.
pub fn boxed_in<T>(one: &Option<Box<T>>) -> Option<&T>
    ensures { option_copied result ≡ option_map (λ b. b.value) one.now }
{
    match one {
        None => None,
        Some(one) => Some(one.as_ref()),
    }
}

/// Whose an exchange is, and what its answer says; a contract sees the rows.
#[derive(Drop)]
pub struct Heard<'a> {
    party: Rc<Party>,
    // Most answers have no parameters, so those of one are in a box.
    bank: Option<Box<BankParams>>,
    user: Option<Box<UserParams>>,
    // The answer that says it.
    answer: Option<RecordedMessage<'a>>,
}

impl<'a> Model for Heard<'a> {
    ghost use Rattle.std.specs.Option.{option_map};
    ghost use Rattle.fints_rules_dialogues.specs.OwnParams.{HeardRows};

    ghost Value = { HeardRows };

    ghost view = { λ h. record {
      party = h.party.value;
      bank = option_map (λ b. b.value) h.bank;
      user = option_map (λ u. u.value) h.user;
    } };
}

impl<'a> Heard<'a> {
    /// Whose the exchange is.
    pub fn party(&self) -> &Party
        ensures { result.now ≡ self.now.party }
    {
        &self.party
    }

    /// What the answer says of the bank.
    pub fn bank(&self) -> Option<&BankParams>
        ensures { option_copied result ≡ self.now.bank }
    {
        boxed_in(&self.bank)
    }

    /// What it says of the user.
    pub fn user(&self) -> Option<&UserParams>
        ensures { option_copied result ≡ self.now.user }
    {
        boxed_in(&self.user)
    }

    /// The answer. No contract says so.
    pub fn answer(&self) -> Option<RecordedMessage<'a>> {
        self.answer
    }
}

// What a message of the bank says.
fn told_in_sent(alloc: Global, sent: &RecordedMessage<'_>) -> Result<Told, DialogueFault>
    ensures bank { IfOk result (λ told. TellsBank sent.now.bytes.now told.bank) }
    ensures user { IfOk result (λ told. TellsUser sent.now.bytes.now told.user) }
    ensures refused { IfErr result (λ f. IsMemoryOrRefusal (IsCaptureFault sent.now) f) }
{
    match told_in(alloc, sent.bytes) {
        Ok(told) => Ok(told),
        Err(fault) => match fault {
            ParamFault::Memory => Err(DialogueFault::Memory),
            _ => Err(DialogueFault::Answer {
                start: sent.start,
                fault,
            }),
        },
    }
}

// What the answer of an exchange says; nothing where there is none.
fn told_by(alloc: Global, answer: &Option<Answer<'_>>) -> Result<Told, DialogueFault>
    ensures told { IfOk result (λ told. AnswerTells answer.now told.bank told.user) }
    ensures refused { IfErr result (λ f. IsMemoryOrRefusal (IsTellingFault answer.now) f) }
{
    match answer {
        None => Ok(Told {
            bank: None,
            user: None,
        }),
        Some(answer) => told_in_sent(alloc, &answer.sent),
    }
}

// Whose an exchange is, with what its answer says.
fn heard_of<'a>(
    alloc: Global,
    party: Rc<Party>,
    told: Told,
    answer: Option<RecordedMessage<'a>>,
) -> Result<Heard<'a>, Memory>
    ensures { IfOk result (λ h.
        h ≡ record { party = party.value; bank = told.bank; user = told.user }) }
{
    let Told { bank, user } = told;
    Ok(Heard {
        party,
        bank: boxed(alloc, bank)?,
        user: boxed(alloc, user)?,
        answer,
    })
}

// Where the answer of an exchange is.
fn sent_in<'a>(answer: &Option<Answer<'a>>) -> Option<RecordedMessage<'a>> {
    match answer {
        None => None,
        Some(answer) => Some(answer.sent),
    }
}

/// What the answers of a recording say, exchange by exchange; a contract sees the rows.
#[derive(Drop)]
pub struct OwnParams<'a> {
    heard: Vec<Heard<'a>>,
    unknown: UserParams,
}

impl<'a> Model for OwnParams<'a> {
    ghost use Rattle.std.specs.Prelude.{◌≡◌, List};
    ghost use Rattle.fints_params.specs.Parameters.{unknown_user};
    ghost use Rattle.fints_rules_dialogues.specs.OwnParams.{HeardRows};

    ghost Value = { List HeardRows };

    ghost view = { λ own. own.heard.items };

    ghost invariant = { λ own. own.unknown ≡ unknown_user };
}

impl<'a> OwnParams<'a> {
    /// What the answers of the exchanges say. The refusal is that of the first answer that is refused as a
    /// capture for something else than what is missing.
    pub fn of(alloc: Global, exchanges: &[Exchange<'a>]) -> Result<OwnParams<'a>, DialogueFault>
        ensures heard { IfOk result (λ own. AreHeard exchanges.now own) }
        ensures refused { IfErr result (λ f. IsMemoryOrRefusal (IsRefusedAnswer exchanges.now) f) }
    {
        let mut heard = Vec::new(alloc);
        let mut party = first_party(alloc, exchanges)?;
        for exchange in exchanges {
            party = next_party(alloc, party, exchange)?;
            let told = told_by(alloc, &exchange.answer)?;
            let answer = sent_in(&exchange.answer);
            heard.push(heard_of(alloc, party.clone()?, told, answer)?)?;
        }
        Ok(OwnParams {
            heard,
            unknown: UserParams::unknown(alloc),
        })
    }

    /// Whose each exchange is, and what its answer says.
    pub fn heard(&self) -> &[Heard<'a>]
        ensures { result.now ≡ self.now }
    {
        self.heard.as_slice()
    }

    /// Those of a user that no answer says anything about.
    pub fn unknown(&self) -> &UserParams
        ensures { result.now ≡ unknown_user }
    {
        &self.unknown
    }
}
