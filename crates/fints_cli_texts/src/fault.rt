//! Why inputs have no answer.
ghost use Rattle.std.specs.Prelude.{◌≡◌, ◌≤◌, ◌+◌, ◌++◌, length};
ghost use Rattle.fints_cli_texts.specs.FaultText.{fault_text};
ghost use Rattle.fints_cli_texts.specs.Fault.{answer_fault_of, dialogue_fault_of, fault_of, order_fault_of, script_fault_of, case_fault_of, message_fault_of};
ghost use Rattle.fints_cli_texts.specs.declared.fault.Fault.TheVariants as fault;

use fints_params::ParamFault;
use fints_rules::{JudgeFault, TableFault};
use fints_rules_dialogues::DialogueFault;
use fints_script::{CaseFault, FaultKind, PlanFault, ScriptFault};
use fints_syntax::{FaultText, Memory};
use std::alloc::AllocError;
use thiserror::Error;

/// Why inputs have no answer.
#[derive(Clone, Copy, Debug, PartialEq, Eq, Error)]
#[error("{}", self.text())]
pub enum Fault {
    /// Memory ran out.
    Memory,
    /// The capture is refused; memory that ran out is no such refusal.
    Params(ParamFault),
    /// The order table is refused; memory that ran out is no such refusal.
    Orders(TableFault),
    /// The script is refused; memory that ran out is no such refusal.
    Script(ScriptFault),
    /// The script leaves something open with the order table.
    Plan(PlanFault),
    /// The text is no case; memory that ran out is no such refusal.
    Case(CaseFault),
    /// The values of the case aren't those that the script admits.
    NotAdmitted,
    /// The run of the case has no message of this number; numbers count from 1.
    NoMessage { number: u32 },
    /// The report has no finding of this number; numbers count from 1.
    NoFinding { number: u32 },
    /// The first line that is no line of a certificate there; lines count from 1.
    Certificate { line: u32 },
    /// The bytes before a judged message are no message; the offset is that of `NotAMessage`.
    Before { offset: usize },
    /// The message before a judged one is an answer of the bank.
    BeforeAnswer,
    /// The bank's answer to the message before is refused; memory that ran out is no such refusal.
    Answer(ParamFault),
    /// The bank's answer to the message before has no feedback code.
    NoCode,
    /// The bytes are no message; memory that ran out is no such refusal.
    Message(JudgeFault),
    /// The bytes are no recorded dialogue, or it has no parameters; memory that ran out is no such refusal.
    Dialogue(DialogueFault),
    /// No draft sends this segment of a message of the recorded dialogue as it was recorded. The
    /// client's messages count from 1, and the segment has the number in its head: 0 is the message as
    /// a whole, and message 0 the dialogue.
    NotDraftable { message: usize, segment: usize },
    /// The recording has no dialogue of this number; numbers count from 1.
    NoPart { number: u32 },
}

// A word that says which input is refused, and then why.
fn refused(input: &str, why: &FaultText) -> FaultText
    ensures text { length input.now + length why.now ≤ 128 → result ≡ input.now ++ why.now }
{
    FaultText::new(input).and(why.as_str())
}

impl Fault {
    /// Which input is refused, and why.
    pub fn text(&self) -> FaultText
        ensures text { result ≡ fault_text self.now }
        ensures short { length result ≤ 108 }
    {
        match self {
            Fault::Memory => FaultText::new("memory"),
            Fault::Params(fault) => refused("params ", &fault.text()),
            Fault::Orders(fault) => refused("orders ", &fault.text()),
            Fault::Script(fault) => refused("script ", &fault.text()),
            Fault::Plan(fault) => refused("plan ", &fault.text()),
            Fault::Case(fault) => refused("case ", &fault.text()),
            Fault::NotAdmitted => FaultText::new("case NotAdmitted"),
            Fault::NoMessage { number } => {
                FaultText::new("run NoMessage ").number(u64::from(*number))
            }
            Fault::NoFinding { number } => {
                FaultText::new("explain NoFinding ").number(u64::from(*number))
            }
            Fault::Certificate { line } => FaultText::new("cert line ").number(u64::from(*line)),
            Fault::Before { offset } => {
                FaultText::new("before NotAMessage at ").number(*offset as u64)
            }
            Fault::BeforeAnswer => FaultText::new("before Answer"),
            Fault::Answer(fault) => refused("answer ", &fault.text()),
            Fault::NoCode => FaultText::new("answer NoCode"),
            Fault::Message(fault) => refused("message ", &fault.text()),
            Fault::Dialogue(fault) => refused("dialogue ", &fault.text()),
            Fault::NotDraftable { message, segment } => FaultText::numbered(
                "dialogue NotDraftable message ",
                *message as u64,
                " segment ",
                *segment as u64,
            ),
            Fault::NoPart { number } => FaultText::new("draft NoPart ").number(u64::from(*number)),
        }
    }
}

impl From<Memory> for Fault {
    ghost from_gives = { λ _ f. f ≡ fault.Memory };

    fn from(_e: Memory) -> Fault {
        Fault::Memory
    }
}

impl From<AllocError> for Fault {
    ghost from_gives = { λ _ f. f ≡ fault.Memory };

    fn from(_e: AllocError) -> Fault {
        Fault::Memory
    }
}

impl From<ParamFault> for Fault {
    ghost from_gives = { λ e f. f ≡ fault_of e };

    fn from(e: ParamFault) -> Fault {
        match e {
            ParamFault::Memory => Fault::Memory,
            _ => Fault::Params(e),
        }
    }
}

impl From<TableFault> for Fault {
    ghost from_gives = { λ e f. f ≡ order_fault_of e };

    fn from(e: TableFault) -> Fault {
        match e {
            TableFault::Memory => Fault::Memory,
            _ => Fault::Orders(e),
        }
    }
}

impl From<ScriptFault> for Fault {
    ghost from_gives = { λ e f. f ≡ script_fault_of e };

    fn from(e: ScriptFault) -> Fault {
        match e.kind {
            FaultKind::Memory => Fault::Memory,
            _ => Fault::Script(e),
        }
    }
}

impl From<PlanFault> for Fault {
    ghost from_gives = { λ e f. f ≡ fault.Plan e };

    fn from(e: PlanFault) -> Fault {
        Fault::Plan(e)
    }
}

impl From<CaseFault> for Fault {
    ghost from_gives = { λ e f. f ≡ case_fault_of e };

    fn from(e: CaseFault) -> Fault {
        match e {
            CaseFault::Memory => Fault::Memory,
            _ => Fault::Case(e),
        }
    }
}

impl From<JudgeFault> for Fault {
    ghost from_gives = { λ e f. f ≡ message_fault_of e };

    fn from(e: JudgeFault) -> Fault {
        match e {
            JudgeFault::Memory => Fault::Memory,
            JudgeFault::NotAMessageBefore { offset } => Fault::Before { offset },
            _ => Fault::Message(e),
        }
    }
}

impl From<DialogueFault> for Fault {
    ghost from_gives = { λ e f. f ≡ dialogue_fault_of e };

    fn from(e: DialogueFault) -> Fault {
        match e {
            DialogueFault::Memory => Fault::Memory,
            _ => Fault::Dialogue(e),
        }
    }
}

/// The refusal of the bank's answer to a message.
pub fn answer_fault(e: ParamFault) -> Fault
    ensures { result ≡ answer_fault_of e }
{
    match e {
        ParamFault::Memory => Fault::Memory,
        _ => Fault::Answer(e),
    }
}
