//! Why a whole message breaks a rule, in words.
use crate::branches::BranchOf;
use crate::lines::Called;
use fints_cli_hints_captured::Numbers;
use fints_params::BankRow;
use fints_rules::{LAST_NUMBER, Rule};
use fints_script::Name;
use std::fmt;
use std::fmt::{Display, Formatter, Write};

/// What is before a message that leaves an order unreleased.
#[derive(Clone, Copy)]
pub enum Before<'a> {
    /// A message that was handed over, and the answer to it.
    Message,
    /// A step, and the branch of it that leads on where the answer has 0030.
    Step { name: &'a Name, branch: BranchOf },
    /// Some step.
    Unsaid,
}

impl Display for Before<'_> {
    fn fmt<W: Write>(&self, f: &mut Formatter<W>) -> fmt::Result {
        match self {
            Before::Message => f.write_str(
                "the message before submits an order by an HKTAN of process 4, and the answer has 0030",
            ),
            Before::Step { name, branch } => {
                let name = Called(name);
                write!(
                    f,
                    "step {name} submits an order by an HKTAN of process 4, and {branch} of it leads here where the answer has 0030"
                )
            }
            Before::Unsaid => f.write_str("an order was submitted"),
        }
    }
}

/// A message as the rules of the whole see it.
#[derive(Clone, Copy)]
pub struct Whole<'a> {
    /// Whether it is one that is there, and not those that a script sends.
    pub is_one: bool,
    pub protocol: Option<u64>,
    pub number: u64,
    pub size: u64,
    /// How many kinds of orders it has.
    pub kinds: usize,
    pub before: Before<'a>,
}

// The versions that a bank speaks, with a comma between.
#[derive(Clone, Copy)]
struct Speaks<'a>(&'a [u32]);

impl Display for Speaks<'_> {
    fn fmt<W: Write>(&self, f: &mut Formatter<W>) -> fmt::Result {
        if self.0.is_empty() {
            return f.write_str("HIBPA names no version (element 7)");
        }
        let versions = Numbers(self.0);
        write!(f, "the bank speaks {versions} (HIBPA, element 7)")
    }
}

/// Why a whole message breaks a rule.
#[derive(Clone, Copy)]
pub struct WholeWhy<'a> {
    pub bank: &'a BankRow,
    pub whole: &'a Whole<'a>,
    pub rule: Rule,
}

/// Whether a rule is one of the whole message.
pub fn is_of_whole(rule: Rule) -> bool {
    matches!(
        rule,
        Rule::Protocol | Rule::Number | Rule::Size | Rule::Kinds | Rule::Release
    )
}

impl WholeWhy<'_> {
    fn protocol<W: Write>(&self, f: &mut Formatter<W>) -> fmt::Result {
        let versions = self.bank.protocols.as_slice();
        let speaks = Speaks(versions);
        let advice = match (versions.is_empty(), self.whole.is_one) {
            (true, _) => "take a capture whose HIBPA does",
            (false, true) => "write one that it speaks into element 3 of HNHBK",
            (false, false) => {
                "messages of a script have version 300, so take a bank or an access that speaks it"
            }
        };
        match self.whole.protocol {
            Some(version) => write!(
                f,
                "the message is of protocol version {version}, and {speaks}: {advice}"
            ),
            None => write!(
                f,
                "element 3 of HNHBK, the protocol version, is no number, and {speaks}: {advice}"
            ),
        }
    }

    fn number<W: Write>(&self, f: &mut Formatter<W>) -> fmt::Result {
        let number = self.whole.number;
        if number == 0 {
            return f.write_str("the message has number 0: messages count from 1");
        }
        let advice = if self.whole.is_one {
            "end the dialogue before, and begin another"
        } else {
            "lower a repeat, or end the dialogue before"
        };
        write!(
            f,
            "the message has number {number}, and the last one is {LAST_NUMBER}: {advice}"
        )
    }

    fn size<W: Write>(&self, f: &mut Formatter<W>) -> fmt::Result {
        let kilobytes = self.bank.kilobytes;
        let most = u64::from(kilobytes).saturating_mul(1024);
        let size = self.whole.size;
        if self.whole.is_one {
            return write!(
                f,
                "the message has {size} bytes, and the bank takes {most} (HIBPA, element 8 is {kilobytes}): send less in it"
            );
        }
        write!(
            f,
            "the message has up to {size} bytes, and the bank takes {most} (HIBPA, element 8 is {kilobytes}): shorten its fields, or send less in a message"
        )
    }

    fn kinds<W: Write>(&self, f: &mut Formatter<W>) -> fmt::Result {
        let (kinds, most) = (self.whole.kinds, self.bank.kinds);
        write!(
            f,
            "the message has {kinds} kinds of orders, and the bank takes {most} (HIBPA, element 5): send them in messages of their own"
        )
    }

    fn release<W: Write>(&self, f: &mut Formatter<W>) -> fmt::Result {
        let before = self.whole.before;
        write!(
            f,
            "{before}: the order waits for its TAN, so the next message sends it by an HKTAN of process 2, or ends the dialogue by HKEND"
        )
    }
}

impl Display for WholeWhy<'_> {
    fn fmt<W: Write>(&self, f: &mut Formatter<W>) -> fmt::Result {
        match self.rule {
            Rule::Protocol => self.protocol(f),
            Rule::Number => self.number(f),
            Rule::Size => self.size(f),
            Rule::Kinds => self.kinds(f),
            _ => self.release(f),
        }
    }
}
