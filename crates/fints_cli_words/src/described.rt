//! The commands as their help describes them, with their options.
use crate::requests::{Command, Input};

/// What `fints --help` says after the options.
pub const ABOUT_FILES: &str = "Without words: the report on a built-in script.

Statuses:
  0  clean, shown, permitted, valid, run, drafted or drawn; a certificate or this help
  1  a rule is broken, or a certificate isn't valid
  2  usage error
  3  an input is refused
  4  out of memory
  5  a file couldn't be read, or the output failed

Files (- is standard input, for one of them):
  capture      what the bank sent: segments up to ', as bytes; HIBPA 3 and HIPINS 1 among them
  order table  TOML: for each order [[order]] with kind, version, account
  script       TOML: seal = [..] first, then [[field]], [[signer]] and the steps, [[step]]
  case         lines: 'fints-case 1', 'field NAME HEX' for each field, 'answer CODE CODE ..'
  certificate  lines: 'fints-cert 2', 'step NAME NUMBER SIZE' or 'step NAME -' for each step
  message      the segments of one message, HNHBK to HNHBS, as bytes
  answer       the bank's answer to a message, as bytes: its feedback is read, HIRMG and HIRMS
  dialogue     messages and answers in turn as they were sent, as bytes, the client's first";

/// What a command's help says after the options.
pub const SEE_HELP: &str = "The statuses and the files: fints --help";

/// An option of a command.
pub enum Choice {
    /// A file, and what the command's help says of it.
    File(Input, &'static str),
    /// A file that may be left out.
    Optional(Input, &'static str),
    /// A file: exactly one of those of a command that are said so is given.
    Either(Input, &'static str),
    /// A file that goes with that of another option, so that both are given or neither.
    Beside(Input, &'static str, Input),
    /// What is either given or not: the name of the option, another name where it has one, and what the help says of it.
    Flag(&'static str, Option<&'static str>, &'static str),
    /// A number.
    Number(&'static str, Option<&'static str>, &'static str),
}

const PARAMS: Choice = Choice::File(Input::Params, "The capture");

const ORDERS: Choice = Choice::File(Input::Orders, "The order table");

const SCRIPT: Choice = Choice::File(Input::Script, "The script");

const CASE: Choice = Choice::File(Input::Case, "The case");

const CERTIFICATE: Choice = Choice::File(Input::Certificate, "The certificate");

const WITH_PARAMS: Choice = Choice::Beside(
    Input::Params,
    "The capture by which it is checked, with --orders",
    Input::Orders,
);

const WITH_ORDERS: Choice = Choice::Beside(
    Input::Orders,
    "The order table, with --params",
    Input::Params,
);

const BEFORE: Choice = Choice::Beside(
    Input::Before,
    "The message before it, with --answer",
    Input::Answer,
);

const ANSWER: Choice = Choice::Beside(
    Input::Answer,
    "The bank's answer to that, with --before",
    Input::Before,
);

const MESSAGE: Choice = Choice::File(Input::Message, "The message");

const DIALOGUE: Choice = Choice::File(Input::Dialogue, "The recorded dialogue, or a log with it");

const LOG: Choice = Choice::File(
    Input::Dialogue,
    "The log of a client, or any file with messages in it",
);

const OTHER_PARAMS: Choice = Choice::Optional(
    Input::Params,
    "The capture, in place of the dialogue's own answers",
);

const OTHER_ORDERS: Choice = Choice::Optional(
    Input::Orders,
    "The order table, in place of the one that orders prints",
);

const REPLAYING: Choice = Choice::Flag(
    "print-case",
    Some("case"),
    "The case that sends the recorded messages, with PIN and TAN",
);

const PART: Choice = Choice::Number("part", None, "Only dialogue N of the recording");

const SENT: Choice = Choice::Number("number", Some("message"), "Only the bytes of message N");

const FINDING: Choice = Choice::Number(
    "finding",
    None,
    "Only the case of finding N: those of all may be hundreds of megabytes",
);

const SHOWN_CAPTURE: Choice = Choice::Either(Input::Shown, "The capture");

const SHOWN_MESSAGE: Choice = Choice::Either(Input::Message, "The message");

/// A command: its name, what its help says of it, and its options.
pub struct Described {
    pub name: &'static str,
    pub command: Command,
    pub about: &'static str,
    pub options: &'static [Choice],
}

/// The commands.
pub const COMMANDS: [Described; 12] = [
    Described {
        name: "show",
        command: Command::Show,
        about: "Shows what a capture says of the bank and the user, or a message without PIN and TAN",
        options: &[SHOWN_CAPTURE, SHOWN_MESSAGE],
    },
    Described {
        name: "judge",
        command: Command::Judge,
        about: "Names the rules that a message breaks",
        options: &[PARAMS, ORDERS, BEFORE, ANSWER, MESSAGE],
    },
    Described {
        name: "audit",
        command: Command::Audit,
        about: "Names the rules that the messages of a recorded dialogue break",
        options: &[OTHER_PARAMS, OTHER_ORDERS, DIALOGUE],
    },
    Described {
        name: "record",
        command: Command::Record,
        about: "Prints the messages that are in a file, raw, in UTF-8 or in base64: a recorded dialogue",
        options: &[LOG],
    },
    Described {
        name: "draft",
        command: Command::Draft,
        about: "Drafts a script that sends the messages of a recorded dialogue once more",
        options: &[OTHER_ORDERS, DIALOGUE, PART, REPLAYING],
    },
    Described {
        name: "check",
        command: Command::Check,
        about: "Names the rules that some run of a script breaks",
        options: &[PARAMS, ORDERS, SCRIPT],
    },
    Described {
        name: "explain",
        command: Command::Explain,
        about: "Names the rules that some run of a script breaks, each with a case",
        options: &[PARAMS, ORDERS, SCRIPT, FINDING],
    },
    Described {
        name: "certify",
        command: Command::Certify,
        about: "Prints the certificate of a script whose runs break no rule",
        options: &[PARAMS, ORDERS, SCRIPT],
    },
    Described {
        name: "verify",
        command: Command::Verify,
        about: "Says whether a certificate of a script is closed",
        options: &[PARAMS, ORDERS, SCRIPT, CERTIFICATE],
    },
    Described {
        name: "run",
        command: Command::Run,
        about: "Prints the messages that a client sends under a case",
        options: &[ORDERS, SCRIPT, CASE, SENT],
    },
    Described {
        name: "draw",
        command: Command::Draw,
        about: "Draws the steps and branches of a script in DOT, and the rules that some run breaks",
        options: &[WITH_PARAMS, WITH_ORDERS, SCRIPT],
    },
    Described {
        name: "orders",
        command: Command::Orders,
        about: "Prints the order table that audit and draft take where none is named",
        options: &[],
    },
];
