//! What the words of the command line ask for: a command, its files and a number.
ghost use Rattle.std.specs.Prelude.{◌≡◌};
ghost use Rattle.fints_cli_words.specs.Requests as requests;

use fints_syntax::MAX_CAPTURE;
use fints_syntax_texts::MAX_TEXT;

/// A command. Where its words choose between two answers, each is one.
#[derive(Clone, Copy, Debug, PartialEq, Eq)]
pub enum Command {
    /// The report of the built-in texts.
    BuiltIn,
    /// The order table that the program has.
    Orders,
    /// What a capture says.
    Show,
    /// The segments of a message, without its secrets.
    ShowMessage,
    /// The rules that a message breaks.
    Judge,
    /// Those that it breaks after the message before it and the bank's answer to that.
    JudgeAfter,
    /// The rules that the client's messages of a recorded dialogue break.
    Audit,
    /// The same, by the parameters in the dialogue's own answers.
    AuditOwn,
    /// The messages that are in a file.
    Record,
    /// A script that sends the client's messages of a recorded dialogue once more, or only those of the dialogue of
    /// the number.
    Draft,
    /// The case that has that script send them.
    DraftCase,
    /// What the runs of a script break.
    Check,
    /// The same, and a case of each finding, or only that of the number.
    Explain,
    /// The certificate of a script whose runs break nothing, or else what they break.
    Certify,
    /// Whether a certificate of a script is closed.
    Verify,
    /// The messages that a client sends under a case, or only that of the number.
    Run,
    /// The picture of a script's ways.
    Draw,
    /// The picture with what the runs of the script break.
    DrawFound,
}

/// An input of a command.
#[derive(Clone, Copy, Debug, PartialEq, Eq)]
pub enum Input {
    /// A capture that is shown.
    Shown,
    /// A capture by which something is judged.
    Params,
    Orders,
    Script,
    Case,
    Certificate,
    /// The message before the judged one.
    Before,
    /// The bank's answer to that.
    Answer,
    Message,
    /// A recorded dialogue.
    Dialogue,
}

/// The inputs in the order in which they are read.
pub const INPUTS: [Input; 10] = [
    Input::Shown,
    Input::Params,
    Input::Orders,
    Input::Script,
    Input::Case,
    Input::Certificate,
    Input::Before,
    Input::Answer,
    Input::Message,
    Input::Dialogue,
];

impl Input {
    /// The name of its option.
    pub fn option(self) -> &'static str
        ensures { result.now ≡ requests.option_of self }
    {
        match self {
            Input::Shown | Input::Params => "params",
            Input::Orders => "orders",
            Input::Script => "script",
            Input::Case => "case",
            Input::Certificate => "cert",
            Input::Before => "before",
            Input::Answer => "answer",
            Input::Message => "message",
            Input::Dialogue => "dialogue",
        }
    }

    /// The most bytes of its file.
    pub fn limit(self) -> usize
        ensures { result ≡ requests.limit_of self }
    {
        match self {
            Input::Orders | Input::Script | Input::Case | Input::Certificate => MAX_TEXT,
            _ => MAX_CAPTURE,
        }
    }
}

impl Command {
    /// Whether it reads an input.
    pub fn reads(self, input: Input) -> bool
        ensures { result ≡ requests.reads self input }
    {
        match self {
            Command::BuiltIn | Command::Orders => false,
            Command::Show => matches!(input, Input::Shown),
            Command::ShowMessage => matches!(input, Input::Message),
            Command::Judge => matches!(input, Input::Params | Input::Orders | Input::Message),
            Command::JudgeAfter => matches!(
                input,
                Input::Params | Input::Orders | Input::Before | Input::Answer | Input::Message
            ),
            Command::Audit => matches!(input, Input::Params | Input::Orders | Input::Dialogue),
            Command::Record => matches!(input, Input::Dialogue),
            Command::AuditOwn | Command::Draft | Command::DraftCase => {
                matches!(input, Input::Orders | Input::Dialogue)
            }
            Command::Check | Command::Explain | Command::Certify | Command::DrawFound => {
                matches!(input, Input::Params | Input::Orders | Input::Script)
            }
            Command::Verify => matches!(
                input,
                Input::Params | Input::Orders | Input::Script | Input::Certificate
            ),
            Command::Run => matches!(input, Input::Orders | Input::Script | Input::Case),
            Command::Draw => matches!(input, Input::Script),
        }
    }
}

/// The paths of inputs, by their options. An input that isn't named is empty.
#[derive(Clone, Copy)]
pub struct Paths<'a> {
    pub shown: Option<&'a str>,
    pub params: Option<&'a str>,
    pub orders: Option<&'a str>,
    pub script: Option<&'a str>,
    pub case: Option<&'a str>,
    pub certificate: Option<&'a str>,
    pub before: Option<&'a str>,
    pub answer: Option<&'a str>,
    pub message: Option<&'a str>,
    pub dialogue: Option<&'a str>,
}

/// No file is named.
pub const NO_PATHS: Paths<'static> = Paths {
    shown: None,
    params: None,
    orders: None,
    script: None,
    case: None,
    certificate: None,
    before: None,
    answer: None,
    message: None,
    dialogue: None,
};

impl<'a> Paths<'a> {
    /// The path of an input.
    pub fn of(&self, input: Input) -> Option<&'a str>
        ensures { result ≡ requests.path_in self.now input }
    {
        match input {
            Input::Shown => self.shown,
            Input::Params => self.params,
            Input::Orders => self.orders,
            Input::Script => self.script,
            Input::Case => self.case,
            Input::Certificate => self.certificate,
            Input::Before => self.before,
            Input::Answer => self.answer,
            Input::Message => self.message,
            Input::Dialogue => self.dialogue,
        }
    }
}

/// What is asked: a command with its files, a number where it takes one, and whether hints are wanted.
#[derive(Clone, Copy)]
pub struct Request<'a> {
    pub command: Command,
    pub paths: Paths<'a>,
    /// That of a finding for `Explain`, of a message for `Run`, and of a dialogue for `Draft` and `DraftCase`; all
    /// count from 1.
    pub number: Option<u32>,
    pub hints: bool,
}

impl<'a> Request<'a> {
    /// The path of an input, where the command reads it.
    pub fn path(&self, input: Input) -> Option<&'a str>
        ensures { result ≡ requests.path_of self.now input }
    {
        if self.command.reads(input) {
            self.paths.of(input)
        } else {
            None
        }
    }
}

/// What no words ask for.
pub const BUILT_IN: Request<'static> = Request {
    command: Command::BuiltIn,
    paths: NO_PATHS,
    number: None,
    hints: false,
};

/// What the words ask for.
#[derive(Drop)]
pub enum Asked<'a> {
    /// Help, which goes to the output.
    Help(String),
    /// A usage fault, which goes to the errors.
    Usage(String),
    /// There was no memory to read the words.
    NoMemory,
    /// A command.
    Run(Request<'a>),
}
