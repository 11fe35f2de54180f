//! The command line, as `clap` reads it.
ghost use Rattle.std.specs.Prelude.{◌≡◌, []};
ghost use Rattle.fints_cli_words.specs.Requests.{built_in_request};
ghost use Rattle.fints_cli_words.specs.declared.requests.Asked.TheVariants as asked;

use crate::described::{ABOUT_FILES, COMMANDS, Choice, Described, SEE_HELP};
use crate::requests::{Asked, BUILT_IN, Command, INPUTS, Input, Paths, Request};
use clap::error::ErrorKind;
use clap::{Arg, ArgAction, ArgGroup, ArgMatches, Command as Clap, Error, value_parser};
use std::alloc::{AllocError, Global};

fn file_option<'a>(alloc: Global, name: &'a str, help: &'a str) -> Arg<'a> {
    Arg::new(alloc, name)
        .long(name)
        .value_name("FILE")
        .help(help)
        .action(ArgAction::Set)
}

fn beside_option<'a>(
    alloc: Global,
    name: &'a str,
    help: &'a str,
    other: &'a str,
) -> Result<Arg<'a>, AllocError> {
    file_option(alloc, name, help).requires_arg(other)
}

fn number_option<'a>(alloc: Global, name: &'a str, help: &'a str) -> Arg<'a> {
    Arg::new(alloc, name)
        .long(name)
        .value_name("N")
        .help(help)
        .value_parser(value_parser!(u32))
        .action(ArgAction::Set)
}

fn flag_option<'a>(alloc: Global, name: &'a str, help: &'a str) -> Arg<'a> {
    Arg::new(alloc, name)
        .long(name)
        .help(help)
        .action(ArgAction::SetTrue)
}

// The option, which has another name too where one is given.
fn also_named<'a>(option: Arg<'a>, other: Option<&'a str>) -> Result<Arg<'a>, AllocError> {
    match other {
        Some(name) => option.visible_alias(name),
        None => Ok(option),
    }
}

fn option<'a>(alloc: Global, choice: &Choice) -> Result<Arg<'a>, AllocError> {
    match choice {
        Choice::File(input, help) => { Ok(file_option(alloc, input.option(), help).required(true)) }
        Choice::Optional(input, help) | Choice::Either(input, help) => {
            Ok(file_option(alloc, input.option(), help))
        }
        Choice::Beside(input, help, other) => {
            beside_option(alloc, input.option(), help, other.option())
        }
        Choice::Flag(name, other, help) => also_named(flag_option(alloc, name, help), *other),
        Choice::Number(name, other, help) => also_named(number_option(alloc, name, help), *other),
    }
}

// The options: exactly one of them is given.
fn either_group<'a>(alloc: Global, options: &[Choice]) -> Result<ArgGroup<'a>, AllocError> {
    let mut group = ArgGroup::new(alloc, "either").required(true);
    for choice in options {
        if let Choice::Either(input, _) = choice {
            group = group.arg(input.option())?;
        }
    }
    Ok(group)
}

// A command with its options.
fn command<'a>(alloc: Global, described: &Described) -> Result<Clap<'a>, AllocError> {
    let mut command = Clap::new(alloc, described.name)
        .about(described.about)
        .after_help(SEE_HELP);
    for choice in described.options {
        command = command.arg(option(alloc, choice)?)?;
    }
    let either = either_group(alloc, described.options)?;
    if either.get_args().is_empty() {
        return Ok(command);
    }
    command.group(either)
}

// The option that each command has.
fn hints_option<'a>(alloc: Global) -> Arg<'a> {
    Arg::new(alloc, "hints")
        .long("hints")
        .help("Explains each refusal and each finding on standard error")
        .global(true)
        .action(ArgAction::SetTrue)
}

// The version of the program, and the kit that proved it: `tools/release.sh` compares this with what `rt version` prints.
const VERSION: &str = "0.2.0 (rattle-kit-13f)";

// The program, but for its commands.
fn program<'a>(alloc: Global) -> Result<Clap<'a>, AllocError> {
    Clap::new(alloc, "fints")
        .bin_name("fints")?
        .version(VERSION)
        .about("Checks FinTS 3.0 dialogue scripts")
        .after_help(ABOUT_FILES)
        .no_binary_name(true)
        .subcommand_required(true)
        .arg(hints_option(alloc))
}

fn command_line<'a>(alloc: Global) -> Result<Clap<'a>, AllocError> {
    let mut program = program(alloc)?;
    for described in &COMMANDS {
        program = program.subcommand(command(alloc, described)?)?;
    }
    Ok(program)
}

// What is printed in place of a command.
fn told<'a>(alloc: Global, error: &Error) -> Asked<'a> {
    if error.kind() == ErrorKind::OutOfMemory {
        return Asked::NoMemory;
    }
    match error.to_string(alloc) {
        Ok(text) if error.use_stderr() => Asked::Usage(text),
        Ok(text) => Asked::Help(text),
        Err(_) => Asked::NoMemory,
    }
}

// A usage fault of this text.
fn usage<'a>(alloc: Global, text: &str) -> Asked<'a> {
    match String::from_str(alloc, text) {
        Ok(text) => Asked::Usage(text),
        Err(_) => Asked::NoMemory,
    }
}

// The texts of the options that are named as those of inputs; the command may not read them all.
fn paths_in<'a>(options: &ArgMatches<'a>) -> Paths<'a> {
    Paths {
        shown: options.get_str(Input::Shown.option()),
        params: options.get_str(Input::Params.option()),
        orders: options.get_str(Input::Orders.option()),
        script: options.get_str(Input::Script.option()),
        case: options.get_str(Input::Case.option()),
        certificate: options.get_str(Input::Certificate.option()),
        before: options.get_str(Input::Before.option()),
        answer: options.get_str(Input::Answer.option()),
        message: options.get_str(Input::Message.option()),
        dialogue: options.get_str(Input::Dialogue.option()),
    }
}

// The number that an option of the command gives.
fn number_in(described: &Described, options: &ArgMatches<'_>) -> Option<u32> {
    for choice in described.options {
        if let Choice::Number(name, ..) = choice {
            return options.get_one::<u32>(name);
        }
    }
    None
}

// Which answer of a command its options choose.
fn chosen(command: Command, paths: &Paths<'_>, options: &ArgMatches<'_>) -> Command {
    match command {
        Command::Show if paths.message.is_some() => Command::ShowMessage,
        Command::Judge if paths.before.is_some() => Command::JudgeAfter,
        Command::Audit if paths.params.is_none() => Command::AuditOwn,
        Command::Draft if options.get_flag("print-case") => Command::DraftCase,
        Command::Draw if paths.params.is_some() => Command::DrawFound,
        _ => command,
    }
}

// The request of a command with its options.
fn request_of<'a>(described: &Described, options: &ArgMatches<'a>) -> Request<'a> {
    let paths = paths_in(options);
    Request {
        command: chosen(described.command, &paths, options),
        paths,
        number: number_in(described, options),
        hints: options.get_flag("hints"),
    }
}

// The request that the command's words make.
fn named_request<'a>(name: &str, options: &ArgMatches<'a>) -> Option<Request<'a>> {
    let described = COMMANDS.iter().find(|it| it.name == name)?;
    Some(request_of(described, options))
}

// How many inputs of a request are standard input.
fn standard_inputs(request: &Request<'_>) -> usize {
    INPUTS
        .iter()
        .filter(|input| request.path(**input) == Some("-"))
        .count()
}

/// What the words after the program's name ask for: with no words, the report of the built-in texts.
pub fn read_words<'a>(alloc: Global, words: &'a [&'a str]) -> Asked<'a>
    ensures { words.now ≡ [] → result ≡ asked.Run built_in_request }
{
    if words.is_empty() {
        return Asked::Run(BUILT_IN);
    }
    let Ok(command) = command_line(alloc) else {
        return Asked::NoMemory;
    };
    let matches = match command.try_get_matches_from(words) {
        Ok(matches) => matches,
        Err(error) => return told(alloc, &error),
    };
    // (clap refuses words without a command itself, since the command line requires one)
    let Some((name, options)) = matches.subcommand() else {
        return usage(alloc, "error: a command is missing\n");
    };
    let Some(request) = named_request(name, options) else {
        return usage(alloc, "error: a command is missing\n");
    };
    if standard_inputs(&request) > 1 {
        return usage(
            alloc,
            "error: standard input (-) can be the file of only one option\n",
        );
    }
    Asked::Run(request)
}
