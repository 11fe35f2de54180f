//! Which line of a certificate is bad, and what it should look like.
use crate::lines::{Line, Opening, line_of, line_with_name, told_line};
use fints_cli_hints_words::places::{HintText, say};
use fints_cli_hints_words::quoting::Sample;
use fints_script_fields::Name;
use fints_syntax::parse_number;
use fints_syntax_texts::{after, split_once};
use std::alloc::Global;

const OPENING: Opening = Opening {
    first: "the first line must be \"fints-cert 2\", with its line feed",
    second: "the text ends before it; it must be \"step NAME NUMBER SIZE\", one for each step of the script",
};

const OLD_FORMAT: &str =
    "format 1 knew no P11; have the certificate made anew by \"fints certify\"";

const FORM: &str =
    "a line is \"step NAME NUMBER SIZE\" or \"step NAME -\", with one space between the words";

fn is_figure(text: &[u8]) -> bool {
    match text.first() {
        Some(b'1'..=b'9') => parse_number(text).is_some(),
        _ => false,
    }
}

fn again_text(alloc: Global, line: &Line<'_>, name: &[u8]) -> HintText {
    let Some(earlier) = line_with_name(line.before, b"step ", name) else {
        return Ok(None);
    };
    let number = line.number;
    let shown = Sample(name);
    say(
        alloc,
        format_args!("line {number}: the step {shown} is in line {earlier} already"),
    )
}

fn figure_text(alloc: Global, line: &Line<'_>, what: &str, text: &[u8]) -> HintText {
    let number = line.number;
    let shown = Sample(text);
    say(
        alloc,
        format_args!(
            "line {number}: the {what} {shown} must have 1 to 9 digits and not begin with 0"
        ),
    )
}

fn figures_text(alloc: Global, line: &Line<'_>, name: &[u8], figures: &[u8]) -> HintText {
    if figures == b"-".as_slice() {
        return again_text(alloc, line, name);
    }
    let Some((number, size)) = split_once(figures, b' ') else {
        return told_line(
            alloc,
            line.number,
            "after the name must come a number and a size with one space between, or only -",
        );
    };
    if !is_figure(number) {
        return figure_text(alloc, line, "number", number);
    }
    if !is_figure(size) {
        return figure_text(alloc, line, "size", size);
    }
    again_text(alloc, line, name)
}

fn no_name(alloc: Global, line: &Line<'_>, name: &[u8]) -> HintText {
    let number = line.number;
    let shown = Sample(name);
    say(
        alloc,
        format_args!(
            "line {number}: {shown} is no name; one has 1 to 40 characters a to z, 0 to 9, _ and -"
        ),
    )
}

fn step_text(alloc: Global, line: &Line<'_>, rest: &[u8]) -> HintText {
    match split_once(rest, b' ') {
        Some((name, _)) if Name::parse(name).is_none() => no_name(alloc, line, name),
        Some((name, figures)) => figures_text(alloc, line, name, figures),
        None => told_line(alloc, line.number, FORM),
    }
}

fn first_text(alloc: Global, text: &[u8]) -> HintText {
    if text == b"fints-cert 1".as_slice() {
        return told_line(alloc, 1, OLD_FORMAT);
    }
    told_line(alloc, 1, OPENING.first)
}

fn line_text(alloc: Global, line: &Line<'_>) -> HintText {
    if line.number <= 1 {
        return first_text(alloc, line.text);
    }
    match after(line.text, b"step ") {
        Some(rest) => step_text(alloc, line, rest),
        None => told_line(alloc, line.number, FORM),
    }
}

/// Why a line of a certificate is none.
pub fn cert_hint(alloc: Global, line: u32, text: &[u8]) -> HintText {
    match line_of(&OPENING, text, line) {
        Ok(line) => line_text(alloc, &line),
        Err(why) => told_line(alloc, line, why),
    }
}
