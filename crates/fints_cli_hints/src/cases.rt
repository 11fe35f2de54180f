//! Which line of a case is bad, and what it should look like. The value of a field may be a secret: it
//! is never shown, nor is a line that has no other form.
use crate::labels::label_of;
use crate::lines::{Line, Opening, has_line, line_of, line_with_name, told_line};
use fints_cli_hints_words::places::{HintText, say};
use fints_params::Code;
use fints_script::Script;
use fints_script_fields::Name;
use fints_script_rows::NamedField;
use fints_syntax_texts::{after, split_once};
use std::alloc::Global;

const OPENING: Opening = Opening {
    first: "the first line must be \"fints-case 1\", with its line feed",
    second: "the text ends before it; it must be \"field dialog VALUE\"",
};

// What is wrong with a value as it is written.
fn hex_slip(value: &[u8]) -> Option<&'static str> {
    if value == b"-".as_slice() {
        return None;
    }
    if value.is_empty() {
        return Some("its value is empty; a value of no bytes is written -");
    }
    if value.iter().any(|b| b.is_ascii_uppercase()) {
        return Some("its value has capitals; the hex digits are 0 to 9 and a to f");
    }
    if !value.iter().all(|b| b.is_ascii_hexdigit()) {
        return Some(
            "its value has a character that is no hex digit; a value is written in hex, 41 for A",
        );
    }
    if value.len() % 2 == 1 {
        return Some("its value has an odd number of hex digits; two make a byte");
    }
    None
}

// Why the line of a field with a good value may not be there.
fn order_text(alloc: Global, fields: &[NamedField], line: &Line<'_>, name: Name) -> HintText {
    let shown = label_of(alloc, fields, &name)?;
    let number = line.number;
    if let Some(earlier) = line_with_name(line.before, b"field ", name.as_bytes()) {
        return say(
            alloc,
            format_args!("line {number}: {shown} is in line {earlier} already"),
        );
    }
    let why = if has_line(line.before, b"answer") {
        "comes after an answer; all fields come first"
    } else {
        "is the first; the first is dialog, the id of the dialogue"
    };
    say(alloc, format_args!("line {number}: {shown} {why}"))
}

fn named_text(
    alloc: Global,
    fields: &[NamedField],
    line: &Line<'_>,
    name: Name,
    value: &[u8],
) -> HintText {
    let Some(why) = hex_slip(value) else {
        return order_text(alloc, fields, line, name);
    };
    let shown = label_of(alloc, fields, &name)?;
    let number = line.number;
    say(alloc, format_args!("line {number}: {shown}: {why}"))
}

fn field_text(alloc: Global, fields: &[NamedField], line: &Line<'_>, rest: &[u8]) -> HintText {
    let Some((name, value)) = split_once(rest, b' ') else {
        return told_line(
            alloc,
            line.number,
            "the line of a field is \"field NAME VALUE\", with one space between; a value of no bytes is -",
        );
    };
    match Name::parse(name) {
        Some(name) => named_text(alloc, fields, line, name, value),
        None => told_line(
            alloc,
            line.number,
            "after \"field \" there is no name; one has 1 to 40 characters a to z, 0 to 9, _ and -",
        ),
    }
}

// Where the codes of an answer cease to be codes, each after a space: the first is 1.
fn bad_code(codes: &[u8]) -> usize {
    let mut rest = codes;
    let mut count: usize = 1;
    for _ in 0..codes.len() {
        match rest {
            [b' ', a, b, c, d, more @ ..] if Code::parse(&[*a, *b, *c, *d]).is_some() => {
                rest = more;
                count = count.saturating_add(1);
            }
            _ => return count,
        }
    }
    count
}

fn answer_text(alloc: Global, line: &Line<'_>, codes: &[u8]) -> HintText {
    let number = line.number;
    if codes.is_empty() {
        return told_line(
            alloc,
            number,
            "the answer has no code; the line of an answer is \"answer CODES\", as in \"answer 0010 3076\"",
        );
    }
    if !has_line(line.before, b"field ") {
        return told_line(
            alloc,
            number,
            "an answer comes before the fields; the first line after \"fints-case 1\" has the field dialog",
        );
    }
    let code = bad_code(codes);
    say(
        alloc,
        format_args!("line {number}: code {code} of the answer isn't four digits after one space"),
    )
}

fn line_text(alloc: Global, fields: &[NamedField], line: &Line<'_>) -> HintText {
    if line.number <= 1 {
        return told_line(alloc, 1, OPENING.first);
    }
    if let Some(rest) = after(line.text, b"field ") {
        return field_text(alloc, fields, line, rest);
    }
    match after(line.text, b"answer") {
        Some(codes) => answer_text(alloc, line, codes),
        None => told_line(
            alloc,
            line.number,
            "a line is \"field NAME VALUE\" or \"answer CODES\", with one space between the words",
        ),
    }
}

fn place_text(alloc: Global, fields: &[NamedField], line: u32, text: &[u8]) -> HintText {
    match line_of(&OPENING, text, line) {
        Ok(line) => line_text(alloc, fields, &line),
        Err(why) => told_line(alloc, line, why),
    }
}

/// Why a line of a case is none, where the case is one for this script.
pub fn case_hint(alloc: Global, line: u32, script: &[u8], text: &[u8]) -> HintText {
    match Script::read(alloc, script) {
        Ok(script) => place_text(alloc, script.fields(), line, text),
        Err(_) => place_text(alloc, &[], line, text),
    }
}
