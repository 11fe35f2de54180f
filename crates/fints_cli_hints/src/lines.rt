//! Lines of a text of lines: where one is, how it ends, and which earlier ones there are.
use fints_cli_hints_words::places::{HintText, say};
use fints_syntax_texts::{after, split_once};
use std::alloc::Global;

/// What is said where one of the first two lines of a text is missing.
#[derive(Clone, Copy)]
pub struct Opening {
    pub first: &'static str,
    pub second: &'static str,
}

/// A line by its number, from 1, without its line feed, and the lines before it.
#[derive(Clone, Copy)]
pub struct Line<'a> {
    pub number: u32,
    pub text: &'a [u8],
    pub before: &'a [u8],
}

// Where a line begins, counted from 1.
fn start_of(text: &[u8], number: u32) -> usize {
    let mut at: usize = 0;
    for _ in 1..number {
        let rest = text.get(at..).unwrap_or(&[]);
        match rest.iter().position(|b| *b == b'\n') {
            Some(len) => at = at.saturating_add(len).saturating_add(1),
            None => at = text.len(),
        }
    }
    at
}

// Why no line ends there by only a line feed.
fn bad_end(opening: &Opening, number: u32, rest: &[u8]) -> &'static str {
    match number {
        0..=1 => opening.first,
        2 if rest.is_empty() => opening.second,
        _ if rest.is_empty() => "the text ends before it",
        _ => "it has no line feed at its end",
    }
}

/// The line of a number, from 1, or why there is none that ends by only a line feed.
pub fn line_of<'a>(
    opening: &Opening,
    text: &'a [u8],
    number: u32,
) -> Result<Line<'a>, &'static str> {
    let at = start_of(text, number);
    let rest = text.get(at..).unwrap_or(&[]);
    match split_once(rest, b'\n') {
        None => Err(bad_end(opening, number, rest)),
        Some(([.., b'\r'], _)) => Err("a carriage return comes before its line feed"),
        Some((line, _)) => Ok(Line {
            number,
            text: line,
            before: text.get(..at).unwrap_or(text),
        }),
    }
}

/// What is wrong with the line of a number.
pub fn told_line(alloc: Global, number: u32, why: &str) -> HintText {
    say(alloc, format_args!("line {number}: {why}"))
}

// Whether the line is this word, the name and a space, and what follows.
fn names(line: &[u8], word: &[u8], name: &[u8]) -> bool {
    match after(line, word) {
        Some(rest) => matches!(after(rest, name), Some([b' ', ..])),
        None => false,
    }
}

/// The number, from 1, of the first of these lines that has this name after the word.
pub fn line_with_name(lines: &[u8], word: &[u8], name: &[u8]) -> Option<usize> {
    let place = lines
        .split(|b| *b == b'\n')
        .position(|line| names(line, word, name))?;
    Some(place.saturating_add(1))
}

/// Whether one of these lines begins so.
pub fn has_line(lines: &[u8], front: &[u8]) -> bool {
    lines
        .split(|b| *b == b'\n')
        .any(|line| line.starts_with(front))
}
