//! Why bytes are no TOML.
use crate::places::{HintText, column_at, line_at, say};
use crate::quoting::Quoted;
use fints_syntax_texts::MAX_TEXT;
use std::alloc::Global;
use std::fmt;
use std::fmt::{Display, Formatter, Write};
use toml::de::Error;

/// That a text is too long.
pub fn too_long(alloc: Global, text: &[u8]) -> HintText {
    let len = text.len();
    say(
        alloc,
        format_args!("longer than {MAX_TEXT} bytes: it has {len}"),
    )
}

fn not_utf8(alloc: Global, text: &[u8], offset: usize) -> HintText {
    let line = line_at(text, offset);
    say(
        alloc,
        format_args!("not UTF-8: the first bad byte is at offset {offset}, in line {line}"),
    )
}

// What is at an offset, to the end of its line.
fn rest_of_line(text: &str, offset: usize) -> &str {
    let rest = text.get(offset..).unwrap_or("");
    rest.lines().next().unwrap_or("")
}

// What is before an offset, from the start of its line.
fn before(text: &str, offset: usize) -> &str {
    let front = text.get(..offset).unwrap_or("");
    front.rsplit('\n').next().unwrap_or("")
}

// The line of an offset.
fn line_of(text: &str, offset: usize) -> &str {
    let start = offset.saturating_sub(before(text, offset).len());
    rest_of_line(text, start)
}

// Whether a PIN or a TAN may be in a text: a message of FinTS begins with HN, and these segments hold them.
fn may_hold_secret(text: &str) -> bool {
    text.starts_with("HN") || text.contains("HNSHA") || text.contains("HKPAE")
}

/// What is at an offset: words, and a text after them, if any.
#[derive(Clone, Copy)]
struct There<'a> {
    words: &'static str,
    text: &'a str,
}

fn there_at(text: &str, offset: usize) -> There<'_> {
    let rest = rest_of_line(text, offset);
    if may_hold_secret(rest) || may_hold_secret(line_of(text, offset)) {
        return There {
            words: "found what may hold a PIN or a TAN, as a message does",
            text: "",
        };
    }
    match (rest, before(text, offset)) {
        ("", "") => There {
            words: "found the end of the line",
            text: "",
        },
        ("", line) => There {
            words: "found the end of",
            text: line,
        },
        (rest, _) => There {
            words: "found",
            text: rest,
        },
    }
}

impl Display for There<'_> {
    fn fmt<W: Write>(&self, f: &mut Formatter<W>) -> fmt::Result {
        let There { words, text } = *self;
        if text.is_empty() {
            return f.write_str(words);
        }
        let text = Quoted(text);
        write!(f, "{words} {text}")
    }
}

// What to write where the line of an offset is the head of a row in one pair of brackets: rows of scripts
// and order tables have two.
fn advice(text: &str, offset: usize) -> &'static str {
    let line = line_of(text, offset);
    if line.starts_with("[step]") {
        return "; a row has two pairs of brackets: write [[step]]";
    }
    if line.starts_with("[field]") {
        return "; a row has two pairs of brackets: write [[field]]";
    }
    if line.starts_with("[signer]") {
        return "; a row has two pairs of brackets: write [[signer]]";
    }
    if line.starts_with("[order]") {
        return "; a row has two pairs of brackets: write [[order]]";
    }
    ""
}

fn refusal(alloc: Global, text: &str, error: &Error) -> HintText {
    let Some(span) = error.span() else {
        return Ok(None);
    };
    let advice = advice(text, span.start);
    let line = line_at(text.as_bytes(), span.start);
    let column = column_at(text.as_bytes(), span.start);
    let why = error.message();
    let there = there_at(text, span.start);
    say(
        alloc,
        format_args!("line {line}, column {column}: {why}; {there}{advice}"),
    )
}

fn no_toml(alloc: Global, text: &str) -> HintText {
    match toml::table_from_str(alloc, text) {
        Ok(_) => Ok(None),
        Err(error) => refusal(alloc, text, &error),
    }
}

/// Why bytes are no TOML: where they stop, and for what cause.
pub fn why_no_toml(alloc: Global, text: &[u8]) -> HintText {
    if text.len() > MAX_TEXT {
        return too_long(alloc, text);
    }
    match std::str::from_utf8(text) {
        Ok(text) => no_toml(alloc, text),
        Err(error) => not_utf8(alloc, text, error.valid_up_to()),
    }
}
