//! What a user wrote, safe to print: in one line, and not too long.
use std::fmt;
use std::fmt::{Display, Formatter, Write};
use toml::Value;

/// The most characters that are shown.
const MOST: usize = 60;

/// A character, so that a line stays a line.
#[derive(Clone, Copy)]
struct Escaped(char);

impl Display for Escaped {
    fn fmt<W: Write>(&self, f: &mut Formatter<W>) -> fmt::Result {
        let code = u32::from(self.0);
        match self.0 {
            '"' => f.write_str("\\\""),
            '\\' => f.write_str("\\\\"),
            ' '..='~' => f.write_char(self.0),
            '\u{0}'..='\u{ff}' => write!(f, "\\x{code:02x}"),
            _ => write!(f, "\\u{{{code:x}}}"),
        }
    }
}

/// A text, with escapes for what isn't printable ASCII, and without quotes.
#[derive(Clone, Copy)]
pub struct Bare<'a>(pub &'a str);

impl Display for Bare<'_> {
    fn fmt<W: Write>(&self, f: &mut Formatter<W>) -> fmt::Result {
        for ch in self.0.chars().take(MOST) {
            Escaped(ch).fmt(f)?;
        }
        match self.0.chars().nth(MOST) {
            Some(_) => f.write_str(".."),
            None => Ok(()),
        }
    }
}

/// A text in quotes.
#[derive(Clone, Copy)]
pub struct Quoted<'a>(pub &'a str);

impl Display for Quoted<'_> {
    fn fmt<W: Write>(&self, f: &mut Formatter<W>) -> fmt::Result {
        let bare = Bare(self.0);
        write!(f, "\"{bare}\"")
    }
}

/// Bytes in quotes.
#[derive(Clone, Copy)]
pub struct Sample<'a>(pub &'a [u8]);

impl Display for Sample<'_> {
    fn fmt<W: Write>(&self, f: &mut Formatter<W>) -> fmt::Result {
        f.write_str("\"")?;
        for byte in self.0.iter().take(MOST) {
            Escaped(char::from(*byte)).fmt(f)?;
        }
        f.write_str(if self.0.len() > MOST { "..\"" } else { "\"" })
    }
}

/// A character in quotes, or by its number, as in U+20AC, where it isn't printable ASCII.
#[derive(Clone, Copy)]
pub struct Character(pub char);

impl Display for Character {
    fn fmt<W: Write>(&self, f: &mut Formatter<W>) -> fmt::Result {
        let Character(ch) = *self;
        match ch {
            ' '..='~' => {
                let shown = Escaped(ch);
                write!(f, "\"{shown}\"")
            }
            _ => {
                let code = u32::from(ch);
                write!(f, "U+{code:04X}")
            }
        }
    }
}

/// What keeps a text from being a name or a pattern: a character that none has, or how many it has.
#[derive(Clone, Copy)]
pub enum Misfit {
    Character(char),
    Count(usize),
}

/// The misfit of a text with this bad character, if it has one.
pub fn misfit_of(text: &str, bad: Option<char>) -> Misfit {
    match bad {
        Some(ch) => Misfit::Character(ch),
        None => Misfit::Count(text.len()),
    }
}

impl Display for Misfit {
    fn fmt<W: Write>(&self, f: &mut Formatter<W>) -> fmt::Result {
        match *self {
            Misfit::Character(ch) => {
                let ch = Character(ch);
                write!(f, "the character {ch}")
            }
            Misfit::Count(count) => write!(f, "{count} characters"),
        }
    }
}

// What a value is that is shown by no more than a word.
fn word_of(value: &Value) -> &'static str {
    match value {
        Value::Float(_) => "a number with a point",
        Value::Boolean(true) => "true",
        Value::Boolean(false) => "false",
        Value::Datetime(_) => "a date or a time",
        Value::Array(values) if values.is_empty() => "an empty array",
        Value::Array(_) => "an array",
        _ => "a table",
    }
}

/// What a value of a TOML document is.
#[derive(Clone, Copy)]
pub struct Shown<'a>(pub &'a Value);

impl Display for Shown<'_> {
    fn fmt<W: Write>(&self, f: &mut Formatter<W>) -> fmt::Result {
        match self.0 {
            Value::String(text) => {
                let quoted = Quoted(text.as_str());
                write!(f, "the text {quoted}")
            }
            Value::Integer(number) => write!(f, "the number {number}"),
            other => f.write_str(word_of(other)),
        }
    }
}
