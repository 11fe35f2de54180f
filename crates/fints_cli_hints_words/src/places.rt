//! Where something is in a text, and rows by their number and name.
use crate::quoting::Bare;
use fints_syntax::Memory;
use fints_syntax_texts::entries::text_at;
use std::alloc::Global;
use std::fmt;
use std::fmt::{Display, Formatter, Write};
use toml::Value;

/// What is said of an input, if anything; where it is a part of a hint, it begins with the sign that
/// follows its place.
pub type HintText = Result<Option<String>, Memory>;

/// A text, as it is shown.
pub fn written<T: Display + Drop>(alloc: Global, text: T) -> Result<String, Memory> {
    Ok(text.to_string(alloc)?)
}

/// That there is something to say: this text.
pub fn say<T: Display + Drop>(alloc: Global, text: T) -> HintText {
    Ok(Some(text.to_string(alloc)?))
}

/// What is said, after its place.
pub fn say_at<T: Display + Drop>(alloc: Global, place: T, found: Option<String>) -> HintText {
    match found {
        Some(text) => say(alloc, format_args!("{place}{text}")),
        None => Ok(None),
    }
}

/// The line, from 1, in which the byte at an offset is.
pub fn line_at(text: &[u8], offset: usize) -> usize {
    text.iter()
        .take(offset)
        .filter(|byte| **byte == b'\n')
        .count()
        .saturating_add(1)
}

/// The column, from 1, in characters, of the byte at an offset.
pub fn column_at(text: &[u8], offset: usize) -> usize {
    let mut column: usize = 1;
    for byte in text.iter().take(offset) {
        if *byte == b'\n' {
            column = 1;
        } else if *byte & 0xC0 != 0x80 {
            column = column.saturating_add(1);
        }
    }
    column
}

/// The row of a number, from 1.
pub fn row_at(rows: &[Value], number: u16) -> Option<&Value> {
    rows.get(usize::from(number).checked_sub(1)?)
}

/// A row of a document by what it is, its number, and what it is called, if that can be said.
#[derive(Clone, Copy)]
pub struct Row<'a> {
    pub what: &'a str,
    pub number: usize,
    pub name: Option<&'a str>,
}

/// A row, or an entry of a list, that is called nothing.
pub fn numbered(what: &str, number: usize) -> Row<'_> {
    Row {
        what,
        number,
        name: None,
    }
}

/// The text at a key of a row, where the row is a table.
pub fn text_in<'a>(row: &'a Value, key: &str) -> Option<&'a str> {
    match row {
        Value::Table(table) => text_at(table, key),
        _ => None,
    }
}

/// A row that has its name at this key.
pub fn row_named<'a>(what: &'a str, number: usize, row: &'a Value, key: &str) -> Row<'a> {
    Row {
        what,
        number,
        name: text_in(row, key),
    }
}

impl Display for Row<'_> {
    fn fmt<W: Write>(&self, f: &mut Formatter<W>) -> fmt::Result {
        let Row { what, number, name } = *self;
        match name {
            Some(name) => {
                let name = Bare(name);
                write!(f, "{what} {number} ({name})")
            }
            None => write!(f, "{what} {number}"),
        }
    }
}

/// The names in rows, in order, and these words after them.
pub fn names_of<'a>(
    alloc: Global,
    rows: &'a [Value],
    words: &[&'a str],
) -> Result<Vec<&'a str>, Memory> {
    let mut names: Vec<&'a str> = rows
        .iter()
        .filter_map(|row| text_in(row, "name"))
        .collect(alloc)?;
    names.extend_from_slice(words)?;
    Ok(names)
}
