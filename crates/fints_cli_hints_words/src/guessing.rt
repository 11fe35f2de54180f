//! Words that are meant, perhaps, and lists of the words that there are.
use crate::places::{HintText, say};
use crate::quoting::Quoted;
use fints_syntax::Memory;
use std::alloc::Global;
use std::fmt;
use std::fmt::{Display, Formatter, Write};
use strsim::osa_distance;

/// The longest text that is compared with words.
const LONGEST: usize = 60;

/// The most names that are listed.
const MOST: usize = 8;

// How many edits lead from the text to the word, if they are at most two and leave half of it.
fn edits(alloc: Global, text: &str, word: &str) -> Result<Option<usize>, Memory> {
    if word.len() > LONGEST {
        return Ok(None);
    }
    if text.eq_ignore_ascii_case(word) {
        return Ok(Some(0));
    }
    let count = osa_distance(alloc, text, word)?;
    if count <= 2 && count.saturating_mul(2) <= word.len() {
        Ok(Some(count))
    } else {
        Ok(None)
    }
}

/// The word that is nearest to the text, if one is near.
pub fn near<'a>(alloc: Global, words: &[&'a str], text: &str) -> Result<Option<&'a str>, Memory> {
    if text.len() > LONGEST {
        return Ok(None);
    }
    let mut best = None;
    let mut least = 3;
    for word in words {
        if let Some(count) = edits(alloc, text, word)? {
            if count < least {
                least = count;
                best = Some(*word);
            }
        }
    }
    Ok(best)
}

/// A text that is no word, with the word that was meant, if one is near.
#[derive(Clone, Copy)]
pub struct Guess<'t, 'n> {
    pub text: &'t str,
    pub near: Option<&'n str>,
}

/// The text with the nearest of the words.
pub fn guess_of<'t, 'n>(
    alloc: Global,
    words: &[&'n str],
    text: &'t str,
) -> Result<Guess<'t, 'n>, Memory> {
    let near = near(alloc, words, text)?;
    Ok(Guess { text, near })
}

impl Display for Guess<'_, '_> {
    fn fmt<W: Write>(&self, f: &mut Formatter<W>) -> fmt::Result {
        let text = Quoted(self.text);
        match self.near {
            Some(word) => {
                let word = Quoted(word);
                write!(f, "{text} (did you mean {word}?)")
            }
            None => text.fmt(f),
        }
    }
}

/// Words in a row, with commas between.
#[derive(Clone, Copy)]
pub struct Joined<'a>(pub &'a [&'a str]);

impl Display for Joined<'_> {
    fn fmt<W: Write>(&self, f: &mut Formatter<W>) -> fmt::Result {
        f.write_joined(self.0.iter(), ", ")
    }
}

/// Words in quotes, with commas between.
#[derive(Clone, Copy)]
struct QuotedWords<'a>(&'a [&'a str]);

impl Display for QuotedWords<'_> {
    fn fmt<W: Write>(&self, f: &mut Formatter<W>) -> fmt::Result {
        f.write_joined(self.0.iter().map(|word| Quoted(*word)), ", ")
    }
}

/// The names that there are.
#[derive(Clone, Copy)]
struct Known<'a>(&'a [&'a str]);

impl Display for Known<'_> {
    fn fmt<W: Write>(&self, f: &mut Formatter<W>) -> fmt::Result {
        let names = QuotedWords(self.0.get(..MOST).unwrap_or(self.0));
        match self.0.len().saturating_sub(MOST) {
            0 if self.0.is_empty() => f.write_str("there is none"),
            0 => write!(f, "the names are {names}"),
            more => write!(f, "the names are {names} and {more} more"),
        }
    }
}

/// What has names: the word for such a thing, the names that there are, and what else is said where
/// none is near.
#[derive(Clone, Copy)]
pub struct Named<'a> {
    pub what: &'a str,
    pub names: &'a [&'a str],
    pub remark: &'a str,
}

/// That nothing has the name that is at a place: with the name that was meant, or else with those
/// that there are.
pub fn not_named<T: Display + Drop>(
    alloc: Global,
    place: T,
    named: &Named<'_>,
    name: &str,
) -> HintText {
    let Named {
        what,
        names,
        remark,
    } = *named;
    let guess = guess_of(alloc, names, name)?;
    if guess.near.is_some() {
        return say(alloc, format_args!("{place}: no {what} is named {guess}"));
    }
    let known = Known(names);
    say(
        alloc,
        format_args!("{place}: no {what} is named {guess}; {known}{remark}"),
    )
}
