//! Fields of a case by their names. What is in the place of a name may be a value, which may be a secret:
//! only a name that the script has, or one near to it, is shown.
use fints_cli_hints_words::guessing::near;
use fints_script_fields::{Alphabet, Name};
use fints_script_rows::NamedField;
use fints_syntax::Memory;
use std::alloc::Global;
use std::fmt;
use std::fmt::{Display, Formatter, Write};

/// The text of a name.
pub fn name_text(name: &Name) -> &str {
    std::str::from_utf8(name.as_bytes()).unwrap_or("")
}

/// The class of texts of an alphabet, as scripts name it.
pub fn alphabet_name(alphabet: Alphabet) -> &'static str {
    match alphabet {
        Alphabet::Digits => "digits",
        Alphabet::Plain => "plain",
        Alphabet::Latin => "text",
    }
}

fn names_of(alloc: Global, fields: &[NamedField]) -> Result<Vec<&str>, Memory> {
    let names = fields
        .iter()
        .map(|field| name_text(&field.name))
        .collect(alloc)?;
    Ok(names)
}

/// A field of a case, by its name where that may be shown.
#[derive(Clone, Copy)]
pub struct Label<'a> {
    name: Option<&'a str>,
}

/// The label of a field of a case, for a script with these fields.
pub fn label_of<'a>(
    alloc: Global,
    fields: &[NamedField],
    name: &'a Name,
) -> Result<Label<'a>, Memory> {
    let text = name_text(name);
    let names = names_of(alloc, fields)?;
    let name = match near(alloc, names.as_slice(), text)? {
        Some(_) => Some(text),
        None => None,
    };
    Ok(Label { name })
}

impl Display for Label<'_> {
    fn fmt<W: Write>(&self, f: &mut Formatter<W>) -> fmt::Result {
        match self.name {
            Some(name) => write!(f, "the field {name}"),
            None => f.write_str("a field that the script doesn't have"),
        }
    }
}
