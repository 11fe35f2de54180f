//! Which value of a case a script doesn't admit. The value itself may be a secret: it is never shown.
use crate::labels::{alphabet_name, label_of, name_text};
use fints_cli_hints_words::places::{HintText, say, say_at};
use fints_script::Script;
use fints_script_cases::{Case, NamedValue};
use fints_script_fields::{Alphabet, Field, FieldClass, Text};
use fints_script_rows::NamedField;
use std::alloc::Global;

fn length_text(alloc: Global, min: u16, max: u16, value: &[u8]) -> HintText {
    let len = value.len();
    if usize::from(min) <= len && len <= usize::from(max) {
        return Ok(None);
    }
    say(
        alloc,
        format_args!("its value has {len} bytes, and must have {min} to {max}"),
    )
}

// What a byte is that is no character of the alphabet.
fn misfit_words(alphabet: Alphabet) -> &'static str {
    match alphabet {
        Alphabet::Digits => "is no digit",
        Alphabet::Plain => "is neither a letter A to Z or a to z nor a digit",
        Alphabet::Latin => "is no character of ISO 8859-1, or a control",
    }
}

// The first byte that is no character of the alphabet.
fn character_text(alloc: Global, alphabet: Alphabet, value: &[u8]) -> HintText {
    let Some(place) = value.iter().position(|byte| !alphabet.has(*byte)) else {
        return Ok(None);
    };
    let number = place.saturating_add(1);
    let (misfit, class) = (misfit_words(alphabet), alphabet_name(alphabet));
    say(
        alloc,
        format_args!("byte {number} of its value {misfit}; the class is {class}"),
    )
}

fn text_value_text(alloc: Global, class: &Text, value: &[u8]) -> HintText {
    match length_text(alloc, class.min, class.max, value)? {
        None => character_text(alloc, class.alphabet, value),
        found => Ok(found),
    }
}

fn listed_text(alloc: Global, count: usize, what: &str) -> HintText {
    say(
        alloc,
        format_args!("its value is none of the {count}{what}"),
    )
}

// Why a value is none of the field's.
fn value_text(alloc: Global, field: &Field, value: &[u8]) -> HintText {
    match field {
        Field::Text(c) => text_value_text(alloc, c, value),
        Field::Bin(c) => length_text(alloc, c.min, c.max, value),
        Field::OneOf(c) => listed_text(alloc, c.values.as_slice().len(), " that the script lists"),
        Field::Account(c) => listed_text(
            alloc,
            c.values.as_slice().len(),
            " accounts that the script lists, their items written with : between",
        ),
    }
}

fn line_of(place: usize) -> usize {
    place.saturating_add(2)
}

fn other_name(
    alloc: Global,
    fields: &[NamedField],
    place: usize,
    field: &NamedField,
    pair: &NamedValue,
) -> HintText {
    let line = line_of(place);
    let wanted = name_text(&field.name);
    let found = label_of(alloc, fields, &pair.name)?;
    say(
        alloc,
        format_args!(
            "line {line} has {found}, and must have {wanted}; the fields come in the order of the script"
        ),
    )
}

fn pair_text(
    alloc: Global,
    fields: &[NamedField],
    place: usize,
    field: &NamedField,
    pair: &NamedValue,
) -> HintText {
    if pair.name != field.name {
        return other_name(alloc, fields, place, field, pair);
    }
    if field.class.admits(pair.value.as_slice()) {
        return Ok(None);
    }
    let line = line_of(place);
    let name = name_text(&field.name);
    let found = value_text(alloc, &field.class, pair.value.as_slice())?;
    say_at(
        alloc,
        format_args!("line {line}, the field {name}: "),
        found,
    )
}

fn first_pair(alloc: Global, fields: &[NamedField], pairs: &[NamedValue]) -> HintText {
    for (i, (field, pair)) in fields.iter().zip(pairs.iter()).enumerate() {
        let found = pair_text(alloc, fields, i, field, pair)?;
        if found.is_some() {
            return Ok(found);
        }
    }
    Ok(None)
}

fn missing_text(alloc: Global, field: &NamedField, line: usize) -> HintText {
    let name = name_text(&field.name);
    say(
        alloc,
        format_args!("the field {name} of the script is missing; it must be in line {line}"),
    )
}

fn excess_text(alloc: Global, last: &NamedField, line: usize) -> HintText {
    let name = name_text(&last.name);
    say(
        alloc,
        format_args!("line {line} has a field too many; the last one of the script is {name}"),
    )
}

// The field that is missing, or is named and none of the script's.
fn count_text(alloc: Global, fields: &[NamedField], pairs: &[NamedValue]) -> HintText {
    match (fields.get(pairs.len()), fields.last()) {
        (Some(field), _) => missing_text(alloc, field, line_of(pairs.len())),
        (None, Some(last)) if pairs.len() > fields.len() => {
            excess_text(alloc, last, line_of(fields.len()))
        }
        _ => Ok(None),
    }
}

fn values_text(alloc: Global, fields: &[NamedField], pairs: &[NamedValue]) -> HintText {
    match first_pair(alloc, fields, pairs)? {
        None => count_text(alloc, fields, pairs),
        found => Ok(found),
    }
}

/// The first value of a case that the script doesn't admit.
pub fn admitted_hint(alloc: Global, script: &[u8], text: &[u8]) -> HintText {
    let Ok(script) = Script::read(alloc, script) else {
        return Ok(None);
    };
    match Case::read(alloc, text) {
        Ok(case) => values_text(alloc, script.fields(), case.values.pairs()),
        Err(_) => Ok(None),
    }
}
