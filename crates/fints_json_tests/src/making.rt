//! Parts of objects.
use fints_cli_json::{
    FindingPlace, JsonFinding, JsonNote, Object, PlacedFinding, Reason, SegmentName, object_line,
};
use fints_rules::{Broken, Cause, Rule};
use fints_script_fields::Name;
use std::alloc::Global;
use std::test::Fail;

/// The name that a text is.
pub fn name(text: &[u8]) -> Result<Name, Fail> {
    let name = Name::parse(text).ok_or("name")?;
    Ok(name)
}

/// A rule that is broken at a segment of this kind, version 7.
pub fn at_segment(
    alloc: Global,
    place: FindingPlace,
    broken: Broken,
    kind: &str,
    cause: Cause,
    words: &str,
) -> Result<JsonFinding, Fail> {
    let segment = SegmentName {
        kind: String::from_str(alloc, kind)?,
        version: 7,
    };
    let why = Reason {
        segment: Some(segment),
        cause: Some(cause),
        words: String::from_str(alloc, words)?,
    };
    Ok(JsonFinding {
        placed: PlacedFinding { place, broken },
        why,
        case: None,
    })
}

/// A rule that a message breaks as a whole.
pub fn as_whole(
    alloc: Global,
    place: FindingPlace,
    rule: Rule,
    words: &str,
) -> Result<JsonFinding, Fail> {
    let why = Reason {
        segment: None,
        cause: None,
        words: String::from_str(alloc, words)?,
    };
    let broken = Broken { rule, segment: 0 };
    Ok(JsonFinding {
        placed: PlacedFinding { place, broken },
        why,
        case: None,
    })
}

/// A list of one note.
pub fn note(alloc: Global, words: &str) -> Result<Vec<JsonNote>, Fail> {
    let mut notes = Vec::new(alloc);
    notes.push(JsonNote {
        words: String::from_str(alloc, words)?,
    })?;
    Ok(notes)
}

/// Whether the object has this text.
pub fn prints<T: Object>(alloc: Global, object: &T, wanted: &[u8]) -> Result<bool, Fail> {
    let text = object_line(alloc, object)?;
    Ok(text.as_slice() == wanted)
}
