//! How long the value at a place may be: of a message it has one length, of a field a least and a greatest.
use fints_script_fields::Field;
use fints_syntax::Bytes;

/// The least and the greatest length of a value, in bytes.
#[derive(Clone, Copy)]
pub struct Span {
    pub least: usize,
    pub most: usize,
}

impl Span {
    /// That of a value of this length.
    pub fn one(len: usize) -> Span {
        Span {
            least: len,
            most: len,
        }
    }

    // A span with a further length in it.
    fn with(self, len: usize) -> Span {
        Span {
            least: self.least.min(len),
            most: self.most.max(len),
        }
    }
}

// That of texts that are listed.
fn span_of_texts(texts: &[Bytes]) -> Option<Span> {
    let mut span = Span::one(texts.first()?.as_slice().len());
    for text in texts {
        span = span.with(text.as_slice().len());
    }
    Some(span)
}

/// That of the values of a field; none for one of accounts, which have several items.
pub fn span_of(class: &Field) -> Option<Span> {
    match class {
        Field::Text(text) => Some(Span {
            least: usize::from(text.min),
            most: usize::from(text.max),
        }),
        Field::Bin(bin) => Some(Span {
            least: usize::from(bin.min),
            most: usize::from(bin.max),
        }),
        Field::OneOf(listed) => span_of_texts(listed.values.as_slice()),
        Field::Account(_) => None,
    }
}
