//! What is sent, by what is known of its values: all of a message, and of a script's step the literals.
use crate::spans::{Span, span_of};
use fints_rules::Message;
use fints_script_rows::NamedField;
use fints_script_templates::{Signer, Template, TemplateItem};
use fints_syntax::{
    HNSHA_VERSION, HNSHK_VERSION, Kind, Memory, OwnedSegment, SegmentView, parse_number,
};
use std::alloc::Global;

// ---- a segment

/// A segment of a script.
#[derive(Clone, Copy)]
pub struct Templated<'s> {
    kind: Kind,
    version: u16,
    // From element 2 on.
    elements: &'s [Vec<TemplateItem>],
    fields: &'s [NamedField],
}

fn is_field(item: &TemplateItem) -> bool {
    matches!(item, TemplateItem::Field(_))
}

impl<'s> Templated<'s> {
    fn items(&self, element: usize) -> &'s [TemplateItem] {
        match self.elements.get(element.saturating_sub(2)) {
            Some(items) => items.as_slice(),
            None => &[],
        }
    }

    fn value(&self, element: usize, item: usize) -> Option<&'s [u8]> {
        let items = self.items(element);
        match items.get(item.saturating_sub(1)) {
            Some(TemplateItem::Literal(literal)) => Some(literal.value()),
            Some(_) => None,
            // a field of accounts has further items
            None if items.iter().any(is_field) => None,
            None => Some(&[]),
        }
    }

    fn span(&self, element: usize, item: usize) -> Option<Span> {
        match self.items(element).get(item.saturating_sub(1)) {
            Some(TemplateItem::Field(place)) => span_of(&self.fields.get(*place)?.class),
            _ => Some(Span::one(self.value(element, item)?.len())),
        }
    }
}

/// A segment that is sent.
#[derive(Drop)]
pub enum Segment<'s> {
    Owned(OwnedSegment),
    Templated(Templated<'s>),
}

impl Segment<'_> {
    pub fn kind(&self) -> Kind {
        match self {
            Segment::Owned(segment) => segment.head.id,
            Segment::Templated(segment) => segment.kind,
        }
    }

    pub fn version(&self) -> u16 {
        match self {
            Segment::Owned(segment) => segment.head.version,
            Segment::Templated(segment) => segment.version,
        }
    }

    /// Whether the segment has this identifier and version.
    pub fn is_named(&self, id: &[u8], version: u16) -> bool {
        self.kind().is(id) && self.version() == version
    }

    /// The value of an item, from 1 on, of an element, from 2 on; an absent one is empty. None where it isn't
    /// known: in a script it is a literal, or not known.
    pub fn value(&self, element: usize, item: usize) -> Option<&[u8]> {
        match self {
            Segment::Owned(segment) => Some(segment.value(element.max(2), item.max(1))),
            Segment::Templated(segment) => segment.value(element, item),
        }
    }

    /// How long the value of an item may be. None where that isn't known.
    pub fn span(&self, element: usize, item: usize) -> Option<Span> {
        match self {
            Segment::Owned(segment) => {
                Some(Span::one(segment.value(element.max(2), item.max(1)).len()))
            }
            Segment::Templated(segment) => segment.span(element, item),
        }
    }
}

// ---- what is sent

/// A step of a script: the segments of its body, the places of its signers among those of the script, and
/// the script's fields.
#[derive(Clone, Copy)]
pub struct SentStep<'s> {
    pub templates: &'s [Template],
    pub signed_by: &'s [usize],
    pub signers: &'s [Signer],
    pub fields: &'s [NamedField],
}

impl<'s> SentStep<'s> {
    fn signer(&self, place: usize) -> Option<&'s Signer> {
        self.signers.get(*self.signed_by.get(place)?)
    }

    fn body(&self, place: usize) -> Option<Segment<'s>> {
        let template = self.templates.get(place)?;
        Some(Segment::Templated(Templated {
            kind: template.kind,
            version: template.version,
            elements: template.elements.as_slice(),
            fields: self.fields,
        }))
    }

    fn opener(&self, place: usize) -> Option<Segment<'s>> {
        Some(Segment::Templated(Templated {
            kind: Kind::parse(b"HNSHK")?,
            version: HNSHK_VERSION,
            elements: self.signer(place)?.head.as_slice(),
            fields: self.fields,
        }))
    }

    fn end(&self, place: usize) -> Option<Segment<'s>> {
        Some(Segment::Templated(Templated {
            kind: Kind::parse(b"HNSHA")?,
            version: HNSHA_VERSION,
            elements: self.signer(place)?.end.as_slice(),
            fields: self.fields,
        }))
    }
}

/// What is sent: a message, or what a step of a script sends.
#[derive(Clone, Copy)]
pub enum Outgoing<'s> {
    Message(&'s Message<'s>),
    Step(SentStep<'s>),
}

// The segment at a place, which is owned while it is looked at.
fn owned_at<'s>(
    alloc: Global,
    segments: &[SegmentView<'_>],
    place: usize,
) -> Result<Option<Segment<'s>>, Memory> {
    match segments.get(place) {
        Some(segment) => Ok(Some(Segment::Owned(segment.to_owned(alloc)?))),
        None => Ok(None),
    }
}

// Places count from 0.
impl<'s> Outgoing<'s> {
    /// How many segments the body has.
    pub fn body_len(&self) -> usize {
        match self {
            Outgoing::Message(message) => message.body().len(),
            Outgoing::Step(step) => step.templates.len(),
        }
    }

    /// How many signatures there are.
    pub fn signatures(&self) -> usize {
        match self {
            Outgoing::Message(message) => message.openers().len(),
            Outgoing::Step(step) => step.signed_by.len(),
        }
    }

    /// How many HNSHA there are.
    pub fn ends(&self) -> usize {
        match self {
            Outgoing::Message(message) => message.ends().len(),
            Outgoing::Step(step) => step.signed_by.len(),
        }
    }

    /// The kind of the segment of the body at a place.
    pub fn kind(&self, place: usize) -> Option<Kind> {
        match self {
            Outgoing::Message(message) => Some(message.body().get(place)?.id()),
            Outgoing::Step(step) => Some(step.templates.get(place)?.kind),
        }
    }

    /// The segment of the body at a place.
    pub fn segment(&self, alloc: Global, place: usize) -> Result<Option<Segment<'s>>, Memory> {
        match self {
            Outgoing::Message(message) => owned_at(alloc, message.body(), place),
            Outgoing::Step(step) => Ok(step.body(place)),
        }
    }

    /// The HNSHK at a place.
    pub fn opener(&self, alloc: Global, place: usize) -> Result<Option<Segment<'s>>, Memory> {
        match self {
            Outgoing::Message(message) => owned_at(alloc, message.openers(), place),
            Outgoing::Step(step) => Ok(step.opener(place)),
        }
    }

    /// The HNSHA at a place.
    pub fn end(&self, alloc: Global, place: usize) -> Result<Option<Segment<'s>>, Memory> {
        match self {
            Outgoing::Message(message) => owned_at(alloc, message.ends(), place),
            Outgoing::Step(step) => Ok(step.end(place)),
        }
    }

    /// The place of the first segment of a kind in the body.
    pub fn place_of(&self, id: &[u8]) -> Option<usize> {
        match self {
            Outgoing::Message(message) => message.body().iter().position(|it| it.id().is(id)),
            Outgoing::Step(step) => step.templates.iter().position(|it| it.kind.is(id)),
        }
    }

    /// Whether the body has a segment of a kind.
    pub fn has(&self, id: &[u8]) -> bool {
        self.place_of(id).is_some()
    }

    /// The one security function of all signatures, by PIN and TAN. None without a signature, where they
    /// differ, and where one isn't known.
    pub fn function(&self, alloc: Global) -> Result<Option<u32>, Memory> {
        let mut function = None;
        for place in 0..self.signatures() {
            let one = match self.opener(alloc, place)? {
                Some(opener) => function_in(&opener),
                None => None,
            };
            if one.is_none() || function.is_some() && function != one {
                return Ok(None);
            }
            function = one;
        }
        Ok(function)
    }
}

// The security function of an HNSHK that signs by PIN and TAN.
fn function_in(opener: &Segment<'_>) -> Option<u32> {
    if !opener.is_named(b"HNSHK", HNSHK_VERSION) || opener.value(2, 1)? != b"PIN".as_slice() {
        return None;
    }
    parse_number(opener.value(3, 1)?)
}
