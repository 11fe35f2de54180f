//! Whether a message is sent again as it was recorded, but for what a client makes new.
ghost use Rattle.std.specs.Prelude.{◌≡◌, ◌==◌, ◌≤◌, IfNone, IfOk, IfSome, IsTrue, None, length};
ghost use Rattle.std.specs.Str.{bytes_eq};
ghost use Rattle.std.specs.List.{AllZip};
ghost use Rattle.fints_syntax_segments.specs.Lent.{item_of_ref};
ghost use Rattle.fints_syntax_segments.specs.Segment.{item_value};
ghost use Rattle.fints_syntax.specs.Capture.{IsCapture};
ghost use Rattle.fints_syntax.specs.Owned.{segment_of};
ghost use Rattle.fints_rules_messages.specs.Messages.{IsSealHead};
ghost use Rattle.fints_cli_drafts_alike.specs.Alike.{AreAlikeItems, AreSegmentsAlike, IsElementAlike, IsEnvelopeOf, IsOuterAlike, IsRenewal, IsSegmentAlike, IsSentAgain};

use crate::renewed::{is_renewable, is_renewed};
use fints_syntax::{
    Head, ItemRef, Memory, OwnedSegment, SegmentView, SyntaxFault, SyntaxKind, parse_all,
};
use fints_syntax_segments::{HNVSD_NUMBER, HNVSD_VERSION, HNVSK_NUMBER, HNVSK_VERSION};
use std::alloc::Global;

/// Whether two items are the same, text or binary.
pub fn is_same_item(one: &ItemRef<'_>, other: &ItemRef<'_>) -> bool
    ensures { IsTrue result → item_of_ref one.now ≡ item_of_ref other.now }
{
    match (one, other) {
        (ItemRef::Text(a), ItemRef::Text(b)) => *a == *b,
        (ItemRef::Bin(a), ItemRef::Bin(b)) => *a == *b,
        _ => false,
    }
}

/// Whether the value of an item is empty.
pub fn is_empty(item: &ItemRef<'_>) -> bool
    ensures { result ≡ (length (item_value (item_of_ref item.now)) == 0) }
{
    match item {
        ItemRef::Text(value) => value.is_empty(),
        ItemRef::Bin(value) => value.is_empty(),
    }
}

// Whether two items are the same, or both are made new and not empty.
fn is_item_alike(own: &ItemRef<'_>, sent: &ItemRef<'_>, renewed: bool) -> bool
    ensures { IsTrue result → AreAlikeItems renewed (item_of_ref own.now) (item_of_ref sent.now) }
{
    is_same_item(own, sent) || (renewed && !is_empty(own) && !is_empty(sent))
}

fn is_element_alike(own: &OwnedSegment, sent: &OwnedSegment, element: usize) -> bool
    requires { 2 ≤ element }
    ensures { IsTrue result → IsElementAlike own.now sent.now element }
{
    let (items, others) = (own.items(element), sent.items(element));
    if others.len() != items.len() {
        return false;
    }
    for i in 0..items.len() {
        let (Some(one), Some(other)) = (items.get(i + 1), others.get(i + 1)) else {
            return false;
        };
        if !is_item_alike(&one, &other, is_renewed(own, element, i + 1)) {
            return false;
        }
    }
    true
}

fn has_same_head(own: &Head, sent: &Head) -> bool
    ensures { IsTrue result → IsTrue (bytes_eq own.now.id sent.now.id)
        × (own.now.number ≡ sent.now.number) × (own.now.version ≡ sent.now.version)
        × (own.now.reference ≡ None) × (sent.now.reference ≡ None) }
{
    own.id.is(sent.id.as_bytes())
        && own.number == sent.number
        && own.version == sent.version
        && own.reference.is_none()
        && sent.reference.is_none()
}

fn is_renewal(own: &OwnedSegment, sent: &OwnedSegment) -> bool
    ensures { IsTrue result → IsRenewal own.now sent.now }
{
    if !is_renewable(own) || !has_same_head(&own.head, &sent.head) {
        return false;
    }
    let count = own.elements.len();
    if sent.elements.len() != count {
        return false;
    }
    for i in 0..count {
        if !is_element_alike(own, sent, i + 2) {
            return false;
        }
    }
    true
}

fn is_seal_head(segment: &SegmentView<'_>) -> bool
    ensures { IsTrue result → IsSealHead (segment_of segment.now) }
{
    segment.is_named(b"HNVSK", HNVSK_VERSION) && segment.number() == HNVSK_NUMBER
}

// Whether a segment is sent as it was recorded.
fn is_segment_alike(
    alloc: Global,
    own: &SegmentView<'_>,
    sent: &SegmentView<'_>,
) -> Result<bool, Memory>
    ensures { IfOk result (λ alike. IsTrue alike → IsSegmentAlike own.now sent.now) }
{
    if sent.as_bytes() == own.as_bytes() {
        return Ok(true);
    }
    if is_seal_head(own) && is_seal_head(sent) {
        return Ok(true);
    }
    let (own, sent) = (own.to_owned(alloc)?, sent.to_owned(alloc)?);
    Ok(is_renewal(&own, &sent))
}

// The number of the first segment that isn't sent so; 0 where more is sent.
fn other_segment(
    alloc: Global,
    own: &[SegmentView<'_>],
    sent: &[SegmentView<'_>],
) -> Result<Option<usize>, Memory>
    ensures { IfOk result (λ other. IfNone other (AllZip IsSegmentAlike own.now sent.now)) }
{
    for i in 0..own.len() {
        if i >= sent.len() || !is_segment_alike(alloc, &own[i], &sent[i])? {
            return Ok(Some(usize::from(own[i].number())));
        }
    }
    if own.len() != sent.len() {
        return Ok(Some(0));
    }
    Ok(None)
}

// The segments of bytes, if they are a list of them.
fn views_of(alloc: Global, bytes: &[u8]) -> Result<Option<Vec<SegmentView<'_>>>, Memory>
    ensures { IfOk result (λ found. IfSome found (λ v. IsCapture bytes.now v.items)) }
{
    match parse_all(alloc, bytes) {
        Ok(views) => Ok(Some(views)),
        Err(
            SyntaxFault {
                kind: SyntaxKind::Memory,
                ..
            },
        ) => Err(Memory),
        Err(_) => Ok(None),
    }
}

// The number of the first segment in the data of an HNVSD that isn't sent so; 0 where there is none.
fn other_inside(alloc: Global, own: &[u8], sent: &[u8]) -> Result<Option<usize>, Memory>
    ensures { IfOk result (λ other. IfNone other (AreSegmentsAlike own.now sent.now)) }
{
    let (Some(own), Some(sent)) = (views_of(alloc, own)?, views_of(alloc, sent)?) else {
        return Ok(Some(0));
    };
    other_segment(alloc, own.as_slice(), sent.as_slice())
}

// The data of an HNVSD that has nothing more.
fn sealed_in(segment: &OwnedSegment) -> Option<&[u8]>
    ensures { IfSome result (λ held. IsEnvelopeOf held.now segment.now) }
{
    if !segment.is_named(b"HNVSD", HNVSD_VERSION) || segment.head.number != HNVSD_NUMBER {
        return None;
    }
    if segment.elements.len() != 1 || segment.items(2).len() != 1 {
        return None;
    }
    match segment.items(2).get(1) {
        Some(ItemRef::Bin(data)) => Some(data),
        _ => None,
    }
}

// The number of the segment that isn't sent as it was recorded: this one, or one in its data.
fn other_in(
    alloc: Global,
    own: &SegmentView<'_>,
    sent: &SegmentView<'_>,
) -> Result<Option<usize>, Memory>
    ensures { IfOk result (λ other. IfNone other (IsOuterAlike own.now sent.now)) }
{
    if is_segment_alike(alloc, own, sent)? {
        return Ok(None);
    }
    let number = usize::from(own.number());
    let (own, sent) = (own.to_owned(alloc)?, sent.to_owned(alloc)?);
    match (sealed_in(&own), sealed_in(&sent)) {
        (Some(data), Some(other)) => other_inside(alloc, data, other),
        _ => Ok(Some(number)),
    }
}

// The number of the first of the segments that isn't sent as it was recorded, or of one in its data; 0 where
// more is sent.
fn other_outer(
    alloc: Global,
    own: &[SegmentView<'_>],
    sent: &[SegmentView<'_>],
) -> Result<Option<usize>, Memory>
    ensures { IfOk result (λ other. IfNone other (AllZip IsOuterAlike own.now sent.now)) }
{
    for i in 0..own.len() {
        if i >= sent.len() {
            return Ok(Some(usize::from(own[i].number())));
        }
        if let Some(number) = other_in(alloc, &own[i], &sent[i])? {
            return Ok(Some(number));
        }
    }
    if own.len() != sent.len() {
        return Ok(Some(0));
    }
    Ok(None)
}

/// The number of the first segment of a message that isn't sent as it was recorded, if there is one; 0 where
/// it is the message as a whole.
pub fn other_sent(alloc: Global, recorded: &[u8], sent: &[u8]) -> Result<Option<usize>, Memory>
    ensures { IfOk result (λ other. IfNone other (IsSentAgain recorded.now sent.now)) }
{
    let (Some(own), Some(sent)) = (views_of(alloc, recorded)?, views_of(alloc, sent)?) else {
        return Ok(Some(0));
    };
    other_outer(alloc, own.as_slice(), sent.as_slice())
}
