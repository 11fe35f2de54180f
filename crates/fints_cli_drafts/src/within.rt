//! Whether a recorded dialogue has a place.
ghost use Rattle.std.specs.Prelude.{◌≡◌, ◌+◌, IsTrue, length};
ghost use Rattle.std.specs.List.{list_any};
ghost use Rattle.fints_syntax.specs.Owned.{segment_of};
ghost use Rattle.fints_cli_drafts.specs.Drafts.{HasSegment, IsPlaceIn, has_number};

use crate::place::SegmentPlace;
use fints_rules_dialogues::Exchange;
use fints_rules_messages::Message;
use fints_syntax::SegmentView;

fn has_number(segment: &SegmentView<'_>, number: usize) -> bool
    ensures { result ≡ has_number number (segment_of segment.now) }
{
    usize::from(segment.number()) == number
}

// How many segments are between HNHBK and HNHBS, or inside HNVSD.
fn inner_count(message: &Message<'_>) -> usize
    ensures { result ≡ length message.now.inner }
{
    message.openers().len() + message.body().len() + message.ends().len()
}

fn is_of_seal(message: &Message<'_>, number: usize) -> bool
    ensures { IsTrue result → IsTrue (list_any (has_number number) message.now.middle) }
{
    match message.seal() {
        Some(seal) => has_number(&seal.head, number) || has_number(&seal.envelope, number),
        None => false,
    }
}

fn has_segment(message: &Message<'_>, number: usize) -> bool
    ensures { IsTrue result → HasSegment message.now number }
{
    if number >= 1 && number.saturating_sub(2) <= inner_count(message) {
        return true;
    }
    is_of_seal(message, number)
}

/// The place, where the dialogue has it; else its message as a whole, or the dialogue.
pub fn place_within(exchanges: &[Exchange<'_>], place: SegmentPlace) -> SegmentPlace
    ensures { IsPlaceIn exchanges.now result.message result.segment }
{
    if place.message == 0 || place.message > exchanges.len() {
        return SegmentPlace::whole(0);
    }
    let exchange = &exchanges[place.message - 1];
    if place.segment == 0 || has_segment(&exchange.message, place.segment) {
        return place;
    }
    SegmentPlace::whole(place.message)
}
