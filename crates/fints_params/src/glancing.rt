//! What a glance at a segment in its source says.
ghost use Rattle.std.specs.Prelude.{◌≡◌, ℕ, List, IfSome, Some};
ghost use Rattle.fints_syntax_segments.specs.Spelling.{Spelled};
ghost use Rattle.fints_syntax.specs.ItemIs.{ItemIs};
ghost use Rattle.fints_syntax.specs.Places.{place_of};
ghost use Rattle.fints_syntax.specs.Owned.{segment_of};
ghost use Rattle.fints_params.specs.Glancing.{is_read_whole, SpellsNumber, IsGlance};
ghost use Rattle.fints_params.specs.Orders.{kind_of_orders, order_in};

use crate::opening::is_sealed_view;
use crate::orders::kind_of;
use crate::rows::OrderParam;
use fints_syntax::{Item, Kind, SegmentView};

/// What a segment says.
pub enum Tells {
    Nothing,
    /// The row of a parameter segment.
    Order(OrderParam),
    /// It has to be read whole.
    More,
}

// Whether rows come of more items of the segment than a parameter segment's two numbers.
fn is_read_whole(segment: &SegmentView<'_>) -> bool
    ensures { result ≡ is_read_whole (segment_of segment.now) }
{
    segment.is_named(b"HIBPA", 3)
        || segment.is_named(b"HIPINS", 1)
        || segment.is_named(b"HIUPA", 4)
        || segment.is_named(b"HIUPD", 6)
        || is_sealed_view(segment)
}

// The number that an item spells.
#[inline(always)]
fn number_in(item: &Option<Item<'_>>) -> Option<u32>
    ensures { IfSome result (λ n. (es : List (List Spelled)) (element : ℕ)
        → ItemIs item.now (place_of es element 1) → SpellsNumber es element n) }
{
    item.as_ref()?.number()
}

// The row of a segment that says something of this kind of orders, where it has both numbers.
fn order_row(segment: &SegmentView<'_>, kind: Kind) -> Option<OrderParam>
    ensures { IfSome result (λ row. kind_of_orders (segment_of segment.now).head.id ≡ Some kind
        → order_in (segment_of segment.now) ≡ Some row) }
{
    let (second, third) = segment.first_items();
    let orders = number_in(&second)?;
    let signatures = number_in(&third)?;
    Some(OrderParam {
        kind,
        version: segment.version(),
        orders,
        signatures,
    })
}

/// What the segment says, if its kind shows it, or two numbers do.
pub fn glance(segment: &SegmentView<'_>) -> Tells
    ensures { IsGlance result (segment_of segment.now) }
{
    let id = segment.id();
    let Some(kind) = kind_of(id) else {
        return if is_read_whole(segment) {
            Tells::More
        } else {
            Tells::Nothing
        };
    };
    if id.is(b"HITANS") {
        return Tells::More;
    }
    match order_row(segment, kind) {
        Some(row) => Tells::Order(row),
        None => Tells::More,
    }
}
