//! The values of items.
ghost use Rattle.std.specs.Prelude.{◌≡◌, ◌<◌, ◌≤◌, ℕ, List, IfSome, IfNone};
ghost use Rattle.fints_syntax.specs.ItemIs.{value_of_item};
ghost use Rattle.fints_syntax_segments.specs.declared.item.OwnedItem.TheVariants.{Bin as BinItem};
ghost use Rattle.fints_syntax.specs.Owned.{segment_of};
ghost use Rattle.fints_syntax_segments.specs.Values.{item_at, value_at};
ghost use Rattle.fints_syntax_segments.specs.Number.{number_in};

use fints_syntax::{Item, SegmentView};

// The number that `least` to `most` digits spell.
fn number_of_item(item: &Item<'_>, least: usize, most: usize) -> Option<u64>
    requires { most ≤ 18 }
    ensures { result ≡ number_in least most (value_of_item item.now) }
{
    let mut value = item.value();
    let mut number: u64 = 0;
    let mut count = 0;
    while let Some(byte) = value.next() {
        if count == most {
            return None;
        }
        if !byte.is_ascii_digit() {
            return None;
        }
        number = number * 10 + u64::from(byte - b'0');
        count += 1;
    }
    if count < least {
        return None;
    }
    Some(number)
}

/// The number in an item of an element, from element 2 on, of `least` to `most` digits.
pub fn number_at(
    view: &SegmentView<'_>,
    element: usize,
    item: usize,
    least: usize,
    most: usize,
) -> Option<u64>
    requires element { 1 < element }
    requires item { 0 < item }
    requires least { 0 < least }
    requires most { most ≤ 18 }
    ensures { result ≡ number_in least most (value_at (segment_of view.now) element item) }
{
    match view.item(element, item) {
        None => None,
        Some(item) => number_of_item(&item, least, most),
    }
}

/// The data of a binary item of an element, from element 2 on.
pub fn data_at<'a>(view: &SegmentView<'a>, element: usize, item: usize) -> Option<&'a [u8]>
    requires element { 1 < element }
    requires item { 0 < item }
    ensures some { IfSome result (λ d. item_at (segment_of view.now) element item ≡ BinItem d.now) }
    ensures none { IfNone result
        ((bytes : List ℕ) → item_at (segment_of view.now) element item ≡ BinItem bytes → ⊥) }
{
    match view.item(element, item) {
        None => None,
        Some(found) => match found {
            Item::Text(_) => None,
            Item::Bin(data) => Some(data),
        },
    }
}
