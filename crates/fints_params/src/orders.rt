//! Parameter segments: what a bank allows of a kind of orders.
ghost use Rattle.std.specs.Prelude.{◌≡◌};
ghost use Rattle.fints_params.specs.Orders.{kind_of_orders, order_of};

use crate::rows::OrderParam;
use fints_syntax::{Kind, OwnedSegment, parse_number};

/// The kind of the orders that the identifier speaks of.
pub fn kind_of(id: Kind) -> Option<Kind>
    ensures { result ≡ kind_of_orders id }
{
    match id.as_bytes() {
        [first, middle, x, y, z, last] => {
            if *first != b'H' && *first != b'D' {
                return None;
            }
            if *middle != b'I' || *last != b'S' {
                return None;
            }
            if id.as_bytes() == b"HIPINS".as_slice() {
                return None;
            }
            Kind::parse(&[*first, b'K', *x, *y, *z])
        }
        _ => None,
    }
}

/// What a parameter segment says of the kind of orders, if it has both numbers.
pub fn read_order(segment: &OwnedSegment, kind: Kind) -> Option<OrderParam>
    ensures { result ≡ order_of segment.now kind }
{
    let orders = parse_number(segment.value(2, 1))?;
    let signatures = parse_number(segment.value(3, 1))?;
    Some(OrderParam {
        kind,
        version: segment.head.version,
        orders,
        signatures,
    })
}
