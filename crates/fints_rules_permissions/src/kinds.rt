//! Administrative segments, orders, and HKTAN.
ghost use Rattle.std.specs.Prelude.{◌≡◌};
ghost use Rattle.fints_rules_permissions.specs.Kinds.{own_version, is_order, is_tan_order, is_plain_order, is_table_kind};

use fints_syntax::Kind;

/// The version that an administrative segment has; every other kind is an order's.
pub fn own_version(kind: Kind) -> Option<u16>
    ensures { result ≡ own_version kind }
{
    if kind.is(b"HKIDN") {
        Some(2)
    } else if kind.is(b"HKVVB") {
        Some(3)
    } else if kind.is(b"HKSYN") {
        Some(3)
    } else if kind.is(b"HKEND") {
        Some(1)
    } else {
        None
    }
}

/// Whether it is the kind of an order.
pub fn is_order(kind: Kind) -> bool
    ensures { result ≡ is_order kind }
{
    own_version(kind).is_none()
}

/// Whether it is HKTAN.
pub fn is_tan_order(kind: Kind) -> bool
    ensures { result ≡ is_tan_order kind }
{
    kind.is(b"HKTAN")
}

/// Whether it is the kind of an order other than HKTAN.
pub fn is_plain_order(kind: Kind) -> bool
    ensures { result ≡ is_plain_order kind }
{
    is_order(kind) && !is_tan_order(kind)
}

/// Whether an order table may have a row of this kind.
pub fn is_table_kind(kind: Kind) -> bool
    ensures { result ≡ is_table_kind kind }
{
    let text = kind.as_bytes();
    text.len() == 5 && (text.starts_with(b"HK") || text.starts_with(b"DK")) && is_plain_order(kind)
}
