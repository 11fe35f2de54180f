//! The causes of the rules of a segment, P5 to P10 and P12.
ghost use Rattle.std.specs.Prelude.{◌≡◌, ◌↔◌, IfSome, IsSome, IsTrue};
ghost use Rattle.fints_rules.specs.Causes.{barest, cause_rule, IsCauseOf, MayBreak};

use crate::facts::{MessageFacts, SegmentFacts};
use crate::rule::Rule;
use crate::segments::segment_breaks;
use fints_rules_permissions::Permissions;
use fints_rules_permissions::kinds::{is_tan_order, own_version};

/// Why a segment breaks a rule.
#[derive(Clone, Copy, PartialEq, Eq)]
pub enum Cause {
    /// P5: an administrative segment has another version than its own.
    OtherVersion,
    /// P5: the capture has no parameter row of the order's kind and version.
    NoParameters,
    /// P6: a row of the kind and version has a limit, and more orders of the kind are there.
    TooManyOrders,
    /// P7: HIPINS doesn't list the order.
    Unlisted,
    /// P8: a row of the kind and version needs more signatures.
    OrderNeedsMore,
    /// P8: each entry of the order in the rows of its account needs more signatures.
    AccountNeedsMore,
    /// P9: the order table has no row of the kind and version.
    NoOrderRow,
    /// P9: no row of the order's account lists it, and what isn't listed is locked.
    AccountLocked,
    /// P10: the order is listed with J, and no TAN is carried.
    NoTan,
    /// P10: an HKTAN of process 2 sends a TAN, and no HNSHA has one.
    NoTanSent,
    /// P12: an HKTAN submits one of several orders, where its version takes one.
    OneOrderAtATime,
    /// P12: a TAN goes with its order, where none may.
    NoOneStep,
}

// The facts of a message with this many signatures, with a TAN or without one, that submits no order. Two of
// its orders demand a TAN.
fn barest(signatures: usize, has_tan: bool) -> MessageFacts
    ensures { result ≡ barest signatures has_tan }
{
    MessageFacts {
        protocol: None,
        kinds: 0,
        signatures,
        submits: false,
        sends: false,
        ends: false,
        has_tan,
        has_tan_order: false,
        demanding: 2,
    }
}

// Whether in some message with this many signatures the segment breaks the rule: if it does in any, it does
// in one of the barest.
fn may_break(
    permissions: &Permissions<'_>,
    rule: Rule,
    segment: &SegmentFacts<'_>,
    signatures: usize,
) -> bool
    ensures { IsTrue result ↔ MayBreak permissions.now rule segment.now signatures }
{
    segment_breaks(permissions, &barest(signatures, false), rule, segment)
        || segment_breaks(permissions, &barest(signatures, true), rule, segment)
}

/// Why the segment breaks the rule, wherever it does so in a message with this many signatures; some
/// exactly where it does in one of them. It takes no memory.
pub fn segment_cause(
    permissions: &Permissions<'_>,
    rule: Rule,
    segment: &SegmentFacts<'_>,
    signatures: usize,
) -> Option<Cause>
    ensures some { IsSome result ↔ MayBreak permissions.now rule segment.now signatures }
    ensures rule { IfSome result (λ cause. cause_rule cause ≡ rule) }
    ensures cause { IfSome result (IsCauseOf permissions.now rule segment.now signatures) }
{
    if !may_break(permissions, rule, segment, signatures) {
        return None;
    }
    let (kind, version) = (segment.kind(), segment.version());
    match rule {
        Rule::Version if own_version(kind).is_some() => Some(Cause::OtherVersion),
        Rule::Version => Some(Cause::NoParameters),
        Rule::Orders => Some(Cause::TooManyOrders),
        Rule::Listed => Some(Cause::Unlisted),
        Rule::Signatures if permissions.needs_more(kind, version, signatures) => {
            Some(Cause::OrderNeedsMore)
        }
        Rule::Signatures => Some(Cause::AccountNeedsMore),
        Rule::Account if permissions.form(kind, version).is_none() => Some(Cause::NoOrderRow),
        Rule::Account => Some(Cause::AccountLocked),
        Rule::Tan if is_tan_order(kind) => Some(Cause::NoTanSent),
        Rule::Tan => Some(Cause::NoTan),
        Rule::Procedure if is_tan_order(kind) => Some(Cause::OneOrderAtATime),
        Rule::Procedure => Some(Cause::NoOneStep),
        Rule::Protocol | Rule::Number | Rule::Size | Rule::Kinds | Rule::Release => None,
    }
}
