//! Why a segment breaks a rule, in words.
use crate::accounts::{account_named, least_need, locked_by};
use crate::bank::Bank;
use crate::elements::Elements;
use crate::tans::NoTan;
use fints_cli_hints_captured::{Further, MOST_SHOWN};
use fints_rules::kinds::own_version;
use fints_rules::{Cause, Permissions, Rule, SegmentFacts, segment_cause};
use fints_syntax::Kind;
use std::fmt;
use std::fmt::{Display, Formatter, Write};

/// A segment as the rules see it, and what can be said of the TANs of its message.
#[derive(Clone, Copy)]
pub struct Seen<'a> {
    pub kind: Kind,
    pub version: u16,
    pub elements: Elements<'a>,
    /// How many segments of the message have its kind.
    pub count: usize,
    pub signatures: usize,
    /// How many orders of the message are listed with J.
    pub demanding: usize,
    /// Why the message has no TAN.
    pub no_tan: NoTan<'a>,
}

impl Seen<'_> {
    /// Why it breaks the rule; none where no message with this many signatures has it do so.
    pub fn cause(&self, permissions: &Permissions<'_>, rule: Rule) -> Option<Cause> {
        let items = self.elements.items(2);
        let facts = SegmentFacts::new(self.kind, self.version, items, self.count);
        segment_cause(permissions, rule, &facts, self.signatures)
    }
}

/// A kind.
#[derive(Clone, Copy)]
pub struct KindName(pub Kind);

impl Display for KindName {
    fn fmt<W: Write>(&self, f: &mut Formatter<W>) -> fmt::Result {
        f.write_str(std::str::from_utf8(self.0.as_bytes()).unwrap_or(""))
    }
}

// The parameter segment of an order: HIKAZS of HKKAZ.
#[derive(Clone, Copy)]
struct ParamsOf(Kind);

impl Display for ParamsOf {
    fn fmt<W: Write>(&self, f: &mut Formatter<W>) -> fmt::Result {
        let kind = std::str::from_utf8(self.0.as_bytes()).unwrap_or("");
        match (kind.strip_prefix("HK"), kind.strip_prefix("DK")) {
            (Some(rest), _) => write!(f, "HI{rest}S"),
            (None, Some(rest)) => write!(f, "DI{rest}S"),
            (None, None) => write!(f, "parameters of {kind}"),
        }
    }
}

// The identifier of the parameter segment of an order.
fn params_of(order: Kind) -> Option<Kind> {
    match order.as_bytes() {
        [first, b'K', x, y, z] => Kind::parse(&[*first, b'I', *x, *y, *z, b'S']),
        _ => None,
    }
}

// Versions of an order, with a comma between.
#[derive(Clone, Copy)]
struct Versions<'a>(&'a [(Kind, u16)]);

impl Display for Versions<'_> {
    fn fmt<W: Write>(&self, f: &mut Formatter<W>) -> fmt::Result {
        for (i, (_, version)) in self.0.iter().take(MOST_SHOWN).enumerate() {
            let comma = if i == 0 { "" } else { ", " };
            write!(f, "{comma}{version}")?;
        }
        let further = Further(self.0.len());
        write!(f, "{further}")
    }
}

// How many signatures a message has.
#[derive(Clone, Copy)]
struct Signatures(usize);

impl Display for Signatures {
    fn fmt<W: Write>(&self, f: &mut Formatter<W>) -> fmt::Result {
        match self.0 {
            0 => f.write_str("no signature"),
            1 => f.write_str("1 signature"),
            count => write!(f, "{count} signatures"),
        }
    }
}

/// Why a segment breaks a rule, by this cause.
#[derive(Clone, Copy)]
pub struct SegmentWhy<'a> {
    pub bank: &'a Bank<'a>,
    pub seen: &'a Seen<'a>,
    pub cause: Cause,
}

impl SegmentWhy<'_> {
    // What more signatures come from.
    fn signing(&self) -> &'static str {
        if self.seen.elements.are_filled() {
            "signers"
        } else {
            "signatures"
        }
    }

    fn no_parameters<W: Write>(&self, f: &mut Formatter<W>) -> fmt::Result {
        let (kind, params) = (KindName(self.seen.kind), ParamsOf(self.seen.kind));
        if params_of(self.seen.kind).is_some_and(|id| self.bank.skips(id)) {
            return write!(
                f,
                "{params} of the capture can't be read, as show --hints says: fix it, or remove {kind}"
            );
        }
        write!(
            f,
            "the capture has no {params}: remove {kind}, which the bank doesn't offer, or take a whole capture"
        )
    }

    fn other_version<W: Write>(&self, f: &mut Formatter<W>) -> fmt::Result {
        let (kind, params) = (KindName(self.seen.kind), ParamsOf(self.seen.kind));
        let version = self.seen.version;
        let versions = Versions(self.bank.versions(self.seen.kind));
        if params_of(self.seen.kind).is_some_and(|id| self.bank.skips_version(id, version)) {
            return write!(
                f,
                "the bank takes {kind} in version {versions} ({params}), and {params} {version} of the capture can't be read, as show --hints says: fix it, or send one of these versions"
            );
        }
        write!(
            f,
            "the bank takes {kind} in version {versions} ({params}), and not in {version}: send one of these versions"
        )
    }

    fn parameters<W: Write>(&self, f: &mut Formatter<W>) -> fmt::Result {
        if self.bank.versions(self.seen.kind).is_empty() {
            self.no_parameters(f)
        } else {
            self.other_version(f)
        }
    }

    fn too_many<W: Write>(&self, f: &mut Formatter<W>) -> fmt::Result {
        let (kind, params) = (KindName(self.seen.kind), ParamsOf(self.seen.kind));
        let (count, version) = (self.seen.count, self.seen.version);
        let most = match self.bank.permissions.limits(self.seen.kind, version) {
            Some(limits) => limits.orders,
            None => 0,
        };
        write!(
            f,
            "the message has {count} orders {kind}, and the bank takes {most} ({params} {version}, element 2): send the others in messages of their own"
        )
    }

    fn order_needs<W: Write>(&self, f: &mut Formatter<W>) -> fmt::Result {
        let (params, signing) = (ParamsOf(self.seen.kind), self.signing());
        let (signatures, version) = (Signatures(self.seen.signatures), self.seen.version);
        let need = match self.bank.permissions.limits(self.seen.kind, version) {
            Some(limits) => limits.signatures,
            None => 0,
        };
        write!(
            f,
            "the message has {signatures}, and the bank wants {need} ({params} {version}, element 3): add {signing}"
        )
    }

    fn account_needs<W: Write>(&self, f: &mut Formatter<W>) -> fmt::Result {
        let (kind, signatures) = (KindName(self.seen.kind), Signatures(self.seen.signatures));
        let account = account_named(self.bank, self.seen);
        let (need, signing) = (least_need(self.bank, self.seen), self.signing());
        write!(
            f,
            "the message has {signatures}, and {account} wants {need} for {kind} (HIUPD): add {signing}, or name another account"
        )
    }

    fn own_version<W: Write>(&self, f: &mut Formatter<W>) -> fmt::Result {
        let kind = KindName(self.seen.kind);
        let version = self.seen.version;
        let own = own_version(self.seen.kind).unwrap_or(0);
        write!(
            f,
            "{kind} has version {own}, and not {version}: write version {own}"
        )
    }

    fn no_row<W: Write>(&self, f: &mut Formatter<W>) -> fmt::Result {
        let kind = KindName(self.seen.kind);
        let version = self.seen.version;
        if self
            .bank
            .permissions
            .limits(self.seen.kind, version)
            .is_none()
        {
            return write!(
                f,
                "the order table has no row for {kind} {version}, which the bank doesn't take (P5): fix that first"
            );
        }
        write!(
            f,
            "the order table has no row for {kind} {version}: add {{kind = \"{kind}\", version = {version}, account = ..}}"
        )
    }

    fn unlisted<W: Write>(&self, f: &mut Formatter<W>) -> fmt::Result {
        let kind = KindName(self.seen.kind);
        write!(
            f,
            "HIPINS doesn't list {kind}: remove it, since the bank doesn't take it with PIN and TAN, or take a whole capture"
        )
    }

    fn no_tan<W: Write>(&self, f: &mut Formatter<W>) -> fmt::Result {
        let kind = KindName(self.seen.kind);
        let no_tan = self.seen.no_tan;
        let advice = match no_tan {
            NoTan::MayBeEmpty(_) =>
                "add an HKTAN, or keep the TAN's field from being empty (min = 1)",
            _ => "add one of the two",
        };
        write!(
            f,
            "HIPINS demands a TAN for {kind} ({kind}:J), no HKTAN of process 4 is there, and {no_tan}: {advice}"
        )
    }

    fn no_tan_sent<W: Write>(&self, f: &mut Formatter<W>) -> fmt::Result {
        let no_tan = self.seen.no_tan;
        let advice = match no_tan {
            NoTan::NoSigner => "add a signer with a TAN",
            NoTan::MayBeEmpty(_) => "keep the TAN's field from being empty (min = 1)",
            NoTan::Without(_) => "write the TAN into the third entry of its end, after the PIN",
            NoTan::NoneThere => "write it into element 4, item 2",
        };
        write!(
            f,
            "the HKTAN of process 2 sends a TAN, and {no_tan}: {advice}"
        )
    }

    fn several_orders<W: Write>(&self, f: &mut Formatter<W>) -> fmt::Result {
        let (version, demanding) = (self.seen.version, self.seen.demanding);
        write!(
            f,
            "the message has {demanding} orders that demand a TAN, and HITANS {version} takes one at a time (element 5, item 2 is N): send each in a message of its own, with an HKTAN"
        )
    }

    fn one_step<W: Write>(&self, f: &mut Formatter<W>) -> fmt::Result {
        let kind = KindName(self.seen.kind);
        let read = if Kind::parse(b"HITANS").is_some_and(|id| self.bank.skips(id)) {
            " that can be read"
        } else {
            ""
        };
        write!(
            f,
            "a TAN goes with {kind} in one step, and no HITANS{read} takes that (element 5, item 1 is N): submit it by an HKTAN of process 4"
        )
    }
}

impl Display for SegmentWhy<'_> {
    fn fmt<W: Write>(&self, f: &mut Formatter<W>) -> fmt::Result {
        match self.cause {
            Cause::OtherVersion => self.own_version(f),
            Cause::NoParameters => self.parameters(f),
            Cause::TooManyOrders => self.too_many(f),
            Cause::Unlisted => self.unlisted(f),
            Cause::OrderNeedsMore => self.order_needs(f),
            Cause::AccountNeedsMore => self.account_needs(f),
            Cause::NoOrderRow => self.no_row(f),
            Cause::AccountLocked => locked_by(self.bank, self.seen).fmt(f),
            Cause::NoTan => self.no_tan(f),
            Cause::NoTanSent => self.no_tan_sent(f),
            Cause::OneOrderAtATime => self.several_orders(f),
            Cause::NoOneStep => self.one_step(f),
        }
    }
}
