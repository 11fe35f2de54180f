//! Why a message has no TAN.
use crate::lines::Called;
use fints_script::{Name, Signer, Step, TemplateItem};
use std::fmt;
use std::fmt::{Display, Formatter, Write};

/// Why no HNSHA of a message is sure to have a TAN.
#[derive(Clone, Copy)]
pub enum NoTan<'a> {
    NoSigner,
    /// The TAN of this signer is a field that may be empty.
    MayBeEmpty(&'a Name),
    /// This signer has no TAN, and no other has a field for one.
    Without(&'a Name),
    /// No HNSHA of a message that is there has one.
    NoneThere,
}

impl Display for NoTan<'_> {
    fn fmt<W: Write>(&self, f: &mut Formatter<W>) -> fmt::Result {
        match self {
            NoTan::NoSigner => f.write_str("the step has no signer"),
            NoTan::MayBeEmpty(name) => {
                let name = Called(name);
                write!(f, "the TAN of signer {name} may be empty")
            }
            NoTan::Without(name) => {
                let name = Called(name);
                write!(f, "signer {name} has no TAN")
            }
            NoTan::NoneThere => f.write_str("no HNSHA has a TAN"),
        }
    }
}

// Whether the TAN of a signer, item 2 of the third element of its end, is a field.
fn has_tan_field(signer: &Signer) -> bool {
    match signer.end.as_slice() {
        [_, _, third, ..] => matches!(third.as_slice(), [_, TemplateItem::Field(_), ..]),
        _ => false,
    }
}

/// Why no HNSHA of the step is sure to have a TAN: a signer with a field for it is named before others.
pub fn no_tan<'a>(signers: &'a [Signer], step: &Step) -> NoTan<'a> {
    let mut why = NoTan::NoSigner;
    for place in step.signers() {
        let Some(signer) = signers.get(*place) else {
            continue;
        };
        if has_tan_field(signer) {
            return NoTan::MayBeEmpty(&signer.name);
        }
        if matches!(why, NoTan::NoSigner) {
            why = NoTan::Without(&signer.name);
        }
    }
    why
}
