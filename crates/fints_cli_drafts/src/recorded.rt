//! The segments of a recorded message that a draft is made of.
use fints_rules_messages::Message;
use fints_syntax::{Kind, Memory, OwnedSegment, owned_segments};
use std::alloc::Global;

/// A recorded message of the client: copies of its segments but HNVSD and HNHBS.
#[derive(Drop)]
pub struct Recorded {
    first: OwnedSegment,
    seal: Option<OwnedSegment>,
    openers: Vec<OwnedSegment>,
    /// The segments of the body, in order.
    pub body: Vec<OwnedSegment>,
    ends: Vec<OwnedSegment>,
}

impl Recorded {
    /// What a draft takes of a message.
    pub fn of(alloc: Global, message: &Message<'_>) -> Result<Recorded, Memory> {
        let seal = match message.seal() {
            Some(seal) => Some(seal.head.to_owned(alloc)?),
            None => None,
        };
        Ok(Recorded {
            first: message.first().to_owned(alloc)?,
            seal,
            openers: owned_segments(alloc, message.openers())?,
            body: owned_segments(alloc, message.body())?,
            ends: owned_segments(alloc, message.ends())?,
        })
    }

    /// The id of the dialogue: element 4 of HNHBK.
    pub fn dialogue_id(&self) -> &[u8] {
        self.first.value(4, 1)
    }

    /// HNVSK, if the message is sealed.
    pub fn seal(&self) -> Option<&OwnedSegment> {
        self.seal.as_ref()
    }

    /// The HNSHK and the HNSHA of a signature, which counts from 1.
    pub fn signature(&self, signature: usize) -> Option<(&OwnedSegment, &OwnedSegment)> {
        let place = signature.checked_sub(1)?;
        self.openers.get(place).zip(self.ends.get(place))
    }

    /// The signature that an HNSHA belongs to, from 1: that of its own place, where the HNSHK there has the same
    /// control reference, else the first whose HNSHK has it, if there is one.
    pub fn signature_of(&self, place: usize, end: &OwnedSegment) -> usize {
        let reference = end.value(2, 1);
        let has = |opener: &OwnedSegment| opener.value(4, 1) == reference;
        match self.signature(place) {
            Some((opener, _)) if has(opener) => place,
            _ => self.openers.iter().position(has).map_or(place, |at| at + 1),
        }
    }

    /// The control reference in the HNSHK of a signature; empty where there is none.
    pub fn reference(&self, signature: usize) -> &[u8] {
        match self.signature(signature) {
            Some((opener, _)) => opener.value(4, 1),
            None => &[],
        }
    }

    /// The kind by which a message is known: that of its first order other than HKTAN, or else HKTAN.
    pub fn kind(&self) -> Option<Kind> {
        let other = self.body.iter().find(|own| !own.head.id.is(b"HKTAN"));
        let segment = other.or(self.body.first())?;
        Some(segment.head.id)
    }
}
