//! Which part of a message is missing where bytes cease to be one.
use crate::front::Inner;

/// The part of a message that is missing there. Hints are made of it; no contract says which it is.
#[derive(Drop)]
pub enum Slip<'a> {
    /// HNHBK, with which a message begins.
    First,
    /// HNVSD with data, after HNVSK.
    Envelope,
    /// What goes on with these inner segments in the data of HNVSD.
    Inside { data: &'a [u8], inner: Inner<'a> },
    /// What goes on with these inner segments, or HNHBS with the number of the message.
    Next { inner: Inner<'a>, number: u64 },
    /// The end of the bytes, after HNHBS.
    End,
}

/// Where bytes cease to be a message, and which part of one is missing there.
#[derive(Drop)]
pub struct Unread<'a> {
    /// That of the first outer segment that isn't read or is not in its place, or the end of the last one
    /// that is; from 0.
    pub offset: usize,
    pub slip: Slip<'a>,
}
