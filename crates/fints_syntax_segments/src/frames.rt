//! The segments that frame a message: their versions, and the segment numbers that are fixed
//! (FinTS 3.0, Formals, the message's frame; Security, the segments of a signed and sealed message).

/// HNHBK, the first segment.
pub const HNHBK_VERSION: u16 = 3;

pub const HNHBK_NUMBER: u16 = 1;

/// HNHBS, the last segment.
pub const HNHBS_VERSION: u16 = 1;

/// HNVSK, before the sealed data.
pub const HNVSK_VERSION: u16 = 3;

pub const HNVSK_NUMBER: u16 = 998;

/// HNVSD, the sealed data.
pub const HNVSD_VERSION: u16 = 1;

pub const HNVSD_NUMBER: u16 = 999;

/// HNSHK, which opens a signature.
pub const HNSHK_VERSION: u16 = 4;

/// HNSHA, which ends a signature.
pub const HNSHA_VERSION: u16 = 2;
