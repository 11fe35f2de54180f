//! The identifiers of segments, a segment by its values, and its written text.
#![tactic(auto)]

mod bytes;
mod element;
mod fault;
mod flat;
mod frames;
mod item;
mod kind;
mod limits;
mod text;
mod writing;

pub use bytes::Bytes;
pub use element::{ElementRef, ItemRef};
pub use fault::Memory;
pub use flat::{Filling, Valued};
pub use frames::{
    HNHBK_NUMBER, HNHBK_VERSION, HNHBS_VERSION, HNSHA_VERSION, HNSHK_VERSION, HNVSD_NUMBER,
    HNVSD_VERSION, HNVSK_NUMBER, HNVSK_VERSION,
};
pub use item::{Elements, Head, OwnedItem, OwnedSegment};
pub use kind::{Kind, is_frame_kind};
pub use limits::{MAX_BYTES, MAX_ITEMS};
pub use text::FaultText;
pub use writing::{decimal_len, write_item, write_segment, written_binary_len, written_len};
