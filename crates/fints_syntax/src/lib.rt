//! The segment syntax: items, elements and segments, read, whole and in pieces. It passes on what
//! writes them.
#![tactic(auto)]

mod buffer;
mod capture;
mod cursor;
mod element;
mod fault;
mod feeder;
mod head;
pub mod laws;
mod locate;
mod owning;
mod scan;
mod stream;
mod taken;
mod text;
mod view;
mod window;

pub use buffer::StreamBuffer;
pub use capture::{MAX_CAPTURE, Placed, parse_all, parse_placed};
pub use element::ElementItems;
pub use fault::{SyntaxFault, SyntaxKind};
pub use feeder::Feeder;
pub use fints_syntax_segments::{
    Bytes, ElementRef, Elements, FaultText, HNHBK_NUMBER, HNHBK_VERSION, HNHBS_VERSION,
    HNSHA_VERSION, HNSHK_VERSION, HNVSD_NUMBER, HNVSD_VERSION, HNVSK_NUMBER, HNVSK_VERSION, Head,
    ItemRef, Kind, Memory, OwnedItem, OwnedSegment, decimal_len, is_frame_kind, write_item,
    write_segment, written_binary_len, written_len,
};
pub use scan::parse_number;
pub use stream::{Begun, ReadTo, Taker, data_place, read_piece};
pub use text::{Item, RawText, Unescaped};
pub use view::{SegmentView, owned_segments, parse_on, parse_segment};
pub use window::Search;
