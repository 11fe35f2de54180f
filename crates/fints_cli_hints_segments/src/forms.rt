//! Inputs that are no segments as a whole: what was stored in place of them.

// HNH, the first letters of each message, in base64.
const BASE64: &[u8] = b"SE5I";

/// What the bytes are as a whole, where that is no list of segments.
pub fn form_text(bytes: &[u8]) -> Option<&'static str> {
    match bytes {
        [] => Some("the file is empty"),
        [0xef, 0xbb, 0xbf, ..] => Some(
            "the bytes begin with a byte order mark (ef bb bf), which an editor has put there: remove it, and store the file as ISO 8859-1",
        ),
        [0xff, 0xfe, ..] | [0xfe, 0xff, ..] => {
            Some("the bytes are UTF-16: store the file as ISO 8859-1")
        }
        _ if bytes.starts_with(BASE64) => Some(
            "the bytes are still base64, in which a message is sent: decode them, as by base64 -di",
        ),
        _ => None,
    }
}
