//! The forms in which a file holds a message.

/// How a file holds the bytes of a message.
#[derive(Clone, Copy, Debug, PartialEq, Eq)]
pub enum Form {
    /// As they were sent.
    Raw,
    /// As characters U+0000 to U+00FF in UTF-8, each of them a byte of ISO 8859-1.
    Utf8,
    /// In base64 (RFC 4648, section 4), as logs break it into lines and as JSON escapes it.
    Base64,
}
