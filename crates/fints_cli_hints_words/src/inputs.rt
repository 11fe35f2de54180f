//! The inputs of a command, which the hint of a refusal looks at.

/// The bytes of the files that a command has read; empty where it has no such file. And what was said while
/// they were read.
#[derive(Clone, Copy)]
pub struct Inputs<'a> {
    pub params: &'a [u8],
    pub orders: &'a [u8],
    pub script: &'a [u8],
    pub case: &'a [u8],
    pub certificate: &'a [u8],
    pub answer: &'a [u8],
    /// What was said of a message or a recording where it was read and refused.
    pub seen: Option<&'a str>,
}

impl Inputs<'_> {
    /// No files.
    pub fn none<'a>() -> Inputs<'a> {
        Inputs {
            params: b"",
            orders: b"",
            script: b"",
            case: b"",
            certificate: b"",
            answer: b"",
            seen: None,
        }
    }
}
