//! What a command answers.

/// The text that a command puts on the output, with its status.
#[derive(Debug, Drop)]
pub struct Reply {
    pub status: u8,
    pub text: Vec<u8>,
}
