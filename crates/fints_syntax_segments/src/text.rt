//! What a fault says: a text that takes no memory.
ghost use Rattle.std.specs.Prelude.{◌≡◌, ◌≤◌, ◌+◌, ◌++◌, [], Some, length};
ghost use Rattle.std.specs.Fmt.{decimal};

use arrayvec::ArrayString;
use itoa::Buffer;
use std::fmt;
use std::marker::Model;

const ROOM: usize = 128;

/// What a fault says, in 128 bytes at most. The message that `thiserror` derives has no contract, so
/// it shows this text, which has one.
#[derive(Drop)]
pub struct FaultText {
    text: ArrayString<ROOM>,
}

impl Model for FaultText {
    ghost use Rattle.std.specs.Prelude.{ℕ, List};

    ghost Value = { List ℕ };

    ghost view = { λ t. t.text.bytes };
}

impl FaultText {
    /// The text.
    pub fn new(text: &str) -> FaultText
        ensures text { length text.now ≤ 128 → result ≡ text.now }
        ensures short { length result ≤ length text.now }
    {
        FaultText {
            text: ArrayString::new(),
        }
        .and(text)
    }

    /// The text, and then another; one that doesn't fit is left out.
    pub fn and(mut self, text: &str) -> FaultText
        ensures text { length self + length text.now ≤ 128 → result ≡ self ++ text.now }
        ensures short { length result ≤ length self + length text.now }
    {
        let _ = self.text.try_push_str(text);
        self
    }

    /// The text, and then the digits of a number, which are 20 at most.
    pub fn number(self, n: u64) -> FaultText
        ensures number { length self + 20 ≤ 128 → result ≡ self ++ decimal n }
        ensures short { length result ≤ length self + 20 }
    {
        let mut buffer = Buffer::new();
        self.and(buffer.format(n))
    }

    /// Two texts, each with the digits of a number after it.
    pub fn numbered(first: &str, number: u64, second: &str, other: u64) -> FaultText
        ensures text { length first.now + length second.now ≤ 88
            → result ≡ first.now ++ (decimal number ++ (second.now ++ decimal other)) }
        ensures short { length result ≤ length first.now + length second.now + 40 }
    {
        FaultText::new(first)
            .number(number)
            .and(second)
            .number(other)
    }

    pub fn as_bytes(&self) -> &[u8]
        ensures { result.now ≡ self.now }
    {
        self.text.as_bytes()
    }

    pub fn as_str(&self) -> &str
        ensures { result.now ≡ self.now }
    {
        self.text.as_str()
    }
}

impl fmt::Display for FaultText {
    ghost output = { λ text. Some text };

    fn fmt<W: fmt::Write>(&self, f: &mut fmt::Formatter<W>) -> fmt::Result {
        f.write_str(self.as_str())
    }
}
