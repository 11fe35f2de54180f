//! What the program reads and writes, as traits, so that a proof and a test can hand in their own.
ghost use Rattle.std.specs.Prelude.{◌≡◌, ℕ, List, Option, length, if◌then◌else◌};
ghost use Rattle.fints_cli_files.specs.Streams.{ReadCounts, is_failed_read, is_failed_write, one_more, ReadsFrom, TakesPiece};

use thiserror::Error;

/// Why a file could not be read.
#[derive(Clone, Copy, Debug, PartialEq, Eq, Error)]
pub enum ReadFault {
    #[error("there is no such file")]
    NotFound,
    #[error("it is a directory")]
    Directory,
    #[error("permission is denied")]
    Denied,
    #[error("it couldn't be read")]
    Failed,
}

/// The output failed.
#[derive(Clone, Copy, Debug, PartialEq, Eq, Error)]
#[error("the output failed")]
pub struct WriteFault;

/// Files by their paths.
pub trait Files {
    // How many reads were asked for, and how many of them failed: those that answered a fault, or
    // more bytes than the buffer has.
    ghost reads: { Self → ReadCounts };

    // The bytes of the file at a path, where the files say them.
    ghost holds: { Self → List ℕ → Option (List ℕ) };

    /// Reads bytes of the file from `at` on into the front of `buffer`, and answers how many. No
    /// byte is the file's end.
    fn read(&mut self, path: &str, at: u64, buffer: &mut [u8]) -> Result<usize, ReadFault>
        ensures counted { (reads self.new).calls ≡ one_more (reads self.old).calls }
        ensures failed { (reads self.new).failed ≡ (if is_failed_read (length buffer.new) result
            then one_more (reads self.old).failed else (reads self.old).failed) }
        ensures keeps { holds self.new ≡ holds self.old }
        ensures honest { ReadsFrom (holds self.old path.now) at buffer.new result };
}

/// A stream that takes bytes.
pub trait Out {
    // The bytes that the stream got, where it says them.
    ghost written: { Self → Option (List ℕ) };

    // How many of its calls failed: those that answered a fault, no byte of a piece that is not
    // empty, or more bytes than the piece has. It is counted up to the greatest `u64`.
    ghost failed_calls: { Self → ℕ };

    /// Takes bytes of the front of `bytes`, and answers how many.
    fn write(&mut self, bytes: &[u8]) -> Result<usize, WriteFault>
        ensures counted { failed_calls self.new ≡ (if is_failed_write (length bytes.now) result
            then one_more (failed_calls self.old) else failed_calls self.old) }
        ensures takes { TakesPiece (written self.old) (written self.new) bytes.now result };
}
