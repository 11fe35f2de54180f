//! Messages one after another, cut by their sizes.
ghost use Rattle.std.specs.Prelude.{◌≡◌, ◌+◌, ◌<◌, ◌^◌, length, take, drop, IfOk};
ghost use Rattle.fints_cli_verdicts.specs.Pieces.{pieces};

use fints_syntax::Memory;
use std::alloc::Global;
use std::marker::Model;

/// A message among others: its bytes, and the offset at which it begins. A contract sees both.
#[derive(Drop)]
pub struct Piece<'a> {
    start: usize,
    bytes: &'a [u8],
}

impl<'a> Model for Piece<'a> {
    ghost use Rattle.std.specs.Prelude.{◌+◌, ◌<◌, ◌^◌, length};
    ghost use Rattle.fints_cli_verdicts.specs.Pieces.{PieceValue};

    ghost Value = { PieceValue };

    ghost view = { λ p. record { start = p.start; bytes = p.bytes.now } };

    ghost invariant = { λ p. p.start + length p.bytes.now < 2 ^ 64 };
}

// The bytes up to a size, or all of them where there are fewer, and the others.
fn split(bytes: &[u8], size: usize) -> (&[u8], &[u8])
    ensures front { result.0.now ≡ take size bytes.now }
    ensures back { result.1.now ≡ drop size bytes.now }
{
    if bytes.len() < size {
        return (bytes, &[]);
    }
    bytes.split_at(size)
}

impl<'a> Piece<'a> {
    // All bytes.
    fn whole(bytes: &'a [u8]) -> Piece<'a>
        ensures { result ≡ record { start = 0; bytes = bytes.now } }
    {
        Piece { start: 0, bytes }
    }

    // Its front of this size; what is after that is left.
    fn take(&mut self, size: usize) -> Piece<'a>
        ensures front { result ≡ record { start = self.old.start; bytes = take size self.old.bytes } }
        ensures rest { self.new ≡ record {
          start = self.old.start + length (take size self.old.bytes);
          bytes = drop size self.old.bytes;
        } }
    {
        let (bytes, rest) = split(self.bytes, size);
        let front = Piece {
            start: self.start,
            bytes,
        };
        *self = Piece {
            start: self.start + bytes.len(),
            bytes: rest,
        };
        front
    }

    /// The offset at which it begins.
    pub fn start(&self) -> usize
        ensures { result ≡ self.now.start }
    {
        self.start
    }

    /// Its bytes.
    pub fn bytes(&self) -> &'a [u8]
        ensures bytes { result.now ≡ self.now.bytes }
        ensures below { self.now.start + length result.now < 2 ^ 64 }
    {
        self.bytes
    }
}

/// The messages in bytes, by their sizes; what is left after the last size is one more.
pub fn pieces_of<'a>(
    alloc: Global,
    bytes: &'a [u8],
    sizes: &[usize],
) -> Result<Vec<Piece<'a>>, Memory>
    ensures { IfOk result (λ found. found.items ≡ pieces sizes.now bytes.now) }
{
    let mut found = Vec::new(alloc);
    let mut rest = Piece::whole(bytes);
    for size in sizes {
        found.push(rest.take(*size))?;
    }
    if !rest.bytes.is_empty() {
        found.push(rest)?;
    }
    Ok(found)
}
