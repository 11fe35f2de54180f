//! Reading a whole file, within a limit.
ghost use Rattle.fints_cli_files.specs.Streams.{IsFile};
ghost use Rattle.fints_cli_files.specs.Loading.{IsLoadFault, IsTakenFrom, MAX_READS, NoneFailed};
ghost use Rattle.std.specs.Prelude.{◌≡◌, ◌≤◌, ◌+◌, ◌-◌, ◌^◌, ◌++◌, [], ℕ, List, min, IfOk, IfErr, OnOk, vec_len};

use crate::streams::{Files, ReadFault};
use fints_syntax::Memory;
use std::alloc::Global;
use thiserror::Error;

/// A file is read with at most this many calls.
pub const MAX_CALLS: u32 = 5_000_000;

// A file is read in pieces of this size.
const PIECE: usize = 4096;

/// Why a file was not loaded.
#[derive(Clone, Copy, Debug, PartialEq, Eq, Error)]
pub enum LoadFault {
    /// A read failed.
    #[error("{0}")]
    Unreadable(ReadFault),
    /// The file goes past its limit.
    #[error("it is longer than its limit")]
    TooLong,
    /// The file doesn't come to its end within the calls.
    #[error("it comes in too many pieces")]
    TooManyCalls,
    /// Memory ran out.
    #[error("memory")]
    Memory,
}

/// What takes the bytes of a file as they come.
pub trait PieceTaker {
    ghost use Rattle.std.specs.Prelude.{ℕ, List};

    /// It is right for these bytes, which it took.
    ghost holds: { List ℕ → Self → Type 0 };

    /// Takes the next bytes.
    fn take(&mut self, piece: &[u8]) -> Result<(), Memory>
        ensures { OnOk result ((bytes : List ℕ) → holds bytes self.old
            → holds (bytes ++ piece.now) self.new) };
}

impl PieceTaker for Vec<u8> {
    ghost holds = { λ bytes it. it.items ≡ bytes };

    fn take(&mut self, piece: &[u8]) -> Result<(), Memory> {
        self.extend_from_slice(piece)?;
        Ok(())
    }
}

/// Hands the whole file, which has at most `limit` bytes, to the taker. A reader that fails, that
/// claims more bytes than it was lent, that goes past the limit, or that does not come to
/// the end within the calls, is a fault.
#[tactic(auto, using(crate::proofs::StreamLemmas::one_more_le))]
pub fn load_into<F: Files, S: PieceTaker + Drop>(
    files: &mut F,
    path: &str,
    limit: usize,
    mut taker: S,
) -> Result<S, LoadFault>
    requires { S.holds [] taker }
    ensures calls { (F.reads files.new).calls ≤ (F.reads files.old).calls + MAX_READS }
    ensures counted { min ((F.reads files.old).calls) (2 ^ 64 - 1) ≤ (F.reads files.new).calls }
    ensures keeps { F.holds files.new ≡ F.holds files.old }
    ensures exact { IfOk result (λ s. IsTakenFrom S.holds (F.holds files.old path.now) limit s) }
    ensures fine { IfOk result (λ _. NoneFailed (F.reads files.old) (F.reads files.new)) }
    ensures fault { IfErr result (λ f.
        IsLoadFault f (F.holds files.old path.now) limit (F.reads files.old) (F.reads files.new)) }
{
    let mut at = 0;
    let mut buffer = [0u8; PIECE];
    for _ in 0..MAX_CALLS {
        let count = match files.read(path, at as u64, &mut buffer) {
            Ok(count) => count,
            Err(fault) => return Err(LoadFault::Unreadable(fault)),
        };
        if count == 0 {
            return Ok(taker);
        }
        if PIECE < count {
            return Err(LoadFault::Unreadable(ReadFault::Failed));
        }
        if limit - at < count {
            return Err(LoadFault::TooLong);
        }
        if taker.take(&buffer[..count]).is_err() {
            return Err(LoadFault::Memory);
        }
        at += count;
    }
    Err(LoadFault::TooManyCalls)
}

/// Reads the whole file, which has at most `limit` bytes, with the faults of `load_into`.
pub fn load<F: Files>(
    alloc: Global,
    files: &mut F,
    path: &str,
    limit: usize,
) -> Result<Vec<u8>, LoadFault>
    ensures calls { (F.reads files.new).calls ≤ (F.reads files.old).calls + MAX_READS }
    ensures counted { min ((F.reads files.old).calls) (2 ^ 64 - 1) ≤ (F.reads files.new).calls }
    ensures keeps { F.holds files.new ≡ F.holds files.old }
    ensures exact { IfOk result (λ bytes. IsFile (F.holds files.old path.now) bytes.items) }
    ensures within { IfOk result (λ bytes. vec_len bytes ≤ limit) }
    ensures fine { IfOk result (λ _. NoneFailed (F.reads files.old) (F.reads files.new)) }
    ensures fault { IfErr result (λ f.
        IsLoadFault f (F.holds files.old path.now) limit (F.reads files.old) (F.reads files.new)) }
{
    load_into(files, path, limit, Vec::new(alloc))
}
