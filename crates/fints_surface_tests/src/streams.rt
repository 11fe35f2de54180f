//! Files and an output that show their bytes, so that calls over them are made where their contracts say
//! most.
ghost use Rattle.std.specs.Prelude.{◌≡◌, Some};

use fints_cli::{Files, Out, ReadFault, WriteFault};
use std::alloc::{AllocError, Global};

/// Files that all hold the same bytes, with the count of their reads.
#[derive(Drop)]
pub struct Same<'a> {
    bytes: &'a [u8],
    calls: u64,
    failed: u64,
}

impl<'a> Same<'a> {
    pub fn new(bytes: &'a [u8]) -> Same<'a> {
        Same {
            bytes,
            calls: 0,
            failed: 0,
        }
    }
}

impl Files for Same<'_> {
    ghost reads = { λ it. record { calls = it.calls; failed = it.failed } };

    ghost holds = { λ it _. Some it.bytes.now };

    fn read(&mut self, _path: &str, at: u64, buffer: &mut [u8]) -> Result<usize, ReadFault> {
        self.calls = self.calls.saturating_add(1);
        let start = (at as usize).min(self.bytes.len());
        let rest = &self.bytes[start..];
        let count = rest.len().min(buffer.len());
        buffer[..count].copy_from_slice(&rest[..count]);
        Ok(count)
    }
}

/// An output that keeps what was written. It has room for all that a test writes.
#[derive(Drop)]
pub struct Kept {
    bytes: Vec<u8>,
    failed: u64,
}

impl Kept {
    pub fn new(alloc: Global) -> Result<Kept, AllocError> {
        Ok(Kept {
            bytes: Vec::with_capacity(alloc, 4096)?,
            failed: 0,
        })
    }

    pub fn bytes(&self) -> &[u8]
        ensures { result.now ≡ self.now.bytes.items }
    {
        self.bytes.as_slice()
    }
}

impl Out for Kept {
    ghost written = { λ it. Some it.bytes.items };

    ghost failed_calls = { λ it. it.failed };

    fn write(&mut self, bytes: &[u8]) -> Result<usize, WriteFault> {
        if self.bytes.extend_from_slice(bytes).is_err() {
            self.failed = self.failed.saturating_add(1);
            return Err(WriteFault);
        }
        Ok(bytes.len())
    }
}
