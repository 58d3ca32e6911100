//! Bytes that are read from front to back.
#![tactic(auto)]

ghost use Rattle.std.specs.Prelude.{◌≡◌, ℕ, List, Option, Some, take, ◌<◌, ◌≤◌, length, vec_len, IsErr, IsErrOf, IfOk, OnOk, OnErr};
ghost use Rattle.std.specs.Io.KnownBytes.{prepend_known, IsAtEnd};
ghost use Rattle.fz_outside.specs.Faults.{HasCause};

use crate::{Failed, FileFault};
use std::alloc::Global;

/// Bytes that are read from front to back.
pub trait Source {
    // The bytes that are left, where they are told.
    ghost left: { Self → Option (List ℕ) };

    // How many calls have failed.
    ghost faults: { Self → ℕ };

    /// Reads some of the bytes that are left to the front of `buf`, and says how many.
    /// None at all for a buffer with room is the end.
    fn read(&mut self, buf: &mut [u8]) -> Result<usize, Failed>
        ensures bound { IfOk result (λ n. n ≤ length buf.old) }
        ensures bytes { IfOk result (λ n. left self.old ≡ prepend_known (take n buf.new) (left self.new)) }
        ensures end { IfOk result (λ n. n ≡ 0 → 0 < length buf.old → IsAtEnd (left self.new)) }
        ensures err { OnErr result (left self.new ≡ left self.old) }

        ensures cause { HasCause (faults self.old) (faults self.new) (IsErr result) }
        ensures passed { OnOk result (faults self.new ≡ faults self.old) };
}

/// Bytes in memory. It tells them, and never fails.
#[derive(Drop)]
pub struct MemSource<'a> {
    left: &'a [u8],
}

impl<'a> MemSource<'a> {
    /// A source of these bytes.
    pub fn new(bytes: &'a [u8]) -> Self
        ensures { ⟦<MemSource<'a> as Source>⟧.left result ≡ Some bytes.now }
    {
        MemSource { left: bytes }
    }
}

impl Source for MemSource<'_> {
    ghost left = { λ source. Some source.left.now };

    ghost faults = { λ _. 0 };

    fn read(&mut self, buf: &mut [u8]) -> Result<usize, Failed> {
        let n = buf.len().min(self.left.len());
        let (front, rest) = self.left.split_at(n);
        buf[..n].copy_from_slice(front);
        self.left = rest;
        Ok(n)
    }
}

/// How many bytes are asked for at once.
const PIECE: usize = 8192;

/// Reads to the end, or until there are `limit` bytes.
pub fn read_up_to<S: Source>(
    alloc: Global,
    source: &mut S,
    limit: usize,
) -> Result<Vec<u8>, FileFault>
    ensures bytes { IfOk result (λ bytes. S.left source.old ≡ prepend_known bytes.items (S.left source.new)) }
    ensures limit { IfOk result (λ bytes. vec_len bytes ≤ limit) }
    ensures end { IfOk result (λ bytes. vec_len bytes < limit → IsAtEnd (S.left source.new)) }
    ensures err { OnErr result ((taken : List ℕ) × (length taken ≤ limit) × (S.left source.old ≡ prepend_known taken (S.left source.new))) }

    ensures cause { HasCause (S.faults source.old) (S.faults source.new) (IsErrOf result FileFault.Failed) }
    ensures passed { OnOk result (S.faults source.new ≡ S.faults source.old) }
    ensures memory { IsErrOf result FileFault.NoMemory → S.faults source.new ≡ S.faults source.old }
{
    let mut bytes = Vec::new(alloc);
    let mut buffer = [0u8; PIECE];
    while bytes.len() < limit {
        let room = PIECE.min(limit - bytes.len());
        let n = source.read(&mut buffer[..room])?;
        if n == 0 {
            return Ok(bytes);
        }
        bytes.extend_from_slice(&buffer[..n])?;
    }
    Ok(bytes)
}
