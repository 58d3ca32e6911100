//! Where bytes are written to, one after another.
#![tactic(auto)]

ghost use Rattle.std.specs.Prelude.{◌≡◌, ℕ, List, Option, Some, [], take, ◌<◌, ◌≤◌, length, vec_len, vec_capacity, IsErr, IfOk, IfSome, OnOk, OnErr};
ghost use Rattle.std.specs.Io.KnownBytes.{append_known};
ghost use Rattle.fz_outside.specs.Faults.{HasCause};

use crate::{Failed, fault};
use std::alloc::{AllocError, Global};

/// Where bytes are written to, one after another.
pub trait Sink {
    // The bytes that were written so far, where they are told.
    ghost contents: { Self → Option (List ℕ) };

    // How many calls have failed.
    ghost faults: { Self → ℕ };

    /// Writes some of a piece, from its front, and says how many bytes.
    /// To take none of a piece that isn't empty is a fault.
    fn write(&mut self, piece: &[u8]) -> Result<usize, Failed>
        ensures bound { IfOk result (λ n. n ≤ length piece.now) }
        ensures some { IfOk result (λ n. 0 < length piece.now → 0 < n) }
        ensures bytes { IfOk result (λ n. contents self.new ≡ append_known (contents self.old) (take n piece.now)) }
        ensures err { OnErr result (contents self.new ≡ contents self.old) }

        ensures cause { HasCause (faults self.old) (faults self.new) (IsErr result) }
        ensures passed { OnOk result (faults self.new ≡ faults self.old) };
}

/// Bytes in memory, at most `ROOM` of them. It tells them.
///
/// It takes what it has room for, and fails where it has none: so it has failed only if it is full.
#[derive(Drop)]
pub struct MemSink<const ROOM: usize> {
    bytes: Vec<u8>,
    faults: u64,
    ghost reserved: { ROOM ≤ vec_capacity bytes },
    ghost bounded: { vec_len bytes ≤ ROOM },
    ghost full: { 0 < faults → vec_len bytes ≡ ROOM },
}

impl<const ROOM: usize> MemSink<ROOM> {
    /// An empty sink, with its room reserved.
    pub fn new(alloc: Global) -> Result<Self, AllocError>
        ensures contents { IfOk result (λ sink. ⟦<MemSink<ROOM> as Sink>⟧.contents sink ≡ Some []) }
        ensures faults { IfOk result (λ sink. ⟦<MemSink<ROOM> as Sink>⟧.faults sink ≡ 0) }
    {
        Ok(MemSink {
            bytes: Vec::with_capacity(alloc, ROOM)?,
            faults: 0,
        })
    }

    /// The bytes that were written.
    pub fn bytes(&self) -> &[u8]
        ensures told { ⟦<MemSink<ROOM> as Sink>⟧.contents self.now ≡ Some result.now }
        ensures bounded { length result.now ≤ ROOM }
    {
        self.bytes.as_slice()
    }

    /// How many calls have failed: none, unless the sink is full.
    pub fn faults(&self) -> u64
        ensures count { result ≡ ⟦<MemSink<ROOM> as Sink>⟧.faults self.now }
        ensures full { 0 < result → IfSome (⟦<MemSink<ROOM> as Sink>⟧.contents self.now) (λ bytes. length bytes ≡ ROOM) }
    {
        self.faults
    }
}

impl<const ROOM: usize> Sink for MemSink<ROOM> {
    ghost contents = { λ sink. Some sink.bytes.items };

    ghost faults = { λ sink. sink.faults };

    fn write(&mut self, piece: &[u8]) -> Result<usize, Failed> {
        let n = piece.len().min(ROOM - self.bytes.len());
        if n == 0 && !piece.is_empty() || self.bytes.extend_from_slice(&piece[..n]).is_err() {
            return Err(fault(&mut self.faults));
        }
        Ok(n)
    }
}

/// Writes a whole piece, in as many calls as that takes.
pub fn put<K: Sink>(sink: &mut K, bytes: &[u8]) -> Result<(), Failed>
    ensures ok { OnOk result (K.contents sink.new ≡ append_known (K.contents sink.old) bytes.now) }
    ensures err { OnErr result ((n : ℕ) × (n < length bytes.now) × (K.contents sink.new ≡ append_known (K.contents sink.old) (take n bytes.now))) }

    ensures cause { HasCause (K.faults sink.old) (K.faults sink.new) (IsErr result) }
    ensures passed { OnOk result (K.faults sink.new ≡ K.faults sink.old) }
{
    let mut done = 0usize;
    while done < bytes.len() {
        done += sink.write(&bytes[done..])?;
    }
    Ok(())
}
