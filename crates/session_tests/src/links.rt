//! A connection whose peer sends a line only when it was told the reply to the one before.

ghost use Rattle.std.specs.Prelude.{◌≤◌, None};
ghost use Rattle.fz_outside.specs.Faults.{HasRisen};

use fz_outside::Failed;
use outside_links::link::Link;
use std::alloc::Global;

/// A connection that gives a line a read. A read fails where the reply to a line that it gave isn't written yet. Of its bytes it
/// tells nothing, as a real one.
#[derive(Drop)]
pub struct RepliesFirst<'a> {
    left: &'a [u8],
    unreplied: bool,
    written: Vec<u8>,
    faults: u64,
}

impl<'a> RepliesFirst<'a> {
    pub fn new(alloc: Global, input: &'a [u8]) -> Self {
        RepliesFirst {
            left: input,
            unreplied: false,
            written: Vec::new(alloc),
            faults: 0,
        }
    }

    pub fn written(&self) -> &[u8] {
        &self.written
    }

    pub fn faults(&self) -> u64 {
        self.faults
    }
}

// Counts a fault.
fn fault(count: &mut u64) -> Failed
    ensures later { count.old ≤ count.new }
    ensures risen { HasRisen count.old count.new }
{
    *count = count.saturating_add(1);
    Failed
}

impl Link for RepliesFirst<'_> {
    ghost left = { λ link. None };

    ghost written = { λ link. None };

    ghost faults = { λ link. link.faults };

    fn read(&mut self, buf: &mut [u8]) -> Result<usize, Failed> {
        if self.unreplied {
            return Err(fault(&mut self.faults));
        }
        let line = match self.left.iter().position(|b| *b == b'\n') {
            Some(end) => end.saturating_add(1),
            None => self.left.len(),
        };
        let n = line.min(self.left.len()).min(buf.len());
        let (front, rest) = self.left.split_at(n);
        buf[..n].copy_from_slice(front);
        self.left = rest;
        self.unreplied = front.ends_with(b"\n");
        Ok(n)
    }

    fn write(&mut self, piece: &[u8]) -> Result<usize, Failed> {
        if self.written.extend_from_slice(piece).is_err() {
            return Err(fault(&mut self.faults));
        }
        if piece.ends_with(b"\n") {
            self.unreplied = false;
        }
        Ok(piece.len())
    }
}
