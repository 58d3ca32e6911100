//! An outside that passes little on at once, and some of whose calls fail.
#![tactic(auto)]

ghost use Rattle.std.specs.Prelude.{◌≡◌, ◌<◌, ◌≤◌, take, length, is_err, IsErr, IsErrOf, IsTrue, IfOk, IfSome, OnOk, OnErr};
ghost use Rattle.std.specs.Io.KnownBytes.{prepend_known, append_known, IsAtEnd};
ghost use Rattle.fz_outside.specs.Faults.{HasCause, both_counts};
ghost use Rattle.fz_outside.specs.Files.{IsRead, IsBounded, AddsName};
ghost use Rattle.fz_outside.specs.Schedule.{is_listed, began};

use crate::files::{FileRead, Files};
use crate::sink::Sink;
use crate::source::Source;
use crate::{Failed, FileFault, fault};
use std::alloc::Global;

/// Which calls fail, by their numbers from 0.
#[derive(Clone, Copy, Debug)]
pub struct Schedule<'a> {
    pub failing: &'a [u64],
    /// How many calls there were.
    pub calls: u64,
    /// How many of them failed.
    pub faults: u64,
}

impl Schedule<'_> {
    /// Begins a call, which fails if its number is listed.
    pub fn begin(&mut self) -> Result<(), Failed>
        ensures listed { is_err result ≡ is_listed self.old }
        ensures began { self.new ≡ began self.old }
    {
        let call = self.calls;
        self.calls = self.calls.saturating_add(1);
        if self.failing.contains(&call) {
            return Err(fault(&mut self.faults));
        }
        Ok(())
    }
}

/// Passes calls on to `inner`, with at most `piece` bytes each, but for those that its schedule
/// lets fail: they change nothing.
#[derive(Drop)]
pub struct Flaky<'a, T> {
    pub inner: T,
    pub piece: usize,
    pub schedule: Schedule<'a>,
    pub ghost some: { 0 < piece },
}

impl<S: Source> Source for Flaky<'_, S> {
    ghost left = { λ flaky. S.left flaky.inner };

    ghost faults = { λ flaky. both_counts (S.faults flaky.inner) flaky.schedule.faults };

    fn read(&mut self, buf: &mut [u8]) -> Result<usize, Failed>
        ensures began { self.new.schedule ≡ began self.old.schedule }
        ensures listed { IsTrue (is_listed self.old.schedule) → IsErr result × (self.new.inner ≡ self.old.inner) }

        ensures short { IfOk result (λ n. n ≤ self.old.piece) }

        // As of any source.
        ensures bound { IfOk result (λ n. n ≤ length buf.old) }
        ensures bytes { IfOk result (λ n. S.left self.old.inner ≡ prepend_known (take n buf.new) (S.left self.new.inner)) }
        ensures end { IfOk result (λ n. n ≡ 0 → 0 < length buf.old → IsAtEnd (S.left self.new.inner)) }
        ensures err { OnErr result (S.left self.new.inner ≡ S.left self.old.inner) }
        ensures cause { HasCause (both_counts (S.faults self.old.inner) self.old.schedule.faults)
            (both_counts (S.faults self.new.inner) self.new.schedule.faults) (IsErr result) }
        ensures passed { OnOk result (both_counts (S.faults self.new.inner) self.new.schedule.faults
            ≡ both_counts (S.faults self.old.inner) self.old.schedule.faults) }
    {
        self.schedule.begin()?;
        let most = buf.len().min(self.piece);
        self.inner.read(&mut buf[..most])
    }
}

impl<K: Sink> Sink for Flaky<'_, K> {
    ghost contents = { λ flaky. K.contents flaky.inner };

    ghost faults = { λ flaky. both_counts (K.faults flaky.inner) flaky.schedule.faults };

    fn write(&mut self, piece: &[u8]) -> Result<usize, Failed>
        ensures began { self.new.schedule ≡ began self.old.schedule }
        ensures listed { IsTrue (is_listed self.old.schedule) → IsErr result × (self.new.inner ≡ self.old.inner) }

        ensures short { IfOk result (λ n. n ≤ self.old.piece) }

        // As of any sink.
        ensures bound { IfOk result (λ n. n ≤ length piece.now) }
        ensures some { IfOk result (λ n. 0 < length piece.now → 0 < n) }
        ensures bytes { IfOk result (λ n. K.contents self.new.inner ≡ append_known (K.contents self.old.inner) (take n piece.now)) }
        ensures err { OnErr result (K.contents self.new.inner ≡ K.contents self.old.inner) }
        ensures cause { HasCause (both_counts (K.faults self.old.inner) self.old.schedule.faults)
            (both_counts (K.faults self.new.inner) self.new.schedule.faults) (IsErr result) }
        ensures passed { OnOk result (both_counts (K.faults self.new.inner) self.new.schedule.faults
            ≡ both_counts (K.faults self.old.inner) self.old.schedule.faults) }
    {
        self.schedule.begin()?;
        let most = piece.len().min(self.piece);
        self.inner.write(&piece[..most])
    }
}

impl<F: Files> Files for Flaky<'_, F> {
    ghost held = { λ flaky. F.held flaky.inner };

    ghost names = { λ flaky. F.names flaky.inner };

    ghost faults = { λ flaky. both_counts (F.faults flaky.inner) flaky.schedule.faults };

    fn read(&mut self, alloc: Global, name: &str) -> Result<FileRead, FileFault>
        ensures began { self.new.schedule ≡ began self.old.schedule }
        ensures listed { IsTrue (is_listed self.old.schedule) → IsErrOf result FileFault.Failed × (self.new.inner ≡ self.old.inner) }

        // As of any files.
        ensures found { IfOk result (λ read. IfSome (F.held self.old.inner) (λ holds. IsRead (holds name.now) read)) }
        ensures bound { IfOk result IsBounded }
        ensures same { F.held self.new.inner ≡ F.held self.old.inner }
        ensures named { AddsName result name.now (F.names self.old.inner) (F.names self.new.inner) }
        ensures cause { HasCause (both_counts (F.faults self.old.inner) self.old.schedule.faults)
            (both_counts (F.faults self.new.inner) self.new.schedule.faults) (IsErrOf result FileFault.Failed) }
        ensures passed { OnOk result (both_counts (F.faults self.new.inner) self.new.schedule.faults
            ≡ both_counts (F.faults self.old.inner) self.old.schedule.faults) }
        ensures memory { IsErrOf result FileFault.NoMemory → both_counts (F.faults self.new.inner) self.new.schedule.faults
            ≡ both_counts (F.faults self.old.inner) self.old.schedule.faults }
    {
        self.schedule.begin()?;
        self.inner.read(alloc, name)
    }
}
