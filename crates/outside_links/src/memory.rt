//! A connection in memory. It tells its bytes.

ghost use Rattle.std.specs.Prelude.{◌≡◌, ◌≤◌, ◌<◌, Some, [], length, take, vec_len, vec_capacity, is_err, IsTrue, IsErr, IfOk, OnOk, OnErr};
ghost use Rattle.std.specs.Io.KnownBytes.{IsAtEnd};
ghost use Rattle.fz_outside.specs.Faults.{HasCause};
ghost use Rattle.fz_outside.specs.Schedule.{is_listed, began};
ghost use Rattle.outside_links.specs.Links.{HasGiven, HasTaken};

use crate::fault;
use crate::link::Link;
use fz_outside::Failed;
use fz_outside::flaky::Schedule;
use std::alloc::{AllocError, Global};

/// A connection in memory: the bytes that the peer sends, and room for those that are written, which is reserved.
///
/// A call passes at most `piece` bytes. It fails where its number, from 0, is listed, and a write also where there is no
/// room left.
#[derive(Drop)]
pub struct MemLink<'a> {
    left: &'a [u8],
    written: Vec<u8>,
    room: usize,
    piece: usize,
    schedule: Schedule<'a>,
    ghost reserved: { room ≤ vec_capacity written },
    ghost bounded: { vec_len written ≤ room },
    ghost some: { 0 < piece },
}

impl<'a> MemLink<'a> {
    ghost use Rattle.outside_links.specs.Memory.{schedule_of, piece_of, room_of};

    /// A connection of these bytes, which takes at most `room` bytes.
    pub fn new(
        alloc: Global,
        input: &'a [u8],
        room: usize,
        piece: usize,
        failing: &'a [u64],
    ) -> Result<Self, AllocError>
        requires { 0 < piece }
        ensures left { IfOk result (λ link. ⟦<MemLink<'a> as Link>⟧.left link ≡ Some input.now) }
        ensures written { IfOk result (λ link. ⟦<MemLink<'a> as Link>⟧.written link ≡ Some []) }
        ensures faults { IfOk result (λ link. ⟦<MemLink<'a> as Link>⟧.faults link ≡ 0) }
        ensures calls { IfOk result (λ link. (schedule_of link).calls ≡ 0) }
        ensures failing { IfOk result (λ link. (schedule_of link).failing.now ≡ failing.now) }
        ensures piece { IfOk result (λ link. piece_of link ≡ piece) }
        ensures room { IfOk result (λ link. room_of link ≡ room) }
    {
        Ok(MemLink {
            left: input,
            written: Vec::with_capacity(alloc, room)?,
            room,
            piece,
            schedule: Schedule {
                failing,
                calls: 0,
                faults: 0,
            },
        })
    }

    /// The bytes that weren't read yet.
    pub fn left(&self) -> &[u8]
        ensures { ⟦<MemLink<'a> as Link>⟧.left self.now ≡ Some result.now }
    {
        self.left
    }

    /// The bytes that were written.
    pub fn written(&self) -> &[u8]
        ensures { ⟦<MemLink<'a> as Link>⟧.written self.now ≡ Some result.now }
    {
        self.written.as_slice()
    }

    /// How many calls have failed.
    pub fn faults(&self) -> u64
        ensures { result ≡ ⟦<MemLink<'a> as Link>⟧.faults self.now }
    {
        self.schedule.faults
    }

    /// How many calls there were.
    pub fn calls(&self) -> u64
        ensures { result ≡ (schedule_of self.now).calls }
    {
        self.schedule.calls
    }
}

/// Begins a call, which fails where it is listed.
pub fn begin(schedule: &mut Schedule<'_>) -> Result<(), Failed>
    ensures listed { is_err result ≡ is_listed schedule.old }
    ensures began { schedule.new ≡ began schedule.old }
    ensures cause { HasCause schedule.old.faults schedule.new.faults (IsErr result) }
    ensures passed { OnOk result (schedule.new.faults ≡ schedule.old.faults) }
{
    let _before = schedule.faults;
    schedule.begin()
}

impl Link for MemLink<'_> {
    ghost use Rattle.outside_links.specs.Memory.{schedule_of, piece_of, IsFull, HasBegun};

    ghost left = { λ link. Some link.left.now };

    ghost written = { λ link. Some link.written.items };

    ghost faults = { λ link. link.schedule.faults };

    fn read(&mut self, buf: &mut [u8]) -> Result<usize, Failed>
        ensures began { schedule_of self.new ≡ began (schedule_of self.old) }
        ensures begun { HasBegun self.old self.new }
        ensures listed { is_err result ≡ is_listed (schedule_of self.old) }
        ensures short { IfOk result (λ n. n ≤ piece_of self.old) }

        // As of any link.
        ensures bound { IfOk result (λ n. n ≤ length buf.old) }
        ensures bytes { IfOk result (λ n. HasGiven (Some self.old.left.now) (take n buf.new) (Some self.new.left.now)) }
        ensures end { IfOk result (λ n. n ≡ 0 → 0 < length buf.old → IsAtEnd (Some self.new.left.now)) }
        ensures err { OnErr result (Some self.new.left.now ≡ Some self.old.left.now) }
        ensures apart { Some self.new.written.items ≡ Some self.old.written.items }
        ensures cause { HasCause (schedule_of self.old).faults (schedule_of self.new).faults (IsErr result) }
        ensures passed { OnOk result ((schedule_of self.new).faults ≡ (schedule_of self.old).faults) }
    {
        begin(&mut self.schedule)?;
        let n = buf.len().min(self.left.len()).min(self.piece);
        let (front, rest) = self.left.split_at(n);
        buf[..n].copy_from_slice(front);
        self.left = rest;
        Ok(n)
    }

    fn write(&mut self, piece: &[u8]) -> Result<usize, Failed>
        ensures begun { HasBegun self.old self.new }
        ensures listed { IsTrue (is_listed (schedule_of self.old)) → IsErr result }
        ensures full { IsFull self.old → 0 < length piece.now → IsErr result }
        ensures short { IfOk result (λ n. n ≤ piece_of self.old) }

        // As of any link.
        ensures bound { IfOk result (λ n. n ≤ length piece.now) }
        ensures some { IfOk result (λ n. 0 < length piece.now → 0 < n) }
        ensures bytes { IfOk result (λ n. HasTaken (Some self.old.written.items) (take n piece.now) (Some self.new.written.items)) }
        ensures err { OnErr result (Some self.new.written.items ≡ Some self.old.written.items) }
        ensures apart { Some self.new.left.now ≡ Some self.old.left.now }
        ensures cause { HasCause (schedule_of self.old).faults (schedule_of self.new).faults (IsErr result) }
        ensures passed { OnOk result ((schedule_of self.new).faults ≡ (schedule_of self.old).faults) }
    {
        begin(&mut self.schedule)?;
        let n = piece
            .len()
            .min(self.piece)
            .min(self.room - self.written.len());
        if n == 0 && !piece.is_empty() || self.written.extend_from_slice(&piece[..n]).is_err() {
            return Err(fault(&mut self.schedule.faults));
        }
        Ok(n)
    }
}
