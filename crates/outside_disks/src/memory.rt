//! A disk in memory. It tells what was done to it: it keeps its first bytes, and each write and sync since.

ghost use Rattle.std.specs.Prelude.{◌≡◌, ◌+◌, ◌-◌, ◌<◌, ◌≤◌, ◌^◌, ◌||◌, ◌++◌, [], ◌∷◌, Some, length, slice_index};
ghost use Rattle.std.specs.Prelude.{take, drop, replicate, vec_len, min, nat_le, is_err, IsTrue, IsErr, IfOk, IfSome, OnOk, OnErr};
ghost use Rattle.fz_outside.specs.Faults.{HasCause, last_count};
ghost use Rattle.fz_outside.specs.Schedule.{is_listed};
ghost use Rattle.outside_disks.specs.Disks.{seen, seen_of, noted, overlaid, Gives, MayHaveWritten};
ghost use Rattle.outside_disks.specs.Disks.Step.{Wrote as Written, Synced as Flushed};
ghost use Rattle.outside_disks.specs.Memory.{steps_of, sizes, first_in, rest_in};
ghost use Rattle.outside_disks.specs.Stops.{filled, left_in, left_next, left_by};
ghost use Rattle.outside_disks.specs.declared.memory.Kept.TheVariants.{Wrote, Synced};

use crate::disk::Disk;
use crate::fault;
use fz_outside::Failed;
use fz_outside::flaky::Schedule;
use std::alloc::{AllocError, Global};

/// A step that is kept. The bytes of the writes stand one after another in `written`.
#[derive(Clone, Copy, Debug, Drop, PartialEq, Eq)]
enum Kept {
    Wrote { place: u64, size: usize },
    Synced,
}

/// How much a disk in memory takes.
#[derive(Clone, Copy, Debug, Drop, PartialEq, Eq)]
pub struct Limits {
    /// The greatest length.
    pub length: u32,
    /// The greatest number of calls.
    pub calls: u32,
    /// The greatest sum of bytes written.
    pub written: u32,
}

/// A disk in memory. It fails the calls that are listed, by their numbers from 0, and those past its limits.
#[derive(Drop)]
pub struct MemDisk<'a> {
    start: Vec<u8>,
    bytes: Vec<u8>,
    written: Vec<u8>,
    steps: Vec<Kept>,
    limits: Limits,
    schedule: Schedule<'a>,
    ghost pooled: { length written.items ≡ sizes steps.items },
    ghost current: { bytes.items ≡ seen start.items (steps_of steps.items written.items) },
}

/// What a stop makes of the writes since the last sync: of their ranges, and of all behind the end that was synced.
#[derive(Clone, Copy, Debug, Drop, PartialEq, Eq)]
pub enum Torn {
    /// The old bytes, and the old end.
    Old,
    /// The new bytes.
    New,
    /// `0xFF` in each place.
    Ones,
    /// `0xA5` in each place, the byte by which a slot of a journal counts.
    Gates,
}

impl<'a> MemDisk<'a> {
    ghost use Rattle.std.specs.Prelude.{[]};
    ghost use Rattle.outside_disks.specs.Disks.{IsImageOf};
    ghost use Rattle.outside_disks.specs.Shown.{bytes_in, calls_of, limits_of, failing_of, told};

    /// A disk with these bytes, all of them stable.
    pub fn new(
        alloc: Global,
        start: &[u8],
        limits: Limits,
        failing: &'a [u64],
    ) -> Result<Self, AllocError>
        ensures told { IfOk result (λ disk. ⟦<MemDisk<'a> as Disk>⟧.trace disk ≡ Some (record { start = start.now; steps = [] })) }
        ensures faults { IfOk result (λ disk. ⟦<MemDisk<'a> as Disk>⟧.faults disk ≡ 0) }
        ensures calls { IfOk result (λ disk. calls_of disk ≡ 0) }
        ensures limits { IfOk result (λ disk. limits_of disk ≡ limits) }
        ensures failing { IfOk result (λ disk. failing_of disk ≡ failing.now) }
    {
        let mut bytes = Vec::with_capacity(alloc, limits.length as usize)?;
        bytes.extend_from_slice(start)?;
        Ok(MemDisk {
            start: start.to_vec(alloc)?,
            bytes,
            written: Vec::with_capacity(alloc, limits.written as usize)?,
            steps: Vec::with_capacity(alloc, limits.calls as usize)?,
            limits,
            schedule: Schedule {
                failing,
                calls: 0,
                faults: 0,
            },
        })
    }

    /// The bytes that reads give.
    pub fn bytes(&self) -> &[u8]
        ensures { result.now ≡ bytes_in self.now }
    {
        &self.bytes
    }

    /// The disk that such a stop leaves, if it comes now: its bytes are all stable, and none of its calls is to fail.
    pub fn after_stop(&self, alloc: Global, torn: Torn) -> Result<MemDisk<'static>, AllocError>
        ensures image { IfOk result (λ disk. IfSome (told self.now) (λ t. IsImageOf t (bytes_in disk))) }
        ensures bytes { IfOk result (λ disk. IfSome (told self.now) (λ t. bytes_in disk ≡ left_by torn t.start t.steps)) }
        ensures told { IfOk result (λ disk. told disk ≡ Some (record { start = bytes_in disk; steps = [] })) }
        ensures faults { IfOk result (λ disk. ⟦<MemDisk<'a> as Disk>⟧.faults disk ≡ 0) }
        ensures calls { IfOk result (λ disk. calls_of disk ≡ 0) }
        ensures limits { IfOk result (λ disk. limits_of disk ≡ limits_of self.now) }
        ensures failing { IfOk result (λ disk. failing_of disk ≡ []) }
    {
        let left = left_after(alloc, &self.start, &self.steps, &self.written, torn)?;
        MemDisk::new(alloc, &left, self.limits, &[])
    }
}

// Begins a call, which fails where it is listed, or where there were as many calls as this.
fn begin(schedule: &mut Schedule<'_>, most: u32) -> Result<(), Failed>
    ensures refused { is_err result ≡ (is_listed schedule.old || nat_le most schedule.old.calls) }
    ensures counted { schedule.new.calls ≡ min (schedule.old.calls + 1) last_count }
    ensures failing { schedule.new.failing ≡ schedule.old.failing }
    ensures cause { HasCause schedule.old.faults schedule.new.faults (IsErr result) }
    ensures passed { OnOk result (schedule.new.faults ≡ schedule.old.faults) }
{
    let call = schedule.calls;
    schedule.begin()?;
    if call >= u64::from(most) {
        return Err(fault(&mut schedule.faults));
    }
    Ok(())
}

// Puts zeros behind the end, up to a place.
fn grow(bytes: &mut Vec<u8>, end: usize) -> Result<(), AllocError>
    ensures ok { OnOk result (bytes.new.items ≡ bytes.old.items ++ replicate (end - vec_len bytes.old) 0) }
    ensures err { OnErr result (bytes.new.items ≡ bytes.old.items) }
{
    if bytes.len() < end {
        bytes.resize(end, 0)?;
    }
    Ok(())
}

// Puts a piece over the bytes at a place.
fn paste(bytes: &mut [u8], place: usize, piece: &[u8])
    requires { place + length piece.now ≤ length bytes.old }
    ensures { bytes.new ≡ take place bytes.old ++ piece.now ++ drop (place + length piece.now) bytes.old }
{
    bytes[place..place + piece.len()].copy_from_slice(piece);
}

fn overwrite(bytes: &mut Vec<u8>, place: usize, piece: &[u8]) -> Result<(), AllocError>
    requires { place + length piece.now < 2 ^ 63 }
    ensures ok { OnOk result (bytes.new.items ≡ overlaid bytes.old.items place piece.now) }
    ensures err { OnErr result (bytes.new.items ≡ bytes.old.items) }
{
    grow(bytes, place + piece.len())?;
    paste(bytes, place, piece);
    Ok(())
}

// Keeps a write.
fn keep(
    steps: &mut Vec<Kept>,
    written: &mut Vec<u8>,
    place: u64,
    piece: &[u8],
) -> Result<(), AllocError>
    ensures ok { OnOk result ((steps.new.items ≡ steps.old.items ++ Wrote place (length piece.now) ∷ []) ×
        (written.new.items ≡ written.old.items ++ piece.now)) }
    ensures err { OnErr result ((steps.new.items ≡ steps.old.items) × (written.new.items ≡ written.old.items)) }
{
    let kept = written.len();
    written.extend_from_slice(piece)?;
    let step = Kept::Wrote {
        place,
        size: piece.len(),
    };
    if steps.push(step).is_err() {
        written.truncate(kept);
        return Err(AllocError);
    }
    Ok(())
}

// Writes and keeps the write, or changes nothing.
fn write_down(
    bytes: &mut Vec<u8>,
    steps: &mut Vec<Kept>,
    written: &mut Vec<u8>,
    place: u64,
    piece: &[u8],
) -> Result<(), AllocError>
    requires { place + length piece.now < 2 ^ 63 }
    ensures bytes { OnOk result (bytes.new.items ≡ overlaid bytes.old.items place piece.now) }
    ensures kept { OnOk result ((steps.new.items ≡ steps.old.items ++ Wrote place (length piece.now) ∷ []) ×
        (written.new.items ≡ written.old.items ++ piece.now)) }
    ensures err { OnErr result ((bytes.new.items ≡ bytes.old.items) × (steps.new.items ≡ steps.old.items) × (written.new.items ≡ written.old.items)) }
{
    let (before, pooled) = (steps.len(), written.len());
    keep(steps, written, place, piece)?;
    if overwrite(bytes, place as usize, piece).is_err() {
        steps.truncate(before);
        written.truncate(pooled);
        return Err(AllocError);
    }
    Ok(())
}

// What is read behind a place.
fn byte_at(bytes: &[u8], place: u64, behind: usize) -> u8
    ensures { result ≡ slice_index bytes.now (place + behind) }
{
    match place.checked_add(behind as u64) {
        Some(at) if at < bytes.len() as u64 => bytes[at as usize],
        _ => 0,
    }
}

// Fills a buffer with what stands from a place on, and zeros past the end.
fn fill(bytes: &[u8], place: u64, buf: &mut [u8])
    ensures { Gives bytes.now place buf.new }
{
    for i in 0..buf.len() {
        buf[i] = byte_at(bytes, place, i);
    }
}

// Puts a byte in each place behind the end, up to a place.
fn pad(bytes: &mut Vec<u8>, end: usize, byte: u8) -> Result<(), AllocError>
    ensures { OnOk result (bytes.new.items ≡ bytes.old.items ++ replicate (end - vec_len bytes.old) byte) }
{
    if bytes.len() < end {
        bytes.resize(end, byte)?;
    }
    Ok(())
}

// Puts a byte in each place of a range, and in those between the end and it.
fn spoil(bytes: &mut Vec<u8>, place: usize, size: usize, byte: u8) -> Result<(), AllocError>
    requires { place + size < 2 ^ 63 }
    ensures { OnOk result (bytes.new.items ≡ filled bytes.old.items place size byte) }
{
    let mut piece = Vec::new(*bytes.allocator());
    pad(&mut piece, size, byte)?;
    pad(bytes, place, byte)?;
    overwrite(bytes, place, &piece)
}

// What a stop makes of a file in the write of a piece.
fn tear(left: &mut Vec<u8>, place: usize, piece: &[u8], torn: Torn) -> Result<(), AllocError>
    requires { place + length piece.now < 2 ^ 63 }
    ensures { OnOk result (left.new.items ≡ left_in torn left.old.items place piece.now) }
{
    match torn {
        Torn::Old => Ok(()),
        Torn::New => overwrite(left, place, piece),
        Torn::Ones => spoil(left, place, piece.len(), 0xff),
        Torn::Gates => spoil(left, place, piece.len(), 0xa5),
    }
}

// One step more, of what is read and of what a stop leaves. Its bytes begin the pool, whose rest is the result.
fn redo<'p>(
    read: &mut Vec<u8>,
    left: &mut Vec<u8>,
    step: Kept,
    pool: &'p [u8],
    torn: Torn,
) -> Result<&'p [u8], AllocError>
    requires pooled { sizes (step ∷ []) ≤ length pool.now }
    requires fits { length (seen read.old.items (first_in step pool.now ∷ [])) < 2 ^ 63 }
    ensures read { OnOk result (read.new.items ≡ seen read.old.items (first_in step pool.now ∷ [])) }
    ensures left { OnOk result (left.new.items ≡ left_next torn (first_in step pool.now) read.old.items left.old.items) }
    ensures rest { IfOk result (λ rest. rest.now ≡ rest_in step pool.now) }
{
    match step {
        Kept::Wrote { place, size } => {
            let (piece, rest) = pool.split_at(size);
            overwrite(read, place as usize, piece)?;
            tear(left, place as usize, piece, torn)?;
            Ok(rest)
        }
        Kept::Synced => {
            left.clear();
            left.extend_from_slice(read)?;
            Ok(pool)
        }
    }
}

// The file that a stop leaves behind these steps.
fn left_after(
    alloc: Global,
    start: &[u8],
    steps: &[Kept],
    written: &[u8],
    torn: Torn,
) -> Result<Vec<u8>, AllocError>
    requires pooled { length written.now ≡ sizes steps.now }
    requires fits { length (seen start.now (steps_of steps.now written.now)) < 2 ^ 63 }
    ensures { IfOk result (λ left. left.items ≡ left_by torn start.now (steps_of steps.now written.now)) }
{
    let mut read = start.to_vec(alloc)?;
    let mut left = start.to_vec(alloc)?;
    let mut pool = written;
    for step in steps {
        pool = redo(&mut read, &mut left, *step, pool, torn)?;
    }
    Ok(left)
}

impl Disk for MemDisk<'_> {
    ghost use Rattle.outside_disks.specs.Shown.{told, faults_of, written_of, is_refused, IsPastLimits, IsBegun};

    ghost trace = { λ disk. told disk };

    ghost faults = { λ disk. faults_of disk };

    fn len(&mut self) -> Result<u64, Failed>
        ensures begun { IsBegun self.old self.new }
        ensures refused { is_err result ≡ is_refused self.old }

        // As of any disk.
        ensures length { IfOk result (λ n. IfSome (told self.old) (λ t. n ≡ length (seen_of t))) }
        ensures same { told self.new ≡ told self.old }
        ensures cause { HasCause (faults_of self.old) (faults_of self.new) (IsErr result) }
        ensures passed { OnOk result (faults_of self.new ≡ faults_of self.old) }
    {
        begin(&mut self.schedule, self.limits.calls)?;
        Ok(self.bytes.len() as u64)
    }

    fn read_at(&mut self, place: u64, buf: &mut [u8]) -> Result<(), Failed>
        ensures begun { IsBegun self.old self.new }
        ensures refused { is_err result ≡ is_refused self.old }

        // As of any disk.
        ensures bytes { OnOk result (IfSome (told self.old) (λ t. Gives (seen_of t) place buf.new)) }
        ensures same { told self.new ≡ told self.old }
        ensures cause { HasCause (faults_of self.old) (faults_of self.new) (IsErr result) }
        ensures passed { OnOk result (faults_of self.new ≡ faults_of self.old) }
    {
        begin(&mut self.schedule, self.limits.calls)?;
        fill(&self.bytes, place, buf);
        Ok(())
    }

    fn write_at(&mut self, place: u64, bytes: &[u8]) -> Result<(), Failed>
        ensures begun { IsBegun self.old self.new }
        ensures refused { IsTrue (is_refused self.old) → IsErr result }
        ensures limited { IsPastLimits self.old place (length bytes.now) → IsErr result }
        ensures unchanged { OnErr result (told self.new ≡ told self.old) }
        ensures summed { OnOk result (written_of self.new ≡ written_of self.old + length bytes.now) }

        // As of any disk.
        ensures written { OnOk result (told self.new ≡ noted (Written place bytes.now) (told self.old)) }
        ensures err { OnErr result (MayHaveWritten place (length bytes.now) (told self.old) (told self.new)) }
        ensures cause { HasCause (faults_of self.old) (faults_of self.new) (IsErr result) }
        ensures passed { OnOk result (faults_of self.new ≡ faults_of self.old) }
    {
        begin(&mut self.schedule, self.limits.calls)?;
        if place > u64::from(self.limits.length)
            || bytes.len() as u64 > u64::from(self.limits.length) - place
            || self.written.len() + bytes.len() > self.limits.written as usize
        {
            return Err(fault(&mut self.schedule.faults));
        }
        match write_down(
            &mut self.bytes,
            &mut self.steps,
            &mut self.written,
            place,
            bytes,
        ) {
            Ok(()) => Ok(()),
            Err(_) => Err(fault(&mut self.schedule.faults)),
        }
    }

    fn sync(&mut self) -> Result<(), Failed>
        ensures begun { IsBegun self.old self.new }
        ensures refused { IsTrue (is_refused self.old) → IsErr result }

        // As of any disk.
        ensures synced { OnOk result (told self.new ≡ noted Flushed (told self.old)) }
        ensures err { OnErr result (told self.new ≡ told self.old) }
        ensures cause { HasCause (faults_of self.old) (faults_of self.new) (IsErr result) }
        ensures passed { OnOk result (faults_of self.new ≡ faults_of self.old) }
    {
        begin(&mut self.schedule, self.limits.calls)?;
        match self.steps.push(Kept::Synced) {
            Ok(()) => Ok(()),
            Err(_) => Err(fault(&mut self.schedule.faults)),
        }
    }

    fn is_in_place(&mut self) -> Result<(), Failed>
        ensures begun { IsBegun self.old self.new }
        ensures refused { is_err result ≡ is_refused self.old }

        // As of any disk.
        ensures same { told self.new ≡ told self.old }
        ensures cause { HasCause (faults_of self.old) (faults_of self.new) (IsErr result) }
        ensures passed { OnOk result (faults_of self.new ≡ faults_of self.old) }
    {
        begin(&mut self.schedule, self.limits.calls)
    }

    fn fault_count(&self) -> u64 {
        self.schedule.faults
    }
}
