//! The disks of 64 owners in memory, one or two for each, on which one command follows another.

ghost use Rattle.std.specs.Prelude.{◌≤◌, length};
ghost use Rattle.query_server.specs.Shelves.{AreAtHome};

use crate::doors::{DOORS, idle_doors};
use crate::{ROOM, words_of};
use command_words::is_mirrored;
use fz_outside::files::{Files, MemFile, MemFiles};
use fz_outside::sink::{MemSink, Sink};
use fz_outside::source::{MemSource, Source};
use outside_bays::bay::Bay;
use outside_bays::memory::MemBay;
use outside_disks::disks::Disks;
use outside_disks::failing::{BlipDisk, FuseDisk};
use outside_disks::memory::{Limits, MemDisk};
use outside_doors::door::Doors;
use outside_links::gate::{FreeGate, Gate};
use query_server::{Status, run_server};
use std::alloc::{AllocError, Global};
use std::sync::Wait;
use std::thread::Threads;

/// How much a disk of a test takes: a journal of up to 126 records.
pub const LARGE: Limits = Limits {
    length: 16_384,
    calls: 4_096,
    written: 65_536,
};

/// How much a disk takes on which little is done: a journal of up to 14 records.
pub const SMALL: Limits = Limits {
    length: 1_024,
    calls: 512,
    written: 8_192,
};

/// The disks of 64 owners, at home in a bay.
#[derive(Drop)]
pub struct Journals<B: Bay> {
    bay: B,
    // whether each owner has two
    mirrored: bool,
    ghost home: { AreAtHome (B.owners bay) (B.shelf bay) },
}

impl<B: Bay + Drop> Journals<B> {
    /// How the command of these words ends over these files and this source, and what it writes.
    pub fn ran<R: Threads + Wait + Sync>(
        &mut self,
        rt: &R,
        alloc: Global,
        texts: &[&str],
        held: &[MemFile<'_>],
        script: &[u8],
    ) -> Result<(Status, Vec<u8>), AllocError> {
        let words = words_of(alloc, texts)?;
        let mut files = MemFiles::new(held);
        let mut source = MemSource::new(script);
        let mut sink = MemSink::<ROOM>::new(alloc)?;
        let mut doors = idle_doors(alloc)?;
        let status = self.ran_over(
            rt,
            alloc,
            &words,
            &mut files,
            &mut source,
            &mut sink,
            &mut doors,
        );
        Ok((status, sink.bytes().to_vec(alloc)?))
    }

    /// How the command of these words ends over these files, this source, this sink and these doors, behind a gate that lets every line go
    /// on.
    pub fn ran_over<R: Threads + Wait + Sync, F: Files, S: Source, K: Sink, O: Doors + Drop + Send>(
        &mut self,
        rt: &R,
        alloc: Global,
        words: &[String],
        files: &mut F,
        source: &mut S,
        sink: &mut K,
        doors: &mut Vec<O>,
    ) -> Status
    where
        O::L: Send,
        requires doors { DOORS ≤ length doors.old.items }
    {
        self.ran_behind(rt, alloc, words, files, source, sink, doors, &FreeGate)
    }

    /// How the command of these words ends behind this gate. Words that ask for other disks than there are can't be done.
    pub fn ran_behind<
        R: Threads + Wait + Sync,
        F: Files,
        S: Source,
        K: Sink,
        O: Doors + Drop + Send,
        G: Gate + Sync,
    >(
        &mut self,
        rt: &R,
        alloc: Global,
        words: &[String],
        files: &mut F,
        source: &mut S,
        sink: &mut K,
        doors: &mut Vec<O>,
        gate: &G,
    ) -> Status
    where
        O::L: Send,
        requires doors { DOORS ≤ length doors.old.items }
    {
        if is_mirrored(words) != self.mirrored {
            return Status::Fault;
        }
        run_server(
            rt,
            alloc,
            words,
            files,
            &mut self.bay,
            source,
            sink,
            doors,
            gate,
        )
    }

    /// The bay.
    pub fn into_bay(self) -> B
        ensures home { AreAtHome (B.owners result) (B.shelf result) }
    {
        self.bay
    }

    /// All disks of owners 0 and 1, where the bay gives them.
    pub fn into_homes(self) -> Option<(Disks<B::D>, Disks<B::D>)> {
        let mut bay = self.bay;
        let first = bay.take(0).ok()?;
        let second = bay.take(1).ok()?;
        Some((first, second))
    }

    /// The disks of owners 0 and 1, where each has one and the bay gives them.
    pub fn into_disks(self) -> Option<(B::D, B::D)> {
        let (first, second) = self.into_homes()?;
        match first {
            Disks::One(first) => match second {
                Disks::One(second) => Some((first, second)),
                Disks::Both(_, _) => None,
            },
            Disks::Both(_, _) => None,
        }
    }
}

/// A bay in memory.
pub type MemJournals<'a> = Journals<MemBay<'a, MemDisk<'a>>>;

// An empty disk, or two.
fn empty_home(alloc: Global, mirrored: bool) -> Result<Disks<MemDisk<'static>>, AllocError> {
    let first = MemDisk::new(alloc, &[], SMALL, &[])?;
    if !mirrored {
        return Ok(Disks::One(first));
    }
    let second = MemDisk::new(alloc, &[], SMALL, &[])?;
    Ok(Disks::Both(first, second))
}

// These disks for owners 0 and 1, as many for each, and empty ones for the others.
#[tactic(auto, using(crate::proofs::Bays::one_more, crate::proofs::Bays::at_home))]
fn homes_on<'a>(
    alloc: Global,
    first: Disks<MemDisk<'a>>,
    second: Disks<MemDisk<'a>>,
    failing: &'a [u64],
) -> Result<MemJournals<'a>, AllocError> {
    let mirrored = matches!(&first, Disks::Both(_, _));
    let mut homes = vec![in alloc; Some(first), Some(second)]?;
    for _ in 2..64_usize {
        homes.push(Some(empty_home(alloc, mirrored)?))?;
    }
    Ok(Journals {
        bay: MemBay::new(homes, failing),
        mirrored,
    })
}

/// These disks for owners 0 and 1, and empty ones for the others; and which calls of the bay fail.
pub fn journals_on<'a>(
    alloc: Global,
    first: MemDisk<'a>,
    second: MemDisk<'a>,
    failing: &'a [u64],
) -> Result<MemJournals<'a>, AllocError> {
    homes_on(alloc, Disks::One(first), Disks::One(second), failing)
}

/// These two disks for each of owners 0 and 1, and two empty ones for each of the others; and which calls of the bay fail.
pub fn mirrored_journals_on<'a>(
    alloc: Global,
    first: (MemDisk<'a>, MemDisk<'a>),
    second: (MemDisk<'a>, MemDisk<'a>),
    failing: &'a [u64],
) -> Result<MemJournals<'a>, AllocError> {
    homes_on(
        alloc,
        Disks::Both(first.0, first.1),
        Disks::Both(second.0, second.1),
        failing,
    )
}

/// A disk in memory that passes so many calls on, or fails one of them.
pub type CutDisk<'a> = BlipDisk<FuseDisk<MemDisk<'a>>>;

/// A number of calls that no disk of a test comes to.
pub const NEVER: u64 = u64::MAX;

/// This disk, which fails each call behind so many, and that of the number `failing`.
pub fn cut_disk(disk: MemDisk<'_>, calls: u64, failing: u64) -> CutDisk<'_> {
    BlipDisk::new(FuseDisk::new(disk, calls), failing)
}

/// Disks that are cut, in a bay.
pub type CutJournals<'a> = Journals<MemBay<'a, CutDisk<'a>>>;

/// These disks for owners 0 and 1, and empty ones for the others, which aren't cut.
#[tactic(auto, using(crate::proofs::Bays::one_more, crate::proofs::Bays::at_home))]
pub fn cut_journals<'a>(
    alloc: Global,
    first: CutDisk<'a>,
    second: CutDisk<'a>,
) -> Result<CutJournals<'a>, AllocError> {
    let mut homes = vec![in alloc; Some(Disks::One(first)), Some(Disks::One(second))]?;
    for _ in 2..64_usize {
        let empty = MemDisk::new(alloc, &[], SMALL, &[])?;
        homes.push(Some(Disks::One(cut_disk(empty, NEVER, NEVER))))?;
    }
    Ok(Journals {
        bay: MemBay::new(homes, &[]),
        mirrored: false,
    })
}

/// Empty disks, the first of them a large one.
pub fn empty_journals(alloc: Global) -> Result<MemJournals<'static>, AllocError> {
    let first = MemDisk::new(alloc, &[], LARGE, &[])?;
    let second = MemDisk::new(alloc, &[], SMALL, &[])?;
    journals_on(alloc, first, second, &[])
}
