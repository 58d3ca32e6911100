//! A book on two disks in memory: faults and stops on either, and journals that differ.

ghost use Rattle.std.specs.Prelude.{◌≡◌, ◌≤◌};
ghost use Rattle.journal_records.specs.Encoding.{IsHeader};

use crate::books::{
    LIMITS, answer_freely, ask_and_settle, ask_freely, header_in, second_settlement,
};
use budget_core::entry::Entry;
use budget_journal::journal::Journal;
use budget_journal::making::InitFault;
use budget_journal::opening::OpenFault;
use budget_ledger::book::{AppendFault, Book, BookFault};
use budget_ledger::both::{BothFault, init_both};
use journal_records::coding::{encode, encode_header};
use journal_records::records::Header;
use outside_disks::disk::Disk;
use outside_disks::disks::Disks;
use outside_disks::failing::{BlipDisk, FuseDisk};
use outside_disks::memory::MemDisk;
use std::alloc::Global;

/// Opens the book of an owner on two disks.
fn opened<D: Disk>(alloc: Global, first: D, second: D) -> Result<Book<D>, (D, D, BothFault)> {
    let entry = Entry::new(10_000_000, 100, 2, Vec::new(alloc), Vec::new(alloc));
    Book::open_both(alloc, first, second, entry, &header_in(3, 100))
}

/// The disks of a book on two.
fn both_of<D: Disk + Drop>(book: Book<D>) -> Option<(D, D)> {
    match book.into_disks() {
        Disks::Both(first, second) => Some((first, second)),
        Disks::One(_) => None,
    }
}

fn empty(alloc: Global) -> Option<MemDisk<'static>> {
    MemDisk::new(alloc, &[], LIMITS, &[]).ok()
}

/// Two disks, each with a new journal.
fn made(alloc: Global) -> Option<(MemDisk<'static>, MemDisk<'static>)> {
    let mut first = empty(alloc)?;
    let mut second = empty(alloc)?;
    init_both(&mut first, &mut second, &header_in(3, 100)).ok()?;
    Some((first, second))
}

/// How many records are found on two disks, after which both hold the same bytes.
fn found_on(alloc: Global, first: MemDisk<'_>, second: MemDisk<'_>) -> Option<usize> {
    let book = opened(alloc, first, second).ok()?;
    let records = book.records().len();
    let (first, second) = both_of(book)?;
    if first.bytes() == second.bytes() {
        Some(records)
    } else {
        None
    }
}

type Answer = Result<Result<u32, AppendFault>, BookFault>;

/// What a run on two disks answers, and how many records are found afterwards.
fn answered<'a>(
    alloc: Global,
    first: BlipDisk<MemDisk<'a>>,
    second: BlipDisk<MemDisk<'a>>,
) -> Option<(Answer, usize)> {
    let mut book = opened(alloc, first, second).ok()?;
    let answer = ask_and_settle(&mut book);
    let (first, second) = both_of(book)?;
    let found = found_on(alloc, first.into_inner(), second.into_inner())?;
    Some((answer, found))
}

/// The same of new journals, where one call of each disk fails.
fn over_blips(alloc: Global, first_fails: u64, second_fails: u64) -> Option<(Answer, usize)> {
    let (first, second) = made(alloc)?;
    answered(
        alloc,
        BlipDisk::new(first, first_fails),
        BlipDisk::new(second, second_fails),
    )
}

/// The same where they fail from such a call on.
fn over_fuses(alloc: Global, first_fails: u64, second_fails: u64) -> Option<(Answer, usize)> {
    let (first, second) = made(alloc)?;
    let first = FuseDisk::new(first, first_fails);
    let mut book = opened(alloc, first, FuseDisk::new(second, second_fails)).ok()?;
    let answer = ask_and_settle(&mut book);
    let (first, second) = both_of(book)?;
    let found = found_on(alloc, first.into_inner(), second.into_inner())?;
    Some((answer, found))
}

/// No call of a disk has this number.
const NEVER: u64 = 1_000_000;

// An opening's calls, and those of a reservation and its settlement.
const CALLS: [u64; 13] = [0, 1, 2, 66, 67, 68, 69, 70, 71, 72, 73, 74, 75];

// Whichever call of one disk fails, the other answers; and both have all records once they are opened again.
#[test]
fn one_disk_fails(rt: HostRuntime) {
    for call in &CALLS {
        let answered = Some((Ok(Ok(2)), 2));
        let alloc = rt.alloc();
        let first = over_blips(alloc, *call, NEVER) == answered
            && over_fuses(alloc, *call, NEVER) == answered;
        let second = over_blips(alloc, NEVER, *call) == answered
            && over_fuses(alloc, NEVER, *call) == answered;
        assert!(rt; first && second);
    }
}

// A fault on each disk: the first disk's call and the second's, whether the reservation was made before both had failed, and how many records
// are found afterwards.
const FAULTS: [(u64, u64, bool, usize); 6] = [
    (67, 67, false, 0),
    (70, 71, false, 1),
    (71, 71, false, 1),
    (67, 72, true, 1),
    (72, 69, true, 1),
    (67, 75, true, 2),
];

// Where both have failed nothing is answered; what one of them has is found.
#[test]
fn both_disks_fail(rt: HostRuntime) {
    for (first, second, reserved, found) in &FAULTS {
        let unwritten = if *reserved {
            Ok(Err(AppendFault::DiskFault))
        } else {
            Err(BookFault::Unwritten(AppendFault::DiskFault))
        };
        assert!(rt; over_blips(rt.alloc(), *first, *second) == Some((unwritten, *found)));
    }
}

/// What lies on a disk.
#[derive(Clone, Copy, Drop)]
enum Lies {
    Nothing,
    /// Five bytes.
    Bytes,
    /// A new journal of this version.
    New(u8),
    /// A reservation and its settlement.
    Settled,
    /// 33 of each.
    Grown,
    /// A reservation of nothing.
    Free,
    /// An open slot that is no record.
    Damaged,
    /// A second settlement of a number, behind the first.
    Astray,
}

/// A disk with a new journal of this version, and a slot with these bytes.
fn with_slot(alloc: Global, version: u8, place: u64, slot: &[u8]) -> Option<MemDisk<'static>>
    requires version { (2 ≤ version) × (version ≤ 3) }
{
    let mut disk = empty(alloc)?;
    Journal::init(&mut disk, &header_in(version, 100)).ok()?;
    disk.write_at(place, slot).ok()?;
    Some(disk)
}

/// A disk with no records in version 1.
fn oldest(alloc: Global) -> Option<MemDisk<'static>> {
    let mut bytes = [0; 6528];
    let mut header = [0; 128];
    let fields = Header {
        version: 1,
        ..header_in(2, 100)
    };
    encode_header(&fields, &mut header);
    bytes[..128].copy_from_slice(&header);
    MemDisk::new(alloc, &bytes, LIMITS, &[]).ok()
}

/// The first of two disks on which this was asked.
fn used(alloc: Global, asked: Lies) -> Option<MemDisk<'static>> {
    let (first, second) = made(alloc)?;
    let mut book = opened(alloc, first, second).ok()?;
    match asked {
        Lies::Free => {
            let _grant = ask_freely(&mut book).ok()?;
        }
        Lies::Grown => {
            for _ in 0..33 {
                if !answer_freely(&mut book) {
                    return None;
                }
            }
        }
        _ => {
            let _seen = ask_and_settle(&mut book).ok()?.ok()?;
        }
    }
    let (first, _) = both_of(book)?;
    Some(first)
}

fn disk_with(alloc: Global, lies: Lies) -> Option<MemDisk<'static>> {
    match lies {
        Lies::Nothing => empty(alloc),
        Lies::Bytes => MemDisk::new(alloc, &[1, 2, 3, 4, 5], LIMITS, &[]).ok(),
        Lies::New(1) => oldest(alloc),
        Lies::New(2) => with_slot(alloc, 2, 128, &[]),
        Lies::New(_) => with_slot(alloc, 3, 128, &[]),
        Lies::Damaged => with_slot(alloc, 3, 128, &[0xA5]),
        Lies::Settled | Lies::Free | Lies::Grown => used(alloc, lies),
        Lies::Astray => {
            let mut disk = used(alloc, Lies::Settled)?;
            let mut slot = [0; 64];
            encode(&second_settlement(), &mut slot);
            disk.write_at(256, &slot).ok()?;
            Some(disk)
        }
    }
}

// What lies on the first disk and on the second, and why they make no book.
const REFUSALS: [(Lies, Lies, BothFault); 12] = [
    (
        Lies::Nothing,
        Lies::Nothing,
        BothFault::Refused(OpenFault::NotInitialised { length: 0 }),
    ),
    (
        Lies::Bytes,
        Lies::Settled,
        BothFault::Refused(OpenFault::NotInitialised { length: 5 }),
    ),
    (
        Lies::Settled,
        Lies::Bytes,
        BothFault::Refused(OpenFault::NotInitialised { length: 5 }),
    ),
    (
        Lies::Damaged,
        Lies::Bytes,
        BothFault::Refused(OpenFault::Damaged { slot: 0 }),
    ),
    (
        Lies::Bytes,
        Lies::Damaged,
        BothFault::Refused(OpenFault::NotInitialised { length: 5 }),
    ),
    (
        Lies::Nothing,
        Lies::Damaged,
        BothFault::Refused(OpenFault::Damaged { slot: 0 }),
    ),
    (
        Lies::Settled,
        Lies::Astray,
        BothFault::Refused(OpenFault::Damaged { slot: 2 }),
    ),
    (
        Lies::Astray,
        Lies::Nothing,
        BothFault::Refused(OpenFault::Damaged { slot: 2 }),
    ),
    (Lies::New(2), Lies::New(3), BothFault::VersionsDiffer),
    (Lies::Settled, Lies::New(2), BothFault::VersionsDiffer),
    (Lies::Settled, Lies::Free, BothFault::Forked { slot: 0 }),
    (Lies::Free, Lies::Astray, BothFault::Forked { slot: 0 }),
];

/// Why two disks make no book, where nothing was written to either.
fn refusal(alloc: Global, first: Lies, second: Lies) -> Option<BothFault> {
    let (first, second) = (disk_with(alloc, first)?, disk_with(alloc, second)?);
    let before = (
        first.bytes().to_vec(alloc).ok()?,
        second.bytes().to_vec(alloc).ok()?,
    );
    let (first, second, fault) = opened(alloc, first, second).err()?;
    if first.bytes() == before.0.as_slice() && second.bytes() == before.1.as_slice() {
        Some(fault)
    } else {
        None
    }
}

#[test]
fn refusals(rt: HostRuntime) {
    for (first, second, fault) in &REFUSALS {
        assert!(rt; refusal(rt.alloc(), *first, *second) == Some(*fault));
    }
}

// What lies on the first disk and on the second, and how many records both have once they are opened: a disk with nothing stays so.
const LAGS: [(Lies, Lies, Option<usize>); 4] = [
    (Lies::New(3), Lies::Settled, Some(2)),
    (Lies::Grown, Lies::New(3), Some(66)),
    (Lies::Settled, Lies::Settled, Some(2)),
    (Lies::Nothing, Lies::Settled, None),
];

#[test]
fn a_lag(rt: HostRuntime) {
    for (first, second, found) in &LAGS {
        let alloc = rt.alloc();
        let first = disk_with(alloc, *first).expect(&rt, "a disk");
        let second = disk_with(alloc, *second).expect(&rt, "a disk");
        assert!(rt; found_on(alloc, first, second) == *found);
    }
}

/// What a run answers whose second disk lags, and fails at this call while it gets what it lacks.
fn over_lag(alloc: Global, call: u64) -> Option<(Answer, usize)> {
    let ahead = disk_with(alloc, Lies::Settled)?;
    let behind = disk_with(alloc, Lies::New(3))?;
    answered(
        alloc,
        BlipDisk::new(ahead, NEVER),
        BlipDisk::new(behind, call),
    )
}

// A fault there drops that disk alone.
#[test]
fn a_lag_and_a_fault(rt: HostRuntime) {
    for call in &[67, 70, 71, 75] {
        assert!(rt; over_lag(rt.alloc(), *call) == Some((Ok(Ok(4)), 4)));
    }
}

// Journals of versions 1 and 2 may stand side by side.
#[test]
fn older_versions(rt: HostRuntime) {
    let alloc = rt.alloc();
    let oldest = disk_with(alloc, Lies::New(1)).expect(&rt, "a journal");
    let older = disk_with(alloc, Lies::New(2)).expect(&rt, "a journal");
    assert!(rt; opened(alloc, oldest, older).is_ok());
}

/// What a making answers of two disks on which this lies, and how long the first is then.
fn making(alloc: Global, first: Lies, second: Lies) -> Option<(Result<(), InitFault>, usize)> {
    let (mut first, mut second) = (disk_with(alloc, first)?, disk_with(alloc, second)?);
    let answer = init_both(&mut first, &mut second, &header_in(3, 100));
    Some((answer, first.bytes().len()))
}

// The lengths of both are looked at before anything is written.
#[test]
fn making_two(rt: HostRuntime) {
    let alloc = rt.alloc();
    let first = making(alloc, Lies::Bytes, Lies::New(3))
        == Some((Err(InitFault::AlreadyThere { length: 5 }), 5));
    let second = making(alloc, Lies::Nothing, Lies::New(3))
        == Some((Err(InitFault::AlreadyThere { length: 4224 }), 0));
    let both = making(alloc, Lies::Nothing, Lies::Nothing) == Some((Ok(()), 4224));
    assert!(rt; first && second && both);
}
