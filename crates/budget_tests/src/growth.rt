//! A journal of 600 records that grows by several chunks, and a fault at each of its calls.

ghost use Rattle.std.specs.Prelude.{◌≡◌};
ghost use Rattle.journal_records.specs.Encoding.{IsHeader, IsValid};

use budget_journal::journal::{DiskFault, Journal};
use budget_journal::making::InitFault;
use budget_journal::opening::OpenFault;
use journal_records::coding::{GATE, encode};
use journal_records::records::{Header, Outcome, Record, Settlement};
use outside_disks::disk::Disk;
use outside_disks::failing::BlipDisk;
use outside_disks::memory::{Limits, MemDisk};
use std::alloc::Global;

/// The header of a journal for 100 records, under this catalog's digest.
fn header_of(digest: u8) -> Header
    ensures valid { IsHeader result }
    ensures capacity { result.capacity ≡ 100 }
    ensures version { result.version ≡ 2 }
{
    Header {
        owner: 0,
        budget: 10_000_000,
        capacity: 100,
        digest: [digest; 32],
        version: 2,
    }
}

/// The header of a journal for 600 records.
fn large_header() -> Header
    ensures valid { IsHeader result }
    ensures capacity { result.capacity ≡ 600 }
    ensures version { result.version ≡ 2 }
{
    Header {
        capacity: 600,
        ..header_of(1)
    }
}

fn settlement(number: u32) -> Record
    ensures { IsValid result }
{
    Record::Settle(Settlement {
        number,
        outcome: Outcome::Exhausted,
        returned: 0,
    })
}

/// What an opening answers: how many records, or why none.
fn opened<D: Disk + Drop>(alloc: Global, disk: D, header: &Header) -> Result<usize, OpenFault> {
    match Journal::open(alloc, disk, header) {
        Ok((_journal, records)) => Ok(records.len()),
        Err((_disk, fault)) => Err(fault),
    }
}

/// Opens the journal of this header and appends a settlement.
fn append_to<D: Disk>(
    alloc: Global,
    disk: D,
    header: &Header,
    number: u32,
) -> (D, Result<(), DiskFault>) {
    match Journal::open(alloc, disk, header) {
        Ok((mut journal, records)) => {
            let answer = if records.len() < header.capacity as usize {
                journal.append(&settlement(number))
            } else {
                Err(DiskFault)
            };
            (journal.into_disk(), answer)
        }
        Err((disk, _)) => (disk, Err(DiskFault)),
    }
}

const LARGE: Limits = Limits {
    length: 131_072,
    calls: 4096,
    written: 131_072,
};

/// The bytes of a journal for 600 records whose area 3, of 512 slots from byte 28,800 on, is live and full: those of numbers 0 to 511.
fn full_area(alloc: Global) -> Option<Vec<u8>> {
    let mut disk = MemDisk::new(alloc, &[], LARGE, &[]).ok()?;
    Journal::init(&mut disk, &large_header()).ok()?;
    disk.write_at(97, &[GATE; 3]).ok()?;
    let mut slot = [0u8; 64];
    for number in 0..512u32 {
        encode(&settlement(number), &mut slot);
        disk.write_at(28_800 + 64 * u64::from(number), &slot).ok()?;
    }
    disk.bytes().to_vec(alloc).ok()
}

// Area 4 has 600 slots: two chunks of 256 are copied, and the last one is of 88 zeros. Each record is there once more, and then one of number 512.
#[test]
fn chunks(rt: HostRuntime) {
    let alloc = rt.alloc();
    let bytes = full_area(alloc).expect(&rt, "a full area");
    assert!(rt; bytes.len() == 61_568);
    let disk = MemDisk::new(alloc, &bytes, LARGE, &[])
        .ok()
        .expect(&rt, "a disk");
    let (grown, answer) = append_to(alloc, disk, &large_header(), 512);
    assert!(rt; answer == Ok(()));
    assert!(rt; grown.bytes().len() == 99_968);
    assert!(rt; grown.bytes().get(28_800..61_568) == grown.bytes().get(61_568..94_336));
    let (_journal, records) = Journal::open(alloc, grown, &large_header())
        .ok()
        .expect(&rt, "a journal");
    assert!(rt; records.len() == 513);
    for number in 0..513u32 {
        assert!(rt; records.get(number as usize) == Some(&settlement(number)));
    }
}

/// How many records are found after a fault at this call of an append to the full area, which is refused.
fn left_in_chunks(alloc: Global, bytes: &[u8], call: u64) -> Option<Result<usize, OpenFault>> {
    let disk = MemDisk::new(alloc, bytes, LARGE, &[]).ok()?;
    let (blip, answer) = append_to(alloc, BlipDisk::new(disk, call), &large_header(), 512);
    if answer == Err(DiskFault) {
        Some(opened(alloc, blip.into_inner(), &large_header()))
    } else {
        None
    }
}

// Opening has 515 calls, copying five: two reads, each with a write, and a write of zeros. Then a sync, area 4's gate and a sync, and the four calls
// of the record, whose last one alone finds it there.
#[test]
fn a_fault_at_each_chunk(rt: HostRuntime) {
    let alloc = rt.alloc();
    let bytes = full_area(alloc).expect(&rt, "a full area");
    for call in 515..526 {
        assert!(rt; left_in_chunks(alloc, &bytes, call) == Some(Ok(512)));
    }
    assert!(rt; left_in_chunks(alloc, &bytes, 526) == Some(Ok(513)));
    assert!(rt; left_in_chunks(alloc, &bytes, 527).is_none());
}
