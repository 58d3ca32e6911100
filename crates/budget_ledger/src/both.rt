//! A book on two disks that a stop may have left, and new journals on two.
//!
//! Each disk is read, the two lists are compared, and the longer one is judged. Only then the shorter journal gets what it lacks: a record
//! that may not follow is never copied onto a sound disk.

ghost use Rattle.std.specs.Prelude.{◌≡◌, ◌⊎◌, ◌≤◌, ◌<◌, ◌^◌, ◌↔◌, length, All, IsTrue, IfOk, IfErr, IfSome, IfNone, OnOk, None};
ghost use mathlib.Core.List.{IsPrefix};
ghost use Rattle.journal_records.specs.Encoding.{IsHeader, IsValid};
ghost use Rattle.journal_records.specs.declared.records.Header.{Header as Head};
ghost use Rattle.budget_journal.specs.Journals.{version_of, disk_of};
ghost use Rattle.budget_ledger.specs.Account.{IsBook};
ghost use Rattle.budget_ledger.specs.Both.{twins_of, AgreeOnCost, IsFork, Make, MakeNone, AreUnfit, IsBothFault, AreLeft, HaveFailed};
ghost use Rattle.budget_ledger.specs.Both.{IsOpenedBoth, BothOpenWhatStands, BothFindTheLonger, HasMade, IsBothInitFault};
ghost use Rattle.budget_ledger.specs.Both.Reading.{Missing, Holding};
ghost use Rattle.budget_ledger.specs.Joined.{IsSight, HasRoom, reading_in, disk_under, half_of, side_of, unfit_by};
ghost use Rattle.budget_ledger.specs.Joined.{IsHalfOf, IsFresh, IsFreshHalf, IsWholeHalf, SideLevelled, HalfLevelled, IsJudged, AreFresh};
ghost use Rattle.budget_ledger.specs.Kept.{HoldsSide, HoldsHalf, disk_in, shown_on};

use crate::book::Book;
use crate::halves::{Half, Side, Store, level};
use budget_core::answers::FoundFault;
use budget_core::entry::Entry;
use budget_core::ledger::Ledger;
use budget_journal::journal::Journal;
use budget_journal::making::InitFault;
use budget_journal::opening::OpenFault;
use journal_records::records::{Header, NEWEST_VERSION, Record};
use outside_disks::disk::Disk;
use std::alloc::Global;

/// Why a book on two disks was not opened.
#[derive(Clone, Copy, Debug, Drop, PartialEq, Eq)]
pub enum BothFault {
    /// The first disk is refused so, or else the second, or what both make.
    Refused(OpenFault),
    /// The least slot at which the two journals hold different records.
    Forked { slot: u32 },
    /// One journal has version 3 and the other hasn't, so that records cost otherwise there.
    VersionsDiffer,
}

/// What was found on one of two disks.
#[derive(Drop)]
pub(crate) enum Sight<D: Disk> {
    /// It is gone: it is empty, or a call on it failed.
    Gone(D, bool),
    Has(Journal<D>, Vec<Record>),
    /// This refuses both.
    Unfit(D, OpenFault),
}

/// What two disks make, of which at most one is gone.
#[derive(Drop)]
pub(crate) struct Joined<D: Disk> {
    pub(crate) version: u8,
    /// The longer list.
    pub(crate) records: Vec<Record>,
    pub(crate) first: Half<D>,
    pub(crate) second: Half<D>,
}

impl<D: Disk> Sight<D> {
    // Gives the disk back.
    fn into_disk(self) -> D
        ensures { result ≡ disk_under self }
    {
        match self {
            Sight::Gone(disk, _) | Sight::Unfit(disk, _) => disk,
            Sight::Has(journal, _) => journal.into_disk(),
        }
    }
}

// What is on a disk, which is synced and read.
fn look<D: Disk>(alloc: Global, disk: D, header: &Header) -> Sight<D>
    ensures seen { IsSight D.trace D.faults header.now disk result }
    ensures room { HasRoom header.now result }
{
    match Journal::open(alloc, disk, header) {
        Ok((journal, records)) => Sight::Has(journal, records),
        Err((disk, OpenFault::DiskFault)) => Sight::Gone(disk, false),
        Err((disk, OpenFault::NotInitialised { length: 0 })) => Sight::Gone(disk, true),
        Err((disk, fault)) => Sight::Unfit(disk, fault),
    }
}

// Whether records cost the same in journals of these versions.
fn agree_on_cost(version: u8, other: u8) -> bool
    ensures { IsTrue result ↔ AgreeOnCost version other }
{
    (version == NEWEST_VERSION) == (other == NEWEST_VERSION)
}

// Whether two records are the same.
fn are_same(one: &Record, other: &Record) -> bool
    ensures { IsTrue result ↔ (one.now ≡ other.now) }
{
    one == other
}

// The least slot below both lengths where the records differ.
fn fork(records: &[Record], others: &[Record]) -> Option<u32>
    requires { length records.now < 2 ^ 32 }
    ensures forked { IfSome result (IsFork records.now others.now) }
    ensures along { IfNone result (IsPrefix records.now others.now ⊎ IsPrefix others.now records.now) }
{
    for slot in 0..records.len().min(others.len()) {
        if !are_same(&records[slot], &others[slot]) {
            return Some(slot as u32);
        }
    }
    None
}

// A journal that was just read, as one of two.
fn kept<D: Disk>(journal: Journal<D>, has: u32, header: &Header) -> Half<D>
    ensures { result ≡ side_of header.now journal has }
{
    Half::Kept(Side {
        header: Header {
            version: journal.version(),
            ..*header
        },
        journal,
        has,
        failure: None,
    })
}

// Why two journals make no list, if they differ.
fn differ(version: u8, records: &[Record], other: u8, others: &[Record]) -> Option<BothFault>
    requires { length records.now < 2 ^ 32 }
    ensures differ { IfSome result (MakeNone (Holding version records.now) (Holding other others.now)) }
    ensures along { IfNone result (AgreeOnCost version other × (IsPrefix records.now others.now ⊎ IsPrefix others.now records.now)) }
{
    if !agree_on_cost(version, other) {
        return Some(BothFault::VersionsDiffer);
    }
    let slot = fork(records, others)?;
    Some(BothFault::Forked { slot })
}

// The longer list, with the version of its journal: the first where both are as long.
fn longer(version: u8, records: Vec<Record>, other: u8, others: Vec<Record>) -> (u8, Vec<Record>)
    ensures first { length others.items ≤ length records.items → (result.0 ≡ version) × (result.1.items ≡ records.items) }
    ensures second { length records.items < length others.items → (result.0 ≡ other) × (result.1.items ≡ others.items) }
{
    if others.len() <= records.len() {
        (version, records)
    } else {
        (other, others)
    }
}

// Two journals make the longer list, unless they differ.
fn join_two<D: Disk>(
    first: Journal<D>,
    records: Vec<Record>,
    second: Journal<D>,
    others: Vec<Record>,
    header: &Header,
) -> Result<Joined<D>, (D, D, BothFault)>
    requires first { length records.items ≤ header.now.capacity }
    requires second { length others.items ≤ header.now.capacity }
    ensures made { IfOk result (λ joined. Make (Holding (version_of first) records.items) (Holding (version_of second) others.items) joined.version joined.records.items) }
    ensures first { IfOk result (λ joined. joined.first ≡ side_of header.now first (length records.items)) }
    ensures second { IfOk result (λ joined. joined.second ≡ side_of header.now second (length others.items)) }
    ensures none { IfErr result (λ refused. MakeNone (Holding (version_of first) records.items) (Holding (version_of second) others.items) refused.2) }
    ensures disks { IfErr result (λ refused. (refused.0 ≡ disk_of first) × (refused.1 ≡ disk_of second)) }
{
    let _capacity = header.capacity;
    let (version, other) = (first.version(), second.version());
    if let Some(fault) = differ(version, &records, other, &others) {
        return Err((first.into_disk(), second.into_disk(), fault));
    }
    let first = kept(first, records.len() as u32, header);
    let second = kept(second, others.len() as u32, header);
    let (version, records) = longer(version, records, other, others);
    Ok(Joined {
        version,
        records,
        first,
        second,
    })
}

// Why two disks that are gone make nothing.
fn gone(empty: bool, empty_too: bool) -> BothFault
    ensures { MakeNone (Missing empty) (Missing empty_too) result }
{
    if empty && empty_too {
        BothFault::Refused(OpenFault::NotInitialised { length: 0 })
    } else {
        BothFault::Refused(OpenFault::DiskFault)
    }
}

// What a gone disk and another make.
fn join_gone<D: Disk>(
    disk: D,
    empty: bool,
    second: Sight<D>,
    header: &Header,
) -> Result<Joined<D>, (D, D, BothFault)>
    requires { HasRoom header.now second }
    ensures made { IfOk result (λ joined. Make (Missing empty) (reading_in second) joined.version joined.records.items) }
    ensures first { IfOk result (λ joined. joined.first ≡ Half.Gone disk) }
    ensures second { IfOk result (λ joined. joined.second ≡ half_of header.now second) }
    ensures none { IfErr result (λ refused. MakeNone (Missing empty) (reading_in second) refused.2) }
    ensures disks { IfErr result (λ refused. (refused.0 ≡ disk) × (refused.1 ≡ disk_under second)) }
{
    let _capacity = header.capacity;
    match second {
        Sight::Gone(other, empty_too) => Err((disk, other, gone(empty, empty_too))),
        Sight::Has(journal, records) => Ok(Joined {
            version: journal.version(),
            first: Half::Gone(disk),
            second: kept(journal, records.len() as u32, header),
            records,
        }),
        Sight::Unfit(other, fault) => Err((disk, other, BothFault::Refused(fault))),
    }
}

// What a journal and another disk make.
fn join_journal<D: Disk>(
    journal: Journal<D>,
    records: Vec<Record>,
    second: Sight<D>,
    header: &Header,
) -> Result<Joined<D>, (D, D, BothFault)>
    requires first { length records.items ≤ header.now.capacity }
    requires second { HasRoom header.now second }
    ensures made { IfOk result (λ joined. Make (Holding (version_of journal) records.items) (reading_in second) joined.version joined.records.items) }
    ensures first { IfOk result (λ joined. joined.first ≡ side_of header.now journal (length records.items)) }
    ensures second { IfOk result (λ joined. joined.second ≡ half_of header.now second) }
    ensures none { IfErr result (λ refused. MakeNone (Holding (version_of journal) records.items) (reading_in second) refused.2) }
    ensures disks { IfErr result (λ refused. (refused.0 ≡ disk_of journal) × (refused.1 ≡ disk_under second)) }
{
    let _capacity = header.capacity;
    match second {
        Sight::Gone(disk, _) => Ok(Joined {
            version: journal.version(),
            first: kept(journal, records.len() as u32, header),
            second: Half::Gone(disk),
            records,
        }),
        Sight::Has(other, others) => join_two(journal, records, other, others, header),
        Sight::Unfit(disk, fault) => Err((journal.into_disk(), disk, BothFault::Refused(fault))),
    }
}

// What two disks make.
fn join<D: Disk>(
    first: Sight<D>,
    second: Sight<D>,
    header: &Header,
) -> Result<Joined<D>, (D, D, BothFault)>
    requires first { HasRoom header.now first }
    requires second { HasRoom header.now second }
    ensures made { IfOk result (λ joined. Make (reading_in first) (reading_in second) joined.version joined.records.items) }
    ensures first { IfOk result (λ joined. joined.first ≡ half_of header.now first) }
    ensures second { IfOk result (λ joined. joined.second ≡ half_of header.now second) }
    ensures none { IfErr result (λ refused. MakeNone (reading_in first) (reading_in second) refused.2) }
    ensures disks { IfErr result (λ refused. (refused.0 ≡ disk_under first) × (refused.1 ≡ disk_under second)) }
{
    match first {
        Sight::Gone(disk, empty) => join_gone(disk, empty, second, header),
        Sight::Has(journal, records) => join_journal(journal, records, second, header),
        Sight::Unfit(disk, fault) => Err((disk, second.into_disk(), BothFault::Refused(fault))),
    }
}

// Brings a journal that has the first ones of these records up to all of them, unless its disk fails.
fn level_side<D: Disk>(side: &mut Side<D>, records: &[Record])
    requires fresh { IsFresh D.trace D.faults records.now side.old }
    requires valid { All IsValid records.now }
    ensures holds { HoldsSide D.trace D.faults side.old.header records.now None side.new }
    ensures levelled { SideLevelled D.trace D.faults records.now side.old side.new }
    ensures whole { side.old.has ≡ length records.now → side.new ≡ side.old }
{
    if records.len() <= side.has as usize {
        return;
    }
    level(side, records);
}

// The same of one of two disks, unless it is gone.
fn level_half<D: Disk>(half: &mut Half<D>, records: &[Record])
    requires fresh { IsFreshHalf D.trace D.faults records.now half.old }
    requires valid { All IsValid records.now }
    ensures holds { (common : Head) → IsHalfOf common half.old → HoldsHalf D.trace D.faults common records.now None half.new }
    ensures levelled { HalfLevelled D.trace D.faults records.now half.old half.new }
    ensures whole { IsWholeHalf records.now half.old → half.new ≡ half.old }
{
    match half {
        Half::Gone(_) => (),
        Half::Kept(side) => level_side(side, records),
    }
}

// Why records are no book's.
fn unfit(fault: FoundFault) -> BothFault
    ensures { result ≡ unfit_by fault }
{
    match fault {
        FoundFault::Astray(slot) => BothFault::Refused(OpenFault::Damaged { slot }),
        FoundFault::NoMemory => BothFault::Refused(OpenFault::NoMemory),
    }
}

// The book of what two disks make, once that is judged.
fn judge<D: Disk>(
    alloc: Global,
    joined: Joined<D>,
    entry: Entry,
    header: &Header,
) -> Result<Book<D>, (D, D, BothFault)>
    requires fresh { AreFresh D.trace D.faults header.now joined }
    requires budget { header.now.budget ≡ entry.budget }
    requires capacity { header.now.capacity ≡ entry.capacity }
    ensures judged { IfOk result (IsJudged D.trace D.faults entry header.now joined) }
    ensures book { IfOk result IsBook }
    ensures unfit { IfErr result (λ refused. AreUnfit (record entry { version = joined.version }) joined.records.items refused.2) }
    ensures disks { IfErr result (λ refused. (refused.0 ≡ disk_in joined.first) × (refused.1 ≡ disk_in joined.second)) }
{
    let Joined {
        version,
        records,
        mut first,
        mut second,
    } = joined;
    match Ledger::found(alloc, entry.with_version(version), records) {
        Ok(ledger) => {
            level_half(&mut first, ledger.records());
            level_half(&mut second, ledger.records());
            Ok(Book {
                store: Store::Two(first, second),
                ledger,
                header: Header { version, ..*header },
                failure: None,
            })
        }
        Err(fault) => Err((first.into_disk(), second.into_disk(), unfit(fault))),
    }
}

impl<D: Disk> Book<D> {
    /// Opens the book of this entry and header that stops may have left on two disks, each with a journal in whatever version. A disk that
    /// is empty or fails is gone, and isn't touched again: the other is used alone. Whatever else refuses one of them refuses both. Of two
    /// journals the longer counts, which begins with the shorter; once it is judged, the shorter gets what it lacks.
    pub fn open_both(
        alloc: Global,
        first: D,
        second: D,
        entry: Entry,
        header: &Header,
    ) -> Result<Book<D>, (D, D, BothFault)>
        requires budget { header.now.budget ≡ entry.budget }
        requires capacity { header.now.capacity ≡ entry.capacity }
        ensures opened { IfOk result (IsOpenedBoth entry header.now (twins_of D.trace D.faults first second)) }
        ensures book { IfOk result IsBook }

        ensures refused { IfErr result (λ refused. IsBothFault entry header.now (twins_of D.trace D.faults first second)
            (twins_of D.trace D.faults refused.0 refused.1) refused.2) }
        ensures left { IfErr result (λ refused. AreLeft (twins_of D.trace D.faults first second) (twins_of D.trace D.faults refused.0 refused.1)) }
        ensures cause { IfErr result (λ refused. refused.2 ≡ BothFault.Refused OpenFault.DiskFault
            → HaveFailed (twins_of D.trace D.faults first second) (twins_of D.trace D.faults refused.0 refused.1)) }
    {
        let first = look(alloc, first, header);
        let second = look(alloc, second, header);
        let joined = join(first, second, header)?;
        judge(alloc, joined, entry, header)
    }
}

/// Makes a journal of no records on each of two empty disks, in the header's version, which isn't the first. The lengths of both are looked
/// at before anything is written; then the first is made, and the second.
pub fn init_both<D: Disk>(first: &mut D, second: &mut D, header: &Header) -> Result<(), InitFault>
    requires valid { IsHeader header.now }
    requires grown { 2 ≤ header.now.version }
    ensures first { OnOk result (HasMade header.now (shown_on D.trace D.faults first.old) (shown_on D.trace D.faults first.new)) }
    ensures second { OnOk result (HasMade header.now (shown_on D.trace D.faults second.old) (shown_on D.trace D.faults second.new)) }
    ensures stop { IfErr result (IsBothInitFault header.now (twins_of D.trace D.faults first.old second.old) (twins_of D.trace D.faults first.new second.new)) }
{
    let length = first.len()?;
    if length != 0 {
        return Err(InitFault::AlreadyThere { length });
    }
    let length = second.len()?;
    if length != 0 {
        return Err(InitFault::AlreadyThere { length });
    }
    Journal::init(first, header)?;
    Journal::init(second, header)
}

/// Two disks of which one list begins the other, and the longer may follow, are refused for the disks or for want of memory alone.
pub fn both_open_what_stands()
    ensures { BothOpenWhatStands }
{}

/// A book on two disks has all records of each disk whose count of faults stood still as it was opened.
pub fn both_find_the_longer()
    ensures { BothFindTheLonger }
{}
