//! What keeps a book's records: a journal, or two side by side, on two disks. A side is dropped by the first append to it that fails;
//! while the other is in use, that one takes the records.

ghost use Rattle.std.specs.Prelude.{◌≡◌, ◌≤◌, length, take, All, None, IfOk, IfErr};
ghost use Rattle.journal_records.specs.Encoding.{IsValid};
ghost use Rattle.budget_journal.specs.Journals.{disk_of, capacity_of};
ghost use Rattle.budget_ledger.specs.Account.{HeldWent};
ghost use Rattle.budget_ledger.specs.Kept.{IsReadySide, IsReadyHalf, MayAppend, HoldsSide, shown_on, held_on, disk_in, disks_in, faults_in};
ghost use Rattle.budget_ledger.specs.Kept.{HasWrittenOn, IsUnappendedOn, HalfWent, HasWrittenBoth, IsUnappendedBoth, HasWrittenTo, IsUnappendedTo};

use crate::book::{AppendFault, write_down};
use crate::failure::Failure;
use budget_journal::journal::Journal;
use journal_records::records::{Header, Record};
use outside_disks::disk::Disk;
use outside_disks::disks::Disks;

/// A journal on one of two disks.
#[derive(Drop)]
pub struct Side<D: Disk> {
    pub(crate) journal: Journal<D>,
    pub(crate) header: Header,
    /// How many of the book's records it has.
    pub(crate) has: u32,
    /// The append that failed, if one has: then it is dropped.
    pub(crate) failure: Option<Failure>,
}

/// One of two disks.
#[derive(Drop)]
pub enum Half<D: Disk> {
    /// It was gone as the book was opened, and isn't touched again.
    Gone(D),
    Kept(Side<D>),
}

/// What keeps a book's records.
#[derive(Drop)]
pub enum Store<D: Disk> {
    One(Journal<D>),
    Two(Half<D>, Half<D>),
}

// Appends a record to a side, if no append to it has failed. A fault drops it.
fn append_to_side<D: Disk>(side: &mut Side<D>, next: &Record) -> Result<(), AppendFault>
    requires ready { IsReadySide side.old }
    requires valid { IsValid next.now }
    ensures written { IfOk result (λ _. HasWrittenOn D.trace D.faults next.now side.old side.new) }
    ensures stopped { IfErr result (λ fault. IsUnappendedOn D.trace D.faults next.now side.old side.new fault) }
    ensures room { capacity_of side.new.journal ≡ capacity_of side.old.journal }
{
    // The look at a field tells the proof how large it may be.
    let _capacity = side.header.capacity;
    write_down(&mut side.journal, &mut side.failure, next)?;
    side.has += 1;
    Ok(())
}

/// Brings a side that has the first ones of these records up to all of them, unless a fault drops it.
pub(crate) fn level<D: Disk>(side: &mut Side<D>, records: &[Record])
    requires open { side.old.failure ≡ None }
    requires holds { HoldsSide D.trace D.faults side.old.header (take side.old.has records.now) None side.old }
    requires short { side.old.has ≤ length records.now }
    requires room { length records.now ≤ capacity_of side.old.journal }
    requires valid { All IsValid records.now }
    ensures holds { HoldsSide D.trace D.faults side.old.header records.now None side.new }
    ensures went { HeldWent (shown_on D.trace D.faults (disk_of side.old.journal)) (shown_on D.trace D.faults (disk_of side.new.journal))
        (held_on D.trace D.faults (take side.old.has records.now) side.old) (held_on D.trace D.faults records.now side.new) }
{
    for slot in side.has as usize..records.len() {
        let _told = append_to_side(side, &records[slot]);
    }
}

// Appends a record to one of two disks, if it is in use. Where that fails, gives the failure.
fn append_to_half<D: Disk>(half: &mut Half<D>, next: &Record) -> Result<(), Option<Failure>>
    requires ready { IsReadyHalf half.old }
    requires valid { IsValid next.now }
    ensures { HalfWent D.trace D.faults next.now half.old half.new result }
{
    match half {
        Half::Gone(_) => Err(None),
        Half::Kept(side) => match append_to_side(side, next) {
            Ok(()) => Ok(()),
            Err(AppendFault::Closed { .. }) => Err(None),
            Err(AppendFault::DiskFault) => Err(side.failure),
        },
    }
}

// Appends a record to each of two disks that is in use, one after the other. The book is closed where neither has it.
fn append_to_both<D: Disk>(
    first: &mut Half<D>,
    second: &mut Half<D>,
    failure: &mut Option<Failure>,
    next: &Record,
) -> Result<(), AppendFault>
    requires first { failure.old ≡ None → IsReadyHalf first.old }
    requires second { failure.old ≡ None → IsReadyHalf second.old }
    requires valid { IsValid next.now }
    ensures written { IfOk result (λ _. HasWrittenBoth D.trace D.faults next.now first.old second.old first.new second.new failure.old failure.new) }
    ensures stopped { IfErr result (λ fault. IsUnappendedBoth D.trace D.faults next.now first.old second.old first.new second.new failure.old failure.new fault) }
{
    if let Some(failure) = failure {
        return Err(AppendFault::Closed {
            failed_at: failure.failed_at,
        });
    }
    let on_first = append_to_half(first, next);
    let on_second = append_to_half(second, next);
    match (on_first, on_second) {
        (Err(fell), Err(fell_last)) => {
            *failure = fell_last.or(fell);
            Err(AppendFault::DiskFault)
        }
        _ => Ok(()),
    }
}

// Appends a record to what keeps a book's, if the book isn't closed.
pub(crate) fn append<D: Disk>(
    store: &mut Store<D>,
    failure: &mut Option<Failure>,
    next: &Record,
) -> Result<(), AppendFault>
    requires ready { MayAppend store.old failure.old }
    requires valid { IsValid next.now }
    ensures written { IfOk result (λ _. HasWrittenTo D.trace D.faults next.now store.old store.new failure.old failure.new) }
    ensures stopped { IfErr result (λ fault. IsUnappendedTo D.trace D.faults next.now store.old store.new failure.old failure.new fault) }
{
    match store {
        Store::One(journal) => write_down(journal, failure, next),
        Store::Two(first, second) => append_to_both(first, second, failure, next),
    }
}

// The count of failed calls of what keeps a book, which of two disks is that of the one that closed it.
pub(crate) fn count_faults<D: Disk>(store: &Store<D>, failure: &Option<Failure>) -> u64
    ensures { result ≡ faults_in D.faults store.now failure.now }
{
    match (store, failure) {
        (Store::One(journal), _) => journal.fault_count(),
        (Store::Two(..), Some(failure)) => failure.failed_at,
        (Store::Two(..), None) => 0,
    }
}

impl<D: Disk> Half<D> {
    pub(crate) fn into_disk(self) -> D
        ensures { result ≡ disk_in self }
    {
        match self {
            Half::Gone(disk) => disk,
            Half::Kept(side) => side.journal.into_disk(),
        }
    }
}

impl<D: Disk> Store<D> {
    /// Gives the disks back.
    pub(crate) fn into_disks(self) -> Disks<D>
        ensures { result ≡ disks_in self }
    {
        match self {
            Store::One(journal) => Disks::One(journal.into_disk()),
            Store::Two(first, second) => Disks::Both(first.into_disk(), second.into_disk()),
        }
    }
}
