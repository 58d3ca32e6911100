//! The owners' books are opened on their disks, and the disks are put back.

ghost use Rattle.std.specs.Prelude.{◌≡◌, ℕ, ◌<◌, ◌≤◌, List, length, All, None, IfErr, IfOk, IsSome, OnErr, OnOk};
ghost use Rattle.budget_ledger.specs.Account.{Account};
ghost use Rattle.owner_house.specs.House.{house_of};
ghost use Rattle.owner_lock.specs.Known.{whole_share};
ghost use Rattle.session_core.specs.Bundles.{bundle_of};
ghost use Rattle.session_core.specs.Code.{ArePasses};
ghost use Rattle.owner_catalog.specs.Limits.{owner_limit};
ghost use Rattle.catalog_loading.specs.Loaded.{entry_at, entry_in, header_in, header_of, in_versions, keyed, new_header, owners_in};
ghost use Rattle.outside_disks.specs.Stored.{stored_of};
ghost use Rattle.budget_journal.specs.declared.opening.OpenFault.TheVariants.{DiskFault};
ghost use Rattle.budget_ledger.specs.declared.both.BothFault.TheVariants.{Refused};
ghost use Rattle.owner_books.specs.Shelves.{AreAtHome, AreLost, EachDisk, IsOnlySynced, IsUnwritten};
ghost use Rattle.owner_books.specs.Bays.{HasDiskCause, HasLostCause, KeepsBay};
ghost use Rattle.owner_books.specs.Opened.{IsFaultOf};
ghost use Rattle.owner_books.specs.Books.{ArePassesOn, ArePutBack, IsNewBook, IsNewPass, LeftDisk, TookDisk};
ghost use Rattle.owner_books.specs.Books.{IsBookFaultStop, IsBookStop, IsBothFaultStop, IsDiskStop, IsJournalStop, IsOpenStop, IsUnopenedStop};

use crate::refusals::{JournalRefusal, disk_line, journal_line};
use budget_core::entry::Entry;
use budget_journal::opening::OpenFault;
use budget_ledger::book::Book;
use budget_ledger::both::BothFault;
use catalog_loading::{Keyed, Opened, Registered, Stop, headers_of};
use journal_records::records::Header;
use outside_bays::bay::Bay;
use outside_disks::disk::Disk;
use outside_disks::disks::Disks;
use owner_desk::{Desk, Pass};
use owner_house::entry::new_entry;
use std::alloc::Global;

/// The bay or an owner's disk has failed.
pub fn disk_stop(alloc: Global, owner: &str) -> Stop
    ensures { IsDiskStop owner.now result }
{
    match disk_line(alloc, owner) {
        Ok(line) => Stop::Disk(line),
        Err(_) => Stop::NoMemory,
    }
}

/// An owner's journal is refused.
pub(crate) fn journal_stop(alloc: Global, owner: &str, refusal: JournalRefusal) -> Stop
    ensures { IsJournalStop owner.now refusal result }
{
    match journal_line(alloc, owner, refusal) {
        Ok(line) => Stop::Journal(line),
        Err(_) => Stop::NoMemory,
    }
}

/// An owner's journal was not opened.
fn open_stop(alloc: Global, owner: &str, fault: &OpenFault) -> Stop
    ensures { IsBookFaultStop owner.now fault.now result }
{
    match fault {
        OpenFault::DiskFault => disk_stop(alloc, owner),
        OpenFault::NoMemory => Stop::NoMemory,
        OpenFault::NotInitialised { length } => journal_stop(
            alloc,
            owner,
            JournalRefusal::Uninitialised { length: *length },
        ),
        OpenFault::Changed { .. } => journal_stop(alloc, owner, JournalRefusal::Changed),
        OpenFault::Damaged { slot } => {
            journal_stop(alloc, owner, JournalRefusal::Damaged { slot: *slot })
        }
    }
}

/// An owner's journal was not opened, on one disk or on two.
fn both_stop(alloc: Global, owner: &str, fault: &BothFault) -> Stop
    ensures { IsBothFaultStop owner.now fault.now result }
{
    match fault {
        BothFault::Refused(fault) => open_stop(alloc, owner, fault),
        BothFault::Forked { slot } => {
            journal_stop(alloc, owner, JournalRefusal::Forked { slot: *slot })
        }
        BothFault::VersionsDiffer => journal_stop(alloc, owner, JournalRefusal::Changed),
    }
}

/// Opens the book of this entry and header on a disk, or on both of two.
#[tactic(auto, using(crate::proofs::Stops::one_book, crate::proofs::Stops::two_books))]
fn open_disks<D: Disk>(
    alloc: Global,
    disks: Disks<D>,
    entry: Entry,
    header: &Header,
) -> Result<Book<D>, (Disks<D>, BothFault)>
    requires budget { header.now.budget ≡ entry.budget }
    requires capacity { header.now.capacity ≡ entry.capacity }
    ensures book { IfOk result (λ book. IsNewBook (record entry { version = book.storage.header.version })
        (record header.now { version = book.storage.header.version }) (Some (stored_of D.trace D.faults disks)) book) }
    ensures refused { IfErr result (λ refused. IsFaultOf entry header.now (stored_of D.trace D.faults disks)
        (stored_of D.trace D.faults refused.0) refused.1) }
    ensures left { IfErr result (λ refused. IsUnwritten (stored_of D.trace D.faults disks) (stored_of D.trace D.faults refused.0)) }
    ensures cause { IfErr result (λ refused. refused.1 ≡ Refused DiskFault
        → AreLost (stored_of D.trace D.faults disks) (stored_of D.trace D.faults refused.0)) }
{
    match disks {
        Disks::One(disk) => match Book::open(alloc, disk, entry, header) {
            Ok(book) => Ok(book),
            Err((disk, fault)) => Err((Disks::One(disk), BothFault::Refused(fault))),
        },
        Disks::Both(first, second) => match Book::open_both(alloc, first, second, entry, header) {
            Ok(book) => Ok(book),
            Err((first, second, fault)) => Err((Disks::Both(first, second), fault)),
        },
    }
}

/// Opens the book of this entry and header on an owner's disks. Where it isn't opened, the disks are put back.
pub fn open_on<B: Bay>(
    alloc: Global,
    bay: &mut B,
    name: &str,
    entry: Entry,
    header: &Header,
    owner: u32,
) -> Result<Book<B::D>, Stop>
    requires budget { header.now.budget ≡ entry.budget }
    requires capacity { header.now.capacity ≡ entry.capacity }
    requires known { owner < B.owners bay.old }
    requires home { IsSome (B.shelf bay.old owner) }
    ensures book { IfOk result (λ book. IsNewBook (record entry { version = book.storage.header.version })
        (record header.now { version = book.storage.header.version }) (B.shelf bay.old owner) book) }
    ensures taken { OnOk result (TookDisk owner (B.shelf bay.old) (B.shelf bay.new)) }
    ensures left { OnErr result (LeftDisk owner (B.shelf bay.old) (B.shelf bay.new)) }
    ensures stop { IfErr result (IsUnopenedStop name.now entry header.now (B.shelf bay.old owner) (B.shelf bay.new owner)) }
    ensures bay { KeepsBay B.shelf B.owners B.faults bay.old bay.new }
    ensures cause { HasDiskCause B.shelf B.owners B.faults bay.old bay.new result }
    ensures lost { HasLostCause B.shelf B.owners B.faults bay.old bay.new result }
{
    let Ok(disks) = bay.take(owner) else {
        return Err(disk_stop(alloc, name));
    };
    match open_disks(alloc, disks, entry, header) {
        Ok(book) => Ok(book),
        Err((disks, fault)) => {
            bay.put_back(owner, disks);
            Err(both_stop(alloc, name, &fault))
        }
    }
}

/// Opens an owner's book on its disks. Where it isn't opened, the disks are put back.
pub fn open_book<B: Bay, H: Registered>(
    alloc: Global,
    bay: &mut B,
    opened: &Keyed<H>,
    header: &Header,
    owner: u32,
) -> Result<Book<B::D>, Stop>
    requires owner { owner < owners_in opened.now.loading }
    requires header { header.now ≡ new_header opened.now.loading opened.now.key owner }
    requires known { owner < B.owners bay.old }
    requires home { IsSome (B.shelf bay.old owner) }
    ensures book { IfOk result (λ book. IsNewBook (entry_in opened.now.loading owner book.storage.header.version)
        (header_in opened.now.loading opened.now.key owner book.storage.header.version) (B.shelf bay.old owner) book) }
    ensures taken { OnOk result (TookDisk owner (B.shelf bay.old) (B.shelf bay.new)) }
    ensures left { OnErr result (LeftDisk owner (B.shelf bay.old) (B.shelf bay.new)) }
    ensures stop { IfErr result (IsBookStop opened.now.loading opened.now.key (B.shelf bay.old) (B.shelf bay.new) owner) }
    ensures bay { KeepsBay B.shelf B.owners B.faults bay.old bay.new }
    ensures cause { HasDiskCause B.shelf B.owners B.faults bay.old bay.new result }
    ensures lost { HasLostCause B.shelf B.owners B.faults bay.old bay.new result }
{
    let catalog = opened.catalog();
    let entry = new_entry(alloc, catalog, owner)?;
    let name = catalog.owner_name(owner);
    open_on(alloc, bay, name, entry, header, owner)
}

/// The owners' desks, in order, and the first pass on each.
#[derive(Drop)]
pub struct Opening<D: Disk> {
    pub desks: Vec<Desk<D>>,
    pub passes: Vec<Pass<D>>,
}

/// Closes the first owners' desks with the passes that have the whole shares, and puts the disks back.
#[tactic(none)]
pub fn put_back<B: Bay>(bay: &mut B, desks: Vec<Desk<B::D>>, passes: Vec<Pass<B::D>>)
    requires here { (bundle_of passes.items).locks ≡ desks.items }
    requires whole { All (λ s. s ≡ whole_share) (bundle_of passes.items).shares }
    requires few { length passes.items ≤ owner_limit }
    requires known { length passes.items ≤ B.owners bay.old }
    requires taken { (o : ℕ) → o < length passes.items → B.shelf bay.old o ≡ None }
    ensures back { (books : ℕ → Account)
        × ArePutBack (length passes.items) (bundle_of passes.items).knows books (B.shelf bay.old) (B.shelf bay.new) }
    ensures owners { B.owners bay.new ≡ B.owners bay.old }
    ensures faults { B.faults bay.new ≡ B.faults bay.old }
{
    let mut desks = desks;
    let mut rest = passes;
    while let Some(pass) = rest.pop() {
        let owner = rest.len() as u32;
        let Some(desk) = desks.pop() else {
            unreachable!()
        };
        bay.put_back(owner, desk.close(pass).into_disks());
    }
}

/// Opens an owner's book on its disks and puts it behind a lock, and gives the version of its journal. Where it isn't opened, or memory runs
/// out, the disks are put back.
fn open_desk<B: Bay>(
    alloc: Global,
    bay: &mut B,
    opened: &Opened,
    header: &Header,
    owner: u32,
) -> Result<(Desk<B::D>, Pass<B::D>, u8), Stop>
    requires owner { owner < owners_in opened.now.loading }
    requires header { header.now ≡ new_header opened.now.loading opened.now.key owner }
    requires known { owner < B.owners bay.old }
    requires home { IsSome (B.shelf bay.old owner) }
    ensures desk { IfOk result (λ r. (r.1.lock ≡ r.0) × (r.1.share ≡ whole_share)
        × IsNewPass (entry_in opened.now.loading owner r.2) (header_in opened.now.loading opened.now.key owner r.2) (B.shelf bay.old owner) r.1.knows) }
    ensures taken { OnOk result (TookDisk owner (B.shelf bay.old) (B.shelf bay.new)) }
    ensures left { OnErr result (LeftDisk owner (B.shelf bay.old) (B.shelf bay.new)) }
    ensures stop { IfErr result (IsBookStop opened.now.loading opened.now.key (B.shelf bay.old) (B.shelf bay.new) owner) }
    ensures bay { KeepsBay B.shelf B.owners B.faults bay.old bay.new }
    ensures cause { HasDiskCause B.shelf B.owners B.faults bay.old bay.new result }
    ensures lost { HasLostCause B.shelf B.owners B.faults bay.old bay.new result }
{
    let book = open_book(alloc, bay, opened, header, owner)?;
    let version = book.version();
    match Desk::new(alloc, owner, book) {
        Ok((desk, pass)) => Ok((desk, pass, version)),
        Err((book, _)) => {
            bay.put_back(owner, book.into_disks());
            Err(Stop::NoMemory)
        }
    }
}

/// A desk for each owner, in order, over the book that is opened on its disks, and its first pass; the house takes the versions of the
/// journals. Where a book isn't opened, or memory runs out, all disks are put back.
pub fn open_desks<B: Bay>(
    alloc: Global,
    bay: &mut B,
    opened: &mut Opened,
) -> Result<Opening<B::D>, Stop>
    requires home { AreAtHome (B.owners bay.old) (B.shelf bay.old) }
    ensures versions { (versions : List ℕ) × (length versions ≡ owner_limit)
        × (opened.new ≡ keyed (in_versions opened.old.loading versions) opened.old.key) }
    ensures passes { IfOk result (λ r. ArePassesOn (entry_at opened.new.loading)
        (header_of opened.new.loading opened.new.key) (owners_in opened.new.loading) (B.shelf bay.old) (B.shelf bay.new)
        (bundle_of r.passes.items).knows) }
    ensures here { IfOk result (λ r. (bundle_of r.passes.items).locks ≡ r.desks.items) }
    ensures whole { IfOk result (λ r. All (λ s. s ≡ whole_share) (bundle_of r.passes.items).shares) }
    ensures house { IfOk result (λ r. ArePasses (house_of opened.new.loading.register) (bundle_of r.passes.items).knows) }
    ensures left { OnErr result (EachDisk (owners_in opened.old.loading) (λ _. IsOnlySynced) (B.shelf bay.old) (B.shelf bay.new)) }
    ensures stop { IfErr result (IsOpenStop opened.old.loading opened.old.key (B.shelf bay.old) (B.shelf bay.new)) }
    ensures bay { KeepsBay B.shelf B.owners B.faults bay.old bay.new }
    ensures cause { HasDiskCause B.shelf B.owners B.faults bay.old bay.new result }
    ensures lost { HasLostCause B.shelf B.owners B.faults bay.old bay.new result }
{
    let headers = headers_of(alloc, opened)?;
    let mut desks = Vec::with_capacity(alloc, headers.len())?;
    let mut passes = Vec::with_capacity(alloc, headers.len())?;
    for owner in 0..headers.len() as u32 {
        match open_desk(alloc, bay, opened, &headers[owner as usize], owner) {
            Ok((desk, pass, version)) => {
                opened.set_version(owner, version);
                desks.push_reserved(desk);
                passes.push_reserved(pass);
            }
            Err(stop) => {
                put_back(bay, desks, passes);
                return Err(stop);
            }
        }
    }
    Ok(Opening { desks, passes })
}
