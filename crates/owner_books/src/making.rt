//! The owners' journals are made on their disks.

ghost use Rattle.std.specs.Prelude.{◌≡◌, ◌≢◌, ◌⊎◌, ◌<◌, ◌≤◌, ℕ, IsSome, IfErr, OnOk};
ghost use Rattle.fz_outside.specs.Faults.{HasRisen};
ghost use Rattle.outside_disks.specs.Stored.{HasCountRisen, stored_of};
ghost use Rattle.journal_records.specs.Encoding.{IsHeader};
ghost use Rattle.budget_journal.specs.declared.making.InitFault.TheVariants.{DiskFault};
ghost use Rattle.catalog_loading.specs.Loaded.{new_header, owners_in};
ghost use Rattle.owner_books.specs.Shelves.{AreAtHome, EachDisk};
ghost use Rattle.owner_books.specs.Bays.{HasDiskCause, KeepsBay};
ghost use Rattle.owner_books.specs.Making.{IsMade, IsMakeStop, IsUnmade, IsUnmadeStop, Turned};

use crate::books::{disk_stop, journal_stop};
use crate::refusals::JournalRefusal;
use budget_journal::journal::Journal;
use budget_journal::making::InitFault;
use budget_ledger::both::init_both;
use catalog_loading::{OpenedTables, Stop, headers_of};
use journal_records::records::Header;
use outside_bays::bay::Bay;
use outside_disks::disk::Disk;
use outside_disks::disks::Disks;
use std::alloc::Global;

/// Makes a journal on an owner's disk, or on both of two.
#[tactic(auto, using(crate::proofs::Made::two_made, crate::proofs::Made::one_unmade, crate::proofs::Made::two_unmade, crate::proofs::Made::two_risen))]
fn init_disks<D: Disk>(disks: &mut Disks<D>, header: &Header) -> Result<(), InitFault>
    requires header { IsHeader header.now }
    requires grown { 2 ≤ header.now.version }
    ensures made { OnOk result (IsMade header.now (stored_of D.trace D.faults disks.old) (stored_of D.trace D.faults disks.new)) }
    ensures unmade { IfErr result (λ fault. IsUnmade fault (stored_of D.trace D.faults disks.old) (stored_of D.trace D.faults disks.new)) }
    ensures cause { IfErr result (λ fault. fault ≡ DiskFault
        → HasCountRisen (stored_of D.trace D.faults disks.old) (stored_of D.trace D.faults disks.new)) }
{
    match disks {
        Disks::One(disk) => Journal::init(disk, header),
        Disks::Both(first, second) => init_both(first, second, header),
    }
}

/// Makes the journal of an owner: its disks are taken, and put back.
#[tactic(auto, using(crate::proofs::Made::untaken))]
fn make_journal<B: Bay>(bay: &mut B, owner: u32, header: &Header) -> Result<(), InitFault>
    requires owner { owner < B.owners bay.old }
    requires home { IsSome (B.shelf bay.old owner) }
    requires header { IsHeader header.now }
    requires grown { 2 ≤ header.now.version }
    ensures made { OnOk result (Turned (IsMade header.now) (B.shelf bay.old owner) (B.shelf bay.new owner)) }
    ensures unmade { IfErr result (λ fault. Turned (IsUnmade fault) (B.shelf bay.old owner) (B.shelf bay.new owner)) }
    ensures others { (o : ℕ) → o ≢ owner → B.shelf bay.new o ≡ B.shelf bay.old o }
    ensures bay { KeepsBay B.shelf B.owners B.faults bay.old bay.new }
    ensures passed { OnOk result (B.faults bay.new ≡ B.faults bay.old) }
    ensures cause { IfErr result (λ fault. fault ≡ DiskFault → HasRisen (B.faults bay.old) (B.faults bay.new)
        ⊎ Turned HasCountRisen (B.shelf bay.old owner) (B.shelf bay.new owner)) }
{
    let mut disks = bay.take(owner)?;
    let made = init_disks(&mut disks, header);
    bay.put_back(owner, disks);
    made
}

/// What stops a command where no journal was made on an owner's disk.
fn unmade_stop(alloc: Global, owner: &str, fault: InitFault) -> Stop
    ensures { IsUnmadeStop owner.now fault result }
{
    match fault {
        InitFault::DiskFault => disk_stop(alloc, owner),
        InitFault::AlreadyThere { length } => {
            journal_stop(alloc, owner, JournalRefusal::Exists { length })
        }
    }
}

/// Makes the journals of all owners in order, up to the first that isn't made.
pub fn make_all<B: Bay>(alloc: Global, bay: &mut B, opened: &OpenedTables) -> Result<(), Stop>
    requires home { AreAtHome (B.owners bay.old) (B.shelf bay.old) }
    ensures made { OnOk result (EachDisk (owners_in opened.now.loading)
        (λ o. IsMade (new_header opened.now.loading opened.now.key o))
        (B.shelf bay.old) (B.shelf bay.new)) }
    ensures stop { IfErr result (IsMakeStop opened.now.loading opened.now.key
        (B.shelf bay.old) (B.shelf bay.new)) }
    ensures bay { KeepsBay B.shelf B.owners B.faults bay.old bay.new }
    ensures disk { HasDiskCause B.shelf B.owners B.faults bay.old bay.new result }
{
    let headers = headers_of(alloc, opened)?;
    for owner in 0..headers.len() as u32 {
        if let Err(fault) = make_journal(bay, owner, &headers[owner as usize]) {
            return Err(unmade_stop(alloc, opened.catalog().owner_name(owner), fault));
        }
    }
    Ok(())
}
