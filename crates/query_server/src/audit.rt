//! The records in the owners' journals are counted.

ghost use Rattle.std.specs.Prelude.{◌≡◌, ◌++◌, ◌<◌, ℕ, List, length, IfErr, IfOk, IsErrOf, IsSome, OnOk};
ghost use Rattle.journal_records.specs.declared.records.Record.{Record};
ghost use Rattle.owner_catalog.specs.Entries.{owner_entry_at};
ghost use Rattle.catalog_loading.specs.Loaded.{entry_in, header_in, in_versions, new_header, owners_in};
ghost use Rattle.generated_run.specs.SessionCore.Transcript.{Journals};
ghost use Rattle.owner_books.specs.Shelves.{AreAtHome, EachDisk, IsOnlySynced, StandsStill};
ghost use Rattle.owner_books.specs.Bays.{HasDiskCause, HasLostCause, KeepsBay};
ghost use Rattle.owner_books.specs.Opened.{AreOpened, IsOpened};
ghost use Rattle.query_server.specs.Audit.{counted_line, counted_text};
ghost use Rattle.query_server.specs.Work.{to_count};
ghost use Rattle.query_server.specs.Ends.{IsEndOf};
ghost use Rattle.owner_books.specs.Books.{IsBookStop, IsOpenStop, LeftDisk};

use crate::end::End;
use budget_ledger::book::Book;
use catalog_loading::{OpenedTables, Stop, headers_of};
use journal_records::records::Header;
use outside_bays::bay::Bay;
use outside_disks::disk::Disk;
use owner_books::{open_book, put_field};
use owner_catalog::Catalog;
use std::alloc::{AllocError, Global};

/// Puts the line of an owner's records behind some lines.
fn put_counted<D: Disk>(
    lines: &mut Vec<u8>,
    catalog: &Catalog,
    owner: u32,
    book: &Book<D>,
) -> Result<(), AllocError>
    requires { owner < length catalog.now.owners }
    ensures { IfOk result (λ _. lines.new.items ≡ lines.old.items
        ++ counted_line book.now.ledger.entry (owner_entry_at catalog.now owner) book.now.ledger.records) }
{
    let counts = book.counts();
    lines.extend_from_slice(catalog.owner_name(owner).as_bytes())?;
    put_field(lines, b" reservations ", u64::from(counts.reservations))?;
    put_field(lines, b" answered ", u64::from(counts.answered))?;
    put_field(lines, b" exhausted ", u64::from(counts.exhausted))?;
    put_field(lines, b" lost ", u64::from(counts.lost))?;
    let left = book.left();
    put_field(lines, b" spent ", left.spent)?;
    put_field(lines, b" budget ", left.budget)?;
    lines.extend_from_slice(b"\n")
}

/// Puts the line of an owner behind some lines: its book is opened on its disk, which is put back.
fn count_owner<B: Bay>(
    alloc: Global,
    bay: &mut B,
    opened: &OpenedTables,
    header: &Header,
    owner: u32,
    lines: &mut Vec<u8>,
) -> Result<(), Stop>
    requires owner { owner < owners_in opened.now.loading }
    requires header { header.now ≡ new_header opened.now.loading opened.now.key owner }
    requires known { owner < B.owners bay.old }
    requires home { IsSome (B.shelf bay.old owner) }
    ensures counted { OnOk result ((version : ℕ) × (found : List Record)
        × IsOpened (entry_in opened.now.loading owner version) (header_in opened.now.loading opened.now.key owner version)
        (B.shelf bay.old owner) (B.shelf bay.new owner) found
        × (lines.new.items ≡ lines.old.items ++ counted_line (entry_in opened.now.loading owner version)
        (owner_entry_at opened.now.loading.register.catalog owner) found)) }
    ensures left { LeftDisk owner (B.shelf bay.old) (B.shelf bay.new) }
    ensures still { OnOk result (StandsStill owner (B.shelf bay.old) (B.shelf bay.new)) }
    ensures stop { IfErr result (IsBookStop opened.now.loading opened.now.key (B.shelf bay.old) (B.shelf bay.new) owner) }
    ensures bay { KeepsBay B.shelf B.owners B.faults bay.old bay.new }
    ensures cause { HasDiskCause B.shelf B.owners B.faults bay.old bay.new result }
    ensures lost { HasLostCause B.shelf B.owners B.faults bay.old bay.new result }
{
    let book = open_book(alloc, bay, opened, header, owner)?;
    let counted = put_counted(lines, opened.catalog(), owner, &book);
    bay.put_back(owner, book.into_disks());
    counted?;
    Ok(())
}

/// The lines of all owners, whose books are opened one after another, up to the first that isn't opened.
fn count_all<B: Bay>(alloc: Global, bay: &mut B, opened: &OpenedTables) -> Result<Vec<u8>, Stop>
    requires home { AreAtHome (B.owners bay.old) (B.shelf bay.old) }
    ensures counted { IfOk result (λ lines. (versions : List ℕ) × (found : Journals)
        × AreOpened opened.now.loading opened.now.key (B.shelf bay.old) (B.shelf bay.new) versions found
        × (lines.items ≡ counted_text (in_versions opened.now.loading versions) found)) }
    ensures disks { EachDisk (owners_in opened.now.loading) (λ _. IsOnlySynced) (B.shelf bay.old) (B.shelf bay.new) }
    ensures stop { IfErr result (IsOpenStop opened.now.loading opened.now.key (B.shelf bay.old) (B.shelf bay.new)) }
    ensures bay { KeepsBay B.shelf B.owners B.faults bay.old bay.new }
    ensures disk { HasDiskCause B.shelf B.owners B.faults bay.old bay.new result }
    ensures lost { HasLostCause B.shelf B.owners B.faults bay.old bay.new result }
{
    let headers = headers_of(alloc, opened)?;
    let mut lines = Vec::new(alloc);
    for owner in 0..headers.len() as u32 {
        count_owner(
            alloc,
            bay,
            opened,
            &headers[owner as usize],
            owner,
            &mut lines,
        )?;
    }
    Ok(lines)
}

/// Counts the records in the journals of all owners.
pub(crate) fn list_counted<B: Bay>(
    alloc: Global,
    bay: &mut B,
    opened: &OpenedTables,
) -> Result<End, Stop>
    requires home { AreAtHome (B.owners bay.old) (B.shelf bay.old) }
    ensures end { (script : List ℕ) → IsEndOf (to_count opened.now.loading opened.now.key)
        (B.shelf bay.old) (B.shelf bay.new) script result }
    ensures bay { KeepsBay B.shelf B.owners B.faults bay.old bay.new }
    ensures disk { HasDiskCause B.shelf B.owners B.faults bay.old bay.new result }
    ensures lost { HasLostCause B.shelf B.owners B.faults bay.old bay.new result }
    ensures sound { IsErrOf result Stop.Fault → ⊥ }
{
    match count_all(alloc, bay, opened) {
        Ok(lines) => Ok(End::Done(lines)),
        Err(stop) => Err(stop),
    }
}
