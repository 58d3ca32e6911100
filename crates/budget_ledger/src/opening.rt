//! Opening a book that a stop may have left.

ghost use Rattle.std.specs.Prelude.{◌≡◌, Some, None, IfOk, IfErr};
ghost use Rattle.fz_outside.specs.Faults.{HasCause};
ghost use Rattle.outside_disks.specs.Disks.{Trace, WhereTold, seen_of};
ghost use Rattle.budget_journal.specs.Journals.{Found, MayHaveSynced};
ghost use Rattle.budget_journal.specs.declared.opening.OpenFault.TheVariants.{DiskFault};
ghost use Rattle.budget_ledger.specs.Account.{IsBook};
ghost use Rattle.budget_ledger.specs.Opened.{IsBookFault};

use crate::book::Book;
use crate::halves::Store;
use budget_core::answers::FoundFault;
use budget_core::entry::Entry;
use budget_core::ledger::Ledger;
use budget_journal::journal::Journal;
use budget_journal::opening::OpenFault;
use journal_records::records::Header;
use outside_disks::disk::Disk;
use std::alloc::Global;

impl<D: Disk> Book<D> {
    /// Opens the book of this entry and header that a stop may have left, in whatever version its journal has. The room for the
    /// whole capacity is taken here.
    pub fn open(
        alloc: Global,
        disk: D,
        entry: Entry,
        header: &Header,
    ) -> Result<Book<D>, (D, OpenFault)>
        requires budget { header.now.budget ≡ entry.budget }
        requires capacity { header.now.capacity ≡ entry.capacity }
        ensures found { IfOk result (λ book. WhereTold (Found book.storage.header book.ledger.found) (D.trace disk) book.storage.trace) }
        ensures fresh { IfOk result (λ book. (book.ledger ≡ record {
          entry = record entry { version = book.storage.header.version };
          found = book.ledger.found;
          records = book.ledger.found;
        })
            × (book.storage ≡ record {
              header = record header.now { version = book.storage.header.version };
              trace = book.storage.trace;
              faults = D.faults disk;
              closed = None;
              copies = None;
            })) }
        ensures book { IfOk result IsBook }

        ensures refused { IfErr result (λ refused. (t : Trace) → D.trace disk ≡ Some t → IsBookFault entry header.now (seen_of t) refused.1) }
        ensures kept { IfErr result (λ refused. MayHaveSynced (D.trace disk) (D.trace refused.0)) }
        ensures cause { IfErr result (λ refused. HasCause (D.faults disk) (D.faults refused.0) (refused.1 ≡ DiskFault)) }
    {
        let (journal, records) = Journal::open(alloc, disk, header)?;
        let version = journal.version();
        match Ledger::found(alloc, entry.with_version(version), records) {
            Ok(ledger) => Ok(Book {
                store: Store::One(journal),
                ledger,
                header: Header { version, ..*header },
                failure: None,
            }),
            Err(FoundFault::Astray(slot)) => Err((
                journal.into_disk(),
                OpenFault::Damaged { slot },
            )),
            Err(FoundFault::NoMemory) => Err((journal.into_disk(), OpenFault::NoMemory)),
        }
    }
}
