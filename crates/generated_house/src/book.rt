//! The owner's book, on a disk in memory.

ghost use Rattle.std.specs.Prelude.{◌≡◌, ◌≤◌, [], None, IfOk};
ghost use Rattle.budget_ledger.specs.Account.{IsBook};
ghost use Rattle.generated_house.specs.Sizes.{most_asks};
ghost use Rattle.generated_house.specs.House.{entry_for};

use crate::{PRICE, VERSION, paid_of};
use budget_core::entry::Entry;
use budget_journal::journal::Journal;
use budget_ledger::book::Book;
use journal_records::records::Header;
use outside_disks::memory::{Limits, MemDisk};
use std::alloc::{AllocError, Global};

// More than it takes to make a journal of such a capacity, to read it and to fill it. Its areas have less than three times as many slots
// together: the last one no more, and those before it less than twice as many, since each is half of the next. A slot is written once,
// read at most once where it is copied, and filled by five calls at most.
fn limits_of(capacity: u32) -> Limits
    requires { capacity ≤ 200000 }
{
    Limits {
        length: 192 * capacity + 128,
        calls: 10 * capacity + 512,
        written: 256 * capacity + 1024,
    }
}

/// The book of so many asks, which has no records yet.
#[tactic(auto, using(crate::proofs::Books::entry_lawful_with))]
pub fn generated_book(alloc: Global, asks: u32) -> Result<Book<MemDisk<'static>>, AllocError>
    requires asks { (1 ≤ asks) × (asks ≤ most_asks) }
    ensures ledger { IfOk result (λ book. book.ledger ≡ record { entry = entry_for asks; found = []; records = [] }) }
    ensures fresh { IfOk result (λ book. book.storage.closed ≡ None) }
    ensures book { IfOk result IsBook }
{
    let keys = Vec::new(alloc);
    let limits = vec![in alloc; None]?;
    let entry = Entry::new(
        u64::from(paid_of(asks)) * PRICE,
        2 * asks,
        1,
        keys,
        limits,
    ).with_version(VERSION);
    let header = Header {
        owner: 0,
        budget: entry.budget(),
        capacity: entry.capacity(),
        digest: [0; 32],
        version: entry.version(),
    };
    let mut disk = MemDisk::new(alloc, &[], limits_of(header.capacity), &[])?;
    // The disk is empty and has room for all of this, so it doesn't fail.
    let Ok(()) = Journal::init(&mut disk, &header) else {
        return Err(AllocError);
    };
    match Book::open(alloc, disk, entry, &header) {
        Ok(book) => Ok(book),
        Err(_) => Err(AllocError),
    }
}
