//! The budget of one owner is raised.

ghost use Rattle.std.specs.Prelude.{◌≡◌, ◌<◌, ℕ, List, Option, IfOk, IsErrOf};
ghost use Rattle.fz_outside.specs.Faults.{HasRisen};
ghost use Rattle.budget_core.specs.Granting.{IsAmount};
ghost use Rattle.budget_ledger.specs.Account.{IsBook, Went};
ghost use Rattle.owner_books.specs.Shelves.{AreAtHome};
ghost use Rattle.owner_books.specs.Bays.{HasDiskCause, HasLostCause, KeepsBay};
ghost use Rattle.query_server.specs.Outside.{KeepsFiles};
ghost use Rattle.query_server.specs.Due.{ForContents};
ghost use Rattle.query_server.specs.Ends.{IsEndOf, IsStepEnd};
ghost use Rattle.query_server.specs.Grant.{grant_steps, granted_text};
ghost use Rattle.query_server.specs.Granted.{IsGrantEnd, IsRefusalEnd};
ghost use Rattle.query_server.specs.Work.{to_grant};

use crate::end::End;
use budget_core::answers::GrantRefusal;
use budget_ledger::book::{Book, GrantFault};
use catalog_loading::{OpenedOwner, Stop, open_owner};
use fz_outside::files::Files;
use outside_bays::bay::Bay;
use outside_disks::disk::Disk;
use owner_books::{disk_stop, open_on, put_field};
use std::alloc::{AllocError, Global};

/// The line of a grant: the owner, the budget with it, and how many records there are.
fn granted_line(alloc: Global, owner: &str, budget: u64, seen: u32) -> Result<Vec<u8>, AllocError>
    ensures { IfOk result (λ line. line.items ≡ granted_text owner.now budget seen) }
{
    let mut line = Vec::new(alloc);
    line.extend_from_slice(b"granted ")?;
    line.extend_from_slice(owner.as_bytes())?;
    put_field(&mut line, b" ", budget)?;
    put_field(&mut line, b" ", u64::from(seen))?;
    line.extend_from_slice(b"\n")?;
    Ok(line)
}

/// The end of a grant that is refused.
fn refused_end(alloc: Global, refusal: GrantRefusal) -> Result<End, AllocError>
    ensures { IfOk result (IsRefusalEnd refusal) }
{
    let mut line = Vec::new(alloc);
    match refusal {
        GrantRefusal::TooLarge { budget, .. } => {
            put_field(&mut line, b"too large ", budget)?;
            line.extend_from_slice(b"\n")?;
            Ok(End::TooLarge(line))
        }
        GrantRefusal::Full { used, capacity, .. } => {
            put_field(&mut line, b"full ", u64::from(used))?;
            put_field(&mut line, b" ", u64::from(capacity))?;
            line.extend_from_slice(b"\n")?;
            Ok(End::JournalFull(line))
        }
    }
}

/// Grants an amount over an owner's book. The line of that is made before: where memory is wanting for it, nothing is granted.
fn grant_over<D: Disk>(
    alloc: Global,
    book: &mut Book<D>,
    owner: &str,
    amount: u64,
) -> Result<End, Stop>
    requires amount { IsAmount amount }
    requires book { IsBook book.old }
    ensures end { IsGrantEnd book.old owner.now amount result book.new }
    ensures went { Went book.old.ledger.records book.new.ledger.records book.old.storage book.new.storage }
    ensures kept { IsBook book.new }
{
    let now = book.left();
    let line = granted_line(alloc, owner, now.budget + amount, now.seen + 1)?;
    match book.grant(amount) {
        Ok(_) => Ok(End::Done(line)),
        Err(GrantFault::Refused(refusal)) => Ok(refused_end(alloc, refusal)?),
        Err(GrantFault::Unwritten(_)) => Err(disk_stop(alloc, owner)),
    }
}

/// Opens an owner's book, grants an amount over it, and puts the disk back.
fn grant<B: Bay>(alloc: Global, bay: &mut B, opened: &OpenedOwner, amount: u64) -> Result<End, Stop>
    requires home { AreAtHome (B.owners bay.old) (B.shelf bay.old) }
    requires amount { IsAmount amount }
    ensures end { (script : List ℕ) → IsEndOf (to_grant amount opened.now) (B.shelf bay.old) (B.shelf bay.new) script result }
    ensures bay { KeepsBay B.shelf B.owners B.faults bay.old bay.new }
    ensures disk { HasDiskCause B.shelf B.owners B.faults bay.old bay.new result }
    ensures lost { HasLostCause B.shelf B.owners B.faults bay.old bay.new result }
    ensures sound { IsErrOf result Stop.Fault → ⊥ }
{
    let header = opened.header()?;
    let entry = opened.entry(alloc)?;
    let owner = opened.number();
    let mut book = open_on(alloc, bay, opened.name(), entry, &header, owner)?;
    let end = grant_over(alloc, &mut book, opened.name(), amount);
    bay.put_back(owner, book.into_disks());
    end
}

/// Reads a catalog, a key and one owner's tables, and grants an amount to the owner's budget.
pub(crate) fn grant_budget<F: Files, B: Bay>(
    alloc: Global,
    files: &mut F,
    bay: &mut B,
    catalog: &str,
    key: &str,
    owner: &str,
    amount: u64,
) -> Result<End, Stop>
    requires home { AreAtHome (B.owners bay.old) (B.shelf bay.old) }
    requires amount { IsAmount amount }
    ensures end { (left : Option (List ℕ)) → ForContents (F.held files.old) left
        (IsStepEnd (F.names files.old) (F.names files.new) (B.shelf bay.old) (B.shelf bay.new)
        (grant_steps catalog.now key.now owner.now amount) result) }
    // Where a call of files failed, no disk was touched.
    ensures unmoved { F.faults files.old < F.faults files.new → bay.new ≡ bay.old }
    ensures files { KeepsFiles F.held F.names F.faults files.old files.new }
    ensures bay { KeepsBay B.shelf B.owners B.faults bay.old bay.new }
    ensures cause { IsErrOf result Stop.Fault → HasRisen (F.faults files.old) (F.faults files.new) }
    ensures disk { HasDiskCause B.shelf B.owners B.faults bay.old bay.new result }
    ensures lost { HasLostCause B.shelf B.owners B.faults bay.old bay.new result }
{
    let opened = open_owner(alloc, files, catalog, key, owner)?;
    grant(alloc, bay, &opened, amount)
}
