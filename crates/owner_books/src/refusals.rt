//! Why an owner's journal is refused, and the line of it.

ghost use Rattle.std.specs.Prelude.{◌≡◌, ◌++◌, IfOk};
ghost use Rattle.owner_books.specs.Refusals.{disk_text, journal_text, refusal_text};

use crate::numbers::put_field;
use std::alloc::{AllocError, Global};

/// Why an owner's journal is not opened or not made.
#[derive(Clone, Copy)]
pub enum JournalRefusal {
    /// No `init` was done: the disk has so many bytes, and no header.
    Uninitialised { length: u64 },
    /// The header is another one: the entry, the key or a table has changed.
    Changed,
    /// The least slot that isn't right.
    Damaged { slot: u32 },
    /// An `init` was done before: the disk has so many bytes.
    Exists { length: u64 },
    /// Two disks have different records in this slot, the least such one.
    Forked { slot: u32 },
}

/// Puts why a journal is refused behind a line.
fn put_refusal(line: &mut Vec<u8>, refusal: JournalRefusal) -> Result<(), AllocError>
    ensures { IfOk result (λ _. line.new.items ≡ line.old.items ++ refusal_text refusal) }
{
    match refusal {
        JournalRefusal::Uninitialised { length } => put_field(line, b"uninitialised ", length),
        JournalRefusal::Changed => line.extend_from_slice(b"changed"),
        JournalRefusal::Damaged { slot } => put_field(line, b"damaged ", u64::from(slot)),
        JournalRefusal::Exists { length } => put_field(line, b"exists ", length),
        JournalRefusal::Forked { slot } => put_field(line, b"forked ", u64::from(slot)),
    }
}

/// The line of an owner whose journal is refused.
pub(crate) fn journal_line(
    alloc: Global,
    owner: &str,
    refusal: JournalRefusal,
) -> Result<Vec<u8>, AllocError>
    ensures { IfOk result (λ line. line.items ≡ journal_text owner.now refusal) }
{
    let mut line = Vec::new(alloc);
    line.extend_from_slice(b"journal ")?;
    line.extend_from_slice(owner.as_bytes())?;
    line.extend_from_slice(b" ")?;
    put_refusal(&mut line, refusal)?;
    line.extend_from_slice(b"\n")?;
    Ok(line)
}

/// The line of an owner whose disk, or the bay that keeps it, has failed.
pub(crate) fn disk_line(alloc: Global, owner: &str) -> Result<Vec<u8>, AllocError>
    ensures { IfOk result (λ line. line.items ≡ disk_text owner.now) }
{
    let mut line = Vec::new(alloc);
    line.extend_from_slice(b"disk ")?;
    line.extend_from_slice(owner.as_bytes())?;
    line.extend_from_slice(b"\n")?;
    Ok(line)
}
