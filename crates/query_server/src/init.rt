//! The owners' journals are made, and listed.

ghost use Rattle.std.specs.Prelude.{◌≡◌, ◌++◌, ◌<◌, ℕ, length, List, IfOk, IsErrOf};
ghost use Rattle.std.specs.List.{flat_map};
ghost use Rattle.owner_catalog.specs.Entries.{owner_entry_at};
ghost use Rattle.owner_books.specs.Shelves.{AreAtHome};
ghost use Rattle.owner_books.specs.Bays.{HasDiskCause, KeepsBay};
ghost use Rattle.query_server.specs.Work.{to_make};
ghost use Rattle.query_server.specs.Init.{made_line};
ghost use Rattle.query_server.specs.Ends.{IsEndOf};

use crate::end::End;
use catalog_loading::{OpenedTables, Stop};
use outside_bays::bay::Bay;
use owner_books::{make_all, put_field};
use owner_catalog::Catalog;
use std::alloc::{AllocError, Global};

/// Puts the line of an owner whose journal is made behind some lines.
fn put_made(lines: &mut Vec<u8>, catalog: &Catalog, owner: u32) -> Result<(), AllocError>
    requires { owner < length catalog.now.owners }
    ensures { IfOk result (λ _. lines.new.items ≡ lines.old.items ++ made_line (owner_entry_at catalog.now owner)) }
{
    lines.extend_from_slice(b"owner ")?;
    lines.extend_from_slice(catalog.owner_name(owner).as_bytes())?;
    put_field(lines, b" budget ", catalog.budget(owner))?;
    put_field(lines, b" capacity ", u64::from(catalog.capacity(owner)))?;
    lines.extend_from_slice(b"\n")
}

/// The lines of all owners.
fn made_lines(alloc: Global, catalog: &Catalog) -> Result<Vec<u8>, AllocError>
    ensures { IfOk result (λ lines. lines.items ≡ flat_map made_line catalog.now.owners) }
{
    let mut lines = Vec::new(alloc);
    for owner in 0..catalog.owners() as u32 {
        put_made(&mut lines, catalog, owner)?;
    }
    Ok(lines)
}

/// Makes the journals of all owners. The lines come first: where memory is wanting for them, no disk is taken.
pub(crate) fn list_made<B: Bay>(
    alloc: Global,
    bay: &mut B,
    opened: &OpenedTables,
) -> Result<End, Stop>
    requires home { AreAtHome (B.owners bay.old) (B.shelf bay.old) }
    ensures end { (script : List ℕ) → IsEndOf (to_make opened.now.loading opened.now.key)
        (B.shelf bay.old) (B.shelf bay.new) script result }
    ensures bay { KeepsBay B.shelf B.owners B.faults bay.old bay.new }
    ensures disk { HasDiskCause B.shelf B.owners B.faults bay.old bay.new result }
    ensures sound { IsErrOf result Stop.Fault → ⊥ }
{
    let lines = made_lines(alloc, opened.catalog())?;
    make_all(alloc, bay, opened)?;
    Ok(End::Done(lines))
}
