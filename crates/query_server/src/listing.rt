//! The owners are listed: their journals are made, or the records in them are counted.

ghost use Rattle.std.specs.Prelude.{◌≡◌, ◌<◌, ℕ, List, Option, IsErrOf};
ghost use Rattle.catalog_loading.specs.Loaded.{with_house};
ghost use Rattle.owner_books.specs.Shelves.{AreAtHome};
ghost use Rattle.owner_books.specs.Bays.{HasDiskCause, HasLostCause, KeepsBay};
ghost use Rattle.query_server.specs.Outside.{KeepsFiles};
ghost use Rattle.fz_outside.specs.Faults.{HasRisen};
ghost use Rattle.query_server.specs.Due.{ForContents};
ghost use Rattle.query_server.specs.Ends.{IsStepEnd, listed_work};

use crate::audit::list_counted;
use crate::end::End;
use crate::init::list_made;
use catalog_loading::{Stop, open_tables};
use fz_outside::files::Files;
use outside_bays::bay::Bay;
use std::alloc::Global;

/// What is listed of each owner.
#[derive(Clone, Copy)]
pub(crate) enum Listing {
    /// Its journal, which an `init` makes.
    Made,
    /// The records in its journal, which an `audit` counts.
    Counted,
}

/// Reads what the house of a catalog and a key is made of, and makes the journals of its owners, or counts the records in them.
pub(crate) fn list_owners<F: Files, B: Bay>(
    alloc: Global,
    files: &mut F,
    bay: &mut B,
    catalog: &str,
    key: &str,
    listing: Listing,
) -> Result<End, Stop>
    requires home { AreAtHome (B.owners bay.old) (B.shelf bay.old) }
    ensures end { (left : Option (List ℕ)) → ForContents (F.held files.old) left
        (IsStepEnd (F.names files.old) (F.names files.new) (B.shelf bay.old) (B.shelf bay.new)
        (with_house (listed_work listing) catalog.now key.now) result) }
    // Where a call of files failed, no disk was touched.
    ensures unmoved { F.faults files.old < F.faults files.new → bay.new ≡ bay.old }
    ensures files { KeepsFiles F.held F.names F.faults files.old files.new }
    ensures bay { KeepsBay B.shelf B.owners B.faults bay.old bay.new }
    ensures cause { IsErrOf result Stop.Fault → HasRisen (F.faults files.old) (F.faults files.new) }
    ensures disk { HasDiskCause B.shelf B.owners B.faults bay.old bay.new result }
    ensures lost { listing ≡ Listing.Counted → HasLostCause B.shelf B.owners B.faults bay.old bay.new result }
{
    let opened = open_tables(alloc, files, catalog, key)?;
    match listing {
        Listing::Made => list_made(alloc, bay, &opened),
        Listing::Counted => list_counted(alloc, bay, &opened),
    }
}
