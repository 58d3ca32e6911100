//! What a catalog says of an owner's budget.

ghost use Rattle.std.specs.Prelude.{◌≡◌, ◌<◌, length, IfOk};
ghost use Rattle.owner_catalog.specs.Entries.{owner_entry_at};
ghost use Rattle.owner_house.specs.House.{entry_of, keys_of, limits_of};

use budget_core::entry::Entry;
use owner_catalog::Catalog;
use std::alloc::{AllocError, Global};

// How many keys each of an owner's partitions has.
fn keys_in(alloc: Global, catalog: &Catalog, owner: u32) -> Result<Vec<u16>, AllocError>
    requires { owner < length catalog.now.owners }
    ensures { IfOk result (λ keys. keys.items ≡ keys_of (owner_entry_at catalog.now owner)) }
{
    let partitions = catalog.partitions(owner);
    let mut keys = Vec::new(alloc);
    for partition in 0..partitions {
        keys.push(catalog.keys(owner, partition as u8) as u16)?;
    }
    Ok(keys)
}

// What each analyst may spend with an owner at most, where it has a limit.
fn limits_in(
    alloc: Global,
    catalog: &Catalog,
    owner: u32,
    analysts: u16,
) -> Result<Vec<Option<u64>>, AllocError>
    requires owner { owner < length catalog.now.owners }
    requires analysts { analysts ≡ length catalog.now.analysts }
    ensures { IfOk result (λ limits. limits.items ≡ limits_of catalog.now (owner_entry_at catalog.now owner)) }
{
    let mut limits = Vec::new(alloc);
    for analyst in 0..analysts {
        limits.push(catalog.limit(owner, analyst))?;
    }
    Ok(limits)
}

/// What is kept of an owner's budget, for a new journal.
pub fn new_entry(alloc: Global, catalog: &Catalog, owner: u32) -> Result<Entry, AllocError>
    requires { owner < length catalog.now.owners }
    ensures { IfOk result (λ entry. entry ≡ entry_of catalog.now (owner_entry_at catalog.now owner)) }
{
    // The look at how many owners there are tells the proof what a catalog keeps.
    let _owners = catalog.owners();
    let analysts = catalog.analysts() as u16;
    let keys = keys_in(alloc, catalog, owner)?;
    let limits = limits_in(alloc, catalog, owner, analysts)?;
    Ok(Entry::new(
        catalog.budget(owner),
        catalog.capacity(owner),
        analysts,
        keys,
        limits,
    ))
}
