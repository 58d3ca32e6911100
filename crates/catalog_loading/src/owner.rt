//! One owner is opened, for its journal alone: a catalog, a key, and the owner's tables.

ghost use Rattle.std.specs.Prelude.{◌≡◌, ◌<◌, length, IfErr, IfOk, IsErrOf, OnOk};
ghost use Rattle.fz_outside.specs.Faults.{HasCause};
ghost use Rattle.journal_records.specs.Encoding.{IsHeader};
ghost use Rattle.catalog_loading.specs.Loaded.{IsKeyedOwner, its_entry, its_header, its_name, keyed_owner_read};
ghost use Rattle.catalog_loading.specs.Given.{IsStep};

use crate::loading::{load_tables, open_catalog};
use crate::opening::find_owner;
use crate::reading::read_key;
use crate::stops::Stop;
use budget_core::entry::Entry;
use fz_outside::files::Files;
use journal_records::records::{Header, NEWEST_VERSION};
use owner_catalog::{Catalog, digest};
use owner_house::entry::new_entry;
use std::alloc::{AllocError, Global};
use std::marker::Model;

/// An owner of a catalog, with the SHA-256 of its table files and a key: what its journal's header is made of.
#[derive(Drop)]
pub struct OpenedOwner {
    catalog: Catalog,
    number: u32,
    hashes: Vec<[u8; 32]>,
    key: [u8; 32],
}

impl Model for OpenedOwner {
    ghost use Rattle.catalog_loading.specs.Loaded.{IsKeyedOwner, KeyedOwner};

    ghost Value = { KeyedOwner };

    ghost view = { λ o. record { catalog = o.catalog; number = o.number; hashes = o.hashes.items; key = o.key } };

    ghost invariant = { λ o. IsKeyedOwner (record { catalog = o.catalog; number = o.number; hashes = o.hashes.items; key = o.key }) };
}

impl OpenedOwner {
    /// Its number in the catalog.
    pub fn number(&self) -> u32
        ensures number { result ≡ self.now.number }
        ensures lawful { IsKeyedOwner self.now }
    {
        self.number
    }

    /// Its name.
    pub fn name(&self) -> &str
        ensures { result.now ≡ its_name self.now }
    {
        self.catalog.owner_name(self.number)
    }

    /// What is kept of its budget, for a new journal.
    pub fn entry(&self, alloc: Global) -> Result<Entry, AllocError>
        ensures { IfOk result (λ entry. entry ≡ its_entry self.now) }
    {
        new_entry(alloc, &self.catalog, self.number)
    }

    /// The header of its journal where it is new.
    pub fn header(&self) -> Result<Header, Stop>
        ensures header { IfOk result (λ header. header ≡ its_header self.now) }
        ensures valid { IfOk result IsHeader }
        ensures memory { IfErr result (λ stop. stop ≡ Stop.NoMemory) }
    {
        let digest = digest(&self.catalog, self.number, &self.key, &self.hashes)?;
        Ok(Header {
            owner: self.number,
            budget: self.catalog.budget(self.number),
            capacity: self.catalog.capacity(self.number),
            digest,
            version: NEWEST_VERSION,
        })
    }
}

/// Opens the owner of this name: a catalog that has it, the key, and then the owner's tables.
pub fn open_owner<F: Files>(
    alloc: Global,
    files: &mut F,
    catalog: &str,
    key: &str,
    owner: &str,
) -> Result<OpenedOwner, Stop>
    ensures step { IsStep (F.held files.old) (F.names files.old) (F.names files.new)
        (keyed_owner_read catalog.now key.now owner.now) (λ opened. opened) result }
    ensures same { F.held files.new ≡ F.held files.old }
    ensures cause { HasCause (F.faults files.old) (F.faults files.new) (IsErrOf result Stop.Fault) }
    ensures passed { OnOk result (F.faults files.new ≡ F.faults files.old) }
{
    let catalog = open_catalog(alloc, files, catalog)?;
    let number = find_owner(alloc, &catalog, owner)?;
    let key = read_key(alloc, files, key)?;
    let loaded = load_tables(alloc, files, &catalog, number)?;
    Ok(OpenedOwner {
        catalog,
        number,
        hashes: loaded.hashes,
        key,
    })
}
