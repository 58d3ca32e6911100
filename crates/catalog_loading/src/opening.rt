//! A house is opened: a catalog, a key, and the tables of all owners.

ghost use Rattle.std.specs.Prelude.{◌≡◌, ◌<◌, [], get_or, length, slice_set, IfErr, IfOk, IsErrOf, MatchResult, OnOk};
ghost use Rattle.owner_catalog.specs.Entries.{owner_entry_at};
ghost use Rattle.fz_outside.specs.Faults.{HasCause};
ghost use Rattle.catalog_loading.specs.Loaded.{IsKeyedHouse, entry_named, house_read, in_versions, keyed, number_named, owners_in};
ghost use Rattle.catalog_loading.specs.Given.{IsDecided, IsOwnerAt, IsRefusedBy, IsStep};

use crate::loading::{load_all, open_catalog};
use crate::reading::read_key;
use crate::registers::{Registered, Undivided};
use crate::stops::Stop;
use fz_outside::files::Files;
use owner_catalog::Catalog;
use owner_house::house::House;
use std::alloc::Global;
use std::marker::Model;

/// What all owners of a catalog hold, with the SHA-256 of their table files and a key.
#[derive(Drop)]
pub struct Keyed<H: Registered> {
    held: H,
    hashes: Vec<Vec<[u8; 32]>>,
    key: [u8; 32],
}

/// A house with the SHA-256 of its owners' table files and the key of its draws.
pub type Opened = Keyed<House>;

/// The same before its partitions' parts are made: what the headers of the owners' journals need.
pub type OpenedTables = Keyed<Undivided>;

impl<H: Registered> Model for Keyed<H> {
    ghost use Rattle.std.specs.Coded.{codes};
    ghost use Rattle.part_views.specs.Holding.{holding_code};
    ghost use Rattle.catalog_loading.specs.Loaded.{IsKeyedHouse, KeyedHouse, keyed};
    ghost use Rattle.catalog_loading.specs.Given.{loading_by};

    ghost Value = { KeyedHouse };

    ghost coded = { Prim.hlevel (codes, holding_code) };

    ghost view = { λ o. keyed (loading_by (H.register o.held) o.hashes.items) o.key };

    ghost invariant = { λ o. IsKeyedHouse (keyed (loading_by (H.register o.held) o.hashes.items) o.key) };
}

impl<H: Registered> Keyed<H> {
    /// The catalog.
    pub fn catalog(&self) -> &Catalog
        ensures catalog { result.now ≡ self.now.loading.register.catalog }
        ensures lawful { IsKeyedHouse self.now }
    {
        self.held.catalog()
    }

    /// The SHA-256 of each of an owner's table files, in order.
    pub(crate) fn hashes(&self, owner: u32) -> &[[u8; 32]]
        requires { owner < owners_in self.now.loading }
        ensures hashes { result.now ≡ get_or self.now.loading.hashes owner [] }
        ensures counted { length result.now ≡ length (owner_entry_at self.now.loading.register.catalog owner).tables }
    {
        &self.hashes[owner as usize]
    }

    /// The key of the draws.
    pub fn key(&self) -> [u8; 32]
        ensures { result ≡ self.now.key }
    {
        self.key
    }
}

impl OpenedTables {
    /// The same as a house: the parts of each owner's partitions are made.
    pub fn divide(self, alloc: Global) -> Result<Opened, Stop>
        ensures same { IfOk result (λ opened. opened ≡ self) }
        ensures memory { IfErr result (λ stop. stop ≡ Stop.NoMemory) }
    {
        let Keyed { held, hashes, key } = self;
        let house = held.divide(alloc)?;
        Ok(Keyed {
            held: house,
            hashes,
            key,
        })
    }
}

impl Opened {
    /// The house.
    pub fn house(&self) -> &House
        ensures house { result.now ≡ self.now.loading.register }
        ensures lawful { IsKeyedHouse self.now }
    {
        &self.held
    }

    /// An owner's journal is of this version.
    pub fn set_version(&mut self, owner: u32, version: u8)
        requires { owner < owners_in self.old.loading }
        ensures { self.new ≡ keyed (in_versions self.old.loading (slice_set self.old.loading.register.versions owner version)) self.old.key }
    {
        self.held.set_version(owner, version);
    }
}

/// Reads what a house is made of: its catalog, its key, and then the tables of all owners.
pub fn open_tables<F: Files>(
    alloc: Global,
    files: &mut F,
    catalog: &str,
    key: &str,
) -> Result<OpenedTables, Stop>
    ensures step { IsStep (F.held files.old) (F.names files.old) (F.names files.new) (house_read catalog.now key.now) (λ opened. opened) result }
    ensures same { F.held files.new ≡ F.held files.old }
    ensures cause { HasCause (F.faults files.old) (F.faults files.new) (IsErrOf result Stop.Fault) }
    ensures passed { OnOk result (F.faults files.new ≡ F.faults files.old) }
{
    let catalog = open_catalog(alloc, files, catalog)?;
    let key = read_key(alloc, files, key)?;
    let loaded = load_all(alloc, files, &catalog)?;
    let held = Undivided::new(catalog, loaded.tables);
    Ok(Keyed {
        held,
        hashes: loaded.hashes,
        key,
    })
}

/// Opens a house: its catalog, its key, and then the tables of all owners, of which the parts are made.
pub fn open_house<F: Files>(
    alloc: Global,
    files: &mut F,
    catalog: &str,
    key: &str,
) -> Result<Opened, Stop>
    ensures step { IsStep (F.held files.old) (F.names files.old) (F.names files.new) (house_read catalog.now key.now) (λ opened. opened) result }
    ensures same { F.held files.new ≡ F.held files.old }
    ensures cause { HasCause (F.faults files.old) (F.faults files.new) (IsErrOf result Stop.Fault) }
    ensures passed { OnOk result (F.faults files.new ≡ F.faults files.old) }
{
    let opened = open_tables(alloc, files, catalog, key)?;
    let house = opened.divide(alloc)?;
    Ok(house)
}

/// The number of the owner of this name.
pub fn find_owner(alloc: Global, catalog: &Catalog, name: &str) -> Result<u32, Stop>
    ensures owner { MatchResult result (IsOwnerAt catalog.now name.now) (IsRefusedBy (entry_named catalog.now name.now)) }
    ensures number { IsDecided (number_named catalog.now name.now) (λ owner. owner) result }
{
    match catalog.owner(name.as_bytes()) {
        Some(owner) => Ok(owner),
        None => Err(Stop::refuse(alloc, name)),
    }
}
