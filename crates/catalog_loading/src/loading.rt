//! Catalogs, and the tables of all their owners.

ghost use Rattle.std.specs.Prelude.{◌≡◌, ◌<◌, ℕ, List, length, IfOk, IsErrOf, OnOk};
ghost use Rattle.sha2.specs.Sha256.{sha256};
ghost use Rattle.fz_outside.specs.Faults.{HasCause};
ghost use Rattle.table_store.specs.Table.{table_in_file};
ghost use Rattle.owner_house.specs.Names.{AreNames};
ghost use Rattle.owner_catalog.specs.Catalog.{IsCatalog, catalog_in_file, owner_signature};
ghost use Rattle.owner_catalog.specs.Entries.{owner_entry_at, table_entry_at};
ghost use Rattle.catalog_loading.specs.Steps.{one_by_one};
ghost use Rattle.catalog_loading.specs.Loaded.{IsLoading, catalog_read, loaded, or_refused, owner_loaded, owner_read, table_read};
ghost use Rattle.catalog_loading.specs.Given.{IsDecided, IsOwnerAt, IsStep, loading_read, owner_loaded_of};

use crate::reading::read_file;
use crate::stops::Stop;
use fz_outside::files::Files;
use metric_values::{Table, Tables};
use owner_catalog::{Catalog, CatalogFault, read};
use part_views::Dataset;
use sha2::{Digest, Sha256};
use std::alloc::Global;
use table_store::{Schema, TableFault, load};

/// A table's rows, and the SHA-256 of its file.
#[derive(Drop)]
struct LoadedTable {
    rows: Table,
    hash: [u8; 32],
}

/// An owner's tables, and the SHA-256 of each one's file, in order.
#[derive(Drop)]
pub(crate) struct LoadedTables {
    pub(crate) tables: Tables,
    pub(crate) hashes: Vec<[u8; 32]>,
}

/// The tables of each owner of a catalog, and the SHA-256 of each one's file, in order.
#[derive(Drop)]
pub(crate) struct Loaded {
    pub(crate) tables: Vec<Tables>,
    pub(crate) hashes: Vec<Vec<[u8; 32]>>,
}

/// The catalog that a file's bytes are.
fn catalog_of(alloc: Global, name: &str, bytes: &[u8]) -> Result<Catalog, Stop>
    ensures { IsDecided (or_refused name.now (catalog_in_file bytes.now)) (λ catalog. catalog) result }
{
    match read(alloc, bytes) {
        Ok(catalog) => Ok(catalog),
        Err(CatalogFault::NoMemory) => Err(Stop::NoMemory),
        Err(CatalogFault::Bad { .. }) => Err(Stop::refuse(alloc, name)),
    }
}

/// The catalog that a file holds.
pub fn open_catalog<F: Files>(alloc: Global, files: &mut F, name: &str) -> Result<Catalog, Stop>
    ensures step { IsStep (F.held files.old) (F.names files.old) (F.names files.new) (catalog_read name.now) (λ catalog. catalog) result }
    ensures same { F.held files.new ≡ F.held files.old }
    ensures cause { HasCause (F.faults files.old) (F.faults files.new) (IsErrOf result Stop.Fault) }
    ensures passed { OnOk result (F.faults files.new ≡ F.faults files.old) }
{
    let bytes = read_file(alloc, files, name)?;
    catalog_of(alloc, name, &bytes)
}

/// The rows that a file's bytes are under these columns.
fn rows_of(alloc: Global, name: &str, bytes: &[u8], schema: &Schema) -> Result<Table, Stop>
    ensures { IsDecided (or_refused name.now (table_in_file schema.now bytes.now)) (λ rows. rows) result }
{
    match load(alloc, bytes, schema) {
        Ok(rows) => Ok(rows),
        Err(TableFault::NoMemory) => Err(Stop::NoMemory),
        Err(_) => Err(Stop::refuse(alloc, name)),
    }
}

/// An owner's table, from its file. The file's bytes are let go at the end.
fn load_table<F: Files>(
    alloc: Global,
    files: &mut F,
    catalog: &Catalog,
    owner: u32,
    table: u8,
) -> Result<LoadedTable, Stop>
    requires owner { owner < length catalog.now.owners }
    requires table { table < length (owner_entry_at catalog.now owner).tables }
    ensures step { IsStep (F.held files.old) (F.names files.old) (F.names files.new) (table_read (table_entry_at catalog.now owner table))
        (λ table. record { rows = table.rows; hash = table.hash }) result }
    ensures same { F.held files.new ≡ F.held files.old }
    ensures cause { HasCause (F.faults files.old) (F.faults files.new) (IsErrOf result Stop.Fault) }
    ensures passed { OnOk result (F.faults files.new ≡ F.faults files.old) }
{
    let name = catalog.file(owner, table);
    let bytes = read_file(alloc, files, name)?;
    let rows = rows_of(alloc, name, &bytes, catalog.schema(owner, table))?;
    let hash = Sha256::digest(bytes.as_slice());
    Ok(LoadedTable { rows, hash })
}

/// All tables of an owner, in order.
pub(crate) fn load_tables<F: Files>(
    alloc: Global,
    files: &mut F,
    catalog: &Catalog,
    owner: u32,
) -> Result<LoadedTables, Stop>
    requires owner { owner < length catalog.now.owners }
    requires legal { IsCatalog catalog.now }
    ensures step { IsStep (F.held files.old) (F.names files.old) (F.names files.new) (owner_read (owner_entry_at catalog.now owner))
        (λ loaded. owner_loaded_of (owner_entry_at catalog.now owner) loaded.tables loaded.hashes.items) result }
    ensures same { F.held files.new ≡ F.held files.old }
    ensures cause { HasCause (F.faults files.old) (F.faults files.new) (IsErrOf result Stop.Fault) }
    ensures passed { OnOk result (F.faults files.new ≡ F.faults files.old) }
{
    let mut tables = Tables::new(alloc);
    let mut hashes = Vec::new(alloc);
    for table in 0..catalog.tables(owner) as u8 {
        let loaded = load_table(alloc, files, catalog, owner, table)?;
        tables.push(loaded.rows)?;
        hashes.push(loaded.hash)?;
    }
    Ok(LoadedTables { tables, hashes })
}

/// The tables of each owner of a catalog, in order.
pub(crate) fn load_all<F: Files>(
    alloc: Global,
    files: &mut F,
    catalog: &Catalog,
) -> Result<Loaded, Stop>
    ensures step { IsStep (F.held files.old) (F.names files.old) (F.names files.new) (loaded catalog.now)
        (λ loaded. loading_read catalog.now loaded.tables.items loaded.hashes.items) result }
    ensures loading { IfOk result (λ loaded. IsLoading (loading_read catalog.now loaded.tables.items loaded.hashes.items)) }
    ensures each_has { IfOk result (λ loaded. length loaded.tables.items ≡ length catalog.now.owners) }
    ensures same { F.held files.new ≡ F.held files.old }
    ensures cause { HasCause (F.faults files.old) (F.faults files.new) (IsErrOf result Stop.Fault) }
    ensures passed { OnOk result (F.faults files.new ≡ F.faults files.old) }
{
    let mut tables = Vec::new(alloc);
    let mut hashes = Vec::new(alloc);
    for owner in 0..catalog.owners() as u32 {
        let loaded = load_tables(alloc, files, catalog, owner)?;
        tables.push(loaded.tables)?;
        hashes.push(loaded.hashes)?;
    }
    Ok(Loaded { tables, hashes })
}

/// What one owner of a catalog holds, where the tables of all were loaded: no other owner's parts are made.
pub fn load_for<F: Files>(
    alloc: Global,
    files: &mut F,
    catalog: &Catalog,
    owner: u32,
) -> Result<Dataset, Stop>
    requires { owner < length catalog.now.owners }
    ensures step { (name : List ℕ) → IsOwnerAt catalog.now name owner →
        IsStep (F.held files.old) (F.names files.old) (F.names files.new) (owner_loaded catalog.now name) (λ dataset. dataset) result }
    ensures tables { IfOk result (λ dataset. dataset.tables ≡ owner_signature (owner_entry_at catalog.now owner)) }
    ensures names { IfOk result (λ dataset. AreNames dataset.tables) }
    ensures same { F.held files.new ≡ F.held files.old }
    ensures cause { HasCause (F.faults files.old) (F.faults files.new) (IsErrOf result Stop.Fault) }
    ensures passed { OnOk result (F.faults files.new ≡ F.faults files.old) }
{
    let mut loaded = load_all(alloc, files, catalog)?;
    let rows = loaded.tables.swap_remove(owner as usize);
    let dataset = Dataset::new(alloc, catalog, owner, rows)?;
    Ok(dataset)
}
