//! A partition's parts, made over the cells of its table.

ghost use Rattle.std.specs.Prelude.{◌≡◌, ◌<◌, ◌≤◌, ◌+◌, [], ◌∷◌, drop, flat_map, length, map, take, bytes_eq, slice_get, IfOk};
ghost use Rattle.std.specs.List.{All, IsDistinct};
ghost use Rattle.metric_values.specs.Cells.{AreRows, chosen_of, columns_in};
ghost use Rattle.metric_values.specs.Tables.{IsDataset};
ghost use Rattle.metric_values.specs.Typed.{TypedFlat};
ghost use Rattle.table_store.specs.Groups.{texts_of};
ghost use Rattle.table_store.specs.Schema.{row_of_schema};
ghost use Rattle.owner_catalog.specs.Entries.{owner_entry_at, owner_signature, partition_entry_at};
ghost use Rattle.owner_catalog.specs.Lawful.{IsCatalog};
ghost use Rattle.part_views.specs.Divisions.{IsDivision, partition_of};
ghost use Rattle.part_views.specs.Views.{alone, rows_with_key};

use fz_ast::{NoMemory, Sig};
use metric_values::{Table, Tables, Texts};
use owner_catalog::Catalog;
use std::alloc::Global;
use table_store::{Schema, gathered, groups};

/// A partition, the signature of its one table, and for each of its keys, in order, that table's rows with it.
#[derive(Drop)]
pub(crate) struct Division {
    pub(crate) name: Vec<u8>,
    pub(crate) table: u8,
    pub(crate) column: u8,
    pub(crate) keys: Texts,
    pub(crate) sig: Sig,
    pub(crate) parts: Vec<Tables>,
}

/// An owner's partitions, each with its parts.
pub(crate) fn divide_all(
    alloc: Global,
    catalog: &Catalog,
    owner: u32,
    sig: &Sig,
    tables: &Tables,
) -> Result<Vec<Division>, NoMemory>
    requires legal { IsCatalog catalog.now }
    requires owner { owner < length catalog.now.owners }
    requires signature { sig.now ≡ owner_signature (owner_entry_at catalog.now owner) }
    requires rows { IsDataset sig.now tables.now }
    ensures partitions { IfOk result (λ ds. map partition_of ds.items ≡ (owner_entry_at catalog.now owner).partitions) }
    ensures parts { IfOk result (λ ds. All (IsDivision sig.now tables.now) ds.items) }
{
    let mut divisions = Vec::new(alloc);
    for p in 0..catalog.partitions(owner) {
        let division = divide(alloc, catalog, owner, p as u8, sig, tables)?;
        if divisions.push(division).is_err() {
            return Err(NoMemory);
        }
    }
    Ok(divisions)
}

fn divide(
    alloc: Global,
    catalog: &Catalog,
    owner: u32,
    p: u8,
    sig: &Sig,
    tables: &Tables,
) -> Result<Division, NoMemory>
    requires legal { IsCatalog catalog.now }
    requires owner { owner < length catalog.now.owners }
    requires partition { p < length (owner_entry_at catalog.now owner).partitions }
    requires signature { sig.now ≡ owner_signature (owner_entry_at catalog.now owner) }
    requires rows { IsDataset sig.now tables.now }
    ensures partition { IfOk result (λ d. partition_of d ≡ partition_entry_at catalog.now owner p) }
    ensures parts { IfOk result (λ d. IsDivision sig.now tables.now d) }
{
    let table = catalog.partition_table(owner, p);
    let column = catalog.partition_column(owner, p);
    let texts = key_texts(alloc, catalog, owner, p)?;
    Ok(Division {
        name: catalog.partition_name(owner, p).as_bytes().to_vec(alloc)?,
        table,
        column,
        keys: kept(alloc, &texts)?,
        sig: alone(alloc, sig, table as usize)?,
        parts: parts(
            alloc,
            tables.table(table as usize),
            catalog.schema(owner, table),
            column as usize,
            &texts,
        )?,
    })
}

// The keys of a partition, where they lie in the catalog.
fn key_texts(alloc: Global, catalog: &Catalog, owner: u32, p: u8) -> Result<Vec<&[u8]>, NoMemory>
    requires owner { owner < length catalog.now.owners }
    requires partition { p < length (owner_entry_at catalog.now owner).partitions }
    ensures { IfOk result (λ texts. texts_of texts.items ≡ (partition_entry_at catalog.now owner p).keys) }
{
    let mut texts = Vec::new(alloc);
    for j in 0..catalog.keys(owner, p) {
        let key = catalog.key_text(owner, p, j as u16).as_bytes();
        if texts.push(key).is_err() {
            return Err(NoMemory);
        }
    }
    Ok(texts)
}

// A copy of texts.
fn kept(alloc: Global, texts: &[&[u8]]) -> Result<Texts, NoMemory>
    ensures { IfOk result (λ copy. copy ≡ texts_of texts.now) }
{
    let mut copy = Texts::new(alloc);
    for text in texts {
        copy.push(text)?;
    }
    Ok(copy)
}

/// A table alone.
pub(crate) fn alone(alloc: Global, sig: &Sig, i: usize) -> Result<Sig, NoMemory>
    requires { i < length sig.now }
    ensures { IfOk result (λ table. table ≡ alone (slice_get sig.now i)) }
{
    let table = sig.table(i);
    let mut one = Sig::new(alloc);
    one.push(table.name, table.row.copy()?)?;
    Ok(one)
}

// For each key a dataset of one table, the rows with it.
fn parts(
    alloc: Global,
    table: &Table,
    schema: &Schema,
    column: usize,
    keys: &[&[u8]],
) -> Result<Vec<Tables>, NoMemory>
    requires typed { All (TypedFlat (row_of_schema schema.now)) table.now }
    requires column { All (λ row. column < columns_in row) table.now }
    requires distinct { IsDistinct bytes_eq (texts_of keys.now) }
    ensures { IfOk result (λ parts. parts.items ≡ map (λ key. rows_with_key column key table.now ∷ []) (texts_of keys.now)) }
{
    let groups = groups(alloc, table, column, keys)?;
    let sorted = sorted(alloc, table, schema, &groups)?;
    // Rows stay below 2^32.
    let _ = sorted.width();
    let mut parts = Vec::new(alloc);
    let mut from = 0;
    for group in &groups {
        let count = group.len() as u32;
        let part = part(alloc, &sorted, from, count)?;
        if parts.push(part).is_err() {
            return Err(NoMemory);
        }
        from += count;
    }
    Ok(parts)
}

// A copy of a table's rows in which those of each group stand side by side, group behind group.
fn sorted(
    alloc: Global,
    table: &Table,
    schema: &Schema,
    groups: &[Vec<u32>],
) -> Result<Table, NoMemory>
    requires typed { All (TypedFlat (row_of_schema schema.now)) table.now }
    requires there { All (λ group. AreRows table.now group.items) groups.now }
    ensures { IfOk result (λ copy. copy ≡ chosen_of table.now (flat_map (λ group. group.items) groups.now)) }
{
    let mut rows = Vec::new(alloc);
    for group in groups {
        if rows.extend_from_slice(group).is_err() {
            return Err(NoMemory);
        }
    }
    gathered(alloc, table, schema, &rows)
}

// A dataset of one table, so many rows of another from one on.
fn part(alloc: Global, table: &Table, from: u32, count: u32) -> Result<Tables, NoMemory>
    requires { from + count ≤ length table.now }
    ensures { IfOk result (λ part. part ≡ take count (drop from table.now) ∷ []) }
{
    // Rows stay below 2^32.
    let _ = table.width();
    let mut rows = Vec::new(alloc);
    for j in 0..count {
        if rows.push(from + j).is_err() {
            return Err(NoMemory);
        }
    }
    let mut part = Tables::new(alloc);
    part.push(table.with_rows(alloc, &rows)?)?;
    Ok(part)
}
