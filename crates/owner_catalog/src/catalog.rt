//! A catalog that was read, and its look-ups.
ghost use Rattle.std.specs.Prelude.{◌≡◌, ◌<◌, ◌≤◌, [], length, map, get_or, position, bytes_eq, option_map, IfOk, true};
ghost use Rattle.std.specs.List.{All, IsDistinct, find};
ghost use Rattle.fz_ast.specs.Types.{WellFormed, formed, is_flat};
ghost use Rattle.table_store.specs.Schema.{most_columns, row_of_schema};
ghost use Rattle.partition_charge.specs.Views.{part_limit, partition_limit};
ghost use Rattle.owner_catalog.specs.Limits.{table_limit};
ghost use Rattle.owner_catalog.specs.Entries.{owner_entry_at, table_entry_at, partition_entry_at, owner_signature, limit_for, table_name, table_type_of};
ghost use Rattle.owner_catalog.specs.Lawful.{IsCatalog, IsOwner, IsPartition, IsTableEntry};

use crate::list::Listed;
use crate::named::{Label, Named, find};
use fz_ast::{Name, NoMemory, Sig, Ty, row_type};
use std::alloc::Global;
use std::marker::Model;
use table_store::Schema;

/// A table of an owner.
#[derive(Drop)]
pub(crate) struct Table {
    pub(crate) name: String,
    pub(crate) file: String,
    pub(crate) schema: Schema,
}

impl Model for Table {
    ghost use Rattle.std.specs.String.{string_bytes};
    ghost use Rattle.owner_catalog.specs.Entries.{TableEntry};

    ghost Value = { TableEntry };

    ghost view = { λ t. record { name = string_bytes t.name; file = string_bytes t.file; columns = t.schema } };
}

/// A partition of a table by one of its text columns, each by its number.
#[derive(Drop)]
pub(crate) struct Partition {
    pub(crate) name: String,
    pub(crate) table: usize,
    pub(crate) column: usize,
    // The keys, and their texts, by which one is found.
    pub(crate) keys: Listed<Label>,
}

impl Named for Table {
    ghost name_of = { λ table. table.name };

    fn name(&self) -> &str {
        self.name.as_str()
    }
}

impl Model for Partition {
    ghost use Rattle.std.specs.String.{string_bytes};
    ghost use Rattle.std.specs.Prelude.{◌≡◌};
    ghost use Rattle.owner_catalog.specs.Entries.{PartitionEntry};

    ghost Value = { PartitionEntry };

    ghost view = { λ p. record { name = string_bytes p.name; table = p.table; column = p.column; keys = p.keys.items.items } };

    ghost invariant = { λ p. p.keys.names ≡ p.keys.items.items };
}

/// The analyst of this name may ask for no more than this, in millionths.
#[derive(Drop)]
pub(crate) struct Limit {
    pub(crate) analyst: String,
    pub(crate) budget: u64,
}

impl Named for Limit {
    ghost name_of = { λ limit. limit.analyst };

    fn name(&self) -> &str {
        self.analyst.as_str()
    }
}

impl Model for Limit {
    ghost use Rattle.std.specs.String.{string_bytes};
    ghost use Rattle.owner_catalog.specs.Entries.{LimitEntry};

    ghost Value = { LimitEntry };

    ghost view = { λ l. record { analyst = string_bytes l.analyst; budget = l.budget } };
}

/// An owner: the budget in millionths, the capacity in records.
#[derive(Drop)]
pub(crate) struct Owner {
    pub(crate) name: String,
    pub(crate) budget: u64,
    pub(crate) capacity: u32,
    pub(crate) tables: Vec<Table>,
    pub(crate) partitions: Vec<Partition>,
    pub(crate) limits: Vec<Limit>,
    // The compact JSON text of the owner's object.
    pub(crate) text: String,
}

impl Named for Partition {
    ghost name_of = { λ partition. partition.name };

    fn name(&self) -> &str {
        self.name.as_str()
    }
}

impl Model for Owner {
    ghost use Rattle.std.specs.String.{string_bytes};
    ghost use Rattle.owner_catalog.specs.Entries.{OwnerEntry};

    ghost Value = { OwnerEntry };

    ghost view = { λ o. record {
      name = string_bytes o.name;
      budget = o.budget;
      capacity = o.capacity;
      tables = o.tables.items;
      partitions = o.partitions.items;
      limits = o.limits.items;
      text = string_bytes o.text;
    } };
}

/// The analysts and the owners of a file. Analysts, owners, an owner's tables and partitions, and a partition's keys are
/// numbered from 0 in the file's order.
#[derive(Drop)]
pub struct Catalog {
    pub(crate) analysts: Vec<Label>,
    pub(crate) owners: Vec<Owner>,
    // The compact JSON text of the list of analysts.
    pub(crate) text: String,
}

impl Named for Owner {
    ghost name_of = { λ owner. owner.name };

    fn name(&self) -> &str {
        self.name.as_str()
    }
}

impl Model for Catalog {
    ghost use Rattle.std.specs.String.{string_bytes};
    ghost use Rattle.owner_catalog.specs.Entries.{Catalog as Entries};
    ghost use Rattle.owner_catalog.specs.Lawful.{IsCatalog};

    ghost Value = { Entries };

    ghost view = { λ c. record { analysts = c.analysts.items; owners = c.owners.items; text = string_bytes c.text } };

    ghost invariant = { λ c. IsCatalog (record { analysts = c.analysts.items; owners = c.owners.items; text = string_bytes c.text }) };
}

impl Catalog {
    // The owner of this number.
    fn owner_at(&self, o: u32) -> &Owner
        requires { o < length self.now.owners }
        ensures owner { result.now ≡ owner_entry_at self.now o }
        ensures lawful { IsOwner result.now }
    {
        &self.owners[o as usize]
    }

    // The owner's table of this number.
    fn table_at(&self, o: u32, t: u8) -> &Table
        requires owner { o < length self.now.owners }
        requires table { t < length (owner_entry_at self.now o).tables }
        ensures { result.now ≡ table_entry_at self.now o t }
    {
        &self.owner_at(o).tables[t as usize]
    }

    // The owner's partition of this number.
    fn partition_at(&self, o: u32, p: u8) -> &Partition
        requires owner { o < length self.now.owners }
        requires partition { p < length (owner_entry_at self.now o).partitions }
        ensures partition { result.now ≡ partition_entry_at self.now o p }
        ensures lawful { IsPartition (owner_entry_at self.now o).tables result.now }
        ensures table { result.now.table < table_limit }
        ensures column { result.now.column < most_columns }
    {
        &self.owner_at(o).partitions[p as usize]
    }

    /// How many analysts there are.
    pub fn analysts(&self) -> usize
        ensures { result ≡ length self.now.analysts }
    {
        self.analysts.len()
    }

    /// How many owners there are.
    pub fn owners(&self) -> usize
        ensures owners { result ≡ length self.now.owners }
        ensures legal { IsCatalog self.now }
    {
        self.owners.len()
    }

    /// The name of an owner.
    pub fn owner_name(&self, o: u32) -> &str
        requires { o < length self.now.owners }
        ensures { result.now ≡ (owner_entry_at self.now o).name }
    {
        self.owner_at(o).name.as_str()
    }

    /// The budget of an owner, in millionths.
    pub fn budget(&self, o: u32) -> u64
        requires { o < length self.now.owners }
        ensures { result ≡ (owner_entry_at self.now o).budget }
    {
        self.owner_at(o).budget
    }

    /// How many records an owner has room for.
    pub fn capacity(&self, o: u32) -> u32
        requires { o < length self.now.owners }
        ensures { result ≡ (owner_entry_at self.now o).capacity }
    {
        self.owner_at(o).capacity
    }

    /// The limit that an owner has for an analyst, if there is one.
    pub fn limit(&self, o: u32, analyst: u16) -> Option<u64>
        requires owner { o < length self.now.owners }
        requires analyst { analyst < length self.now.analysts }
        ensures { result ≡ limit_for (owner_entry_at self.now o) (get_or self.now.analysts analyst []) }
    {
        let name = self.analysts[analyst as usize].name();
        let found = limit_named(&self.owner_at(o).limits, name)?;
        Some(found.budget)
    }

    /// The compact JSON text of the list of analysts.
    pub fn text(&self) -> &str
        ensures { result.now ≡ self.now.text }
    {
        self.text.as_str()
    }

    /// The compact JSON text of an owner's object.
    pub fn owner_text(&self, o: u32) -> &str
        requires { o < length self.now.owners }
        ensures { result.now ≡ (owner_entry_at self.now o).text }
    {
        self.owner_at(o).text.as_str()
    }

    /// How many tables an owner has.
    pub fn tables(&self, o: u32) -> usize
        requires { o < length self.now.owners }
        ensures tables { result ≡ length (owner_entry_at self.now o).tables }
        ensures few { result ≤ table_limit }
    {
        self.owner_at(o).tables.len()
    }

    /// How many partitions an owner has.
    pub fn partitions(&self, o: u32) -> usize
        requires { o < length self.now.owners }
        ensures partitions { result ≡ length (owner_entry_at self.now o).partitions }
        ensures few { result ≤ partition_limit }
    {
        self.owner_at(o).partitions.len()
    }

    /// How many keys a partition has.
    pub fn keys(&self, o: u32, p: u8) -> usize
        requires owner { o < length self.now.owners }
        requires partition { p < length (owner_entry_at self.now o).partitions }
        ensures keys { result ≡ length (partition_entry_at self.now o p).keys }
        ensures some { 1 ≤ result }
        ensures few { result ≤ part_limit }
    {
        self.partition_at(o, p).keys.items.len()
    }

    /// The name of a partition.
    pub fn partition_name(&self, o: u32, p: u8) -> &str
        requires owner { o < length self.now.owners }
        requires partition { p < length (owner_entry_at self.now o).partitions }
        ensures { result.now ≡ (partition_entry_at self.now o p).name }
    {
        self.partition_at(o, p).name.as_str()
    }

    /// The table that a partition is of, by its number.
    pub fn partition_table(&self, o: u32, p: u8) -> u8
        requires owner { o < length self.now.owners }
        requires partition { p < length (owner_entry_at self.now o).partitions }
        ensures table { result ≡ (partition_entry_at self.now o p).table }
        ensures there { result < length (owner_entry_at self.now o).tables }
    {
        self.partition_at(o, p).table as u8
    }

    /// The text column that a partition goes by, by its number in the table.
    pub fn partition_column(&self, o: u32, p: u8) -> u8
        requires owner { o < length self.now.owners }
        requires partition { p < length (owner_entry_at self.now o).partitions }
        ensures { result ≡ (partition_entry_at self.now o p).column }
    {
        self.partition_at(o, p).column as u8
    }

    /// A key of a partition.
    pub fn key_text(&self, o: u32, p: u8, j: u16) -> &str
        requires owner { o < length self.now.owners }
        requires partition { p < length (owner_entry_at self.now o).partitions }
        requires key { j < length (partition_entry_at self.now o p).keys }
        ensures { result.now ≡ get_or (partition_entry_at self.now o p).keys j [] }
    {
        self.partition_at(o, p).keys.items[j as usize].name()
    }

    /// The name of a table.
    pub fn table_name(&self, o: u32, t: u8) -> &str
        requires owner { o < length self.now.owners }
        requires table { t < length (owner_entry_at self.now o).tables }
        ensures { result.now ≡ (table_entry_at self.now o t).name }
    {
        self.table_at(o, t).name.as_str()
    }

    /// The name of a table's file.
    pub fn file(&self, o: u32, t: u8) -> &str
        requires owner { o < length self.now.owners }
        requires table { t < length (owner_entry_at self.now o).tables }
        ensures { result.now ≡ (table_entry_at self.now o t).file }
    {
        self.table_at(o, t).file.as_str()
    }

    /// The columns of a table.
    pub fn schema(&self, o: u32, t: u8) -> &Schema
        requires owner { o < length self.now.owners }
        requires table { t < length (owner_entry_at self.now o).tables }
        ensures { result.now ≡ (table_entry_at self.now o t).columns }
    {
        &self.table_at(o, t).schema
    }

    /// The number of the owner of this name, if there is one.
    pub fn owner(&self, name: &[u8]) -> Option<u32>
        ensures { result ≡ position (λ owner. bytes_eq name.now owner.name) self.now.owners }
    {
        find(&self.owners, name).map(|o| o as u32)
    }

    /// The number of the analyst of this name, if there is one.
    pub fn analyst(&self, name: &[u8]) -> Option<u16>
        ensures { result ≡ position (λ analyst. bytes_eq name.now analyst) self.now.analysts }
    {
        find(&self.analysts, name).map(|a| a as u16)
    }

    /// The number of the owner's table of this name, if there is one.
    pub fn table(&self, o: u32, name: &[u8]) -> Option<u8>
        requires { o < length self.now.owners }
        ensures { result ≡ position (λ table. bytes_eq name.now table.name) (owner_entry_at self.now o).tables }
    {
        find(&self.owner_at(o).tables, name).map(|t| t as u8)
    }

    /// The number of the owner's partition of this name, if there is one.
    pub fn partition(&self, o: u32, name: &[u8]) -> Option<u8>
        requires { o < length self.now.owners }
        ensures { result ≡ position (λ partition. bytes_eq name.now partition.name) (owner_entry_at self.now o).partitions }
    {
        find(&self.owner_at(o).partitions, name).map(|p| p as u8)
    }

    /// The number of this key of a partition, if it is one.
    pub fn key(&self, o: u32, p: u8, key: &[u8]) -> Option<u16>
        requires owner { o < length self.now.owners }
        requires partition { p < length (owner_entry_at self.now o).partitions }
        ensures { result ≡ position (λ each. bytes_eq key.now each) (partition_entry_at self.now o p).keys }
    {
        let partition = self.partition_at(o, p);
        partition.keys.names.number(key).map(|k| k as u16)
    }

    /// The tables that programs over an owner may name.
    pub fn signature(&self, alloc: Global, o: u32) -> Result<Sig, NoMemory>
        requires { o < length self.now.owners }
        ensures { IfOk result (λ tables. tables ≡ owner_signature (owner_entry_at self.now o)) }
    {
        let owner = self.owner_at(o);
        signature_of(alloc, &owner.tables)
    }
}

/// The limit of the analyst of this name.
fn limit_named<'a>(limits: &'a [Limit], name: &str) -> Option<&'a Limit>
    ensures { option_map (λ limit. limit.now) result ≡ find (λ limit. bytes_eq name.now limit.analyst) limits.now }
{
    limits.iter().find(|limit| name == limit.analyst.as_str())
}

fn signature_of(alloc: Global, tables: &[Table]) -> Result<Sig, NoMemory>
    requires tables { All IsTableEntry tables.now }
    requires distinct { IsDistinct bytes_eq (map table_name tables.now) }
    ensures { IfOk result (λ signature. signature ≡ map table_type_of tables.now) }
{
    let mut signature = Sig::new(alloc);
    for table in tables {
        let row = row_of(alloc, &table.schema)?;
        signature.push(Name::new(table.name.as_bytes()), row)?;
    }
    Ok(signature)
}

/// The type of a table's rows.
fn row_of(alloc: Global, schema: &Schema) -> Result<Ty, NoMemory>
    ensures row { IfOk result (λ row. row ≡ row_of_schema schema.now) }
    ensures flat { IfOk result (λ row. is_flat row ≡ true) }
    ensures formed { IfOk result (λ row. formed row ≡ WellFormed) }
{
    let columns = schema.columns();
    let mut kinds = Vec::new(alloc);
    for column in columns {
        if kinds.push(column.kind()).is_err() {
            return Err(NoMemory);
        }
    }
    row_type(alloc, &kinds)
}
