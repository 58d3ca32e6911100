//! Reads a catalog, object by object.
ghost use Rattle.std.specs.Prelude.{◌≡◌, ◌⊎◌, ◌&&◌, ◌<◌, ℕ, List, length, position, get_or, map, [], bytes_eq, IfOk, IfErr, IsSome, Ok, Err, false};
ghost use Rattle.serde_json.specs.View.{view};
ghost use Rattle.owner_catalog.specs.Catalog.{catalog_in_file, catalog_in, json_in, kind_in, label_form, one_in, is_text_column};
ghost use Rattle.serde_json.specs.Find.{get};
ghost use Rattle.serde_json.specs.Written.{has_float};
ghost use Rattle.owner_catalog.specs.Entries.{table_columns};
ghost use Rattle.owner_catalog.specs.Members.{member_name};
ghost use Rattle.owner_catalog.specs.Fault.{here, place, the};

use crate::catalog::{Catalog, Limit, Owner, Partition, Table};
use crate::fault::{CatalogFault, FaultKind, Member, Place};
use crate::list::{Item, items, list, optional_items};
use crate::member::{CATALOG, COLUMN, LIMIT, OWNER, PARTITION, TABLE};
use crate::named::{Label, Named, find};
use crate::parts::{member_number, member_text, object, text, the};
use crate::text::Form;
use fz_ast::Column;
use serde_json::Value;
use std::alloc::Global;
use table_store::{NamedColumn, Schema};

/// The greatest budget, in millionths.
const MOST_BUDGET: u64 = 1_000_000_000_000_000_000;

/// The greatest capacity, in records.
const MOST_CAPACITY: u64 = 262_144;

/// Which labels are read.
#[derive(Clone, Copy)]
pub(crate) enum Labels {
    Analysts,
    Keys { owner: u32, partition: u32 },
}

/// The table whose columns are read.
#[derive(Clone, Copy)]
pub(crate) struct InTable {
    owner: u32,
    table: u32,
}

/// The owner whose partitions are read, with the tables that were.
#[derive(Clone, Copy)]
pub(crate) struct InOwner<'a> {
    owner: u32,
    tables: &'a [Table],
}

/// The analysts of the catalog whose owners are read.
#[derive(Clone, Copy)]
pub(crate) struct InCatalog<'a> {
    analysts: &'a [Label],
}

/// The owner whose limits are read, with the analysts of the catalog.
#[derive(Clone, Copy)]
pub(crate) struct ForAnalysts<'a> {
    owner: u32,
    analysts: &'a [Label],
}

impl Labels {
    fn form(&self) -> Form
        ensures { result ≡ label_form self.now }
    {
        match self {
            Labels::Analysts => Form::Name,
            Labels::Keys { .. } => Form::Key,
        }
    }
}

impl Item<Labels> for Label {
    ghost use Rattle.owner_catalog.specs.Catalog.{label_in, label_place};

    ghost place_of = { label_place };

    ghost read_of = { label_in };

    fn place(labels: &Labels, number: u32) -> Place {
        match *labels {
            Labels::Analysts => Place {
                member: Member::Analyst,
                owner: 0,
                item: number,
                sub_item: 0,
            },
            Labels::Keys { owner, partition } => Place {
                member: Member::Key,
                owner,
                item: partition,
                sub_item: number,
            },
        }
    }

    fn read(
        alloc: Global,
        value: &Value,
        labels: &Labels,
        number: u32,
    ) -> Result<Label, CatalogFault> {
        let at = <Label as Item<Labels>>::place(labels, number);
        Ok(Label::new(text(alloc, value, labels.form(), at)?))
    }
}

/// The type of a column.
#[tactic(auto, unfolding(crate::specs::Catalog::kind_in))]
fn kind(value: &Value, at: Place) -> Result<Column, CatalogFault>
    requires { IsSome (get (member_name Member.ColumnType) (view value.now)) }
    ensures kind { IfOk result (λ kind. kind_in (here at Member.ColumnType) (the Member.ColumnType (view value.now)) ≡ Ok kind) }
    ensures fault { IfErr result (λ fault. kind_in (here at Member.ColumnType) (the Member.ColumnType (view value.now)) ≡ Err fault) }
    ensures plain { IfOk result (λ _. has_float (the Member.ColumnType (view value.now)) ≡ false) }
{
    let at = at.of(Member::ColumnType);
    match the(Member::ColumnType, value).as_str() {
        Some("num") => Ok(Column::Num),
        Some("text") => Ok(Column::Text),
        Some(_) => Err(CatalogFault::Bad {
            kind: FaultKind::Form,
            at,
        }),
        None => Err(CatalogFault::Bad {
            kind: FaultKind::Kind,
            at,
        }),
    }
}

impl Named for NamedColumn {
    ghost name_of = { λ column. column.name };

    fn name(&self) -> &str {
        NamedColumn::name(self)
    }
}

impl Item<InTable> for NamedColumn {
    ghost use Rattle.owner_catalog.specs.Catalog.{column_in};
    ghost use Rattle.owner_catalog.specs.declared.fault.Member.TheVariants.{Column as column_member};

    ghost place_of = { λ within c. place column_member within.owner within.table c };

    ghost read_of = { λ within. column_in within.owner within.table };

    fn place(within: &InTable, number: u32) -> Place {
        Place {
            member: Member::Column,
            owner: within.owner,
            item: within.table,
            sub_item: number,
        }
    }

    #[tactic(auto, unfolding(crate::specs::Catalog::column_in))]
    fn read(
        alloc: Global,
        value: &Value,
        within: &InTable,
        number: u32,
    ) -> Result<NamedColumn, CatalogFault> {
        let at = Place {
            member: Member::Column,
            owner: within.owner,
            item: within.table,
            sub_item: number,
        };
        object(alloc, &COLUMN, value, at)?;
        let name = member_text(alloc, value, Member::ColumnName, Form::Name, at)?;
        let kind = kind(value, at)?;
        Ok(NamedColumn::new(name, kind))
    }
}

impl Item<u32> for Table {
    ghost use Rattle.owner_catalog.specs.Catalog.{table_in};
    ghost use Rattle.owner_catalog.specs.declared.fault.Member.TheVariants.{Table as table_member};

    ghost place_of = { λ owner t. place table_member owner t 0 };

    ghost read_of = { table_in };

    fn place(owner: &u32, number: u32) -> Place {
        Place {
            member: Member::Table,
            owner: *owner,
            item: number,
            sub_item: 0,
        }
    }

    #[tactic(auto, unfolding(crate::specs::Catalog::table_in))]
    fn read(alloc: Global, value: &Value, owner: &u32, number: u32) -> Result<Table, CatalogFault> {
        let at = Place {
            member: Member::Table,
            owner: *owner,
            item: number,
            sub_item: 0,
        };
        object(alloc, &TABLE, value, at)?;
        let name = member_text(alloc, value, Member::TableName, Form::TableName, at)?;
        let file = member_text(alloc, value, Member::File, Form::FileName, at)?;
        let within = InTable {
            owner: *owner,
            table: number,
        };
        let columns = items(alloc, value, Member::Columns, 1, 16, at, &within)?;
        Ok(Table {
            name,
            file,
            schema: Schema::new(columns),
        })
    }
}

/// The number of the table that a partition is of.
#[tactic(auto, unfolding(crate::specs::Catalog::one_in))]
fn table_number(value: &Value, tables: &[Table], at: Place) -> Result<usize, CatalogFault>
    requires { IsSome (get (member_name Member.PartitionTable) (view value.now)) }
    ensures table { IfOk result (λ t. one_in (λ text table. bytes_eq text table.name) tables.now (here at Member.PartitionTable)
        (the Member.PartitionTable (view value.now)) ≡ Ok t) }
    ensures fault { IfErr result (λ fault. one_in (λ text table. bytes_eq text table.name) tables.now (here at Member.PartitionTable)
        (the Member.PartitionTable (view value.now)) ≡ Err fault) }
    ensures plain { IfOk result (λ _. has_float (the Member.PartitionTable (view value.now)) ≡ false) }
    ensures within { IfOk result (λ t. t < length tables.now) }
{
    let at = at.of(Member::PartitionTable);
    let Some(name) = the(Member::PartitionTable, value).as_str() else {
        return Err(CatalogFault::Bad {
            kind: FaultKind::Kind,
            at,
        });
    };
    find_table(tables, name).ok_or(CatalogFault::Bad {
        kind: FaultKind::NoSuch,
        at,
    })
}

fn find_table(tables: &[Table], name: &str) -> Option<usize>
    ensures { result ≡ position (λ table. bytes_eq name.now table.name) tables.now }
{
    find(tables, name.as_bytes())
}

fn columns_of(tables: &[Table], table: usize) -> &[NamedColumn]
    requires { table < length tables.now }
    ensures { result.now ≡ get_or (map table_columns tables.now) table [] }
{
    let found: &Table = &tables[table];
    found.schema.columns()
}

/// The number of the column that a partition goes by, which is one of text.
#[tactic(auto, unfolding(crate::specs::Catalog::one_in))]
fn column_number(value: &Value, columns: &[NamedColumn], at: Place) -> Result<usize, CatalogFault>
    requires { IsSome (get (member_name Member.PartitionColumn) (view value.now)) }
    ensures column { IfOk result (λ c. one_in (λ text column. bytes_eq text column.name && is_text_column column.kind) columns.now
        (here at Member.PartitionColumn) (the Member.PartitionColumn (view value.now)) ≡ Ok c) }
    ensures fault { IfErr result (λ fault. one_in (λ text column. bytes_eq text column.name && is_text_column column.kind) columns.now
        (here at Member.PartitionColumn) (the Member.PartitionColumn (view value.now)) ≡ Err fault) }
    ensures plain { IfOk result (λ _. has_float (the Member.PartitionColumn (view value.now)) ≡ false) }
{
    let at = at.of(Member::PartitionColumn);
    let Some(name) = the(Member::PartitionColumn, value).as_str() else {
        return Err(CatalogFault::Bad {
            kind: FaultKind::Kind,
            at,
        });
    };
    find_text_column(columns, name).ok_or(CatalogFault::Bad {
        kind: FaultKind::NoSuch,
        at,
    })
}

fn find_text_column(columns: &[NamedColumn], name: &str) -> Option<usize>
    ensures { result ≡ position (λ column. bytes_eq name.now column.name && is_text_column column.kind) columns.now }
{
    columns.iter().position(|column| NamedColumn::name(column) == name && is_text(column.kind()))
}

fn is_text(column: Column) -> bool
    ensures { result ≡ is_text_column column }
{
    match column {
        Column::Num => false,
        Column::Text => true,
    }
}

impl Item<InOwner<'_>> for Partition {
    ghost use Rattle.owner_catalog.specs.Catalog.{partition_in};
    ghost use Rattle.owner_catalog.specs.declared.fault.Member.TheVariants.{Partition as partition_member};

    ghost place_of = { λ within p. place partition_member within.owner p 0 };

    ghost read_of = { λ within. partition_in within.owner within.tables.now };

    fn place(within: &InOwner<'_>, number: u32) -> Place {
        Place {
            member: Member::Partition,
            owner: within.owner,
            item: number,
            sub_item: 0,
        }
    }

    #[tactic(auto, unfolding(crate::specs::Catalog::partition_in))]
    fn read(
        alloc: Global,
        value: &Value,
        within: &InOwner<'_>,
        number: u32,
    ) -> Result<Partition, CatalogFault> {
        let at = Place {
            member: Member::Partition,
            owner: within.owner,
            item: number,
            sub_item: 0,
        };
        object(alloc, &PARTITION, value, at)?;
        let name = member_text(alloc, value, Member::PartitionName, Form::Name, at)?;
        let table = table_number(value, within.tables, at)?;
        let column = column_number(value, columns_of(within.tables, table), at)?;
        let keys = Labels::Keys {
            owner: within.owner,
            partition: number,
        };
        let keys = list(alloc, value, Member::Keys, 1, 4_000, at, &keys)?;
        Ok(Partition {
            name,
            table,
            column,
            keys,
        })
    }
}

/// The number of the analyst that a limit is for.
#[tactic(auto, unfolding(crate::specs::Catalog::one_in))]
fn analyst_number(value: &Value, analysts: &[Label], at: Place) -> Result<usize, CatalogFault>
    requires { IsSome (get (member_name Member.LimitAnalyst) (view value.now)) }
    ensures analyst { IfOk result (λ a. one_in bytes_eq analysts.now (here at Member.LimitAnalyst) (the Member.LimitAnalyst (view value.now)) ≡ Ok a) }
    ensures fault { IfErr result (λ fault. one_in bytes_eq analysts.now (here at Member.LimitAnalyst) (the Member.LimitAnalyst (view value.now))
        ≡ Err fault) }
    ensures plain { IfOk result (λ _. has_float (the Member.LimitAnalyst (view value.now)) ≡ false) }
    ensures within { IfOk result (λ a. a < length analysts.now) }
{
    let at = at.of(Member::LimitAnalyst);
    let Some(name) = the(Member::LimitAnalyst, value).as_str() else {
        return Err(CatalogFault::Bad {
            kind: FaultKind::Kind,
            at,
        });
    };
    find_analyst(analysts, name).ok_or(CatalogFault::Bad {
        kind: FaultKind::NoSuch,
        at,
    })
}

fn find_analyst(analysts: &[Label], name: &str) -> Option<usize>
    ensures { result ≡ position (bytes_eq name.now) analysts.now }
{
    find(analysts, name.as_bytes())
}

impl Item<ForAnalysts<'_>> for Limit {
    ghost use Rattle.owner_catalog.specs.Catalog.{limit_in};
    ghost use Rattle.owner_catalog.specs.declared.fault.Member.TheVariants.{Limit as limit_member};

    ghost place_of = { λ within l. place limit_member within.owner l 0 };

    ghost read_of = { λ within. limit_in within.owner within.analysts.now };

    fn place(within: &ForAnalysts<'_>, number: u32) -> Place {
        Place {
            member: Member::Limit,
            owner: within.owner,
            item: number,
            sub_item: 0,
        }
    }

    #[tactic(auto, unfolding(crate::specs::Catalog::limit_in))]
    fn read(
        alloc: Global,
        value: &Value,
        within: &ForAnalysts<'_>,
        number: u32,
    ) -> Result<Limit, CatalogFault> {
        let at = Place {
            member: Member::Limit,
            owner: within.owner,
            item: number,
            sub_item: 0,
        };
        object(alloc, &LIMIT, value, at)?;
        let analyst = analyst_number(value, within.analysts, at)?;
        let budget = member_number(value, Member::LimitBudget, 1, MOST_BUDGET, at)?;
        let analyst = String::from_str(alloc, within.analysts[analyst].as_str())?;
        Ok(Limit { analyst, budget })
    }
}

impl Item<InCatalog<'_>> for Owner {
    ghost use Rattle.owner_catalog.specs.Catalog.{owner_in};
    ghost use Rattle.owner_catalog.specs.declared.fault.Member.TheVariants.{Owner as owner_member};

    ghost place_of = { λ within o. place owner_member o 0 0 };

    ghost read_of = { λ within. owner_in within.analysts.now };

    fn place(_: &InCatalog<'_>, number: u32) -> Place {
        Place {
            member: Member::Owner,
            owner: number,
            item: 0,
            sub_item: 0,
        }
    }

    #[tactic(auto, unfolding(crate::specs::Catalog::owner_in))]
    fn read(
        alloc: Global,
        value: &Value,
        within: &InCatalog<'_>,
        number: u32,
    ) -> Result<Owner, CatalogFault> {
        let at = Place {
            member: Member::Owner,
            owner: number,
            item: 0,
            sub_item: 0,
        };
        object(alloc, &OWNER, value, at)?;
        let name = member_text(alloc, value, Member::OwnerName, Form::Name, at)?;
        let budget = member_number(value, Member::Budget, 1, MOST_BUDGET, at)?;
        let capacity = member_number(value, Member::Capacity, 2, MOST_CAPACITY, at)? as u32;
        let tables = items(alloc, value, Member::Tables, 1, 8, at, &number)?;
        let of_tables = InOwner {
            owner: number,
            tables: &tables,
        };
        let partitions = items(alloc, value, Member::Partitions, 0, 8, at, &of_tables)?;
        let for_analysts = ForAnalysts {
            owner: number,
            analysts: within.analysts,
        };
        let limits = optional_items(alloc, value, Member::Limits, 64, at, &for_analysts)?;
        let text = value.to_string(alloc)?;
        Ok(Owner {
            name,
            budget,
            capacity,
            tables,
            partitions,
            limits,
            text,
        })
    }
}

#[tactic(auto, unfolding(crate::specs::Catalog::catalog_in))]
fn read_value(alloc: Global, value: &Value) -> Result<Catalog, CatalogFault>
    ensures catalog { IfOk result (λ catalog. catalog_in (view value.now) ≡ Ok catalog) }
    ensures fault { IfErr result (λ fault. (fault ≡ CatalogFault.NoMemory) ⊎ (catalog_in (view value.now) ≡ Err fault)) }
{
    let at = Place {
        member: Member::Catalog,
        owner: 0,
        item: 0,
        sub_item: 0,
    };
    object(alloc, &CATALOG, value, at)?;
    let analysts = items(alloc, value, Member::Analysts, 1, 64, at, &Labels::Analysts)?;
    let within = InCatalog {
        analysts: &analysts,
    };
    let owners = items(alloc, value, Member::Owners, 1, 64, at, &within)?;
    let text = the(Member::Analysts, value).to_string(alloc)?;
    Ok(Catalog {
        analysts,
        owners,
        text,
    })
}

/// The JSON value of some bytes.
#[tactic(auto, using(crate::proofs::Steps::json_ok, crate::proofs::Steps::json_bad))]
fn parse(alloc: Global, bytes: &[u8]) -> Result<Value, CatalogFault>
    ensures json { IfOk result (λ value. json_in bytes.now ≡ Ok (view value)) }
    ensures fault { IfErr result (λ fault. (fault ≡ CatalogFault.NoMemory) ⊎ (json_in bytes.now ≡ Err fault)) }
{
    match Value::from_slice(alloc, bytes) {
        Ok(value) => Ok(value),
        Err(error) if error.is_memory() => Err(CatalogFault::NoMemory),
        Err(_) => Err(CatalogFault::Bad {
            kind: FaultKind::Syntax,
            at: Place {
                member: Member::Catalog,
                owner: 0,
                item: 0,
                sub_item: 0,
            },
        }),
    }
}

/// Reads a catalog: its analysts and owners, or the first fault of the file.
#[tactic(auto, unfolding(crate::specs::Catalog::catalog_in_file))]
pub fn read(alloc: Global, bytes: &[u8]) -> Result<Catalog, CatalogFault>
    ensures catalog { IfOk result (λ catalog. catalog_in_file bytes.now ≡ Ok catalog) }
    ensures fault { IfErr result (λ fault. (fault ≡ CatalogFault.NoMemory) ⊎ (catalog_in_file bytes.now ≡ Err fault)) }
{
    let value = parse(alloc, bytes)?;
    read_value(alloc, &value)
}
