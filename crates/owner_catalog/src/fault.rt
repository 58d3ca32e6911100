//! Why a file is no catalog, and where.
ghost use Rattle.std.specs.Prelude.{◌≡◌};
ghost use Rattle.owner_catalog.specs.Fault.{here};
ghost use Rattle.owner_catalog.specs.declared.fault.CatalogFault.TheVariants.{NoMemory};

use crate::named::Label;
use std::alloc::{AllocError, AllocFailed};

/// What is wrong.
#[derive(Debug, Drop)]
pub enum FaultKind {
    /// The bytes are no JSON value.
    Syntax,
    /// A value of another JSON type than the one that belongs there. A number that isn't whole, is negative or has over 64 bits
    /// is of another type too.
    Kind,
    /// An object lacks a member.
    Missing,
    /// An object has a member of this name, which is none of its own. Of several it is the first by the order of their bytes.
    Unknown(Label),
    /// A list has too few items or too many.
    Count,
    /// A whole number is outside its limits.
    Range,
    /// A name, a file's name, a column's type or a key isn't formed so.
    Form,
    /// An item has the name of one before it, or is the same key.
    Double,
    /// There is no such table, no such text column in the table, or no such analyst.
    NoSuch,
}

/// A member of the catalog or of an object in it, or an item of a list.
#[derive(Clone, Copy, Debug)]
pub enum Member {
    Catalog,
    Analysts,
    Analyst,
    Owners,
    Owner,
    OwnerName,
    Budget,
    Capacity,
    Tables,
    Table,
    TableName,
    File,
    Columns,
    Column,
    ColumnName,
    ColumnType,
    Partitions,
    Partition,
    PartitionName,
    PartitionTable,
    PartitionColumn,
    Keys,
    Key,
    Limits,
    Limit,
    LimitAnalyst,
    LimitBudget,
}

/// Where a fault is. Numbers count from 0, and are 0 where there is none.
#[derive(Clone, Copy, Debug)]
pub struct Place {
    /// The member or item that is at fault, or that is missing; of an unknown member the object that it is in.
    pub member: Member,
    /// The number of the owner.
    pub owner: u32,
    /// The number of the analyst, or of the owner's table, partition or limit.
    pub item: u32,
    /// The number of the table's column or the partition's key.
    pub sub_item: u32,
}

/// Why there is no catalog.
#[derive(Debug, Drop)]
pub enum CatalogFault {
    /// The first fault of the file.
    Bad { kind: FaultKind, at: Place },
    /// Memory ran out before the file was read.
    NoMemory,
}

impl Place {
    /// The same place, at another member.
    pub(crate) fn of(self, member: Member) -> Place
        ensures { result ≡ here self member }
    {
        Place { member, ..self }
    }
}

impl From<AllocError> for CatalogFault {
    ghost from_gives = { λ _ fault. fault ≡ NoMemory };

    fn from(_: AllocError) -> CatalogFault {
        CatalogFault::NoMemory
    }
}

impl<T: Drop> From<AllocFailed<T>> for CatalogFault {
    ghost from_gives = { λ _ fault. fault ≡ NoMemory };

    fn from(_: AllocFailed<T>) -> CatalogFault {
        CatalogFault::NoMemory
    }
}
