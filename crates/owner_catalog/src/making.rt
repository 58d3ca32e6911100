//! A catalog that is made, and not read from a file.

ghost use Rattle.std.specs.Prelude.{◌≡◌, IfOk};
ghost use Rattle.owner_catalog.specs.Lawful.{IsCatalog};
ghost use Rattle.owner_catalog.specs.Made.{catalog_of_one, columns_of_one, owner_of_one, table_of_one};

use crate::catalog::{Catalog, Owner, Table};
use crate::named::Label;
use fz_ast::Column;
use std::alloc::{AllocError, Global};
use table_store::{NamedColumn, Schema};

/// One analyst, and one owner who has one table of one column of numbers and no partitions.
#[derive(Clone, Copy)]
pub struct OneOwner<'a> {
    pub analyst: &'a str,
    pub owner: &'a str,
    pub budget: u64,
    pub capacity: u32,
    pub table: &'a str,
    pub file: &'a str,
    pub column: &'a str,
}

// The columns of the table.
fn one_column(alloc: Global, name: &str) -> Result<Schema, AllocError>
    ensures { IfOk result (λ schema. schema ≡ columns_of_one name.now) }
{
    let name = String::from_str(alloc, name)?;
    let columns = vec![in alloc; NamedColumn::new(name, Column::Num)]?;
    Ok(Schema::new(columns))
}

// The table.
fn table_of_one(alloc: Global, one: &OneOwner<'_>) -> Result<Table, AllocError>
    ensures { IfOk result (λ table. table ≡ table_of_one one.now) }
{
    Ok(Table {
        name: String::from_str(alloc, one.table)?,
        file: String::from_str(alloc, one.file)?,
        schema: one_column(alloc, one.column)?,
    })
}

// The owner.
fn owner_of_one(alloc: Global, one: &OneOwner<'_>) -> Result<Owner, AllocError>
    ensures { IfOk result (λ owner. owner ≡ owner_of_one one.now) }
{
    Ok(Owner {
        name: String::from_str(alloc, one.owner)?,
        budget: one.budget,
        capacity: one.capacity,
        tables: vec![in alloc; table_of_one(alloc, one)?]?,
        partitions: Vec::new(alloc),
        limits: Vec::new(alloc),
        text: String::new(alloc),
    })
}

impl Catalog {
    /// A catalog of this analyst and this owner. It was read from no file, so its compact texts are empty.
    pub fn of_one_owner(alloc: Global, one: &OneOwner<'_>) -> Result<Catalog, AllocError>
        requires { IsCatalog (catalog_of_one one.now) }
        ensures { IfOk result (λ catalog. catalog ≡ catalog_of_one one.now) }
    {
        let analyst = Label::new(String::from_str(alloc, one.analyst)?);
        Ok(Catalog {
            analysts: vec![in alloc; analyst]?,
            owners: vec![in alloc; owner_of_one(alloc, one)?]?,
            text: String::new(alloc),
        })
    }
}
