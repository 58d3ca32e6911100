//! Two owners' tables are compared: a `gap` is of the same tables.

ghost use Rattle.std.specs.Prelude.{◌≡◌, ◌<◌, length, Ok, MatchResult};
ghost use Rattle.std.specs.Cmp.Lexicographic.{pointwise};
ghost use Rattle.owner_catalog.specs.Catalog.{IsCatalog};
ghost use Rattle.owner_catalog.specs.Entries.{owner_entry_at, table_entry_at};
ghost use Rattle.catalog_loading.specs.Fit.{fitting, same_column, same_table};
ghost use Rattle.catalog_loading.specs.Given.{IsOwnerAt, IsRefusedBy};

use crate::opening::find_owner;
use crate::stops::Stop;
use owner_catalog::Catalog;
use std::alloc::Global;
use table_store::NamedColumn;

/// Whether two columns have the same name and the same kind.
fn is_same_column(first: &NamedColumn, second: &NamedColumn) -> bool
    ensures { result ≡ same_column first.now second.now }
{
    first.name() == second.name() && first.kind() == second.kind()
}

/// Whether these are the same columns in the same order.
fn are_same_columns(first: &[NamedColumn], second: &[NamedColumn]) -> bool
    ensures { result ≡ pointwise same_column first.now second.now }
{
    if first.len() != second.len() {
        return false;
    }
    for i in 0..first.len() {
        if !is_same_column(&first[i], &second[i]) {
            return false;
        }
    }
    true
}

/// Whether two owners' tables of one number have the same name and the same columns.
fn is_same_table(
    first: &Catalog,
    first_owner: u32,
    second: &Catalog,
    second_owner: u32,
    table: u8,
) -> bool
    requires owners { (first_owner < length first.now.owners) × (second_owner < length second.now.owners) }
    requires first { table < length (owner_entry_at first.now first_owner).tables }
    requires second { table < length (owner_entry_at second.now second_owner).tables }
    ensures { result ≡ same_table (table_entry_at first.now first_owner table) (table_entry_at second.now second_owner table) }
{
    first.table_name(first_owner, table) == second.table_name(second_owner, table)
        && are_same_columns(
            first.schema(first_owner, table).columns(),
            second.schema(second_owner, table).columns(),
        )
}

/// Whether two owners have the same tables in the same order.
fn are_same_tables(first: &Catalog, first_owner: u32, second: &Catalog, second_owner: u32) -> bool
    requires owners { (first_owner < length first.now.owners) × (second_owner < length second.now.owners) }
    requires legal { IsCatalog first.now }
    ensures { result ≡ pointwise same_table (owner_entry_at first.now first_owner).tables (owner_entry_at second.now second_owner).tables }
{
    let count = first.tables(first_owner);
    if second.tables(second_owner) != count {
        return false;
    }
    for table in 0..count as u8 {
        if !is_same_table(first, first_owner, second, second_owner, table) {
            return false;
        }
    }
    true
}

/// The number of the owner of this name, which has the tables of another catalog's owner.
pub fn find_fitting(
    alloc: Global,
    first: &Catalog,
    first_owner: u32,
    second: &Catalog,
    name: &str,
) -> Result<u32, Stop>
    requires owner { first_owner < length first.now.owners }
    requires legal { IsCatalog first.now }
    ensures owner { MatchResult result
        (λ owner. IsOwnerAt second.now name.now owner
        × (fitting (owner_entry_at first.now first_owner) second.now name.now ≡ Ok (owner_entry_at second.now owner)))
        (IsRefusedBy (fitting (owner_entry_at first.now first_owner) second.now name.now)) }
{
    let owner = find_owner(alloc, second, name)?;
    if are_same_tables(first, first_owner, second, owner) {
        return Ok(owner);
    }
    Err(Stop::refuse(alloc, name))
}
