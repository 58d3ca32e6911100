//! Tables, read from files of CSV.
//!
//! `specs/Table.antt` says which table a file holds, and `load` reads it in one pass.
#![tactic(auto)]

ghost use Rattle.std.specs.Prelude.{◌≡◌, ◌⊎◌, IfOk, IfErr, Ok, Err};
ghost use Rattle.std.specs.List.{All};
ghost use Rattle.metric_values.specs.Typed.{TypedFlat};
ghost use Rattle.table_store.specs.Schema.{row_of_schema};
ghost use Rattle.table_store.specs.Table.{table_in_file};

mod cell;
mod columns;
mod gathering;
mod grouping;
mod rows;
pub mod schema;

pub use gathering::gathered;
pub use grouping::groups;
use metric_values::Table;
use rows::Rows;
pub use schema::{NamedColumn, Schema};
use std::alloc::Global;

/// How many columns a table may have.
pub const MAX_COLUMNS: usize = 16;

/// How many rows a table may have.
pub const MAX_ROWS: u32 = 1 << 20;

/// The greatest number that a cell may have, in absolute value.
pub const MAX_NUMBER: i64 = 1 << 50;

/// How many bytes a text may have.
pub const MAX_TEXT: usize = 64;

/// Why a file is no table. Rows count from 0 after the header, and columns from 0.
#[derive(Clone, Copy, PartialEq, Eq, Debug)]
pub enum TableFault {
    /// The first record isn't the columns' names, in order, or there is none.
    BadHeader,
    /// A row has not as many cells as there are columns.
    BadRecord { row: u32 },
    /// A cell is no number in range, or a text that is too long.
    BadCell { row: u32, col: u32 },
    /// There are more than `MAX_ROWS` rows.
    TooManyRows,
    /// Memory ran out before the file was read.
    NoMemory,
}

/// Reads a file of CSV with these columns.
///
/// The file is read by `csv` at its defaults, behind at most one byte order mark besides the one
/// that `csv` takes off itself. The first record is the header: the columns' names, in order. Each
/// further one is a row with a cell for each column: an optional minus and digits, of a number from
/// `-MAX_NUMBER` to `MAX_NUMBER`, or a text of at most `MAX_TEXT` bytes.
///
/// # Errors
///
/// The first fault in the order of the file, or that memory ran out.
#[tactic(auto, unfolding(crate::specs::Table::table_in_file))]
pub fn load(alloc: Global, bytes: &[u8], schema: &Schema) -> Result<Table, TableFault>
    ensures table { IfOk result (λ table. table_in_file schema.now bytes.now ≡ Ok table) }
    ensures fault { IfErr result (λ fault. (fault ≡ TableFault.NoMemory) ⊎ (table_in_file schema.now bytes.now ≡ Err fault)) }
    ensures typed { IfOk result (λ table. All (TypedFlat (row_of_schema schema.now)) table) }
{
    let mut rows = Rows::new(alloc, bytes)?;
    rows.read_header(schema.columns())?;
    let columns = rows.read_columns(alloc, schema.columns())?;
    match Table::new(alloc, columns) {
        Ok(table) => Ok(table),
        Err(_) => Err(TableFault::NoMemory),
    }
}
