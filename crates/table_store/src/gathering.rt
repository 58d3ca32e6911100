//! Rows of a table in cells of their own.

ghost use Rattle.std.specs.Prelude.{◌≡◌, ◌<◌, Some, length, map, IfOk, OnOk};
ghost use Rattle.std.specs.List.{All};
ghost use Rattle.fz_ast.specs.Rows.{column_type};
ghost use Rattle.metric_values.specs.Cells.{AreRows, cell_at, chosen_of, columns_in};
ghost use Rattle.metric_values.specs.Columns.{cells_of, element_of};
ghost use Rattle.metric_values.specs.Typed.{TypedFlat};
ghost use Rattle.table_store.specs.Growth.{AddsCell, kind_of};
ghost use Rattle.table_store.specs.Schema.{row_of_schema};

use crate::columns::empty_column;
use crate::schema::Schema;
use fz_ast::{Column as Kind, NoMemory};
use metric_values::{Cell, Column, Table};
use std::alloc::Global;

/// The rows of these numbers, in their order, with cells of their own that stand side by side.
pub fn gathered(
    alloc: Global,
    table: &Table,
    schema: &Schema,
    rows: &[u32],
) -> Result<Table, NoMemory>
    requires typed { All (TypedFlat (row_of_schema schema.now)) table.now }
    requires there { AreRows table.now rows.now }
    ensures { IfOk result (λ copy. copy ≡ chosen_of table.now rows.now) }
{
    let kinds = schema.columns();
    let mut columns = Vec::new(alloc);
    for k in 0..kinds.len() {
        let column = gathered_column(alloc, table, k, kinds[k].kind(), rows)?;
        if columns.push(column).is_err() {
            return Err(NoMemory);
        }
    }
    Table::new(alloc, columns)
}

// The cells of one column, of which all are of this kind.
fn gathered_column(
    alloc: Global,
    table: &Table,
    k: usize,
    kind: Kind,
    rows: &[u32],
) -> Result<Column, NoMemory>
    requires column { All (λ row. k < columns_in row) table.now }
    requires kind { All (λ row. TypedFlat (column_type kind) (cell_at k row)) table.now }
    requires there { AreRows table.now rows.now }
    ensures { IfOk result (λ column. cells_of column ≡ map (cell_at k) (chosen_of table.now rows.now)) }
{
    let mut column = empty_column(alloc, kind);
    for i in 0..rows.len() {
        add_cell(&mut column, table.cell(rows[i], k))?;
    }
    Ok(column)
}

// Adds a cell to a column of its kind.
fn add_cell(column: &mut Column, cell: Cell<'_>) -> Result<(), NoMemory>
    requires { TypedFlat (column_type (kind_of column.old)) (element_of cell) }
    ensures { OnOk result (AddsCell (Some (element_of cell.entry)) column.old column.new) }
{
    let added = match column {
        Column::Numbers(numbers) => match cell {
            Cell::Number(number) => numbers.push(number).is_ok(),
            Cell::Text(_) => unreachable!(),
        },
        Column::Texts(texts) => match cell {
            Cell::Text(text) => texts.push(text).is_ok(),
            Cell::Number(_) => unreachable!(),
        },
    };
    if added { Ok(()) } else { Err(NoMemory) }
}
