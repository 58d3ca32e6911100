//! Columns that take the rows of a file.

ghost use Rattle.std.specs.Prelude.{◌≡◌, ◌⊎◌, ◌≤◌, ◌<◌, [], length, map, IfOk, IfErr, OnOk, Err};
ghost use Rattle.csv.specs.Records.{fields_of};
ghost use Rattle.metric_values.specs.Cells.{AllLong};
ghost use Rattle.metric_values.specs.Columns.{cells_of};
ghost use Rattle.table_store.specs.Cell.{cell_value};
ghost use Rattle.table_store.specs.Growth.{AddsCell, AddsRow, kind_of};
ghost use Rattle.table_store.specs.Schema.{column_kind, most_columns};
ghost use Rattle.table_store.specs.Table.{cell_or_fault, cells_from};

use crate::cell::number;
use crate::{MAX_TEXT, NamedColumn, TableFault};
use csv::ByteRecord;
use fz_ast::Column as Kind;
use metric_values::{Column, Texts};
use std::alloc::Global;

/// A column without cells.
pub(crate) fn empty_column(alloc: Global, kind: Kind) -> Column
    ensures kind { kind_of result ≡ kind }
    ensures empty { cells_of result ≡ [] }
{
    match kind {
        Kind::Num => Column::Numbers(Vec::new(alloc)),
        Kind::Text => Column::Texts(Texts::new(alloc)),
    }
}

/// A column without cells for each of a schema.
pub(crate) fn empty_columns(
    alloc: Global,
    schema: &[NamedColumn],
) -> Result<Vec<Column>, TableFault>
    ensures kinds { IfOk result (λ columns. map kind_of columns.items ≡ map column_kind schema.now) }
    ensures long { IfOk result (λ columns. AllLong 0 (map cells_of columns.items)) }
    ensures fault { IfErr result (λ fault. fault ≡ TableFault.NoMemory) }
{
    let mut columns = Vec::new(alloc);
    for i in 0..schema.len() {
        if columns.push(empty_column(alloc, schema[i].kind())).is_err() {
            return Err(TableFault::NoMemory);
        }
    }
    Ok(columns)
}

/// Adds the cells of a record to the columns, one each.
pub(crate) fn push_row(
    columns: &mut Vec<Column>,
    fields: &ByteRecord,
    row: u32,
) -> Result<(), TableFault>
    requires even { length (fields_of fields.now) ≡ length columns.old.items }
    requires some { 0 < length columns.old.items }
    requires few { length columns.old.items ≤ most_columns }
    requires long { AllLong row (map cells_of columns.old.items) }
    ensures row { OnOk result (AddsRow row (fields_of fields.now) columns.old.items columns.new.items) }
    ensures fault { IfErr result (λ fault. (fault ≡ TableFault.NoMemory)
        ⊎ (cells_from row 0 (map kind_of columns.old.items) (fields_of fields.now) ≡ Err fault)) }
{
    for col in 0..columns.len() {
        // There is a field for each column.
        let cell = fields.get(col).unwrap_or(&[]);
        push_cell(&mut columns[col], cell, row, col as u32)?;
    }
    Ok(())
}

// Adds a cell to a column, where it is of the column's kind.
fn push_cell(column: &mut Column, cell: &[u8], row: u32, col: u32) -> Result<(), TableFault>
    ensures cell { OnOk result (AddsCell (cell_value (kind_of column.old) cell.now) column.old column.new) }
    ensures fault { IfErr result (λ fault. (fault ≡ TableFault.NoMemory) ⊎ (cell_or_fault row col (cell_value (kind_of column.old) cell.now) ≡ Err fault)) }
{
    let added = match column {
        Column::Numbers(numbers) => match number(cell) {
            Some(number) => numbers.push(number).is_ok(),
            None => return Err(TableFault::BadCell { row, col }),
        },
        Column::Texts(texts) if cell.len() <= MAX_TEXT => texts.push(cell).is_ok(),
        Column::Texts(_) => return Err(TableFault::BadCell { row, col }),
    };
    if added {
        Ok(())
    } else {
        Err(TableFault::NoMemory)
    }
}
