//! How far two datasets are apart.
ghost use Rattle.std.specs.Prelude.{◌≡◌, ◌+◌, ◌<◌, IfOk, IfSome, length, map};
ghost use Rattle.metric_values.specs.Cells.{row_at};
ghost use Rattle.metric_values.specs.Columns.{element_of};
ghost use Rattle.metric_values.specs.Distances.{bag_distance};
ghost use Rattle.metric_values.specs.Limits.{rows_below};
ghost use Rattle.metric_values.specs.Tables.{apart};
ghost use Rattle.metric_values.specs.Values.{NumF};
ghost use Rattle.value_distance.specs.Order.{element_cmp};

use crate::sorted::{Element, bags_apart};
use fz_ast::NoMemory;
use metric_values::{Cell, Table, Tables};
use std::alloc::Global;
use std::cmp::Ordering;

/// A row in its place.
#[derive(Clone, Copy)]
pub struct Row<'a> {
    table: &'a Table,
    number: u32,
    ghost within: { number < length table.now },
}

fn compare_cells(x: Cell<'_>, y: Cell<'_>) -> Ordering
    ensures { result ≡ element_cmp (element_of x.entry) (element_of y.entry) }
{
    match (x, y) {
        (Cell::Number(y), Cell::Number(z)) => y.cmp(&z),
        (Cell::Text(s), Cell::Text(t)) => s.cmp(t),
        (Cell::Number(_), Cell::Text(_)) => Ordering::Less,
        (Cell::Text(_), Cell::Number(_)) => Ordering::Greater,
    }
}

fn compare_rows(x: &Table, i: u32, y: &Table, j: u32) -> Ordering
    requires left { i < length x.now }
    requires right { j < length y.now }
    ensures { result ≡ element_cmp (row_at x.now i) (row_at y.now j) }
{
    let (width, other_width) = (x.width(), y.width());
    let last = width.min(other_width) - 1;
    for k in 0..last {
        match compare_cells(x.cell(i, k), y.cell(j, k)) {
            Ordering::Equal => {}
            unequal => return unequal,
        }
    }
    match width.cmp(&other_width) {
        Ordering::Equal => compare_cells(x.cell(i, last), y.cell(j, last)),
        unequal => unequal,
    }
}

impl<'a> Element for Row<'a> {
    ghost element = { λ row. row_at row.table.now row.number };

    fn compare(&self, other: &Row<'a>) -> Ordering {
        compare_rows(self.table, self.number, other.table, other.number)
    }
}

fn rows<'a>(alloc: Global, table: &'a Table) -> Result<Vec<Row<'a>>, NoMemory>
    ensures is { IfOk result (λ rows. map (λ row. row_at row.table.now row.number) rows.items ≡ table.now) }
    ensures few { IfOk result (λ rows. length rows.items < rows_below) }
{
    let _ = table.width();
    let mut rows = Vec::with_capacity(alloc, table.len())?;
    for number in 0..table.len() as u32 {
        if let Err(_) = rows.push(Row { table, number }) {
            return Err(NoMemory);
        }
    }
    Ok(rows)
}

/// A row that is a number.
#[derive(Clone, Copy)]
pub struct Number {
    value: i64,
}

impl Element for Number {
    ghost element = { λ number. NumF number.value };

    fn compare(&self, other: &Number) -> Ordering {
        self.value.cmp(&other.value)
    }
}

fn number_of(cell: Cell<'_>) -> Option<Number>
    ensures { IfSome result (λ number. NumF number.value ≡ element_of cell.entry) }
{
    match cell {
        Cell::Number(value) => Some(Number { value }),
        Cell::Text(_) => None,
    }
}

// The rows of a table that is one column of numbers, to be compared faster.
fn numbers(alloc: Global, table: &Table) -> Result<Option<Vec<Number>>, NoMemory>
    ensures is { IfOk result (λ found. IfSome found (λ numbers. map (λ number. NumF number.value) numbers.items ≡ table.now)) }
    ensures few { IfOk result (λ found. IfSome found (λ numbers. length numbers.items < rows_below)) }
{
    if table.width() != 1 {
        return Ok(None);
    }
    let mut numbers = Vec::with_capacity(alloc, table.len())?;
    for i in 0..table.len() as u32 {
        let Some(number) = number_of(table.cell(i, 0)) else {
            return Ok(None);
        };
        if let Err(_) = numbers.push(number) {
            return Err(NoMemory);
        }
    }
    Ok(Some(numbers))
}

/// How far two tables are apart: as many rows as are left of both when equal ones are paired off.
pub fn table_apart(alloc: Global, x: &Table, y: &Table) -> Result<u64, NoMemory>
    ensures { IfOk result (λ n. n ≡ bag_distance x.now y.now) }
{
    if let (Some(xs), Some(ys)) = (numbers(alloc, x)?, numbers(alloc, y)?) {
        return Ok(bags_apart(xs, ys));
    }
    let xs = rows(alloc, x)?;
    let ys = rows(alloc, y)?;
    Ok(bags_apart(xs, ys))
}

/// How far two datasets are apart: the sum over their tables.
pub fn tables_apart(alloc: Global, x: &Tables, y: &Tables) -> Result<u64, NoMemory>
    ensures { IfOk result (λ n. n ≡ apart x.now y.now) }
{
    let mut sum = 0u64;
    for k in 0..x.len().min(y.len()) {
        let rows = table_apart(alloc, x.table(k), y.table(k))?;
        match sum.checked_add(rows) {
            Some(more) => sum = more,
            None => return Err(NoMemory),
        }
    }
    Ok(sum)
}
