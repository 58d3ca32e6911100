//! Tables: columns side by side, and the tables of a dataset.
ghost use Rattle.std.specs.Prelude.{◌≡◌, ◌<◌, ◌++◌, [], ◌∷◌, IfOk, OnErr, OnOk, length, map};
ghost use Rattle.std.specs.List.{All};
ghost use Rattle.std.proofs.Common.{get_or};
ghost use Rattle.std.specs.Arc.{arc_value};
ghost use Rattle.metric_values.specs.Limits.{columns_below, rows_below};
ghost use Rattle.metric_values.specs.Cells.{AreColumns, AreRows, cell_at, chosen_of, columns_in, row_at};
ghost use Rattle.metric_values.specs.Rows.{IsNumbered, place_in};
ghost use Rattle.metric_values.specs.Values.{NumF};
ghost use Rattle.metric_values.specs.Columns.{cells_of, element_of, rows_of_columns};

use crate::column::{Cell, Column};
use fz_ast::NoMemory;
use std::alloc::Global;
use std::marker::Model;
use std::sync::Arc;

/// Which rows of its columns a table has.
#[derive(Drop)]
pub enum Rows {
    Whole,
    /// Those of these numbers, in their order.
    Chosen(Arc<Vec<u32>>),
}

/// Columns side by side, or chosen rows of them. A contract sees the list of the rows.
///
/// Threads share the columns, and the row numbers, by counts.
#[derive(Drop)]
pub struct Table {
    columns: Arc<Vec<Column>>,
    rows: Rows,
}

impl Model for Table {
    ghost use Rattle.std.specs.Prelude.{List};
    ghost use Rattle.metric_values.specs.Codes.{flats_code};
    ghost use Rattle.metric_values.specs.Values.{Flat};

    ghost Value = { List Flat };

    ghost coded = { flats_code };

    ghost use Rattle.std.specs.Arc.{arc_value};
    ghost use Rattle.metric_values.specs.Rows.{IsColumnTable, rows_of_table};

    ghost view = { λ t. rows_of_table (arc_value t.columns).items t.rows };

    ghost invariant = { λ t. IsColumnTable (arc_value t.columns).items t.rows };
}

// Something in a place that many share.
fn shared<T>(alloc: Global, value: T) -> Result<Arc<T>, NoMemory>
where
    T: Drop,
    ensures { IfOk result (λ arc. arc_value arc ≡ value) }
{
    match Arc::new(alloc, value) {
        Ok(arc) => Ok(arc),
        Err(_) => Err(NoMemory),
    }
}

// Where a row lies in the columns.
fn place(rows: &Rows, i: u32) -> u32
    requires { IsNumbered rows.now i }
    ensures { result ≡ place_in rows.now i }
{
    match rows {
        Rows::Whole => i,
        Rows::Chosen(numbers) => numbers[i as usize],
    }
}

// Where these rows lie in the columns.
fn places(alloc: Global, rows: &Rows, numbers: &[u32]) -> Result<Vec<u32>, NoMemory>
    requires { All (IsNumbered rows.now) numbers.now }
    ensures { IfOk result (λ places. places.items ≡ map (place_in rows.now) numbers.now) }
{
    let mut places = Vec::new(alloc);
    for i in 0..numbers.len() {
        if let Err(_) = places.push(place(rows, numbers[i])) {
            return Err(NoMemory);
        }
    }
    Ok(places)
}

impl Table {
    /// The rows of these columns, of which each has as many cells.
    ///
    /// # Errors
    ///
    /// `NoMemory` where memory ran out, or where there are 2^32 rows or more.
    pub fn new(alloc: Global, columns: Vec<Column>) -> Result<Table, NoMemory>
        requires columns { AreColumns (map cells_of columns.items) }
        requires narrow { length columns.items < columns_below }
        ensures { IfOk result (λ t. t ≡ rows_of_columns columns.items) }
    {
        if columns[0].len() > u32::MAX as usize {
            return Err(NoMemory);
        }
        Ok(Table {
            columns: shared(alloc, columns)?,
            rows: Rows::Whole,
        })
    }

    /// A table of one column of numbers.
    ///
    /// # Errors
    ///
    /// As for `new`.
    pub fn numbers(alloc: Global, numbers: Vec<i64>) -> Result<Table, NoMemory>
        ensures { IfOk result (λ t. t ≡ map NumF numbers.items) }
    {
        let mut columns = Vec::new(alloc);
        if let Err(_) = columns.push(Column::Numbers(numbers)) {
            return Err(NoMemory);
        }
        Table::new(alloc, columns)
    }

    /// An equal table, which shares the cells.
    pub fn copy(&self) -> Result<Table, NoMemory>
        ensures { IfOk result (λ t. t ≡ self.now) }
    {
        let rows = match &self.rows {
            Rows::Whole => Rows::Whole,
            Rows::Chosen(numbers) => Rows::Chosen(numbers.clone()?),
        };
        Ok(Table {
            columns: self.columns.clone()?,
            rows,
        })
    }

    /// The rows of these numbers, in their order, over the same cells.
    ///
    /// # Errors
    ///
    /// `NoMemory` where memory ran out, or where there are 2^32 numbers or more.
    pub fn with_rows(&self, alloc: Global, numbers: &[u32]) -> Result<Table, NoMemory>
        requires { AreRows self.now numbers.now }
        ensures { IfOk result (λ t. t ≡ chosen_of self.now numbers.now) }
    {
        if numbers.len() > u32::MAX as usize {
            return Err(NoMemory);
        }
        let places = places(alloc, &self.rows, numbers)?;
        let columns = self.columns.clone()?;
        let rows = Rows::Chosen(shared(alloc, places)?);
        Ok(Table { columns, rows })
    }

    /// How many rows there are.
    pub fn len(&self) -> usize
        ensures { result ≡ length self.now }
    {
        match &self.rows {
            Rows::Whole => self.columns[0].len(),
            Rows::Chosen(numbers) => numbers.len(),
        }
    }

    /// How many columns there are.
    pub fn width(&self) -> usize
        ensures columns { All (λ row. columns_in row ≡ result) self.now }
        ensures narrow { result < columns_below }
        ensures short { length self.now < rows_below }
    {
        self.columns.len()
    }

    /// The cell of a row and a column, by their numbers.
    pub fn cell(&self, i: u32, k: usize) -> Cell<'_>
        requires row { i < length self.now }
        requires column { k < columns_in (row_at self.now i) }
        ensures { element_of result ≡ cell_at k (row_at self.now i) }
    {
        let place = place(&self.rows, i);
        self.columns[k].cell(place as usize)
    }
}

/// The tables of a dataset, in the order of their signature. A contract sees the dataset.
#[derive(Drop)]
pub struct Tables {
    tables: Vec<Table>,
}

impl Model for Tables {
    ghost use Rattle.metric_values.specs.Codes.{dataset_code};
    ghost use Rattle.metric_values.specs.Tables.{Dataset};

    ghost Value = { Dataset };

    ghost coded = { dataset_code };

    ghost view = { λ t. t.tables.items };
}

impl Tables {
    /// No tables.
    pub fn new(alloc: Global) -> Tables
        ensures { result ≡ [] }
    {
        Tables {
            tables: Vec::new(alloc),
        }
    }

    /// Adds a table at the end.
    pub fn push(&mut self, table: Table) -> Result<(), NoMemory>
        ensures pushed { OnOk result (self.new ≡ self.old ++ table ∷ []) }
        ensures unchanged { OnErr result (self.new ≡ self.old) }
    {
        if let Err(_) = self.tables.push(table) {
            return Err(NoMemory);
        }
        Ok(())
    }

    /// How many tables there are.
    pub fn len(&self) -> usize
        ensures { result ≡ length self.now }
    {
        self.tables.len()
    }

    /// A table by its number.
    pub fn table(&self, i: usize) -> &Table
        requires { i < length self.now }
        ensures { result.now ≡ get_or self.now i [] }
    {
        &self.tables[i]
    }
}
