//! Columns of cells.
ghost use Rattle.std.specs.Prelude.{◌≡◌, ◌<◌, length};
ghost use Rattle.metric_values.specs.Cells.{row_at};
ghost use Rattle.metric_values.specs.Columns.{cells_of, element_of};

use crate::texts::Texts;

/// A column of cells.
#[derive(Drop)]
pub enum Column {
    Numbers(Vec<i64>),
    Texts(Texts),
}

/// A cell in its place.
#[derive(Clone, Copy)]
pub enum Cell<'a> {
    Number(i64),
    Text(&'a [u8]),
}

impl Column {
    /// How many cells there are.
    pub fn len(&self) -> usize
        ensures { result ≡ length (cells_of self.now) }
    {
        match self {
            Column::Numbers(numbers) => numbers.len(),
            Column::Texts(texts) => texts.len(),
        }
    }

    /// A cell by its number.
    pub fn cell(&self, i: usize) -> Cell<'_>
        requires { i < length (cells_of self.now) }
        ensures { element_of result ≡ row_at (cells_of self.now) i }
    {
        match self {
            Column::Numbers(numbers) => Cell::Number(numbers[i]),
            Column::Texts(texts) => Cell::Text(texts.text(i)),
        }
    }
}
