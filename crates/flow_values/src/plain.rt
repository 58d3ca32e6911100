//! Numbers and texts in their places.
ghost use Rattle.std.specs.Prelude.{◌≡◌, ◌<◌, length};
ghost use Rattle.metric_values.specs.Cells.{cell_at, columns_in, from_column, row_at};
ghost use Rattle.metric_values.specs.Values.{value_of};
ghost use Rattle.flow_values.specs.Founds.{plain_in, plain_of};

use metric_values::{Cell, Table};

/// A number, a text, or anything else.
#[derive(Clone, Copy)]
pub enum Plain<'a> {
    Num(i64),
    Text(&'a [u8]),
    Other,
}

// The cell of a row and a column.
pub(crate) fn plain_at(table: &Table, i: u32, k: usize) -> Plain<'_>
    requires row { i < length table.now }
    requires column { k < columns_in (row_at table.now i) }
    ensures { plain_of result ≡ plain_in (value_of (cell_at k (row_at table.now i))) }
{
    match table.cell(i, k) {
        Cell::Number(z) => Plain::Num(z),
        Cell::Text(bytes) => Plain::Text(bytes),
    }
}

// The cell of a row and a column, if no other stands behind it.
pub(crate) fn last_plain(table: &Table, i: u32, k: usize) -> Plain<'_>
    requires row { i < length table.now }
    requires column { k < columns_in (row_at table.now i) }
    ensures { plain_of result ≡ plain_in (value_of (from_column k (row_at table.now i))) }
{
    let width = table.width();
    if k + 1 < width {
        return Plain::Other;
    }
    plain_at(table, i, k)
}
