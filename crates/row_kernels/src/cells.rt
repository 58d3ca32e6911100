//! A column's numbers for a chunk of rows.
ghost use Rattle.std.specs.Prelude.{◌≤◌, ◌<◌, ◌+◌, IfOk, IfSome, length, ℕ};
ghost use Rattle.metric_values.specs.Cells.{columns_in, row_at};
ghost use Rattle.row_kernels.specs.Cells.{AreCells};

use fz_ast::NoMemory;
use metric_values::{Cell, Table};
use std::alloc::Global;

/// The numbers of a column, from a row on, if it is one of numbers.
pub fn cells(
    alloc: Global,
    table: &Table,
    first: usize,
    k: usize,
    len: usize,
) -> Result<Option<Vec<i64>>, NoMemory>
    requires rows { first + len ≤ length table.now }
    requires column { (j : ℕ) → j < len → k < columns_in (row_at table.now (first + j)) }
    ensures { IfOk result (λ o. IfSome o (λ zs. AreCells table.now first k len zs.items)) }
{
    let _ = table.width();
    let Ok(mut zs) = Vec::with_capacity(alloc, len) else {
        return Err(NoMemory);
    };
    for j in 0..len {
        let Cell::Number(z) = table.cell((first + j) as u32, k) else {
            return Ok(None);
        };
        if let Err(_) = zs.push(z) {
            return Err(NoMemory);
        }
    }
    Ok(Some(zs))
}
