//! The cells of a table.

ghost use Rattle.std.specs.Prelude.{◌≡◌};
ghost use Rattle.table_store.specs.Cell.{cell_number};

use crate::MAX_NUMBER;
use std::str;

/// The number that a cell writes: digits, perhaps behind a minus.
pub(crate) fn number(cell: &[u8]) -> Option<i64>
    ensures { result ≡ cell_number cell.now }
{
    // `parse` would take a plus.
    if cell.first().copied() == Some(b'+') {
        return None;
    }
    let Ok(text) = str::from_utf8(cell) else {
        return None;
    };
    match text.parse::<i64>() {
        Ok(number) if -MAX_NUMBER <= number && number <= MAX_NUMBER => Some(number),
        _ => None,
    }
}
