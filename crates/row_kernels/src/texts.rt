//! Texts of rows, compared in their places.
ghost use Rattle.std.specs.Prelude.{◌≡◌, ◌<◌, IfOk, IfSome};
ghost use Rattle.metric_values.specs.Values.{TextV};
ghost use Rattle.row_kernels.specs.Lanes.{AreSameTexts, IsLong, lane_at};

use crate::lanes::Lanes;
use fz_ast::NoMemory;
use metric_values::Cell;
use std::alloc::Global;

/// The text of a row, if it has one.
pub fn text_of_row(lanes: &Lanes, j: usize, len: usize) -> Option<&[u8]>
    requires long { IsLong len lanes.now }
    requires within { j < len }
    ensures { IfSome result (λ s. lane_at lanes.now j ≡ TextV s.now) }
{
    match lanes {
        Lanes::Text(text) => Some(text),
        Lanes::Cells(t, first, k) => match t.cell((*first + j) as u32, *k) {
            Cell::Text(text) => Some(text),
            Cell::Number(_) => None,
        },
        _ => None,
    }
}

/// Whether the texts of each row are the same, if all have texts.
pub fn same_texts(
    alloc: Global,
    a: &Lanes,
    b: &Lanes,
    len: usize,
) -> Result<Option<Vec<bool>>, NoMemory>
    requires a_long { IsLong len a.now }
    requires b_long { IsLong len b.now }
    ensures { IfOk result (λ o. IfSome o (λ v. AreSameTexts len a.now b.now v.items)) }
{
    let mut out = Vec::new(alloc);
    for j in 0..len {
        let Some(s) = text_of_row(a, j, len) else {
            return Ok(None);
        };
        let Some(t) = text_of_row(b, j, len) else {
            return Ok(None);
        };
        if let Err(_) = out.push(s == t) {
            return Err(NoMemory);
        }
    }
    Ok(Some(out))
}
