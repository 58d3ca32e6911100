//! The type of a table's rows.
ghost use Rattle.std.specs.Prelude.{◌≡◌, ◌<◌, ◌++◌, [], ◌∷◌, true, length, IfOk, OnOk};
ghost use Rattle.fz_ast.specs.Types.{is_flat, formed, WellFormed};
ghost use Rattle.fz_ast.specs.Rows.{column_type, row_type};

use crate::memory::NoMemory;
use crate::tree::Ty;
use crate::types::{TypeForm, Types};
use std::alloc::Global;

/// What a column of a table holds.
#[derive(Clone, Copy)]
pub enum Column {
    Num,
    Text,
}

fn push_column(types: &mut Types, column: Column) -> Result<u32, NoMemory>
    ensures number { IfOk result (λ n. n ≡ length types.old) }
    ensures grown { OnOk result (types.new ≡ types.old ++ column_type column ∷ []) }
{
    match column {
        Column::Num => types.push(TypeForm::Num),
        Column::Text => types.push(TypeForm::Text),
    }
}

/// The type of rows of these columns: the first times the rest, which is again a first times a rest.
pub fn row_type(alloc: Global, columns: &[Column]) -> Result<Ty, NoMemory>
    requires { 0 < length columns.now }
    ensures is { IfOk result (λ t. t ≡ row_type columns.now) }
    ensures flat { IfOk result (λ t. is_flat t ≡ true) }
    ensures formed { IfOk result (λ t. formed t ≡ WellFormed) }
{
    let mut types = Types::new(alloc);
    let mut i = columns.len() - 1;
    let mut row = push_column(&mut types, columns[i])?;
    while i > 0 {
        i -= 1;
        let column = push_column(&mut types, columns[i])?;
        row = types.push(TypeForm::Tensor(column, row))?;
    }
    Ok(Ty::new(types, row))
}
