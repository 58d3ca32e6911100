//! The tables of a signature as the names in scope of a program.
ghost use Rattle.std.specs.Prelude.{◌≡◌, IfOk};
ghost use Rattle.fz_ast.specs.Types.{BagT};
ghost use Rattle.fz_ast.specs.Arena.{Grows};
ghost use Rattle.linear_types.specs.Program.{context_of};
ghost use Rattle.sensitivity_check.specs.Scope.{context_in, HasKnownTypes};
ghost use Rattle.sensitivity_check.specs.Written.{IsNumberOf};

use crate::scope::Bound;
use crate::written::type_number;
use fz_ast::{Arena, NoMemory, Sig, Ty, TypeForm};
use std::alloc::Global;

// The number of the type of a table with such rows.
fn table_type(alloc: Global, arena: &mut Arena, row: &Ty) -> Result<u32, NoMemory>
    ensures grows { Grows arena.old arena.new }
    ensures is { IfOk result (λ n. IsNumberOf arena.new n (BagT row.now)) }
{
    let element = type_number(alloc, arena, row)?;
    arena.intern(TypeForm::Bag(element))
}

/// The tables as names in scope, the first one being the innermost.
pub fn tables_in_scope(alloc: Global, arena: &mut Arena, sig: &Sig) -> Result<Vec<Bound>, NoMemory>
    ensures grows { Grows arena.old arena.new }
    ensures scope { IfOk result (λ scope. HasKnownTypes arena.new scope.items) }
    ensures are { IfOk result (λ scope. context_in arena.new scope.items ≡ context_of sig.now) }
{
    let mut scope = Vec::new(alloc);
    for i in 0..sig.len() {
        let table = sig.table(i);
        let ty = table_type(alloc, arena, &table.row)?;
        let bound = Bound {
            name: table.name,
            ty,
        };
        if let Err(_) = scope.push(bound) {
            return Err(NoMemory);
        }
    }
    Ok(scope)
}
