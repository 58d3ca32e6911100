//! A function of a table's rows, where no table has a name.
ghost use Rattle.std.specs.Prelude.{◌<◌, IfErr, IfOk, length};
ghost use Rattle.fz_ast.specs.Arena.{Grows};
ghost use Rattle.fz_ast.specs.Limits.{TermLimits};
ghost use Rattle.fz_ast.specs.TypeNodes.{type_at};
ghost use Rattle.fz_ast.specs.Types.{TextT, UnlimitedT};
ghost use Rattle.linear_types.specs.Inferred.{Has};
ghost use Rattle.linear_types.specs.Places.{AreAlike, distances};
ghost use Rattle.linear_types.specs.Rule.{exactly};
ghost use Rattle.linear_types.specs.Sensitivities.{Sensitivities};
ghost use Rattle.row_functions.specs.RowFunctions.{function_rule};
ghost use Rattle.sensitivity_check.specs.Answered.{IsCheckedFun, IsFirstFunctionFault};
ghost use Rattle.sensitivity_check.specs.Written.{IsNumberOf};
ghost use Rattle.typing_rows.specs.Says.{Says};

use crate::checker::{judged, with_types};
use crate::fault::CheckFault;
use crate::written::type_number;
use fz_ast::{Arena, NoMemory, Sig, Span, Term, Ty, TypeForm};
use std::alloc::Global;
use typing_rows::Wanted;
use typing_rows::clause::{Judged, RowFault};
use typing_rows::wanted::unlimited_type;

/// A function of rows that was accepted: the term, as it was handed in.
#[derive(Drop)]
pub struct CheckedFun<'a> {
    pub term: &'a Term,
}

// The number of `row -> text`.
fn function_type(alloc: Global, arena: &mut Arena, row: &Ty) -> Result<u32, NoMemory>
    ensures grows { Grows arena.old arena.new }
    ensures is { IfOk result (λ n. IsNumberOf arena.new n (UnlimitedT row.now TextT)) }
{
    let taken = type_number(alloc, arena, row)?;
    let given = arena.intern(TypeForm::Text)?;
    unlimited_type(arena, taken, given)
}

// The type is that of functions from such rows to texts; the term at `span` has it.
fn wanted(
    alloc: Global,
    arena: &mut Arena,
    span: Span,
    row: &Ty,
    found: Judged,
) -> Result<Judged, RowFault>
    requires { found.ty < length arena.old }
    ensures says { (D : Sensitivities) → AreAlike (distances found.amounts.items) D
        → Says arena.new result (exactly span (type_at arena.old found.ty) (UnlimitedT row.now TextT) (Has (type_at arena.old found.ty) D)) }
{
    let function = function_type(alloc, arena, row)?;
    if arena.same(found.ty, function) {
        return Ok(found);
    }
    Err(RowFault::Mismatch {
        span,
        found: found.ty,
        wanted: Wanted::Exactly(function),
    })
}

// The type and sensitivities of a function of such rows.
fn judged_function(
    alloc: Global,
    arena: &mut Arena,
    term: &Term,
    row: &Ty,
) -> Result<Judged, RowFault>
    ensures says { Says arena.new result (function_rule row.now term.now) }
    ensures limits { TermLimits term.now }
{
    let tables = Sig::new(alloc);
    let found = judged(alloc, arena, &tables, term)?;
    let (nodes, root) = term.parts();
    wanted(alloc, arena, nodes.node(root).span, row, found)
}

/// Checks that a term is a function from the rows of a table to texts, by the typing rules and without tables.
///
/// # Errors
///
/// The first fault in the order of the rules, and last a `Mismatch` of the whole term, where it has another type. `NoMemory` where
/// memory ran out.
pub fn check_fun<'a>(alloc: Global, term: &'a Term, row: &Ty) -> Result<CheckedFun<'a>, CheckFault>
    ensures checked { IfOk result (IsCheckedFun row.now term.now) }
    ensures fault { IfErr result (IsFirstFunctionFault row.now term.now) }
{
    let mut arena = Arena::new(alloc);
    match judged_function(alloc, &mut arena, term, row) {
        Ok(_) => Ok(CheckedFun { term }),
        Err(fault) => Err(with_types(arena, fault)),
    }
}
