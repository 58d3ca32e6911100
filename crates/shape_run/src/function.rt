//! The plan of a function of rows, which is applied to a row.
ghost use Rattle.std.specs.Prelude.{◌≡◌, ◌+◌, ◌<◌, IfErr, IfOk, length, true};
ghost use Rattle.fz_ast.specs.Limits.{TermLimits};
ghost use Rattle.fz_ast.specs.Types.{Ty, is_flat};
ghost use Rattle.row_functions.specs.RowFunctions.{IsRowFunction, RunsOnRows};
ghost use Rattle.shape_law.specs.Law.{IsWithinLimits};
ghost use Rattle.shape_law.specs.Shapes.{Shape};
ghost use Rattle.shape_law.specs.Walk.{enters, walk};
ghost use Rattle.shape_run.specs.Cells.{IsShape};
ghost use Rattle.shape_run.specs.Plans.{IsFunctionPlanOf, IsFunctionStopOf};
ghost use Rattle.shape_run.specs.Rules.{StandsForShape};
ghost use Rattle.shape_run.specs.Tells.{Tells, tally_of};

use crate::plan::{Count, Plan, ShapeFault};
use crate::program::limit;
use crate::store::Store;
use crate::walk::{enter, visit};
use fz_ast::{Nodes, Term};
use std::alloc::Global;

// What a function gives for a row, its body being visited at depth 2.
fn apply_to_row(
    nodes: &Nodes,
    store: &mut Store,
    count: &mut Count,
    function: u32,
    left: u32,
) -> Result<u32, ShapeFault>
    requires function { StandsForShape nodes.now.terms store.old.cells.items function }
    requires room { left < 1000 }
    ensures { (p : Shape) → IsShape nodes.now.terms store.old.cells.items function p
        → Tells nodes.now.terms store.new.cells.items count.new result
        (enters (walk left 2) p (Rattle.shape_law.specs.Shapes.Wide 0 0 0) (tally_of count.old)) }
{
    let Ok(row) = store.ground(0, 0, 0) else {
        return Err(ShapeFault::NoMemory);
    };
    enter(nodes, store, count, function, row, left, 2)
}

/// The plan of a function of rows: how deep, long and wide its runs are. The term's node has depth 1, and the body of the function that it
/// gives depth 2. A function with a plan gives each row its text, by a derivation no higher than the plan is deep.
///
/// # Errors
///
/// Those of `shape`.
pub fn shape_fun(alloc: Global, term: &Term) -> Result<Plan, ShapeFault>
    ensures planned { IfOk result (IsFunctionPlanOf term.now) }
    ensures stopped { IfErr result (IsFunctionStopOf term.now) }
    ensures limits { IfOk result (λ plan. IsWithinLimits plan.depth plan.turns plan.width plan.reach) }
    ensures runs { (row : Ty) → is_flat row ≡ true → TermLimits term.now → IsRowFunction row term.now → IfOk result (λ plan. RunsOnRows plan.depth row term.now) }
{
    let (nodes, root) = term.parts();
    let mut store = Store::new(alloc);
    let mut count = Count {
        plan: Plan {
            depth: 0,
            turns: 0,
            width: 0,
            walks: 0,
            reach: 0,
        },
        too_many: false,
    };
    let depths = limit();
    let function = visit(nodes, &mut store, &mut count, 0, root, depths, 1)?;
    let _ = apply_to_row(nodes, &mut store, &mut count, function, depths - 1)?;
    if count.too_many {
        return Err(ShapeFault::TooManyWalks);
    }
    Ok(count.plan)
}
