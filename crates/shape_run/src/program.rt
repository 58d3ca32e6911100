//! The plan of a whole program.
ghost use Rattle.std.specs.Prelude.{◌≡◌, ◌<◌, IfErr, IfOk, List, length};
ghost use Rattle.fz_ast.specs.Limits.{TermLimits};
ghost use Rattle.fz_ast.specs.Signature.{IsSignature};
ghost use Rattle.fz_ast.specs.Terms.{Term};
ghost use Rattle.fz_frac.specs.Distance.{Distance};
ghost use Rattle.linear_types.specs.Program.{Accepted, sensitivity_of};
ghost use Rattle.linear_types.specs.Sensitivities.{Sensitivities};
ghost use Rattle.metric_law.specs.Means.{HasNumber};
ghost use Rattle.metric_values.specs.Tables.{Dataset, IsDataset, rows_of};
ghost use Rattle.shape_law.specs.Law.{IsWithinLimits};
ghost use Rattle.shape_law.specs.Shapes.{table_shapes};
ghost use Rattle.shape_law.specs.Walk.{depth_limit};
ghost use Rattle.shape_run.specs.Cells.{IsScope, IsShape};
ghost use Rattle.shape_run.specs.Plans.{IsStopOf, IsPlanOf};

use crate::plan::{Count, Plan, ShapeFault};
use crate::store::Store;
use crate::walk::visit;
use fz_ast::{NoMemory, Sig, Term};
use std::alloc::Global;

// How deep a run may be.
pub fn limit() -> u32
    ensures is { result ≡ depth_limit }
    ensures some { 0 < result }
    ensures small { result < 1000 }
{
    128
}

// The names of the tables, each as wide as `table` says.
fn bind_tables(store: &mut Store, sig: &Sig, table: u32) -> Result<u32, NoMemory>
    requires { (N : List Term) → IsShape N store.old.cells.items table (Rattle.shape_law.specs.Shapes.Wide 1 0 0) }
    ensures { IfOk result (λ n. (N : List Term) → IsScope N store.new.cells.items n (table_shapes sig.now)) }
{
    let mut scope = 0;
    let mut i = sig.len();
    while i > 0 {
        i -= 1;
        let Ok(inner) = store.bind(sig.table(i).name, table, scope) else {
            return Err(NoMemory);
        };
        scope = inner;
    }
    Ok(scope)
}

/// The plan of a program over the tables of a signature: how deep, long and wide its runs are.
/// An accepted program with a plan has a number on each dataset, by a derivation no higher than the plan is deep.
///
/// # Errors
///
/// The first limit that the run without data passes, with its span; `TooManyWalks` where it passes none, but its bags take too many; or
/// `NoMemory`.
pub fn shape(alloc: Global, sig: &Sig, term: &Term) -> Result<Plan, ShapeFault>
    ensures planned { IfOk result (IsPlanOf sig.now term.now) }
    ensures stopped { IfErr result (IsStopOf sig.now term.now) }
    ensures limits { IfOk result (λ plan. IsWithinLimits plan.depth plan.turns plan.width plan.reach) }
    ensures runs { (D : Sensitivities) (r : Distance) → IsSignature sig.now → TermLimits (term.now) → sensitivity_of sig.now term.now ≡ Accepted D r
        → IfOk result (λ plan. (X : Dataset) → IsDataset sig.now X → HasNumber plan.depth (rows_of sig.now X) term.now) }
{
    let (nodes, root) = term.parts();
    let mut store = Store::new(alloc);
    let Ok(table) = store.ground(1, 0, 0) else {
        return Err(ShapeFault::NoMemory);
    };
    let Ok(scope) = bind_tables(&mut store, sig, table) else {
        return Err(ShapeFault::NoMemory);
    };
    let mut count = Count {
        plan: Plan {
            depth: 0,
            turns: 0,
            width: 0,
            walks: 0,
            reach: 0,
        },
        too_many: false,
    };
    let _ = visit(nodes, &mut store, &mut count, scope, root, limit(), 1)?;
    if count.too_many {
        return Err(ShapeFault::TooManyWalks);
    }
    Ok(count.plan)
}
