//! What is made of elements, but for those that a function is applied to.
ghost use Rattle.std.specs.Prelude.{◌≡◌, ◌+ℤ◌, IfOk, IfSome};
ghost use Rattle.flow_values.specs.Steps.{all_through};
ghost use Rattle.row_kernels.specs.Gathers.{gathered, weigh_some};
ghost use Rattle.fuzz_eval.specs.Walks.{IsWeighedValue, flat_in, means_in};

use flow_values::{Strand, Value};
use fz_ast::NoMemory;
use row_kernels::{Gather, add_total, share};

/// How many elements a strand has, where none is left out and they are counted.
pub fn count_at_once(gather: Gather, strand: &Strand) -> Option<i128>
    ensures { IfSome result (λ z. z ≡ gathered gather (all_through strand.now.chain.steps strand.now.table.value)) }
{
    let Gather::Size = gather else {
        return None;
    };
    if strand.has_only_maps() {
        Some(strand.table.len() as i128)
    } else {
        None
    }
}

/// What was made so far, with one element more, if it is there.
pub fn add_some(gather: Gather, total: i128, o: Option<Value>) -> Result<i128, NoMemory>
    requires { IsWeighedValue gather (means_in o) }
    ensures { IfOk result (λ z. z ≡ total +ℤ weigh_some gather (flat_in (means_in o))) }
{
    let Some(y) = o else {
        return Ok(total);
    };
    match gather {
        Gather::Size => add_total(total, 1),
        Gather::Sum(lo, hi) => add_total(total, share(lo, hi, y.number())),
    }
}
