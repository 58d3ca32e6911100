//! The sensitivities of a whole program, each to a table.
ghost use Rattle.std.specs.Prelude.{◌≡◌, ◌<◌, IfOk, MatchOption};
ghost use Rattle.fz_ast.specs.Signature.{IsSignature};
ghost use Rattle.fz_ast.specs.Terms.{Name};
ghost use Rattle.fz_frac.specs.Distance.{Inf};
ghost use Rattle.fz_frac.specs.Sens.{distance_of};
ghost use Rattle.linear_types.specs.Environment.{amount_of};
ghost use Rattle.linear_types.specs.Laws.{FiniteBelow, sensitivity_at};
ghost use Rattle.linear_types.specs.Places.{distances};
ghost use Rattle.linear_types.specs.Program.{greatest_of, sensitivity_to};

use fz_ast::{NoMemory, Sig};
use fz_frac::Sens;
use linear_types::env::Env;
use std::alloc::Global;

// The sensitivity to table `i`, which is 0 past the end.
fn amount_at(amounts: &[Sens], i: usize) -> Sens
    ensures { distance_of result ≡ sensitivity_at (distances amounts.now) i }
{
    if i < amounts.len() {
        amounts[i]
    } else {
        Sens::whole(0)
    }
}

/// The first of so many tables to which the sensitivity is infinite.
pub fn first_endless(amounts: &[Sens], tables: usize) -> Option<usize>
    ensures { MatchOption result (FiniteBelow (distances amounts.now) tables) (λ i. (i < tables) × (sensitivity_at (distances amounts.now) i ≡ Inf)
        × FiniteBelow (distances amounts.now) i) }
{
    for i in 0..tables {
        if let Sens::Inf = amount_at(amounts, i) {
            return Some(i);
        }
    }
    None
}

/// The greatest sensitivity, which is 0 where there is none.
pub fn greatest(amounts: &[Sens]) -> Sens
    ensures { distance_of result ≡ greatest_of (distances amounts.now) }
{
    let mut greatest = Sens::whole(0);
    for i in (0..amounts.len()).rev() {
        greatest = amounts[i].max(greatest);
    }
    greatest
}

/// The sensitivity for each table's name.
pub fn by_name(alloc: Global, sig: &Sig, amounts: &[Sens]) -> Result<Env, NoMemory>
    ensures amounts { IfOk result (λ env. (x : Name) → amount_of env x ≡ sensitivity_to sig.now (distances amounts.now) x) }
    ensures signature { IfOk result (λ _. IsSignature sig.now) }
{
    let mut env = Env::new(alloc);
    for i in (0..sig.len()).rev() {
        if let Err(_) = env.set(sig.table(i).name, amount_at(amounts, i)) {
            return Err(NoMemory);
        }
    }
    Ok(env)
}
