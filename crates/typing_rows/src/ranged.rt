//! The sensitivities of a row. Where they are out of range, the fault is the row's term's.
ghost use Rattle.std.specs.Prelude.{◌≡◌, ◌<◌, length, List, MatchResult};
ghost use Rattle.fz_frac.specs.Distance.{Distance, Fin, Inf, ◌≈◌, quotient};
ghost use Rattle.fz_frac.specs.Sens.{distance_of};
ghost use Rattle.fz_ast.specs.Types.{Ty};
ghost use Rattle.fz_ast.specs.TypeNodes.{type_at};
ghost use Rattle.fz_ast.specs.Limits.{IsBang};
ghost use Rattle.linear_types.specs.Sensitivities.{Sensitivities, plus, join, scale, rest};
ghost use Rattle.linear_types.specs.Places.{AreAlike, IsAnswer, distances};
ghost use Rattle.linear_types.specs.Rule.{has_bound};
ghost use Rattle.typing_rows.specs.Says.{GivesAll, GivesOne, Says, fault_at};
ghost use Rattle.typing_rows.specs.declared.clause.RowFault.TheVariants.{NoMemory};

use crate::clause::{Judged, RowFault};
use fz_ast::Span;
use fz_frac::{Frac, Range, Sens};
use linear_types::EnvFault;
use linear_types::places::{copied, joined, rest_of, scaled, sum};
use std::alloc::Global;

fn fault_at(s: Span, fault: EnvFault) -> RowFault
    ensures { result ≡ fault_at s fault }
{
    match fault {
        EnvFault::Range => RowFault::Range { span: s },
        EnvFault::NoMemory => RowFault::NoMemory,
    }
}

/// D + E
pub fn sum_at(alloc: Global, s: Span, a: &[Sens], b: &[Sens]) -> Result<Vec<Sens>, RowFault>
    ensures { (D E : Sensitivities) → AreAlike (distances a.now) D → AreAlike (distances b.now) E → GivesAll result s (plus D E) }
{
    match sum(alloc, a, b) {
        Ok(v) => Ok(v),
        Err(fault) => Err(fault_at(s, fault)),
    }
}

/// r D
pub fn scaled_at(alloc: Global, s: Span, r: Sens, a: &[Sens]) -> Result<Vec<Sens>, RowFault>
    ensures { (d : Distance) (D : Sensitivities) → distance_of r ≈ d → AreAlike (distances a.now) D → GivesAll result s (scale d D) }
{
    match scaled(alloc, r, a) {
        Ok(v) => Ok(v),
        Err(fault) => Err(fault_at(s, fault)),
    }
}

/// inf D, which is in range
pub fn endless(alloc: Global, a: &[Sens]) -> Result<Vec<Sens>, RowFault>
    ensures { (D : Sensitivities) → AreAlike (distances a.now) D → MatchResult result (λ v. AreAlike (distances v.items) (scale Inf D)) (λ f. f ≡ NoMemory) }
{
    match scaled(alloc, Sens::Inf, a) {
        Ok(v) => Ok(v),
        Err(_) => Err(RowFault::NoMemory),
    }
}

/// max(D, E)
pub fn greatest(alloc: Global, a: &[Sens], b: &[Sens]) -> Result<Vec<Sens>, RowFault>
    ensures { (D E : Sensitivities) → AreAlike (distances a.now) D → AreAlike (distances b.now) E
        → MatchResult result (λ v. AreAlike (distances v.items) (join D E)) (λ f. f ≡ NoMemory) }
{
    match joined(alloc, a, b) {
        Ok(v) => Ok(v),
        Err(_) => Err(RowFault::NoMemory),
    }
}

/// D without the innermost name's
pub fn others(alloc: Global, a: &[Sens]) -> Result<Vec<Sens>, RowFault>
    ensures { (D : Sensitivities) → AreAlike (distances a.now) D → MatchResult result (λ v. AreAlike (distances v.items) (rest D)) (λ f. f ≡ NoMemory) }
{
    match copied(alloc, rest_of(a)) {
        Ok(v) => Ok(v),
        Err(_) => Err(RowFault::NoMemory),
    }
}

/// A whole number.
pub fn whole_at(s: Span, n: u64) -> Result<Sens, RowFault>
    ensures { GivesOne result s (Fin n 1) }
{
    match Frac::new(n, 1) {
        Ok(f) => Ok(Sens::Finite(f)),
        Err(_) => Err(RowFault::Range { span: s }),
    }
}

// `a` over inf
fn at_all(a: Sens) -> Sens
    ensures { distance_of result ≡ quotient (distance_of a) Inf }
{
    Sens::whole(if a.le(Sens::whole(0)) { 0 } else { 1 })
}

fn divided(a: Sens, r: Sens) -> Result<Sens, Range>
    requires { IsBang (distance_of r) }
    ensures { IsAnswer result (quotient (distance_of a) (distance_of r)) }
{
    match r {
        Sens::Finite(_) => a.div(r),
        Sens::Inf => Ok(at_all(a)),
    }
}

/// `a` over `r`
pub fn quotient_at(s: Span, a: Sens, r: Sens) -> Result<Sens, RowFault>
    requires { IsBang (distance_of r) }
    ensures { (d : Distance) → distance_of a ≈ d → GivesOne result s (quotient d (distance_of r)) }
{
    match divided(a, r) {
        Ok(k) => Ok(k),
        Err(_) => Err(RowFault::Range { span: s }),
    }
}

/// A type with D + r E.
pub fn bound(
    alloc: Global,
    s: Span,
    r: Sens,
    e: &[Sens],
    ty: u32,
    left: &[Sens],
) -> Result<Judged, RowFault>
    ensures { (T : List Ty) (d : Distance) (E D : Sensitivities) → ty < length T → distance_of r ≈ d → AreAlike (distances e.now) E
        → AreAlike (distances left.now) D
        → Says T result (has_bound s (type_at T ty) D d E) }
{
    let a = scaled_at(alloc, s, r, e)?;
    let amounts = sum_at(alloc, s, left, &a)?;
    Ok(Judged { ty, amounts })
}
