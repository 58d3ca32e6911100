//! Pairs, sums and their uses.
ghost use Rattle.std.specs.Prelude.{◌≡◌, ◌<◌, length, List, IfOk, IfErr, true};
ghost use Rattle.fz_frac.specs.Distance.{greater};
ghost use Rattle.fz_ast.specs.Types.{Ty, WellFormed, formed, is_ground};
ghost use Rattle.fz_ast.specs.TypeNodes.{type_at};
ghost use Rattle.fz_ast.specs.Arena.{Grows};
ghost use Rattle.linear_types.specs.Places.{AreAlike, distances};
ghost use Rattle.linear_types.specs.Sensitivities.{Sensitivities, first, rest};
ghost use Rattle.linear_types.specs.Inferred.{Inferred};
ghost use Rattle.linear_types.specs.Rule.{has_bound, pair_rule, with_rule, fst_rule, snd_rule, side_rule, inl_rule, inr_rule};
ghost use Rattle.typing_rows.specs.Says.{Says, IsFaultOf};

use crate::clause::{Judged, RowFault, Wanted};
use crate::ranged::{bound, greatest, sum_at};
use crate::wanted::written;
use fz_ast::{Arena, Span, TypeForm};
use fz_frac::Sens;
use linear_types::places::{first_of, rest_of};
use std::alloc::Global;

// The conditions on an injection: the other side's type `t` is written at `u`, and the part at `v` has the type `a`.
fn sides(arena: &Arena, u: Span, t: u32, v: Span, a: u32) -> Result<(), RowFault>
    requires t_known { t < length arena.now }
    requires a_known { a < length arena.now }
    ensures ok { IfOk result (λ _. (formed (type_at arena.now t) ≡ WellFormed) × (is_ground (type_at arena.now t) ≡ true)
        × (is_ground (type_at arena.now a) ≡ true)) }
    ensures err { IfErr result (λ fault. (T : List Ty) (o : Inferred) → IsFaultOf T fault (side_rule u (type_at arena.now t) v (type_at arena.now a) o)) }
{
    written(arena, u, t)?;
    if !arena.is_ground(t) {
        return Err(RowFault::NotGround { span: u });
    }
    if !arena.is_ground(a) {
        return Err(RowFault::NotGround { span: v });
    }
    Ok(())
}

/// `(a, b)`
pub fn pair(
    alloc: Global,
    arena: &mut Arena,
    s: Span,
    o: &Judged,
    p: &Judged,
) -> Result<Judged, RowFault>
    requires o_known { o.now.ty < length arena.old }
    requires p_known { p.now.ty < length arena.old }
    ensures grows { Grows arena.old arena.new }
    ensures says { (D E : Sensitivities) → AreAlike (distances o.now.amounts.items) D → AreAlike (distances p.now.amounts.items) E
        → Says arena.new result (pair_rule s (type_at arena.old o.now.ty) D (type_at arena.old p.now.ty) E) }
{
    let amounts = sum_at(alloc, s, &o.amounts, &p.amounts)?;
    let ty = arena.intern(TypeForm::Tensor(o.ty, p.ty))?;
    Ok(Judged { ty, amounts })
}

/// `<a, b>`
pub fn with_pair(
    alloc: Global,
    arena: &mut Arena,
    o: &Judged,
    p: &Judged,
) -> Result<Judged, RowFault>
    requires o_known { o.now.ty < length arena.old }
    requires p_known { p.now.ty < length arena.old }
    ensures grows { Grows arena.old arena.new }
    ensures says { (D E : Sensitivities) → AreAlike (distances o.now.amounts.items) D → AreAlike (distances p.now.amounts.items) E
        → Says arena.new result (with_rule (type_at arena.old o.now.ty) D (type_at arena.old p.now.ty) E) }
{
    let amounts = greatest(alloc, &o.amounts, &p.amounts)?;
    let ty = arena.intern(TypeForm::With(o.ty, p.ty))?;
    Ok(Judged { ty, amounts })
}

/// `fst e`, with e at `u`.
pub fn fst(arena: &Arena, u: Span, o: Judged) -> Result<Judged, RowFault>
    requires o_known { o.ty < length arena.now }
    ensures says { (D : Sensitivities) → AreAlike (distances o.amounts.items) D
        → Says arena.now result (fst_rule u (type_at arena.now o.ty) D) }
{
    match arena.form(o.ty) {
        TypeForm::With(ty, _) => Ok(Judged {
            ty,
            amounts: o.amounts,
        }),
        _ => Err(RowFault::Mismatch {
            span: u,
            found: o.ty,
            wanted: Wanted::WithPair,
        }),
    }
}

/// `snd e`, with e at `u`.
pub fn snd(arena: &Arena, u: Span, o: Judged) -> Result<Judged, RowFault>
    requires o_known { o.ty < length arena.now }
    ensures says { (D : Sensitivities) → AreAlike (distances o.amounts.items) D
        → Says arena.now result (snd_rule u (type_at arena.now o.ty) D) }
{
    match arena.form(o.ty) {
        TypeForm::With(_, ty) => Ok(Judged {
            ty,
            amounts: o.amounts,
        }),
        _ => Err(RowFault::Mismatch {
            span: u,
            found: o.ty,
            wanted: Wanted::WithPair,
        }),
    }
}

/// `let (x, y) = e in b`: `e` is the sensitivities of e, and `o` the body, under y and x.
pub fn let_pair(alloc: Global, s: Span, e: &[Sens], o: &Judged) -> Result<Judged, RowFault>
    ensures says { (T : List Ty) (E D : Sensitivities) → o.now.ty < length T → AreAlike (distances e.now) E → AreAlike (distances o.now.amounts.items) D
        → Says T result (has_bound s (type_at T o.now.ty) (rest (rest D)) (greater (first (rest D)) (first D)) E) }
{
    let others = rest_of(&o.amounts);
    let r = first_of(others).max(first_of(&o.amounts));
    bound(alloc, s, r, e, o.ty, rest_of(others))
}

/// `inl[t] e`, with `t` at `u` and e at `v`.
pub fn inl(arena: &mut Arena, u: Span, t: u32, v: Span, o: Judged) -> Result<Judged, RowFault>
    requires o_known { o.ty < length arena.old }
    requires t_known { t < length arena.old }
    ensures grows { Grows arena.old arena.new }
    ensures says { (D : Sensitivities) → AreAlike (distances o.amounts.items) D
        → Says arena.new result (inl_rule u (type_at arena.old t) v (type_at arena.old o.ty) D) }
{
    sides(arena, u, t, v, o.ty)?;
    let ty = arena.intern(TypeForm::Sum(o.ty, t))?;
    Ok(Judged {
        ty,
        amounts: o.amounts,
    })
}

/// `inr[t] e`, with `t` at `u` and e at `v`.
pub fn inr(arena: &mut Arena, u: Span, t: u32, v: Span, o: Judged) -> Result<Judged, RowFault>
    requires o_known { o.ty < length arena.old }
    requires t_known { t < length arena.old }
    ensures grows { Grows arena.old arena.new }
    ensures says { (D : Sensitivities) → AreAlike (distances o.amounts.items) D
        → Says arena.new result (inr_rule u (type_at arena.old t) v (type_at arena.old o.ty) D) }
{
    sides(arena, u, t, v, o.ty)?;
    let ty = arena.intern(TypeForm::Sum(t, o.ty))?;
    Ok(Judged {
        ty,
        amounts: o.amounts,
    })
}
