//! Functions, bangs and names.
ghost use Rattle.std.specs.Prelude.{◌<◌, length, List, [], ◌∷◌};
ghost use Rattle.fz_frac.specs.Distance.{quotient};
ghost use Rattle.fz_frac.specs.Sens.{distance_of};
ghost use Rattle.fz_ast.specs.Types.{Ty};
ghost use Rattle.fz_ast.specs.TypeNodes.{type_at};
ghost use Rattle.fz_ast.specs.Arena.{Grows};
ghost use Rattle.fz_ast.specs.Names.{name_of};
ghost use Rattle.fz_ast.specs.Limits.{IsBang};
ghost use Rattle.linear_types.specs.Places.{AreAlike, distances};
ghost use Rattle.linear_types.specs.Sensitivities.{Sensitivities, first, rest};
ghost use Rattle.linear_types.specs.Inferred.{in_range};
ghost use Rattle.linear_types.specs.Rule.{has_bound, fun_rule, fn_rule, app_rule, bang_rule, let_rule};
ghost use Rattle.typing_rows.specs.Says.{Says};

use crate::clause::{Judged, RowFault, Wanted};
use crate::ranged::{bound, others, quotient_at, scaled_at, sum_at};
use crate::wanted::{unlimited_type, written};
use fz_ast::{Arena, Name, Span, TypeForm};
use fz_frac::Sens;
use linear_types::places::{first_of, rest_of};
use std::alloc::Global;

/// `fun (x : t) => e`, with `t` at `u`: `o` is e under x.
pub fn linear(
    alloc: Global,
    arena: &mut Arena,
    s: Span,
    x: Name,
    u: Span,
    t: u32,
    o: &Judged,
) -> Result<Judged, RowFault>
    requires o_known { o.now.ty < length arena.old }
    requires t_known { t < length arena.old }
    ensures grows { Grows arena.old arena.new }
    ensures says { (D : Sensitivities) → AreAlike (distances o.now.amounts.items) D
        → Says arena.new result (fun_rule s (name_of x) u (type_at arena.old t) (type_at arena.old o.now.ty) D) }
{
    written(arena, u, t)?;
    let r = first_of(&o.amounts);
    if !r.le(Sens::whole(1)) {
        return Err(RowFault::TooSensitive {
            span: s,
            name: x,
            r,
        });
    }
    let amounts = others(alloc, &o.amounts)?;
    let ty = arena.intern(TypeForm::Arrow(t, o.ty))?;
    Ok(Judged { ty, amounts })
}

/// `fn (x : t) => e`, with `t` at `u`: `o` is e under x.
pub fn unlimited(
    alloc: Global,
    arena: &mut Arena,
    u: Span,
    t: u32,
    o: &Judged,
) -> Result<Judged, RowFault>
    requires o_known { o.now.ty < length arena.old }
    requires t_known { t < length arena.old }
    ensures grows { Grows arena.old arena.new }
    ensures says { (D : Sensitivities) → AreAlike (distances o.now.amounts.items) D
        → Says arena.new result (fn_rule u (type_at arena.old t) (type_at arena.old o.now.ty) D) }
{
    written(arena, u, t)?;
    let amounts = others(alloc, &o.amounts)?;
    let ty = unlimited_type(arena, t, o.ty)?;
    Ok(Judged { ty, amounts })
}

/// `f a`, with f at `u` and a at `v`.
pub fn app(
    alloc: Global,
    arena: &Arena,
    s: Span,
    u: Span,
    v: Span,
    o: &Judged,
    p: &Judged,
) -> Result<Judged, RowFault>
    requires o_known { o.now.ty < length arena.now }
    requires p_known { p.now.ty < length arena.now }
    ensures says { (D E : Sensitivities) → AreAlike (distances o.now.amounts.items) D → AreAlike (distances p.now.amounts.items) E
        → Says arena.now result (app_rule s u v (type_at arena.now o.now.ty) D (type_at arena.now p.now.ty) E) }
{
    match arena.form(o.ty) {
        TypeForm::Arrow(taken, given) => {
            if !arena.same(p.ty, taken) {
                return Err(RowFault::Mismatch {
                    span: v,
                    found: p.ty,
                    wanted: Wanted::Exactly(taken),
                });
            }
            let amounts = sum_at(alloc, s, &o.amounts, &p.amounts)?;
            Ok(Judged { ty: given, amounts })
        }
        _ => Err(RowFault::Mismatch {
            span: u,
            found: o.ty,
            wanted: Wanted::Arrow,
        }),
    }
}

/// `![r] e`
pub fn bang(
    alloc: Global,
    arena: &mut Arena,
    s: Span,
    r: Sens,
    o: &Judged,
) -> Result<Judged, RowFault>
    requires o_known { o.now.ty < length arena.old }
    requires bang { IsBang (distance_of r) }
    ensures grows { Grows arena.old arena.new }
    ensures says { (D : Sensitivities) → AreAlike (distances o.now.amounts.items) D
        → Says arena.new result (bang_rule s (distance_of r) (type_at arena.old o.now.ty) D) }
{
    let amounts = scaled_at(alloc, s, r, &o.amounts)?;
    let ty = arena.intern(TypeForm::Bang(r, o.ty))?;
    Ok(Judged { ty, amounts })
}

/// `let !x = e in b`, where e is a bang of `r`: `e` is the sensitivities of e, and `o` is b under x.
pub fn let_bang(alloc: Global, s: Span, r: Sens, e: &[Sens], o: &Judged) -> Result<Judged, RowFault>
    requires bang { IsBang (distance_of r) }
    ensures says { (T : List Ty) (E D : Sensitivities) → o.now.ty < length T → AreAlike (distances e.now) E → AreAlike (distances o.now.amounts.items) D
        → Says T result (in_range s (quotient (first D) (distance_of r) ∷ [])
        (has_bound s (type_at T o.now.ty) (rest D) (quotient (first D) (distance_of r)) E)) }
{
    let k = quotient_at(s, first_of(&o.amounts), r)?;
    bound(alloc, s, k, e, o.ty, rest_of(&o.amounts))
}

/// `let x = e in b`: `e` is the sensitivities of e, and `o` is b under x.
pub fn let_name(alloc: Global, s: Span, e: &[Sens], o: &Judged) -> Result<Judged, RowFault>
    ensures says { (T : List Ty) (E D : Sensitivities) → o.now.ty < length T → AreAlike (distances e.now) E → AreAlike (distances o.now.amounts.items) D
        → Says T result (let_rule s E (type_at T o.now.ty) D) }
{
    bound(alloc, s, first_of(&o.amounts), e, o.ty, rest_of(&o.amounts))
}
