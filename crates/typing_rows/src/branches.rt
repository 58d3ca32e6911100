//! Case and if: what is made of two branches, of which one is chosen.
ghost use Rattle.std.specs.Prelude.{◌≡◌, ◌<◌, length};
ghost use Rattle.fz_frac.specs.Sens.{distance_of};
ghost use Rattle.fz_ast.specs.TypeNodes.{type_at};
ghost use Rattle.fz_ast.specs.Arena.{Grows};
ghost use Rattle.linear_types.specs.Places.{AreAlike, distances};
ghost use Rattle.linear_types.specs.Sensitivities.{Sensitivities, above_zero};
ghost use Rattle.linear_types.specs.Rule.{branches_rule, if_rule};
ghost use Rattle.typing_rows.specs.Says.{Says};

use crate::clause::{Judged, RowFault, Wanted};
use crate::ranged::{bound, greatest, sum_at};
use crate::wanted::{is_truth, not_truth};
use fz_ast::{Arena, Span};
use fz_frac::Sens;
use linear_types::places::{first_of, rest_of};
use std::alloc::Global;

// 1 in the place of 0
fn above_zero(r: Sens) -> Sens
    ensures { distance_of result ≡ above_zero (distance_of r) }
{
    if r.le(Sens::whole(0)) {
        Sens::whole(1)
    } else {
        r
    }
}

/// `case e of inl x => a | inr y => b`, with b at `w`: `e` is the sensitivities of e, `o` is a under x, and `p` is b under y.
pub fn branches(
    alloc: Global,
    arena: &Arena,
    s: Span,
    w: Span,
    e: &[Sens],
    o: &Judged,
    p: &Judged,
) -> Result<Judged, RowFault>
    requires o_known { o.now.ty < length arena.now }
    requires p_known { p.now.ty < length arena.now }
    ensures says { (F D E : Sensitivities) → AreAlike (distances e.now) F → AreAlike (distances o.now.amounts.items) D
        → AreAlike (distances p.now.amounts.items) E
        → Says arena.now result (branches_rule s w F (type_at arena.now o.now.ty) D (type_at arena.now p.now.ty) E) }
{
    if !arena.same(p.ty, o.ty) {
        return Err(RowFault::Mismatch {
            span: w,
            found: p.ty,
            wanted: Wanted::Exactly(o.ty),
        });
    }
    if !arena.is_ground(o.ty) {
        return Err(RowFault::NotGround { span: s });
    }
    let r = above_zero(first_of(&o.amounts).max(first_of(&p.amounts)));
    let amounts = greatest(alloc, rest_of(&o.amounts), rest_of(&p.amounts))?;
    bound(alloc, s, r, e, o.ty, &amounts)
}

/// `if e then a else b`, with e at `u` and b at `w`: `e`, `o` and `p` are the parts in order.
pub fn choice(
    alloc: Global,
    arena: &mut Arena,
    s: Span,
    u: Span,
    w: Span,
    e: &Judged,
    o: &Judged,
    p: &Judged,
) -> Result<Judged, RowFault>
    requires e_known { e.now.ty < length arena.old }
    requires o_known { o.now.ty < length arena.old }
    requires p_known { p.now.ty < length arena.old }
    ensures grows { Grows arena.old arena.new }
    ensures says { (F D E : Sensitivities) → AreAlike (distances e.now.amounts.items) F → AreAlike (distances o.now.amounts.items) D
        → AreAlike (distances p.now.amounts.items) E
        → Says arena.new result (if_rule s u w (type_at arena.old e.now.ty) F (type_at arena.old o.now.ty) D (type_at arena.old p.now.ty) E) }
{
    if !is_truth(arena, e.ty) {
        return Err(not_truth(arena, u, e.ty));
    }
    if !arena.same(p.ty, o.ty) {
        return Err(RowFault::Mismatch {
            span: w,
            found: p.ty,
            wanted: Wanted::Exactly(o.ty),
        });
    }
    if !arena.is_ground(o.ty) {
        return Err(RowFault::NotGround { span: s });
    }
    let b = greatest(alloc, &o.amounts, &p.amounts)?;
    let amounts = sum_at(alloc, s, &b, &e.amounts)?;
    Ok(Judged { ty: o.ty, amounts })
}
