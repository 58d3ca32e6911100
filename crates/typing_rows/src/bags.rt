//! Bags.
ghost use Rattle.std.specs.Prelude.{◌<◌, length};
ghost use Rattle.fz_frac.specs.Distance.{Inf};
ghost use Rattle.fz_ast.specs.Types.{BagT};
ghost use Rattle.fz_ast.specs.TypeNodes.{type_at};
ghost use Rattle.fz_ast.specs.Arena.{Grows};
ghost use Rattle.linear_types.specs.Places.{AreAlike, distances};
ghost use Rattle.linear_types.specs.Sensitivities.{Sensitivities, plus, scale};
ghost use Rattle.linear_types.specs.Rule.{exactly, has_sum, size_rule, sum_rule, union_rule, map_rule, test_rule, halves};
ghost use Rattle.typing_rows.specs.Says.{Says, GivesAll};

use crate::clause::{Judged, RowFault, Wanted};
use crate::ranged::{endless, scaled_at, sum_at, whole_at};
use crate::wanted::{
    halves_type, is_bag_of, is_number_bag, is_truth, not_form, not_number_bag, not_test,
    unlimited_parts,
};
use fz_ast::{Arena, Span, TypeForm};
use fz_frac::Sens;
use std::alloc::Global;

// inf D + E, with D of the function and E of the bag
fn each_element(alloc: Global, s: Span, o: &Judged, p: &Judged) -> Result<Vec<Sens>, RowFault>
    ensures { (D E : Sensitivities) → AreAlike (distances o.now.amounts.items) D → AreAlike (distances p.now.amounts.items) E
        → GivesAll result s (plus (scale Inf D) E) }
{
    let a = endless(alloc, &o.amounts)?;
    sum_at(alloc, s, &a, &p.amounts)
}

/// `size e`, with e at `u`.
pub fn size(arena: &mut Arena, u: Span, o: Judged) -> Result<Judged, RowFault>
    requires o_known { o.ty < length arena.old }
    ensures grows { Grows arena.old arena.new }
    ensures says { (D : Sensitivities) → AreAlike (distances o.amounts.items) D
        → Says arena.new result (size_rule u (type_at arena.old o.ty) D) }
{
    match arena.form(o.ty) {
        TypeForm::Bag(_) => {
            let ty = arena.intern(TypeForm::Num)?;
            Ok(Judged {
                ty,
                amounts: o.amounts,
            })
        }
        _ => Err(RowFault::Mismatch {
            span: u,
            found: o.ty,
            wanted: Wanted::Bag,
        }),
    }
}

/// `sum[lo,hi] e`, with e at `u`.
pub fn sum(
    alloc: Global,
    arena: &mut Arena,
    s: Span,
    u: Span,
    lo: i64,
    hi: i64,
    o: &Judged,
) -> Result<Judged, RowFault>
    requires o_known { o.now.ty < length arena.old }
    ensures grows { Grows arena.old arena.new }
    ensures says { (D : Sensitivities) → AreAlike (distances o.now.amounts.items) D
        → Says arena.new result (sum_rule s u lo hi (type_at arena.old o.now.ty) D) }
{
    if !is_number_bag(arena, o.ty) {
        return Err(not_number_bag(arena, u, o.ty));
    }
    let r = whole_at(s, lo.unsigned_abs().max(hi.unsigned_abs()))?;
    let amounts = scaled_at(alloc, s, r, &o.amounts)?;
    let ty = arena.intern(TypeForm::Num)?;
    Ok(Judged { ty, amounts })
}

/// `union a b`, with a at `u` and b at `v`.
pub fn union(
    alloc: Global,
    arena: &Arena,
    s: Span,
    u: Span,
    v: Span,
    o: &Judged,
    p: &Judged,
) -> Result<Judged, RowFault>
    requires o_known { o.now.ty < length arena.now }
    requires p_known { p.now.ty < length arena.now }
    ensures says { (D E : Sensitivities) → AreAlike (distances o.now.amounts.items) D → AreAlike (distances p.now.amounts.items) E
        → Says arena.now result (union_rule s u v (type_at arena.now o.now.ty) D (type_at arena.now p.now.ty) E) }
{
    match arena.form(o.ty) {
        TypeForm::Bag(_) => {
            if !arena.same(p.ty, o.ty) {
                return Err(RowFault::Mismatch {
                    span: v,
                    found: p.ty,
                    wanted: Wanted::Exactly(o.ty),
                });
            }
            let amounts = sum_at(alloc, s, &o.amounts, &p.amounts)?;
            Ok(Judged { ty: o.ty, amounts })
        }
        _ => Err(RowFault::Mismatch {
            span: u,
            found: o.ty,
            wanted: Wanted::Bag,
        }),
    }
}

/// `map f b`, with f at `u` and b at `v`.
pub fn map(
    alloc: Global,
    arena: &mut Arena,
    s: Span,
    u: Span,
    v: Span,
    o: &Judged,
    p: &Judged,
) -> Result<Judged, RowFault>
    requires o_known { o.now.ty < length arena.old }
    requires p_known { p.now.ty < length arena.old }
    ensures grows { Grows arena.old arena.new }
    ensures says { (D E : Sensitivities) → AreAlike (distances o.now.amounts.items) D → AreAlike (distances p.now.amounts.items) E
        → Says arena.new result (map_rule s u v (type_at arena.old o.now.ty) D (type_at arena.old p.now.ty) E) }
{
    match unlimited_parts(arena, o.ty) {
        None => Err(RowFault::Mismatch {
            span: u,
            found: o.ty,
            wanted: Wanted::UnlimitedArrow,
        }),
        Some((a, b)) => {
            if !arena.is_flat(b) {
                return Err(RowFault::NotFlat { span: u });
            }
            if !is_bag_of(arena, p.ty, a) {
                return Err(not_form(arena, v, p.ty, TypeForm::Bag(a)));
            }
            let amounts = each_element(alloc, s, o, p)?;
            let ty = arena.intern(TypeForm::Bag(b))?;
            Ok(Judged { ty, amounts })
        }
    }
}

// What is left of a filter, where elements have the type number `a`, and the bag stands at `v`.
fn filtered(
    alloc: Global,
    arena: &mut Arena,
    s: Span,
    v: Span,
    a: u32,
    o: &Judged,
    p: &Judged,
) -> Result<Judged, RowFault>
    requires a_known { a < length arena.old }
    requires p_known { p.now.ty < length arena.old }
    ensures grows { Grows arena.old arena.new }
    ensures says { (D E : Sensitivities) → AreAlike (distances o.now.amounts.items) D → AreAlike (distances p.now.amounts.items) E
        → Says arena.new result (exactly v (type_at arena.old p.now.ty) (BagT (type_at arena.old a))
        (has_sum s (BagT (type_at arena.old a)) (plus (scale Inf D) E))) }
{
    if !is_bag_of(arena, p.ty, a) {
        return Err(not_form(arena, v, p.ty, TypeForm::Bag(a)));
    }
    let amounts = each_element(alloc, s, o, p)?;
    let ty = arena.intern(TypeForm::Bag(a))?;
    Ok(Judged { ty, amounts })
}

/// `filter f b`, with f at `u` and b at `v`.
pub fn filter(
    alloc: Global,
    arena: &mut Arena,
    s: Span,
    u: Span,
    v: Span,
    o: &Judged,
    p: &Judged,
) -> Result<Judged, RowFault>
    requires o_known { o.now.ty < length arena.old }
    requires p_known { p.now.ty < length arena.old }
    ensures grows { Grows arena.old arena.new }
    ensures says { (D E : Sensitivities) → AreAlike (distances o.now.amounts.items) D → AreAlike (distances p.now.amounts.items) E
        → Says arena.new result (test_rule BagT s u v (type_at arena.old o.now.ty) D (type_at arena.old p.now.ty) E) }
{
    match unlimited_parts(arena, o.ty) {
        None => Err(RowFault::Mismatch {
            span: u,
            found: o.ty,
            wanted: Wanted::UnlimitedArrow,
        }),
        Some((a, c)) => {
            if !is_truth(arena, c) {
                return Err(not_test(arena, u, o.ty, a));
            }
            filtered(alloc, arena, s, v, a, o, p)
        }
    }
}

// What is left of a split, where elements have the type number `a`, and the bag stands at `v`.
fn halved(
    alloc: Global,
    arena: &mut Arena,
    s: Span,
    v: Span,
    a: u32,
    o: &Judged,
    p: &Judged,
) -> Result<Judged, RowFault>
    requires a_known { a < length arena.old }
    requires p_known { p.now.ty < length arena.old }
    ensures grows { Grows arena.old arena.new }
    ensures says { (D E : Sensitivities) → AreAlike (distances o.now.amounts.items) D → AreAlike (distances p.now.amounts.items) E
        → Says arena.new result (exactly v (type_at arena.old p.now.ty) (BagT (type_at arena.old a))
        (has_sum s (halves (type_at arena.old a)) (plus (scale Inf D) E))) }
{
    if !is_bag_of(arena, p.ty, a) {
        return Err(not_form(arena, v, p.ty, TypeForm::Bag(a)));
    }
    let amounts = each_element(alloc, s, o, p)?;
    let ty = halves_type(arena, a)?;
    Ok(Judged { ty, amounts })
}

/// `split f b`, with f at `u` and b at `v`.
pub fn split(
    alloc: Global,
    arena: &mut Arena,
    s: Span,
    u: Span,
    v: Span,
    o: &Judged,
    p: &Judged,
) -> Result<Judged, RowFault>
    requires o_known { o.now.ty < length arena.old }
    requires p_known { p.now.ty < length arena.old }
    ensures grows { Grows arena.old arena.new }
    ensures says { (D E : Sensitivities) → AreAlike (distances o.now.amounts.items) D → AreAlike (distances p.now.amounts.items) E
        → Says arena.new result (test_rule halves s u v (type_at arena.old o.now.ty) D (type_at arena.old p.now.ty) E) }
{
    match unlimited_parts(arena, o.ty) {
        None => Err(RowFault::Mismatch {
            span: u,
            found: o.ty,
            wanted: Wanted::UnlimitedArrow,
        }),
        Some((a, c)) => {
            if !is_truth(arena, c) {
                return Err(not_test(arena, u, o.ty, a));
            }
            halved(alloc, arena, s, v, a, o, p)
        }
    }
}
