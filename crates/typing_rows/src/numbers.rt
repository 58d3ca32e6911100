//! Numbers, texts and what is reckoned with them.
ghost use Rattle.std.specs.Prelude.{◌<◌, length, []};
ghost use Rattle.fz_frac.specs.Distance.{Inf};
ghost use Rattle.fz_ast.specs.Types.{NumT, TextT, UnitT, BoolT};
ghost use Rattle.fz_ast.specs.TypeNodes.{type_at};
ghost use Rattle.fz_ast.specs.Arena.{Grows};
ghost use Rattle.linear_types.specs.Places.{AreAlike, distances};
ghost use Rattle.linear_types.specs.Sensitivities.{Sensitivities, plus, scale};
ghost use Rattle.linear_types.specs.Inferred.{Has};
ghost use Rattle.linear_types.specs.Rule.{exactly, has_sum, plus_rule, times_rule, le_rule, eq_rule, clip_rule, least_rule};
ghost use Rattle.typing_rows.specs.Says.{Says};

use crate::clause::{Judged, RowFault, Wanted};
use crate::ranged::{endless, scaled_at, sum_at, whole_at};
use crate::wanted::{is_number, is_number_pair, is_text, not_form, not_number_pair, truth};
use fz_ast::{Arena, Span, TypeForm};
use std::alloc::Global;

// What is left of a comparison of numbers, with the second at `v`.
fn compared(
    alloc: Global,
    arena: &mut Arena,
    s: Span,
    v: Span,
    o: &Judged,
    p: &Judged,
) -> Result<Judged, RowFault>
    requires o_known { o.now.ty < length arena.old }
    requires p_known { p.now.ty < length arena.old }
    ensures grows { Grows arena.old arena.new }
    ensures says { (D E : Sensitivities) → AreAlike (distances o.now.amounts.items) D → AreAlike (distances p.now.amounts.items) E
        → Says arena.new result (exactly v (type_at arena.old p.now.ty) NumT (has_sum s BoolT (plus (scale Inf D) (scale Inf E)))) }
{
    if !is_number(arena, p.ty) {
        return Err(not_form(arena, v, p.ty, TypeForm::Num));
    }
    let a = endless(alloc, &o.amounts)?;
    let b = endless(alloc, &p.amounts)?;
    let amounts = sum_at(alloc, s, &a, &b)?;
    let ty = truth(arena)?;
    Ok(Judged { ty, amounts })
}

// What is left of a test of texts, with the second at `v`.
fn equal_texts(
    alloc: Global,
    arena: &mut Arena,
    s: Span,
    v: Span,
    o: &Judged,
    p: &Judged,
) -> Result<Judged, RowFault>
    requires o_known { o.now.ty < length arena.old }
    requires p_known { p.now.ty < length arena.old }
    ensures grows { Grows arena.old arena.new }
    ensures says { (D E : Sensitivities) → AreAlike (distances o.now.amounts.items) D → AreAlike (distances p.now.amounts.items) E
        → Says arena.new result (exactly v (type_at arena.old p.now.ty) TextT (has_sum s BoolT (plus D E))) }
{
    if !is_text(arena, p.ty) {
        return Err(not_form(arena, v, p.ty, TypeForm::Text));
    }
    let amounts = sum_at(alloc, s, &o.amounts, &p.amounts)?;
    let ty = truth(arena)?;
    Ok(Judged { ty, amounts })
}

/// A number.
pub fn number(alloc: Global, arena: &mut Arena) -> Result<Judged, RowFault>
    ensures grows { Grows arena.old arena.new }
    ensures says { Says arena.new result (Has NumT []) }
{
    let ty = arena.intern(TypeForm::Num)?;
    Ok(Judged {
        ty,
        amounts: Vec::new(alloc),
    })
}

/// A text.
pub fn text(alloc: Global, arena: &mut Arena) -> Result<Judged, RowFault>
    ensures grows { Grows arena.old arena.new }
    ensures says { Says arena.new result (Has TextT []) }
{
    let ty = arena.intern(TypeForm::Text)?;
    Ok(Judged {
        ty,
        amounts: Vec::new(alloc),
    })
}

/// `()`
pub fn unit(alloc: Global, arena: &mut Arena) -> Result<Judged, RowFault>
    ensures grows { Grows arena.old arena.new }
    ensures says { Says arena.new result (Has UnitT []) }
{
    let ty = arena.intern(TypeForm::Unit)?;
    Ok(Judged {
        ty,
        amounts: Vec::new(alloc),
    })
}

/// `a + b` and `a - b`, with a at `u` and b at `v`.
pub fn plus(
    alloc: Global,
    arena: &mut Arena,
    s: Span,
    u: Span,
    v: Span,
    o: &Judged,
    p: &Judged,
) -> Result<Judged, RowFault>
    requires o_known { o.now.ty < length arena.old }
    requires p_known { p.now.ty < length arena.old }
    ensures grows { Grows arena.old arena.new }
    ensures says { (D E : Sensitivities) → AreAlike (distances o.now.amounts.items) D → AreAlike (distances p.now.amounts.items) E
        → Says arena.new result (plus_rule s u v (type_at arena.old o.now.ty) D (type_at arena.old p.now.ty) E) }
{
    if !is_number(arena, o.ty) {
        return Err(not_form(arena, u, o.ty, TypeForm::Num));
    }
    if !is_number(arena, p.ty) {
        return Err(not_form(arena, v, p.ty, TypeForm::Num));
    }
    let amounts = sum_at(alloc, s, &o.amounts, &p.amounts)?;
    let ty = arena.intern(TypeForm::Num)?;
    Ok(Judged { ty, amounts })
}

/// `k * e`, with e at `u`.
pub fn times(
    alloc: Global,
    arena: &mut Arena,
    s: Span,
    u: Span,
    k: i64,
    o: &Judged,
) -> Result<Judged, RowFault>
    requires o_known { o.now.ty < length arena.old }
    ensures grows { Grows arena.old arena.new }
    ensures says { (D : Sensitivities) → AreAlike (distances o.now.amounts.items) D
        → Says arena.new result (times_rule s u k (type_at arena.old o.now.ty) D) }
{
    if !is_number(arena, o.ty) {
        return Err(not_form(arena, u, o.ty, TypeForm::Num));
    }
    let r = whole_at(s, k.unsigned_abs())?;
    let amounts = scaled_at(alloc, s, r, &o.amounts)?;
    let ty = arena.intern(TypeForm::Num)?;
    Ok(Judged { ty, amounts })
}

/// `a <= b`, with a at `u` and b at `v`.
pub fn at_most(
    alloc: Global,
    arena: &mut Arena,
    s: Span,
    u: Span,
    v: Span,
    o: &Judged,
    p: &Judged,
) -> Result<Judged, RowFault>
    requires o_known { o.now.ty < length arena.old }
    requires p_known { p.now.ty < length arena.old }
    ensures grows { Grows arena.old arena.new }
    ensures says { (D E : Sensitivities) → AreAlike (distances o.now.amounts.items) D → AreAlike (distances p.now.amounts.items) E
        → Says arena.new result (le_rule s u v (type_at arena.old o.now.ty) D (type_at arena.old p.now.ty) E) }
{
    if !is_number(arena, o.ty) {
        return Err(not_form(arena, u, o.ty, TypeForm::Num));
    }
    compared(alloc, arena, s, v, o, p)
}

/// `a == b`, with a at `u` and b at `v`.
pub fn equal(
    alloc: Global,
    arena: &mut Arena,
    s: Span,
    u: Span,
    v: Span,
    o: &Judged,
    p: &Judged,
) -> Result<Judged, RowFault>
    requires o_known { o.now.ty < length arena.old }
    requires p_known { p.now.ty < length arena.old }
    ensures grows { Grows arena.old arena.new }
    ensures says { (D E : Sensitivities) → AreAlike (distances o.now.amounts.items) D → AreAlike (distances p.now.amounts.items) E
        → Says arena.new result (eq_rule s u v (type_at arena.old o.now.ty) D (type_at arena.old p.now.ty) E) }
{
    match arena.form(o.ty) {
        TypeForm::Num => compared(alloc, arena, s, v, o, p),
        TypeForm::Text => equal_texts(alloc, arena, s, v, o, p),
        _ => Err(RowFault::Mismatch {
            span: u,
            found: o.ty,
            wanted: Wanted::NumberOrText,
        }),
    }
}

/// `clip[lo,hi] e`, with e at `u`.
pub fn clip(arena: &mut Arena, u: Span, o: Judged) -> Result<Judged, RowFault>
    requires o_known { o.ty < length arena.old }
    ensures grows { Grows arena.old arena.new }
    ensures says { (D : Sensitivities) → AreAlike (distances o.amounts.items) D
        → Says arena.new result (clip_rule u (type_at arena.old o.ty) D) }
{
    if !is_number(arena, o.ty) {
        return Err(not_form(arena, u, o.ty, TypeForm::Num));
    }
    let ty = arena.intern(TypeForm::Num)?;
    Ok(Judged {
        ty,
        amounts: o.amounts,
    })
}

/// `least e` and `greatest e`, with e at `u`.
pub fn extreme(arena: &mut Arena, u: Span, o: Judged) -> Result<Judged, RowFault>
    requires o_known { o.ty < length arena.old }
    ensures grows { Grows arena.old arena.new }
    ensures says { (D : Sensitivities) → AreAlike (distances o.amounts.items) D
        → Says arena.new result (least_rule u (type_at arena.old o.ty) D) }
{
    if !is_number_pair(arena, o.ty) {
        return Err(not_number_pair(arena, u, o.ty));
    }
    let ty = arena.intern(TypeForm::Num)?;
    Ok(Judged {
        ty,
        amounts: o.amounts,
    })
}
