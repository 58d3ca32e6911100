//! The row of each form of a group.
ghost use Rattle.std.specs.Prelude.{◌<◌, length};
ghost use Rattle.fz_ast.specs.Arena.{Grows};
ghost use Rattle.fz_ast.specs.TypeNodes.{type_at};
ghost use Rattle.linear_types.specs.Places.{AreAlike, distances};
ghost use Rattle.linear_types.specs.Sensitivities.{Sensitivities};
ghost use Rattle.fz_ast.specs.Names.{name_of};
ghost use Rattle.linear_types.specs.Groups.{unary_rule, binary_rule, ranged_rule, inject_rule, lambda_rule};
ghost use Rattle.typing_rows.specs.Says.{Says};

use fz_ast::{Arena, Arrow, Binary, Name, Ranged, Side, Span, Unary};
use std::alloc::Global;
use typing_rows::bags::{filter, map, size, split, sum, union};
use typing_rows::clause::{Judged, RowFault};
use typing_rows::functions::{app, linear, unlimited};
use typing_rows::numbers::{at_most, clip, equal, extreme, plus};
use typing_rows::products::{fst, inl, inr, pair, snd, with_pair};

/// A form of one part, which stands at `u`.
pub fn unary(arena: &mut Arena, form: Unary, u: Span, o: Judged) -> Result<Judged, RowFault>
    requires o_known { o.ty < length arena.old }
    ensures grows { Grows arena.old arena.new }
    ensures says { (D : Sensitivities) → AreAlike (distances o.amounts.items) D
        → Says arena.new result (unary_rule form u (type_at arena.old o.ty) D) }
{
    match form {
        Unary::Fst => fst(arena, u, o),
        Unary::Snd => snd(arena, u, o),
        Unary::Least | Unary::Greatest => extreme(arena, u, o),
        Unary::Size => size(arena, u, o),
    }
}

/// A form of two parts, which stand at `u` and `v`.
pub fn binary(
    alloc: Global,
    arena: &mut Arena,
    form: Binary,
    s: Span,
    u: Span,
    v: Span,
    o: &Judged,
    p: &Judged,
) -> Result<Judged, RowFault>
    requires o_known { o.now.ty < length arena.old }
    requires p_known { p.now.ty < length arena.old }
    ensures grows { Grows arena.old arena.new }
    ensures says { (D E : Sensitivities) → AreAlike (distances o.now.amounts.items) D → AreAlike (distances p.now.amounts.items) E
        → Says arena.new result (binary_rule form s u v (type_at arena.old o.now.ty) D (type_at arena.old p.now.ty) E) }
{
    match form {
        Binary::Pair => pair(alloc, arena, s, o, p),
        Binary::With => with_pair(alloc, arena, o, p),
        Binary::App => app(alloc, arena, s, u, v, o, p),
        Binary::Plus | Binary::Minus => plus(alloc, arena, s, u, v, o, p),
        Binary::AtMost => at_most(alloc, arena, s, u, v, o, p),
        Binary::Equal => equal(alloc, arena, s, u, v, o, p),
        Binary::Union => union(alloc, arena, s, u, v, o, p),
        Binary::Map => map(alloc, arena, s, u, v, o, p),
        Binary::Filter => filter(alloc, arena, s, u, v, o, p),
        Binary::Split => split(alloc, arena, s, u, v, o, p),
    }
}

/// A form with bounds, whose part stands at `u`.
pub fn ranged(
    alloc: Global,
    arena: &mut Arena,
    form: Ranged,
    s: Span,
    u: Span,
    lo: i64,
    hi: i64,
    o: Judged,
) -> Result<Judged, RowFault>
    requires o_known { o.ty < length arena.old }
    ensures grows { Grows arena.old arena.new }
    ensures says { (D : Sensitivities) → AreAlike (distances o.amounts.items) D
        → Says arena.new result (ranged_rule form s u lo hi (type_at arena.old o.ty) D) }
{
    match form {
        Ranged::Sum => sum(alloc, arena, s, u, lo, hi, &o),
        Ranged::Clip => clip(arena, u, o),
    }
}

/// A side of a sum, with the other side's type `t` at `u`, and the part at `v`.
pub fn inject(
    arena: &mut Arena,
    side: Side,
    u: Span,
    t: u32,
    v: Span,
    o: Judged,
) -> Result<Judged, RowFault>
    requires o_known { o.ty < length arena.old }
    requires t_known { t < length arena.old }
    ensures grows { Grows arena.old arena.new }
    ensures says { (D : Sensitivities) → AreAlike (distances o.amounts.items) D
        → Says arena.new result (inject_rule side u (type_at arena.old t) v (type_at arena.old o.ty) D) }
{
    match side {
        Side::Inl => inl(arena, u, t, v, o),
        Side::Inr => inr(arena, u, t, v, o),
    }
}

/// A function of `x`, whose type `t` stands at `u`: `o` is its body.
pub fn lambda(
    alloc: Global,
    arena: &mut Arena,
    form: Arrow,
    s: Span,
    x: Name,
    u: Span,
    t: u32,
    o: &Judged,
) -> Result<Judged, RowFault>
    requires o_known { o.now.ty < length arena.old }
    requires t_known { t < length arena.old }
    ensures grows { Grows arena.old arena.new }
    ensures says { (D : Sensitivities) → AreAlike (distances o.now.amounts.items) D
        → Says arena.new result (lambda_rule form s (name_of x) u (type_at arena.old t) (type_at arena.old o.now.ty) D) }
{
    match form {
        Arrow::Fun => linear(alloc, arena, s, x, u, t, o),
        Arrow::Fn => unlimited(alloc, arena, u, t, o),
    }
}
