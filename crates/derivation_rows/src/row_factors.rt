//! Rows with a number of their own, and those that ask a type to be ground.
ghost use Rattle.std.specs.Prelude.{◌≡◌, ◌<◌, length, List};
ghost use Rattle.fz_ast.specs.Limits.{IsBang, IsNumber};
ghost use Rattle.fz_ast.specs.Types.{formed};
ghost use Rattle.fz_ast.specs.TypeNodes.{type_at};
ghost use Rattle.fz_frac.specs.Distance.{Fin};
ghost use Rattle.fz_frac.specs.Sens.{distance_of};
ghost use Rattle.derivation_lines.specs.Lines.{Line};
ghost use Rattle.derivation_rows.specs.Rows.{well, times_row, sum_row, clip_row, bang_row, if_row};
ghost use Rattle.derivation_rows.specs.Groups.{ranged_row, inject_row};
ghost use Rattle.derivation_rows.specs.Placed.{IsFactor};
ghost use Rattle.derivation_rows.specs.Ruled.{IsRow, part_line};

use crate::numbers::Numbers;
use crate::row::{Part, Row, formed, known};
use crate::shape::{is_number, is_number_bag, is_truth};
use fz_ast::{Arena, Formed, Ranged, Side, TypeForm};
use fz_frac::{Frac, Sens};

// A whole number, where it is in range.
fn factor(n: u64) -> Option<Sens>
    ensures { IsFactor result (Fin n 1) }
{
    match Frac::new(n, 1) {
        Ok(f) => Some(Sens::Finite(f)),
        Err(_) => None,
    }
}

/// `k * e`
pub fn times(arena: &Arena, k: i64, e: Part) -> Option<Row>
    requires known { e.ty < length arena.now }
    requires number { IsNumber k }
    ensures { (L : List Line) → IsRow arena.now L result (times_row k (part_line arena.now L e)) }
{
    if !is_number(arena, e.ty) {
        return None;
    }
    match factor(k.unsigned_abs()) {
        Some(r) => formed(TypeForm::Num, Numbers::Scaled(r, e.at)),
        None => None,
    }
}

fn sum(arena: &Arena, lo: i64, hi: i64, e: Part) -> Option<Row>
    requires known { e.ty < length arena.now }
    requires lo_number { IsNumber lo }
    requires hi_number { IsNumber hi }
    ensures { (L : List Line) → IsRow arena.now L result (sum_row lo hi (part_line arena.now L e)) }
{
    if !is_number_bag(arena, e.ty) {
        return None;
    }
    match factor(lo.unsigned_abs().max(hi.unsigned_abs())) {
        Some(r) => formed(TypeForm::Num, Numbers::Scaled(r, e.at)),
        None => None,
    }
}

fn clip(arena: &Arena, e: Part) -> Option<Row>
    requires { e.ty < length arena.now }
    ensures { (L : List Line) → IsRow arena.now L result (clip_row (part_line arena.now L e)) }
{
    if is_number(arena, e.ty) {
        formed(TypeForm::Num, Numbers::Same(e.at))
    } else {
        None
    }
}

/// A form with bounds.
pub fn ranged(arena: &Arena, form: Ranged, lo: i64, hi: i64, e: Part) -> Option<Row>
    requires known { e.ty < length arena.now }
    requires lo_number { IsNumber lo }
    requires hi_number { IsNumber hi }
    ensures { (L : List Line) → IsRow arena.now L result (ranged_row form lo hi (part_line arena.now L e)) }
{
    match form {
        Ranged::Sum => sum(arena, lo, hi, e),
        Ranged::Clip => clip(arena, e),
    }
}

/// Whether a written type is well formed.
pub fn is_well_formed(arena: &Arena, t: u32) -> bool
    requires { t < length arena.now }
    ensures { result ≡ well (formed (type_at arena.now t)) }
{
    matches!(arena.formed(t), Formed::WellFormed)
}

/// A side of a sum: `w` is the written type of the other side.
pub fn inject(arena: &Arena, side: Side, w: u32, e: Part) -> Option<Row>
    requires known { e.ty < length arena.now }
    requires written { w < length arena.now }
    ensures { (L : List Line) → IsRow arena.now L result (inject_row side (type_at arena.now w) (part_line arena.now L e)) }
{
    if !is_well_formed(arena, w) || !arena.is_ground(w) || !arena.is_ground(e.ty) {
        return None;
    }
    match side {
        Side::Inl => formed(TypeForm::Sum(e.ty, w), Numbers::Same(e.at)),
        Side::Inr => formed(TypeForm::Sum(w, e.ty), Numbers::Same(e.at)),
    }
}

/// `![r] e`
pub fn bang(arena: &Arena, r: Sens, e: Part) -> Option<Row>
    requires known { e.ty < length arena.now }
    requires bang { IsBang (distance_of r) }
    ensures { (L : List Line) → IsRow arena.now L result (bang_row (distance_of r) (part_line arena.now L e)) }
{
    let _ = arena;
    formed(TypeForm::Bang(r, e.ty), Numbers::Scaled(r, e.at))
}

/// `if e then a else b`
pub fn choice(arena: &Arena, e: Part, a: Part, b: Part) -> Option<Row>
    requires e_known { e.ty < length arena.now }
    requires a_known { a.ty < length arena.now }
    requires b_known { b.ty < length arena.now }
    ensures { (L : List Line) → IsRow arena.now L result
        (if_row (part_line arena.now L e) (part_line arena.now L a) (part_line arena.now L b)) }
{
    if is_truth(arena, e.ty) && arena.same(b.ty, a.ty) && arena.is_ground(a.ty) {
        known(a.ty, Numbers::Chosen(e.at, a.at, b.at))
    } else {
        None
    }
}
