//! Rows of names, and of forms that bind them.
ghost use Rattle.std.specs.Prelude.{◌≡◌, ◌<◌, length, List};
ghost use Rattle.fz_ast.specs.Limits.{IsBang};
ghost use Rattle.fz_ast.specs.Names.{name_of};
ghost use Rattle.fz_ast.specs.Types.{Ty};
ghost use Rattle.fz_ast.specs.TypeNodes.{type_at};
ghost use Rattle.fz_frac.specs.Distance.{Inf, quotient};
ghost use Rattle.fz_frac.specs.Sens.{distance_of};
ghost use Rattle.term_meanings.specs.Sensitivities.{above_zero};
ghost use Rattle.derivation_rows.specs.Groups.{lambda_row};
ghost use Rattle.derivation_lines.specs.Held.{lines_in};
ghost use Rattle.derivation_lines.specs.Lines.{Line as Says};
ghost use Rattle.derivation_rows.specs.Placed.{IsFactor};
ghost use Rattle.derivation_rows.specs.Rows.{let_row, let_bang_row, let_pair_row, case_row, fun_row, fn_row};
ghost use Rattle.derivation_rows.specs.Ruled.{IsRow, part_line};

use crate::numbers::{Numbers, amount_at, amount_without};
use crate::row::{Part, Row, formed, known, unlimited};
use crate::row_factors::is_well_formed;
use crate::shape::{bang_parts, sum_parts, tensor_parts};
use derivation_lines::line::Line;
use fz_ast::{Arena, Arrow, Name, TypeForm};
use fz_frac::Sens;

// 1 in the place of 0
fn above_zero(r: Sens) -> Sens
    ensures { distance_of result ≡ above_zero (distance_of r) }
{
    if r.le(Sens::whole(0)) {
        Sens::whole(1)
    } else {
        r
    }
}

// `a` over inf
fn over_all(a: Sens) -> Sens
    ensures { distance_of result ≡ quotient (distance_of a) Inf }
{
    Sens::whole(if a.le(Sens::whole(0)) { 0 } else { 1 })
}

// `a` over `r`, where it is in range
fn quotient(a: Sens, r: Sens) -> Option<Sens>
    requires { IsBang (distance_of r) }
    ensures { IsFactor result (quotient (distance_of a) (distance_of r)) }
{
    match r {
        Sens::Finite(_) => match a.div(r) {
            Ok(k) => Some(k),
            Err(_) => None,
        },
        Sens::Inf => Some(over_all(a)),
    }
}

/// `let x = e in b`
pub fn let_name(arena: &Arena, lines: &[Line], x: &Name, e: Part, b: Part) -> Option<Row>
    requires b_known { b.ty < length arena.now }
    ensures { (T : List Ty) → let L = lines_in T lines.now in
        IsRow arena.now L result (let_row (name_of x.now) (part_line arena.now L e) (part_line arena.now L b)) }
{
    let _ = arena;
    let r = amount_at(lines, b.at, x);
    known(b.ty, Numbers::Let(r, e.at, *x, b.at))
}

/// `let !x = e in b`
pub fn let_bang(arena: &Arena, lines: &[Line], x: &Name, e: Part, b: Part) -> Option<Row>
    requires e_known { e.ty < length arena.now }
    requires b_known { b.ty < length arena.now }
    ensures { (T : List Ty) → let L = lines_in T lines.now in
        IsRow arena.now L result (let_bang_row (name_of x.now) (part_line arena.now L e) (part_line arena.now L b)) }
{
    match bang_parts(arena, e.ty) {
        Some(parts) => match quotient(amount_at(lines, b.at, x), parts.0) {
            Some(r) => known(b.ty, Numbers::Let(r, e.at, *x, b.at)),
            None => None,
        },
        None => None,
    }
}

/// `let (x, y) = e in b`
pub fn let_pair(arena: &Arena, lines: &[Line], x: &Name, y: &Name, e: Part, b: Part) -> Option<Row>
    requires e_known { e.ty < length arena.now }
    requires b_known { b.ty < length arena.now }
    ensures { (T : List Ty) → let L = lines_in T lines.now in
        IsRow arena.now L result (let_pair_row (name_of x.now) (name_of y.now) (part_line arena.now L e) (part_line arena.now L b)) }
{
    match tensor_parts(arena, e.ty) {
        Some(_) => {
            let r = amount_without(lines, y, b.at, x).max(amount_at(lines, b.at, y));
            known(b.ty, Numbers::LetPair(r, e.at, *x, *y, b.at))
        }
        None => None,
    }
}

/// `case e of inl x => a | inr y => b`
pub fn cases(
    arena: &Arena,
    lines: &[Line],
    e: Part,
    x: &Name,
    a: Part,
    y: &Name,
    b: Part,
) -> Option<Row>
    requires e_known { e.ty < length arena.now }
    requires a_known { a.ty < length arena.now }
    requires b_known { b.ty < length arena.now }
    ensures { (T : List Ty) → let L = lines_in T lines.now in
        IsRow arena.now L result (case_row (name_of x.now) (name_of y.now) (part_line arena.now L e) (part_line arena.now L a) (part_line arena.now L b)) }
{
    match sum_parts(arena, e.ty) {
        Some(_) => {
            if !arena.same(b.ty, a.ty) || !arena.is_ground(a.ty) {
                return None;
            }
            let r = above_zero(amount_at(lines, a.at, x).max(amount_at(lines, b.at, y)));
            known(a.ty, Numbers::Cases(r, e.at, *x, a.at, *y, b.at))
        }
        None => None,
    }
}

// `fun (x : w) => e`
fn linear(arena: &Arena, lines: &[Line], x: &Name, w: u32, e: Part) -> Option<Row>
    requires known { e.ty < length arena.now }
    requires written { w < length arena.now }
    ensures { (T : List Ty) → let L = lines_in T lines.now in
        IsRow arena.now L result (fun_row (name_of x.now) (type_at arena.now w) (part_line arena.now L e)) }
{
    if is_well_formed(arena, w) && amount_at(lines, e.at, x).le(Sens::whole(1)) {
        formed(TypeForm::Arrow(w, e.ty), Numbers::Under(*x, e.at))
    } else {
        None
    }
}

// `fn (x : w) => e`
fn endless(arena: &Arena, x: &Name, w: u32, e: Part) -> Option<Row>
    requires known { e.ty < length arena.now }
    requires written { w < length arena.now }
    ensures { (L : List Says) → IsRow arena.now L result (fn_row (name_of x.now) (type_at arena.now w) (part_line arena.now L e)) }
{
    if is_well_formed(arena, w) {
        unlimited(w, e.ty, Numbers::Under(*x, e.at))
    } else {
        None
    }
}

/// A function of x, whose type is written as `w`.
pub fn lambda(arena: &Arena, lines: &[Line], form: Arrow, x: &Name, w: u32, e: Part) -> Option<Row>
    requires known { e.ty < length arena.now }
    requires written { w < length arena.now }
    ensures { (T : List Ty) → let L = lines_in T lines.now in
        IsRow arena.now L result (lambda_row form (name_of x.now) (type_at arena.now w) (part_line arena.now L e)) }
{
    match form {
        Arrow::Fun => linear(arena, lines, x, w, e),
        Arrow::Fn => endless(arena, x, w, e),
    }
}
