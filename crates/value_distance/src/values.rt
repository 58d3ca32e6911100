//! How far two values of a ground type are apart.
ghost use Rattle.std.specs.Prelude.{◌≡◌, ◌<◌, IfOk, length};
ghost use Rattle.fz_ast.specs.TypeNodes.{type_at};
ghost use Rattle.fz_ast.specs.Types.{BagT, BangT, NumT, SumT, TextT, Ty, UnitT};
ghost use Rattle.fz_frac.specs.Sens.{distance_of};
ghost use Rattle.metric_values.specs.Typed.{TypedGround};
ghost use Rattle.metric_values.specs.Values.{UnitV};
ghost use Rattle.run_values.specs.Flats.{AllFlat, flats_of};
ghost use Rattle.run_values.specs.Parts.{IsBag, IsBangValue, IsNum, IsPair, IsTextValue, banged_in, elements, first_in, second_in};
ghost use Rattle.value_distance.specs.Answers.{AreHalves, IsDistanceAnswer};

use crate::bags::bag_distance;
use crate::dist::{Dist, DistFault};
use fz_ast::{NoMemory, Ty, TypeForm, Types};
use fz_frac::Sens;
use run_values::Value;
use std::alloc::Global;

fn between_numbers(v: &Value, w: &Value) -> Result<Dist, DistFault>
    requires left { IsNum v.now }
    requires right { IsNum w.now }
    ensures { IsDistanceAnswer result NumT v.now w.now }
{
    Dist::whole(v.number().abs_diff(w.number())).ok_or(DistFault::Range)
}

fn between_texts(v: &Value, w: &Value) -> Result<Dist, DistFault>
    requires left { IsTextValue v.now }
    requires right { IsTextValue w.now }
    ensures { IsDistanceAnswer result TextT v.now w.now }
{
    if v.same_text(w) {
        Dist::whole(0).ok_or(DistFault::Range)
    } else {
        Ok(Dist::Inf)
    }
}

fn between_units() -> Result<Dist, DistFault>
    ensures { IsDistanceAnswer result UnitT UnitV UnitV }
{
    Dist::whole(0).ok_or(DistFault::Range)
}

// The elements of a bag, as values of their own.
fn elements(alloc: Global, bag: &Value) -> Result<Vec<Value>, NoMemory>
    requires { IsBag bag.now }
    ensures is { IfOk result (λ values. flats_of values.items ≡ elements bag.now) }
    ensures flat { IfOk result (λ values. AllFlat values.items) }
{
    let mut values = Vec::new(alloc);
    for i in 0..bag.size() {
        let value = bag.element(i)?;
        if let Err(_) = values.push(value) {
            return Err(NoMemory);
        }
    }
    Ok(values)
}

fn between_bags(alloc: Global, v: &Value, w: &Value) -> Result<Dist, DistFault>
    requires left { IsBag v.now }
    requires right { IsBag w.now }
    ensures { (A : Ty) → IsDistanceAnswer result (BagT A) v.now w.now }
{
    let xs = elements(alloc, v)?;
    let ys = elements(alloc, w)?;
    let count = bag_distance(alloc, xs.as_slice(), ys.as_slice())?;
    Dist::whole(count).ok_or(DistFault::Range)
}

// How far the first halves of pairs are apart.
#[cycle(types)]
fn between_firsts(
    alloc: Global,
    types: &Types,
    a: u32,
    v: &Value,
    w: &Value,
) -> Result<Dist, DistFault>
    requires known { a < length types.now }
    requires pair { IsPair v.now }
    requires other_pair { IsPair w.now }
    requires first { TypedGround (type_at types.now a) (first_in v.now) }
    requires other_first { TypedGround (type_at types.now a) (first_in w.now) }
    ensures { IsDistanceAnswer result (type_at types.now a) (first_in v.now) (first_in w.now) }
{
    let first = v.first()?;
    let other_first = w.first()?;
    between(alloc, types, a, &first, &other_first)
}

// How far the second halves of pairs are apart.
#[cycle(types)]
fn between_seconds(
    alloc: Global,
    types: &Types,
    b: u32,
    v: &Value,
    w: &Value,
) -> Result<Dist, DistFault>
    requires known { b < length types.now }
    requires pair { IsPair v.now }
    requires other_pair { IsPair w.now }
    requires second { TypedGround (type_at types.now b) (second_in v.now) }
    requires other_second { TypedGround (type_at types.now b) (second_in w.now) }
    ensures { IsDistanceAnswer result (type_at types.now b) (second_in v.now) (second_in w.now) }
{
    let second = v.second()?;
    let other_second = w.second()?;
    between(alloc, types, b, &second, &other_second)
}

// How far the halves of pairs are apart, each at the type of its number.
#[cycle(types)]
fn between_halves(
    alloc: Global,
    types: &Types,
    a: u32,
    b: u32,
    v: &Value,
    w: &Value,
) -> Result<(Dist, Dist), DistFault>
    requires first_known { a < length types.now }
    requires second_known { b < length types.now }
    requires pair { IsPair v.now }
    requires other_pair { IsPair w.now }
    requires first { TypedGround (type_at types.now a) (first_in v.now) }
    requires other_first { TypedGround (type_at types.now a) (first_in w.now) }
    requires second { TypedGround (type_at types.now b) (second_in v.now) }
    requires other_second { TypedGround (type_at types.now b) (second_in w.now) }
    ensures { AreHalves result (type_at types.now a) (type_at types.now b) v.now w.now }
{
    let here = between_firsts(alloc, types, a, v, w)?;
    let there = between_seconds(alloc, types, b, v, w)?;
    Ok((here, there))
}

// How far injections are apart, each side at the type of its number.
#[cycle(types)]
fn between_sides(
    alloc: Global,
    types: &Types,
    a: u32,
    b: u32,
    v: &Value,
    w: &Value,
) -> Result<Dist, DistFault>
    requires left_known { a < length types.now }
    requires right_known { b < length types.now }
    requires left { TypedGround (SumT (type_at types.now a) (type_at types.now b)) v.now }
    requires right { TypedGround (SumT (type_at types.now a) (type_at types.now b)) w.now }
    ensures { IsDistanceAnswer result (SumT (type_at types.now a) (type_at types.now b)) v.now w.now }
{
    let (on_left, other_on_left) = (v.is_left(), w.is_left());
    if on_left != other_on_left {
        return Ok(Dist::Inf);
    }
    let side = v.side()?;
    let other_side = w.side()?;
    if on_left {
        between(alloc, types, a, &side, &other_side)
    } else {
        between(alloc, types, b, &side, &other_side)
    }
}

#[cycle(types)]
fn between_banged(
    alloc: Global,
    types: &Types,
    r: Sens,
    a: u32,
    v: &Value,
    w: &Value,
) -> Result<Dist, DistFault>
    requires known { a < length types.now }
    requires left { IsBangValue v.now }
    requires right { IsBangValue w.now }
    requires inside { TypedGround (type_at types.now a) (banged_in v.now) }
    requires other_inside { TypedGround (type_at types.now a) (banged_in w.now) }
    ensures { IsDistanceAnswer result (BangT (distance_of r) (type_at types.now a)) v.now w.now }
{
    let inside = v.banged()?;
    let other_inside = w.banged()?;
    let held = between(alloc, types, a, &inside, &other_inside)?;
    held.times(r).ok_or(DistFault::Range)
}

// How far values of the type of a number are apart.
#[cycle(types)]
fn between(alloc: Global, types: &Types, i: u32, v: &Value, w: &Value) -> Result<Dist, DistFault>
    requires known { i < length types.now }
    requires left { TypedGround (type_at types.now i) v.now }
    requires right { TypedGround (type_at types.now i) w.now }
    ensures { IsDistanceAnswer result (type_at types.now i) v.now w.now }
{
    match types.form(i) {
        TypeForm::Num => between_numbers(v, w),
        TypeForm::Text => between_texts(v, w),
        TypeForm::Unit => between_units(),
        TypeForm::Tensor(a, b) => {
            let (first, second) = between_halves(alloc, types, a, b, v, w)?;
            first.add(second).ok_or(DistFault::Range)
        }
        TypeForm::With(a, b) => {
            let (first, second) = between_halves(alloc, types, a, b, v, w)?;
            Ok(first.max(second))
        }
        TypeForm::Sum(a, b) => between_sides(alloc, types, a, b, v, w),
        TypeForm::Arrow(_, _) => unreachable!(),
        TypeForm::Bang(r, a) => between_banged(alloc, types, r, a, v, w),
        TypeForm::Bag(_) => between_bags(alloc, v, w),
    }
}

/// How far two values of a ground type are apart.
///
/// A value that is shared is gone through as the tree that it stands for.
pub fn distance(alloc: Global, ty: &Ty, v: &Value, w: &Value) -> Result<Dist, DistFault>
    requires left { TypedGround ty.now v.now }
    requires right { TypedGround ty.now w.now }
    ensures { IsDistanceAnswer result ty.now v.now w.now }
{
    let (types, root) = ty.parts();
    between(alloc, types, root, v, w)
}
