//! Bags as slices of values.
ghost use Rattle.std.specs.Fn.{FnReturnsAt};
ghost use Rattle.std.specs.List.{All, AllZip, Contains};
ghost use Rattle.std.specs.Prelude.{◌≡◌, ◌<◌, ◌++◌, IfOk, IsOk, Ok, Some, length, map, pos, slice_get};
ghost use Rattle.metric_values.specs.Numbers.{clamp, clipped_sum};
ghost use Rattle.metric_values.specs.Values.{Value as Meant};
ghost use Rattle.run_values.specs.Parts.{IsNum, number_in};
ghost use Rattle.bag_ops.specs.Bags.{FnTakesAt, IsFilter, IsSplit};

use crate::by_place::{append_by, clipped_sum_by, filter_by, map_by, split_by};
use crate::numbers::count;
use fz_ast::NoMemory;
use run_values::Value;
use std::alloc::Global;

/// The images of the elements, in their order.
pub fn map<F: Fn(&Value) -> Result<Value, NoMemory>>(
    alloc: Global,
    bag: &[Value],
    f: &F,
) -> Result<Vec<Value>, NoMemory>
    requires { (x : Meant) → Contains bag.now x → FnTakesAt F.Fn f.now x }
    ensures { IfOk result (λ ys. AllZip (λ x y. FnReturnsAt F.Fn f.now x (Ok y)) bag.now ys.items) }
{
    let element = |i: usize| -> Result<Value, NoMemory>
        requires { i < length bag.now }
        ensures { IfOk result (λ x. slice_get bag.entry.now i ≡ Some x) }
    { bag[i].copy() };
    map_by(alloc, bag.len(), &element, f)
}

/// The elements for which `keep` answers true, in their order.
pub fn filter<P: Fn(&Value) -> Result<bool, NoMemory>>(
    alloc: Global,
    bag: &[Value],
    keep: &P,
) -> Result<Vec<Value>, NoMemory>
    requires { (x : Meant) → Contains bag.now x → FnTakesAt P.Fn keep.now x }
    ensures { IfOk result (λ ys. IsFilter (λ x b. FnReturnsAt P.Fn keep.now x (Ok b)) bag.now ys.items) }
{
    let element = |i: usize| -> Result<Value, NoMemory>
        requires { i < length bag.now }
        ensures { IfOk result (λ x. slice_get bag.entry.now i ≡ Some x) }
    { bag[i].copy() };
    filter_by(alloc, bag.len(), &element, keep)
}

/// The elements for which `keep` answers true, and the others, each in their order.
pub fn split<P: Fn(&Value) -> Result<bool, NoMemory>>(
    alloc: Global,
    bag: &[Value],
    keep: &P,
) -> Result<(Vec<Value>, Vec<Value>), NoMemory>
    requires { (x : Meant) → Contains bag.now x → FnTakesAt P.Fn keep.now x }
    ensures { IfOk result (λ r. IsSplit (λ x b. FnReturnsAt P.Fn keep.now x (Ok b)) bag.now r.0.items r.1.items) }
{
    let element = |i: usize| -> Result<Value, NoMemory>
        requires { i < length bag.now }
        ensures { IfOk result (λ x. slice_get bag.entry.now i ≡ Some x) }
    { bag[i].copy() };
    split_by(alloc, bag.len(), &element, keep)
}

/// The elements of both.
pub fn union(alloc: Global, a: &[Value], b: &[Value]) -> Result<Vec<Value>, NoMemory>
    ensures { IfOk result (λ v. v.items ≡ a.now ++ b.now) }
{
    let mut out = Vec::new(alloc);
    let of_a = |i: usize| -> Result<Value, NoMemory>
        requires { i < length a.now }
        ensures { IfOk result (λ x. slice_get a.entry.now i ≡ Some x) }
    { a[i].copy() };
    append_by(&mut out, a.len(), &of_a)?;
    let of_b = |i: usize| -> Result<Value, NoMemory>
        requires { i < length b.now }
        ensures { IfOk result (λ x. slice_get b.entry.now i ≡ Some x) }
    { b[i].copy() };
    append_by(&mut out, b.len(), &of_b)?;
    Ok(out)
}

/// How many elements there are, clamped.
pub fn size(bag: &[Value]) -> i64
    ensures { result ≡ clamp (pos (length bag.now)) }
{
    count(bag.len())
}

/// The sum of the numbers, each clipped, clamped once.
pub fn clipped_sum(lo: i64, hi: i64, bag: &[Value]) -> i64
    requires { All IsNum bag.now }
    ensures { result ≡ clamp (clipped_sum lo hi (map number_in bag.now)) }
{
    let number = |i: usize| -> Result<i64, NoMemory>
        requires { (i < length bag.now) × All IsNum bag.now }
        ensures { IfOk result (λ z. slice_get (map number_in bag.entry.now) i ≡ Some z) × IsOk result }
    { Ok(bag[i].number()) };
    match clipped_sum_by(lo, hi, bag.len(), &number) {
        Ok(sum) => sum,
        Err(_) => unreachable!(),
    }
}
