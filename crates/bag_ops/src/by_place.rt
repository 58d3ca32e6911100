//! Loops over the elements of a bag, which a function gives by their places, so that no bag is copied for them.
ghost use Rattle.std.specs.Fn.{FnReturnsAt};
ghost use Rattle.std.specs.List.{AllZip};
ghost use Rattle.std.specs.Prelude.{◌≡◌, ◌<◌, ◌++◌, IfErr, IfOk, List, OnOk, Err, Ok, ℕ, ℤ};
ghost use Rattle.metric_values.specs.Numbers.{clamp, clip, clipped_sum};
ghost use Rattle.metric_values.specs.Values.{Value as Meant};
ghost use Rattle.bag_ops.specs.Bags.{AreElements, FnTakesAt, IsFilter, IsSplit};

use crate::numbers::{clipped, narrowed};
use crate::put::{put, put_either, put_kept};
use fz_ast::NoMemory;
use run_values::Value;
use std::alloc::Global;

// The image of an element.
#[inline]
fn image<E: Fn(usize) -> Result<Value, NoMemory>, F: Fn(&Value) -> Result<Value, NoMemory>>(
    i: usize,
    element: &E,
    f: &F,
) -> Result<Value, NoMemory>
    requires element { E.pre element.now i }
    requires image { (x : Meant) → E.post element.now i (Ok x) → FnTakesAt F.Fn f.now x }
    ensures { IfOk result (λ y. (x : Meant) × E.post element.now i (Ok x) × FnReturnsAt F.Fn f.now x (Ok y)) }
{
    let x = element(i)?;
    f(&x)
}

// An element, and whether it is kept.
#[inline]
fn judged<E: Fn(usize) -> Result<Value, NoMemory>, P: Fn(&Value) -> Result<bool, NoMemory>>(
    i: usize,
    element: &E,
    keep: &P,
) -> Result<(Value, bool), NoMemory>
    requires element { E.pre element.now i }
    requires verdict { (x : Meant) → E.post element.now i (Ok x) → FnTakesAt P.Fn keep.now x }
    ensures { IfOk result (λ r. E.post element.now i (Ok r.0) × FnReturnsAt P.Fn keep.now r.0 (Ok r.1)) }
{
    let x = element(i)?;
    let verdict = keep(&x)?;
    Ok((x, verdict))
}

/// The images of the elements.
pub fn map_by<E: Fn(usize) -> Result<Value, NoMemory>, F: Fn(&Value) -> Result<Value, NoMemory>>(
    alloc: Global,
    len: usize,
    element: &E,
    f: &F,
) -> Result<Vec<Value>, NoMemory>
    requires elements { (i : ℕ) → i < len → E.pre element.now i }
    requires each { (i : ℕ) (x : Meant) → i < len → E.post element.now i (Ok x) → FnTakesAt F.Fn f.now x }
    ensures { IfOk result (λ ys. (xs : List Meant) × AreElements (λ i x. E.post element.now i (Ok x)) len xs
        × AllZip (λ x y. FnReturnsAt F.Fn f.now x (Ok y)) xs ys.items) }
{
    let mut images = Vec::new(alloc);
    for i in 0..len {
        let y = image(i, element, f)?;
        put(&mut images, y)?;
    }
    Ok(images)
}

/// The elements for which `keep` answers true.
pub fn filter_by<E: Fn(usize) -> Result<Value, NoMemory>, P: Fn(&Value) -> Result<bool, NoMemory>>(
    alloc: Global,
    len: usize,
    element: &E,
    keep: &P,
) -> Result<Vec<Value>, NoMemory>
    requires elements { (i : ℕ) → i < len → E.pre element.now i }
    requires each { (i : ℕ) (x : Meant) → i < len → E.post element.now i (Ok x) → FnTakesAt P.Fn keep.now x }
    ensures { IfOk result (λ ys. (xs : List Meant) × AreElements (λ i x. E.post element.now i (Ok x)) len xs
        × IsFilter (λ x b. FnReturnsAt P.Fn keep.now x (Ok b)) xs ys.items) }
{
    let mut yes = Vec::new(alloc);
    for i in 0..len {
        let (x, verdict) = judged(i, element, keep)?;
        put_kept(&mut yes, verdict, x)?;
    }
    Ok(yes)
}

/// The elements for which `keep` answers true, and the others.
pub fn split_by<E: Fn(usize) -> Result<Value, NoMemory>, P: Fn(&Value) -> Result<bool, NoMemory>>(
    alloc: Global,
    len: usize,
    element: &E,
    keep: &P,
) -> Result<(Vec<Value>, Vec<Value>), NoMemory>
    requires elements { (i : ℕ) → i < len → E.pre element.now i }
    requires each { (i : ℕ) (x : Meant) → i < len → E.post element.now i (Ok x) → FnTakesAt P.Fn keep.now x }
    ensures { IfOk result (λ r. (xs : List Meant) × AreElements (λ i x. E.post element.now i (Ok x)) len xs
        × IsSplit (λ x b. FnReturnsAt P.Fn keep.now x (Ok b)) xs r.0.items r.1.items) }
{
    let mut yes = Vec::new(alloc);
    let mut no = Vec::new(alloc);
    for i in 0..len {
        let (x, verdict) = judged(i, element, keep)?;
        put_either(&mut yes, &mut no, verdict, x)?;
    }
    Ok((yes, no))
}

/// Adds the elements at the end of a list.
pub fn append_by<E: Fn(usize) -> Result<Value, NoMemory>>(
    out: &mut Vec<Value>,
    len: usize,
    element: &E,
) -> Result<(), NoMemory>
    requires { (i : ℕ) → i < len → E.pre element.now i }
    ensures { OnOk result ((xs : List Meant) × AreElements (λ i x. E.post element.now i (Ok x)) len xs × (out.new.items ≡ out.old.items ++ xs)) }
{
    for i in 0..len {
        let x = element(i)?;
        put(out, x)?;
    }
    Ok(())
}

// A number, clipped.
#[inline]
fn share<E: Fn(usize) -> Result<i64, NoMemory>>(
    lo: i64,
    hi: i64,
    i: usize,
    number: &E,
) -> Result<i64, NoMemory>
    requires { E.pre number.now i }
    ensures ok { IfOk result (λ y. (z : ℤ) × E.post number.now i (Ok z) × (y ≡ clip lo hi z)) }
    ensures err { IfErr result (λ e. E.post number.now i (Err e)) }
{
    let z = number(i)?;
    Ok(clipped(lo, hi, z))
}

// The exact sum of the numbers, each clipped.
fn total_by<E: Fn(usize) -> Result<i64, NoMemory>>(
    lo: i64,
    hi: i64,
    len: usize,
    number: &E,
) -> Result<i128, NoMemory>
    requires { (i : ℕ) → i < len → E.pre number.now i }
    ensures ok { IfOk result (λ s. (zs : List ℤ) × AreElements (λ i z. E.post number.now i (Ok z)) len zs × (s ≡ clipped_sum lo hi zs)) }
    ensures err { IfErr result (λ e. (i : ℕ) × (i < len) × E.post number.now i (Err e)) }
{
    let mut total: i128 = 0;
    for i in 0..len {
        let here = share(lo, hi, i, number)?;
        total += here as i128;
    }
    Ok(total)
}

/// The sum of the numbers, each clipped, clamped once.
///
/// # Errors
///
/// That of the first number that there is none of.
pub fn clipped_sum_by<E: Fn(usize) -> Result<i64, NoMemory>>(
    lo: i64,
    hi: i64,
    len: usize,
    number: &E,
) -> Result<i64, NoMemory>
    requires { (i : ℕ) → i < len → E.pre number.now i }
    ensures ok { IfOk result (λ s. (zs : List ℤ) × AreElements (λ i z. E.post number.now i (Ok z)) len zs × (s ≡ clamp (clipped_sum lo hi zs))) }
    ensures err { IfErr result (λ e. (i : ℕ) × (i < len) × E.post number.now i (Err e)) }
{
    Ok(narrowed(total_by(lo, hi, len, number)?))
}
