//! Loops over columns, one for each sign.
ghost use Rattle.std.specs.Int.{int_max, int_min};
ghost use Rattle.std.specs.Prelude.{◌≡◌, ◌<◌, ◌+ℤ◌, ◌-ℤ◌, ◌*ℤ◌, cond, get_or, int_le, false, length, pos, replicate, IfOk, ℕ};
ghost use Rattle.metric_values.specs.Distances.{same_number};
ghost use Rattle.metric_values.specs.Numbers.{clamp, clip};

use crate::numbers::{clipped, minus, plus, times};
use fz_ast::NoMemory;
use std::alloc::Global;
use std::rc::Rc;

/// Adds another column to one.
#[inline(never)]
pub fn add(a: &mut [i64], b: &[i64])
    requires { length a.old ≡ length b.now }
    ensures len { length a.new ≡ length a.old }
    ensures each { (j : ℕ) → j < length a.old → get_or a.new j (pos 0) ≡ clamp (get_or a.old j (pos 0) +ℤ get_or b.now j (pos 0)) }
{
    for i in 0..a.len() {
        a[i] = plus(a[i], b[i]);
    }
}

/// Takes another column from one.
#[inline(never)]
pub fn subtract(a: &mut [i64], b: &[i64])
    requires { length a.old ≡ length b.now }
    ensures len { length a.new ≡ length a.old }
    ensures each { (j : ℕ) → j < length a.old → get_or a.new j (pos 0) ≡ clamp (get_or a.old j (pos 0) -ℤ get_or b.now j (pos 0)) }
{
    for i in 0..a.len() {
        a[i] = minus(a[i], b[i]);
    }
}

/// Where one column is at most another.
#[inline(never)]
pub fn at_most(out: &mut [bool], a: &[i64], b: &[i64])
    requires a_long { length a.now ≡ length out.old }
    requires b_long { length b.now ≡ length out.old }
    ensures len { length out.new ≡ length out.old }
    ensures each { (j : ℕ) → j < length out.old → get_or out.new j false ≡ int_le (get_or a.now j (pos 0)) (get_or b.now j (pos 0)) }
{
    for i in 0..out.len() {
        out[i] = a[i] <= b[i];
    }
}

/// Where two columns are equal.
#[inline(never)]
pub fn equal(out: &mut [bool], a: &[i64], b: &[i64])
    requires a_long { length a.now ≡ length out.old }
    requires b_long { length b.now ≡ length out.old }
    ensures len { length out.new ≡ length out.old }
    ensures each { (j : ℕ) → j < length out.old → get_or out.new j false ≡ same_number (get_or a.now j (pos 0)) (get_or b.now j (pos 0)) }
{
    for i in 0..out.len() {
        out[i] = a[i] == b[i];
    }
}

/// A column, so many times.
#[inline(never)]
pub fn scale(out: &mut [i64], k: i64, a: &[i64])
    requires { length a.now ≡ length out.old }
    ensures len { length out.new ≡ length out.old }
    ensures each { (j : ℕ) → j < length out.old → get_or out.new j (pos 0) ≡ clamp (k *ℤ get_or a.now j (pos 0)) }
{
    for i in 0..out.len() {
        out[i] = times(k, a[i]);
    }
}

/// A column within bounds.
#[inline(never)]
pub fn clip_each(out: &mut [i64], lo: i64, hi: i64, a: &[i64])
    requires { length a.now ≡ length out.old }
    ensures len { length out.new ≡ length out.old }
    ensures each { (j : ℕ) → j < length out.old → get_or out.new j (pos 0) ≡ clip lo hi (get_or a.now j (pos 0)) }
{
    for i in 0..out.len() {
        out[i] = clipped(lo, hi, a[i]);
    }
}

/// The smaller of two numbers in each place.
#[inline(never)]
pub fn lesser(out: &mut [i64], a: &[i64], b: &[i64])
    requires a_long { length a.now ≡ length out.old }
    requires b_long { length b.now ≡ length out.old }
    ensures len { length out.new ≡ length out.old }
    ensures each { (j : ℕ) → j < length out.old → get_or out.new j (pos 0) ≡ int_min (get_or a.now j (pos 0)) (get_or b.now j (pos 0)) }
{
    for i in 0..out.len() {
        out[i] = a[i].min(b[i]);
    }
}

/// The greater of two numbers in each place.
#[inline(never)]
pub fn greater(out: &mut [i64], a: &[i64], b: &[i64])
    requires a_long { length a.now ≡ length out.old }
    requires b_long { length b.now ≡ length out.old }
    ensures len { length out.new ≡ length out.old }
    ensures each { (j : ℕ) → j < length out.old → get_or out.new j (pos 0) ≡ int_max (get_or a.now j (pos 0)) (get_or b.now j (pos 0)) }
{
    for i in 0..out.len() {
        out[i] = a[i].max(b[i]);
    }
}

/// The one column where a condition holds, the other where it doesn't.
#[inline(never)]
pub fn choose(out: &mut [i64], mask: &[bool], a: &[i64], b: &[i64])
    requires mask_long { length mask.now ≡ length out.old }
    requires a_long { length a.now ≡ length out.old }
    requires b_long { length b.now ≡ length out.old }
    ensures len { length out.new ≡ length out.old }
    ensures each { (j : ℕ) → j < length out.old → get_or out.new j (pos 0) ≡ cond (get_or mask.now j false) (get_or a.now j (pos 0)) (get_or b.now j (pos 0)) }
{
    for i in 0..out.len() {
        out[i] = if mask[i] { a[i] } else { b[i] };
    }
}

/// The same of truths.
#[inline(never)]
pub fn choose_truths(out: &mut [bool], mask: &[bool], a: &[bool], b: &[bool])
    requires mask_long { length mask.now ≡ length out.old }
    requires a_long { length a.now ≡ length out.old }
    requires b_long { length b.now ≡ length out.old }
    ensures len { length out.new ≡ length out.old }
    ensures each { (j : ℕ) → j < length out.old → get_or out.new j false ≡ cond (get_or mask.now j false) (get_or a.now j false) (get_or b.now j false) }
{
    for i in 0..out.len() {
        out[i] = if mask[i] { a[i] } else { b[i] };
    }
}

/// So many times the same number.
pub fn repeated(alloc: Global, z: i64, len: usize) -> Result<Vec<i64>, NoMemory>
    ensures { IfOk result (λ v. v.items ≡ replicate len z) }
{
    let mut v = Vec::new(alloc);
    if let Err(_) = v.resize(len, z) {
        return Err(NoMemory);
    }
    Ok(v)
}

/// So many times the same truth.
pub fn repeated_truth(alloc: Global, b: bool, len: usize) -> Result<Vec<bool>, NoMemory>
    ensures { IfOk result (λ v. v.items ≡ replicate len b) }
{
    let mut v = Vec::new(alloc);
    if let Err(_) = v.resize(len, b) {
        return Err(NoMemory);
    }
    Ok(v)
}

/// So many times no.
pub fn blank(alloc: Global, len: usize) -> Result<Vec<bool>, NoMemory>
    ensures { IfOk result (λ v. v.items ≡ replicate len false) }
{
    repeated_truth(alloc, false, len)
}

/// A column in a place that is shared by a count.
pub fn shared(alloc: Global, zs: Vec<i64>) -> Result<Rc<Vec<i64>>, NoMemory>
    ensures { IfOk result (λ rc. rc.value ≡ zs) }
{
    match Rc::new(alloc, zs) {
        Ok(rc) => Ok(rc),
        Err(_) => Err(NoMemory),
    }
}

/// The same of truths.
pub fn shared_truths(alloc: Global, bs: Vec<bool>) -> Result<Rc<Vec<bool>>, NoMemory>
    ensures { IfOk result (λ rc. rc.value ≡ bs) }
{
    match Rc::new(alloc, bs) {
        Ok(rc) => Ok(rc),
        Err(_) => Err(NoMemory),
    }
}

/// A column to write into: itself, where nothing else holds it, else an equal one.
pub fn own(alloc: Global, zs: Rc<Vec<i64>>) -> Result<Vec<i64>, NoMemory>
    ensures { IfOk result (λ v. v.items ≡ zs.value.items) }
{
    match Rc::try_unwrap(zs) {
        Ok(v) => Ok(v),
        Err(rc) => copied(alloc, &rc),
    }
}

// An equal column.
fn copied(alloc: Global, a: &[i64]) -> Result<Vec<i64>, NoMemory>
    ensures { IfOk result (λ v. v.items ≡ a.now) }
{
    match Vec::from_slice(alloc, a) {
        Ok(v) => Ok(v),
        Err(_) => Err(NoMemory),
    }
}

/// Bytes in a place that is shared by a count.
pub fn shared_bytes(alloc: Global, a: &[u8]) -> Result<Rc<Vec<u8>>, NoMemory>
    ensures { IfOk result (λ rc. rc.value.items ≡ a.now) }
{
    let Ok(bytes) = Vec::from_slice(alloc, a) else {
        return Err(NoMemory);
    };
    match Rc::new(alloc, bytes) {
        Ok(rc) => Ok(rc),
        Err(_) => Err(NoMemory),
    }
}
