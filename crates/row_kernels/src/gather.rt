//! What is made of a bag's elements: how many there are, or the sum of them.
ghost use Rattle.std.specs.Prelude.{◌≡◌, ◌≤◌, ◌+ℤ◌, IfOk, cond, length, pos};
ghost use Rattle.metric_values.specs.Numbers.{clip};
ghost use Rattle.row_kernels.specs.Gathers.{count_there, sum_there};

use crate::numbers::clipped;
use fz_ast::NoMemory;

/// How many elements there are, or the sum of the numbers, each clipped between two.
#[derive(Clone, Copy)]
pub enum Gather {
    Size,
    Sum(i64, i64),
}

/// What a number adds to a sum.
pub fn share(lo: i64, hi: i64, z: i64) -> i128
    ensures { result ≡ clip lo hi z }
{
    clipped(lo, hi, z) as i128
}

/// The sum of two.
///
/// # Errors
///
/// `NoMemory` where it has more than 128 bits, which would take more elements than there is memory for.
pub fn add_total(a: i128, b: i128) -> Result<i128, NoMemory>
    ensures { IfOk result (λ s. s ≡ a +ℤ b) }
{
    match a.checked_add(b) {
        Some(s) => Ok(s),
        None => Err(NoMemory),
    }
}

// 1 for one that is there.
#[inline]
fn one_if(there: bool) -> usize
    ensures is { pos result ≡ cond there (pos 1) (pos 0) }
    ensures small { result ≤ 1 }
{
    if there { 1 } else { 0 }
}

/// How many are there.
#[inline(never)]
pub fn there_in(there: &[bool]) -> usize
    ensures { pos result ≡ count_there there.now }
{
    let mut count = 0;
    for j in 0..there.len() {
        count += one_if(there[j]);
    }
    count
}

// A number, clipped, if it is there.
#[inline]
fn part_of(lo: i64, hi: i64, z: i64, there: bool) -> i64
    ensures { result ≡ cond there (clip lo hi z) (pos 0) }
{
    if there { clipped(lo, hi, z) } else { 0 }
}

/// The sum of the numbers that are there, each clipped.
#[inline(never)]
pub fn sum_of(lo: i64, hi: i64, zs: &[i64], there: &[bool]) -> i128
    requires { length zs.now ≡ length there.now }
    ensures { result ≡ sum_there lo hi zs.now there.now }
{
    let mut sum: i128 = 0;
    for j in 0..zs.len() {
        let here = part_of(lo, hi, zs[j], there[j]);
        sum += here as i128;
    }
    sum
}
