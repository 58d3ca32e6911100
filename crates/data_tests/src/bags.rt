//! Bags of numbers at worked functions, and a sum that is far above every number on its way.
use bag_ops::{by_place, clipped_sum, filter, map, put, size, split, union};
use fz_ast::NoMemory;
use run_values::Value;
use std::alloc::Global;

const GREATEST: i64 = 1 << 50;

fn bag_of(alloc: Global, numbers: &[i64]) -> Result<Vec<Value>, NoMemory> {
    let mut bag = Vec::new(alloc);
    for z in numbers {
        put::put(&mut bag, Value::num(*z))?;
    }
    Ok(bag)
}

fn are(bag: &[Value], numbers: &[i64]) -> bool {
    if bag.len() != numbers.len() {
        return false;
    }
    for i in 0..numbers.len() {
        if bag[i].as_number() != Some(numbers[i]) {
            return false;
        }
    }
    true
}

fn is_positive(x: &Value) -> Result<bool, NoMemory> {
    match x.as_number() {
        Some(z) => Ok(z > 0),
        None => Ok(false),
    }
}

fn negated(x: &Value) -> Result<Value, NoMemory> {
    match x.as_number() {
        Some(z) => Ok(Value::num(0i64.saturating_sub(z))),
        None => Err(NoMemory),
    }
}

const NUMBERS: [i64; 5] = [5, -7, 0, 5, 1];

fn is_mapped(alloc: Global) -> Result<bool, NoMemory> {
    let bag = bag_of(alloc, &NUMBERS)?;
    let images = map(alloc, &bag, &negated)?;
    Ok(are(&images, &[-5, 7, 0, -5, -1]))
}

fn is_filtered(alloc: Global) -> Result<bool, NoMemory> {
    let bag = bag_of(alloc, &NUMBERS)?;
    let yes = filter(alloc, &bag, &is_positive)?;
    Ok(are(&yes, &[5, 5, 1]))
}

#[test]
fn images_and_chosen(rt: HostRuntime) {
    assert!(rt; is_mapped(rt.alloc()) == Ok(true) && is_filtered(rt.alloc()) == Ok(true));
}

fn is_split(alloc: Global) -> Result<bool, NoMemory> {
    let bag = bag_of(alloc, &NUMBERS)?;
    let (yes, no) = split(alloc, &bag, &is_positive)?;
    Ok(are(&yes, &[5, 5, 1]) && are(&no, &[-7, 0]))
}

fn is_united(alloc: Global) -> Result<bool, NoMemory> {
    let no = bag_of(alloc, &[-7, 0])?;
    let bag = bag_of(alloc, &NUMBERS)?;
    let both = union(alloc, &no, &bag)?;
    Ok(are(&both, &[-7, 0, 5, -7, 0, 5, 1]) && size(&both) == 7)
}

#[test]
fn halves_and_all(rt: HostRuntime) {
    assert!(rt; is_split(rt.alloc()) == Ok(true) && is_united(rt.alloc()) == Ok(true));
}

// The clipped sum of rows of which the first ones are the greatest number and the others the least.
fn sum_of_ends(first: usize, rows: usize, lo: i64, hi: i64) -> Result<i64, NoMemory> {
    let end = |i: usize| -> Result<i64, NoMemory> {
        if i < first {
            Ok(GREATEST)
        } else {
            Ok(-GREATEST)
        }
    };
    by_place::clipped_sum_by(lo, hi, rows, &end)
}

// How many rows are the greatest, how many there are, the ends, and the sum. Row by row both ends would be passed.
const SUMS: [(usize, usize, i64, i64, i64); 3] = [
    (1 << 19, 1 << 20, -GREATEST, GREATEST, 0),
    (1 << 19, 1 << 19, -GREATEST, GREATEST, GREATEST),
    (1 << 19, 1 << 20, -1, 2, 1 << 19),
];

fn are_sums(rows: &[(usize, usize, i64, i64, i64)]) -> bool {
    for (first, all, lo, hi, sum) in rows {
        if sum_of_ends(*first, *all, *lo, *hi) != Ok(*sum) {
            return false;
        }
    }
    true
}

#[test]
fn sums(rt: HostRuntime) {
    assert!(rt; are_sums(&SUMS));
}

#[test]
fn sum_of_a_slice(rt: HostRuntime) {
    let bag = [Value::num(5), Value::num(-7), Value::num(2)];
    assert!(rt; clipped_sum(0, 4, &bag) == 6);
}
