//! Columns of values, one for each row of a chunk.
ghost use Rattle.std.specs.Prelude.{◌≡◌, ◌<◌, ◌+◌, IfOk, IfSome, length, ℕ};
ghost use Rattle.metric_values.specs.Cells.{from_column, row_at};
ghost use Rattle.metric_values.specs.Values.{value_of};
ghost use Rattle.row_kernels.specs.declared.lanes.Lanes.TheVariants.{Part};
ghost use Rattle.row_kernels.specs.Lanes.{AreChosen, AreCompared, AreHalves, AreMade, AreNumbers, ArePairs, AreSigned, AreThere, AreWorded};
ghost use Rattle.row_kernels.specs.Lanes.{IsLong, IsSameAt, clip_value, lane_at, times_value};

use crate::cells::cells;
use crate::columns::{
    add, at_most, blank, choose, choose_truths, clip_each, equal, greater, lesser, own, repeated,
    scale, shared, shared_truths, subtract,
};
use crate::texts::same_texts;
use fz_ast::{Binary, NoMemory, Unary};
use metric_values::Table;
use std::alloc::Global;
use std::rc::Rc;

/// A value for each row. What it has inside is shared by a count.
#[cycle(lanes)]
#[derive(Drop)]
pub enum Lanes {
    Num(Rc<Vec<i64>>),
    Truth(Rc<Vec<bool>>),
    /// The same number for all.
    Same(i64),
    /// The same text for all.
    Text(Rc<Vec<u8>>),
    /// Rows of a table from a column on, behind which others stand: the first row, and the column.
    Part(Rc<Table>, usize, usize),
    /// The cells of a column: the first row, and the column.
    Cells(Rc<Table>, usize, usize),
    Pair(Rc<Both>),
}

/// The halves of pairs.
#[cycle(lanes)]
pub struct Both {
    pub first: Lanes,
    pub second: Lanes,
}

impl Drop for Both {
    // By a loop along the second halves, so that long chains of pairs take no stack.
    #[cycle(lanes)]
    fn drop(mut self) {
        loop {
            let Both { first, second } = self;
            drop(first);
            match second {
                Lanes::Pair(rc) => {
                    let Some(both) = Rc::into_inner(rc) else {
                        return
                    };
                    self = both;
                }
                other => return drop(other),
            }
        }
    }
}

/// Rows of a table from a column on.
pub fn rows_from(t: Rc<Table>, first: usize, k: usize, len: usize) -> Lanes
    requires { AreThere t.value first len k }
    ensures long { IsLong len result }
    ensures each { (j : ℕ) → j < len → lane_at result j ≡ value_of (from_column k (row_at t.value (first + j))) }
{
    if t.width() <= k + 1 {
        Lanes::Cells(t, first, k)
    } else {
        Lanes::Part(t, first, k)
    }
}

// Pairs of two for each row.
fn paired(alloc: Global, a: Lanes, b: Lanes) -> Result<Lanes, NoMemory>
    ensures { IfOk result (ArePairs a b) }
{
    match Rc::new(
        alloc,
        Both {
            first: a,
            second: b,
        },
    ) {
        Ok(both) => Ok(Lanes::Pair(both)),
        Err(_) => Err(NoMemory),
    }
}

// Pairs of two for each row, if the first is no pair that was made. So pairs within pairs are a list along their second halves, and are
// let go by a loop.
fn row_like(alloc: Global, a: Lanes, b: Lanes) -> Result<Option<Lanes>, NoMemory>
    ensures { IfOk result (λ o. IfSome o (ArePairs a b)) }
{
    if let Lanes::Pair(_) = &a {
        return Ok(None);
    }
    Ok(Some(paired(alloc, a, b)?))
}

impl Lanes {
    /// An equal one, which shares what this one has inside.
    pub fn copy(&self) -> Result<Lanes, NoMemory>
        ensures { IfOk result (λ l. IsSameAt l self.now) }
    {
        match self {
            Lanes::Num(xs) => Ok(Lanes::Num(xs.clone()?)),
            Lanes::Truth(bs) => Ok(Lanes::Truth(bs.clone()?)),
            Lanes::Same(z) => Ok(Lanes::Same(*z)),
            Lanes::Text(s) => Ok(Lanes::Text(s.clone()?)),
            Lanes::Part(t, first, k) => Ok(Lanes::Part(t.clone()?, *first, *k)),
            Lanes::Cells(t, first, k) => Ok(Lanes::Cells(t.clone()?, *first, *k)),
            Lanes::Pair(both) => Ok(Lanes::Pair(both.clone()?)),
        }
    }

    // The column of numbers, if this is one.
    pub(crate) fn numbers(self, alloc: Global, len: usize) -> Result<Option<Vec<i64>>, NoMemory>
        requires { IsLong len self }
        ensures { IfOk result (λ o. IfSome o (λ v. AreNumbers len self v.items)) }
    {
        match self {
            Lanes::Num(xs) => Ok(Some(own(alloc, xs)?)),
            Lanes::Same(z) => Ok(Some(repeated(alloc, z, len)?)),
            Lanes::Cells(t, first, k) => cells(alloc, &t, first, k, len),
            Lanes::Truth(_) | Lanes::Text(_) | Lanes::Part(_, _, _) | Lanes::Pair(_) => Ok(None),
        }
    }
}

// The columns of numbers of two, if both are such.
fn both_numbers(
    alloc: Global,
    a: Lanes,
    b: Lanes,
    len: usize,
) -> Result<Option<(Vec<i64>, Vec<i64>)>, NoMemory>
    requires a_long { IsLong len a }
    requires b_long { IsLong len b }
    ensures first { IfOk result (λ o. IfSome o (λ p. AreNumbers len a p.0.items)) }
    ensures second { IfOk result (λ o. IfSome o (λ p. AreNumbers len b p.1.items)) }
{
    let Some(xs) = a.numbers(alloc, len)? else {
        return Ok(None);
    };
    let Some(ys) = b.numbers(alloc, len)? else {
        return Ok(None);
    };
    Ok(Some((xs, ys)))
}

// What a sign gives at each row for numbers.
fn signed_numbers(
    alloc: Global,
    form: Binary,
    a: Lanes,
    b: Lanes,
    len: usize,
) -> Result<Option<Lanes>, NoMemory>
    requires a_long { IsLong len a }
    requires b_long { IsLong len b }
    ensures { IfOk result (λ o. IfSome o (AreSigned form len a b)) }
{
    let Some((mut xs, ys)) = both_numbers(alloc, a, b, len)? else {
        return Ok(None);
    };
    match form {
        Binary::Plus => {
            add(&mut xs, &ys);
            Ok(Some(Lanes::Num(shared(alloc, xs)?)))
        }
        Binary::Minus => {
            subtract(&mut xs, &ys);
            Ok(Some(Lanes::Num(shared(alloc, xs)?)))
        }
        Binary::AtMost => {
            let mut out = blank(alloc, len)?;
            at_most(&mut out, &xs, &ys);
            Ok(Some(Lanes::Truth(shared_truths(alloc, out)?)))
        }
        Binary::Equal => {
            let mut out = blank(alloc, len)?;
            equal(&mut out, &xs, &ys);
            Ok(Some(Lanes::Truth(shared_truths(alloc, out)?)))
        }
        _ => Ok(None),
    }
}

/// What a sign gives at each row.
pub fn signed(
    alloc: Global,
    form: Binary,
    a: Lanes,
    b: Lanes,
    len: usize,
) -> Result<Option<Lanes>, NoMemory>
    requires a_long { IsLong len a }
    requires b_long { IsLong len b }
    ensures { IfOk result (λ o. IfSome o (AreSigned form len a b)) }
{
    match form {
        Binary::Equal => {
            if let Some(out) = same_texts(alloc, &a, &b, len)? {
                return Ok(Some(Lanes::Truth(shared_truths(alloc, out)?)));
            }
            signed_numbers(alloc, Binary::Equal, a, b, len)
        }
        Binary::Pair => row_like(alloc, a, b),
        Binary::With => row_like(alloc, a, b),
        _ => signed_numbers(alloc, form, a, b, len),
    }
}

/// A number, so many times each row's.
pub fn multiplied(alloc: Global, k: i64, a: Lanes, len: usize) -> Result<Option<Lanes>, NoMemory>
    requires { IsLong len a }
    ensures { IfOk result (λ o. IfSome o (AreMade (times_value k) len a)) }
{
    let Some(xs) = a.numbers(alloc, len)? else {
        return Ok(None);
    };
    let mut out = repeated(alloc, 0, len)?;
    scale(&mut out, k, &xs);
    Ok(Some(Lanes::Num(shared(alloc, out)?)))
}

/// Each row's number within bounds.
pub fn bounded(
    alloc: Global,
    lo: i64,
    hi: i64,
    a: Lanes,
    len: usize,
) -> Result<Option<Lanes>, NoMemory>
    requires { IsLong len a }
    ensures { IfOk result (λ o. IfSome o (AreMade (clip_value lo hi) len a)) }
{
    let Some(xs) = a.numbers(alloc, len)? else {
        return Ok(None);
    };
    let mut out = repeated(alloc, 0, len)?;
    clip_each(&mut out, lo, hi, &xs);
    Ok(Some(Lanes::Num(shared(alloc, out)?)))
}

// The smaller or the greater of two numbers at each row.
fn compared(
    alloc: Global,
    form: Unary,
    a: Lanes,
    b: Lanes,
    len: usize,
) -> Result<Option<Lanes>, NoMemory>
    requires a_long { IsLong len a }
    requires b_long { IsLong len b }
    ensures { IfOk result (λ o. IfSome o (AreCompared form len a b)) }
{
    let Some((xs, ys)) = both_numbers(alloc, a, b, len)? else {
        return Ok(None);
    };
    let mut out = repeated(alloc, 0, len)?;
    match form {
        Unary::Least => {
            lesser(&mut out, &xs, &ys);
            Ok(Some(Lanes::Num(shared(alloc, out)?)))
        }
        Unary::Greatest => {
            greater(&mut out, &xs, &ys);
            Ok(Some(Lanes::Num(shared(alloc, out)?)))
        }
        _ => Ok(None),
    }
}

/// What a word gives for each row's pair.
pub fn worded(alloc: Global, form: Unary, a: Lanes, len: usize) -> Result<Option<Lanes>, NoMemory>
    requires { IsLong len a }
    ensures { IfOk result (λ o. IfSome o (AreWorded form len a)) }
{
    let Some((first, second)) = halves(a, len)? else {
        return Ok(None);
    };
    match form {
        Unary::Fst => Ok(Some(first)),
        Unary::Snd => Ok(Some(second)),
        _ => compared(alloc, form, first, second, len),
    }
}

// Numbers chosen by a condition.
fn chosen_numbers(
    alloc: Global,
    mask: &[bool],
    a: Lanes,
    b: Lanes,
    len: usize,
) -> Result<Option<Lanes>, NoMemory>
    requires mask_long { length mask.now ≡ len }
    requires a_long { IsLong len a }
    requires b_long { IsLong len b }
    ensures { IfOk result (λ o. IfSome o (AreChosen mask.now len a b)) }
{
    let Some((xs, ys)) = both_numbers(alloc, a, b, len)? else {
        return Ok(None);
    };
    let mut out = repeated(alloc, 0, len)?;
    choose(&mut out, mask, &xs, &ys);
    Ok(Some(Lanes::Num(shared(alloc, out)?)))
}

/// For each row the one or the other, by a condition.
pub fn chosen(
    alloc: Global,
    mask: &[bool],
    a: Lanes,
    b: Lanes,
    len: usize,
) -> Result<Option<Lanes>, NoMemory>
    requires mask_long { length mask.now ≡ len }
    requires a_long { IsLong len a }
    requires b_long { IsLong len b }
    ensures { IfOk result (λ o. IfSome o (AreChosen mask.now len a b)) }
{
    match (a, b) {
        (Lanes::Truth(xs), Lanes::Truth(ys)) => {
            let mut out = blank(alloc, len)?;
            choose_truths(&mut out, mask, &xs, &ys);
            Ok(Some(Lanes::Truth(shared_truths(alloc, out)?)))
        }
        (a, b) => chosen_numbers(alloc, mask, a, b, len),
    }
}

// The halves of a table's rows from a column on, if there are two.
fn halves_of_rows(
    t: Rc<Table>,
    first: usize,
    k: usize,
    len: usize,
) -> Result<Option<(Lanes, Lanes)>, NoMemory>
    requires { AreThere t.value first len k }
    ensures { IfOk result (λ o. IfSome o (λ p. AreHalves len (Part t first k) p.0 p.1)) }
{
    if t.width() <= k + 1 {
        return Ok(None);
    }
    let cells = Lanes::Cells(t.clone()?, first, k);
    let rest = rows_from(t, first, k + 1, len);
    Ok(Some((cells, rest)))
}

/// The halves of each row's pair.
pub fn halves(l: Lanes, len: usize) -> Result<Option<(Lanes, Lanes)>, NoMemory>
    requires { IsLong len l }
    ensures { IfOk result (λ o. IfSome o (λ p. AreHalves len l p.0 p.1)) }
{
    match l {
        Lanes::Part(t, first, k) => halves_of_rows(t, first, k, len),
        Lanes::Pair(both) => Ok(Some((both.first.copy()?, both.second.copy()?))),
        _ => Ok(None),
    }
}
