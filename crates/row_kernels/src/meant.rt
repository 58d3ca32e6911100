//! What a term means for each row of a chunk.
ghost use Rattle.std.specs.Prelude.{◌<◌, IfOk, IfSome, IsTrue, length};
ghost use Rattle.fz_ast.specs.Names.{name_of};
ghost use Rattle.fz_ast.specs.Terms.{AppE, ClipE, IfE, LetE, LetPairE, TimesE};
ghost use Rattle.fz_ast.specs.TermNodes.{binary, term_at, unary};
ghost use Rattle.row_kernels.specs.Calls.{IsArgument, IsCalled, IsUnitTerm};
ghost use Rattle.row_kernels.specs.Lanes.{AllLong, AreGiven, AreLiterals, AreMeant};

use crate::columns::{repeated_truth, shared_bytes, shared_truths};
use crate::frames::{Frames, is_free, named, only, under, under_two};
use crate::lanes::{Lanes, bounded, chosen, halves, multiplied, signed, worded};
use flow_values::{Closure, Scope};
use fz_ast::{Arrow, Binary, Form, Name, NoMemory, Nodes, Ranged, Side, Unary};
use std::alloc::Global;

// The function that a term is, if it is the name of one outside.
fn function_called<'a>(
    nodes: &Nodes,
    frames: &Frames,
    outer: &'a Scope,
    f: u32,
) -> Option<&'a Closure>
    requires { f < length nodes.now.terms }
    ensures { IfSome result (λ c. IsCalled frames.now outer.now.means (term_at nodes.now.terms f) c.now) }
{
    match &nodes.node(f).form {
        Form::Var(name) => {
            if is_free(frames, name) {
                outer.find_function(name)
            } else {
                None
            }
        }
        _ => None,
    }
}

// The term that a function's name stands for, if `a` is its argument.
fn argument(nodes: &Nodes, arrow: Arrow, a: u32) -> Option<u32>
    requires { a < length nodes.now.terms }
    ensures known { IfSome result (λ e. e < length nodes.now.terms) }
    ensures is { IfSome result (λ e. IsArgument arrow (term_at nodes.now.terms a) (term_at nodes.now.terms e)) }
{
    match arrow {
        Arrow::Fun => Some(a),
        Arrow::Fn => match &nodes.node(a).form {
            Form::Bang(_, e) => Some(*e),
            _ => None,
        },
    }
}

// Whether a term is `()`.
fn is_unit(nodes: &Nodes, e: u32) -> bool
    requires { e < length nodes.now.terms }
    ensures { IsTrue result → IsUnitTerm (term_at nodes.now.terms e) }
{
    matches!(&nodes.node(e).form, Form::Unit)
}

// `true` or `false` for all rows.
fn literal(alloc: Global, side: Side, len: usize) -> Result<Lanes, NoMemory>
    ensures { IfOk result (AreLiterals side len) }
{
    let bs = match side {
        Side::Inl => repeated_truth(alloc, true, len)?,
        Side::Inr => repeated_truth(alloc, false, len)?,
    };
    Ok(Lanes::Truth(shared_truths(alloc, bs)?))
}

/// The values of a term for each row, if it is flat and at most `left` deep with the functions that it calls.
#[cycle(meaning)]
pub fn lanes_of(
    alloc: Global,
    nodes: &Nodes,
    frames: &Frames,
    outer: &Scope,
    len: usize,
    i: u32,
    left: u32,
) -> Result<Option<Lanes>, NoMemory>
    requires known { i < length nodes.now.terms }
    requires long { AllLong len frames.now }
    ensures { IfOk result (λ o. IfSome o (AreMeant frames.now outer.now.means (term_at nodes.now.terms i) len)) }
{
    if left == 0 {
        return Ok(None);
    }
    let below = left - 1;
    match &nodes.node(i).form {
        Form::Var(name) => named(alloc, frames, outer, name, len),
        Form::Num(z) => Ok(Some(Lanes::Same(*z))),
        Form::Text(text) => Ok(Some(Lanes::Text(shared_bytes(alloc, text.as_bytes())?))),
        Form::Unary(form, e) => lanes_of_word(alloc, nodes, frames, outer, len, *form, *e, below),
        Form::Binary(form, a, b) => lanes_of_two(
            alloc, nodes, frames, outer, len, *form, *a, *b, below,
        ),
        Form::Times(k, e) => lanes_of_multiple(alloc, nodes, frames, outer, len, *k, *e, below),
        Form::Ranged(form, lo, hi, e) => {
            let Ranged::Clip = form else {
                return Ok(None);
            };
            lanes_of_clip(alloc, nodes, frames, outer, len, *lo, *hi, *e, below)
        }
        Form::Inject(side, _, _, e) => {
            if !is_unit(nodes, *e) {
                return Ok(None);
            }
            Ok(Some(literal(alloc, *side, len)?))
        }
        Form::Let(x, e, b) => lanes_of_let(alloc, nodes, frames, outer, len, x, *e, *b, below),
        Form::LetPair(x, y, e, b) => lanes_of_pair(
            alloc, nodes, frames, outer, len, x, y, *e, *b, below,
        ),
        Form::If(e, a, b) => lanes_of_if(alloc, nodes, frames, outer, len, *e, *a, *b, below),
        _ => Ok(None),
    }
}

// What a word of a pair gives.
#[cycle(meaning)]
#[inline(never)]
fn lanes_of_word(
    alloc: Global,
    nodes: &Nodes,
    frames: &Frames,
    outer: &Scope,
    len: usize,
    form: Unary,
    e: u32,
    left: u32,
) -> Result<Option<Lanes>, NoMemory>
    requires known { e < length nodes.now.terms }
    requires long { AllLong len frames.now }
    ensures { IfOk result (λ o. IfSome o (AreGiven frames.now outer.now.means (unary form (term_at nodes.now.terms e)) len)) }
{
    let Some(x) = lanes_of(alloc, nodes, frames, outer, len, e, left)? else {
        return Ok(None);
    };
    worded(alloc, form, x, len)
}

// What `k * e` gives.
#[cycle(meaning)]
#[inline(never)]
fn lanes_of_multiple(
    alloc: Global,
    nodes: &Nodes,
    frames: &Frames,
    outer: &Scope,
    len: usize,
    k: i64,
    e: u32,
    left: u32,
) -> Result<Option<Lanes>, NoMemory>
    requires known { e < length nodes.now.terms }
    requires long { AllLong len frames.now }
    ensures { IfOk result (λ o. IfSome o (AreGiven frames.now outer.now.means (TimesE k (term_at nodes.now.terms e)) len)) }
{
    let Some(x) = lanes_of(alloc, nodes, frames, outer, len, e, left)? else {
        return Ok(None);
    };
    multiplied(alloc, k, x, len)
}

// What `clip[lo,hi] e` gives.
#[cycle(meaning)]
#[inline(never)]
fn lanes_of_clip(
    alloc: Global,
    nodes: &Nodes,
    frames: &Frames,
    outer: &Scope,
    len: usize,
    lo: i64,
    hi: i64,
    e: u32,
    left: u32,
) -> Result<Option<Lanes>, NoMemory>
    requires known { e < length nodes.now.terms }
    requires long { AllLong len frames.now }
    ensures { IfOk result (λ o. IfSome o (AreGiven frames.now outer.now.means (ClipE lo hi (term_at nodes.now.terms e)) len)) }
{
    let Some(x) = lanes_of(alloc, nodes, frames, outer, len, e, left)? else {
        return Ok(None);
    };
    bounded(alloc, lo, hi, x, len)
}

// What a sign between two parts gives, or a call.
#[cycle(meaning)]
#[inline(never)]
fn lanes_of_two(
    alloc: Global,
    nodes: &Nodes,
    frames: &Frames,
    outer: &Scope,
    len: usize,
    form: Binary,
    a: u32,
    b: u32,
    left: u32,
) -> Result<Option<Lanes>, NoMemory>
    requires a_known { a < length nodes.now.terms }
    requires b_known { b < length nodes.now.terms }
    requires long { AllLong len frames.now }
    ensures { IfOk result (λ o. IfSome o (AreGiven frames.now outer.now.means (binary form (term_at nodes.now.terms a) (term_at nodes.now.terms b)) len)) }
{
    if let Binary::App = form {
        return lanes_of_call(alloc, nodes, frames, outer, len, a, b, left);
    }
    let Some(x) = lanes_of(alloc, nodes, frames, outer, len, a, left)? else {
        return Ok(None);
    };
    let Some(y) = lanes_of(alloc, nodes, frames, outer, len, b, left)? else {
        return Ok(None);
    };
    signed(alloc, form, x, y, len)
}

// What a function gives that a name outside holds.
#[cycle(meaning)]
#[inline(never)]
fn lanes_of_call(
    alloc: Global,
    nodes: &Nodes,
    frames: &Frames,
    outer: &Scope,
    len: usize,
    f: u32,
    a: u32,
    left: u32,
) -> Result<Option<Lanes>, NoMemory>
    requires f_known { f < length nodes.now.terms }
    requires a_known { a < length nodes.now.terms }
    requires long { AllLong len frames.now }
    ensures { IfOk result (λ o. IfSome o (AreGiven frames.now outer.now.means (AppE (term_at nodes.now.terms f) (term_at nodes.now.terms a)) len)) }
{
    let Some(function) = function_called(nodes, frames, outer, f) else {
        return Ok(None);
    };
    let Form::Lambda(arrow, name, _, _, body) = &function.nodes.node(function.lambda).form else {
        return Ok(None);
    };
    let Some(e) = argument(nodes, *arrow, a) else {
        return Ok(None);
    };
    let Some(x) = lanes_of(alloc, nodes, frames, outer, len, e, left)? else {
        return Ok(None);
    };
    let inner = only(alloc, *name, x)?;
    lanes_of(
        alloc,
        &function.nodes,
        &inner,
        &function.scope,
        len,
        *body,
        left,
    )
}

// What `let x = e in b` gives.
#[cycle(meaning)]
#[inline(never)]
fn lanes_of_let(
    alloc: Global,
    nodes: &Nodes,
    frames: &Frames,
    outer: &Scope,
    len: usize,
    x: &Name,
    e: u32,
    b: u32,
    left: u32,
) -> Result<Option<Lanes>, NoMemory>
    requires e_known { e < length nodes.now.terms }
    requires b_known { b < length nodes.now.terms }
    requires long { AllLong len frames.now }
    ensures { IfOk result (λ o. IfSome o
        (AreGiven frames.now outer.now.means (LetE (name_of x.now) (term_at nodes.now.terms e) (term_at nodes.now.terms b)) len)) }
{
    let Some(bound) = lanes_of(alloc, nodes, frames, outer, len, e, left)? else {
        return Ok(None);
    };
    let inner = under(alloc, frames, *x, bound)?;
    lanes_of(alloc, nodes, &inner, outer, len, b, left)
}

// What `let (x, y) = e in b` gives.
#[cycle(meaning)]
#[inline(never)]
fn lanes_of_pair(
    alloc: Global,
    nodes: &Nodes,
    frames: &Frames,
    outer: &Scope,
    len: usize,
    x: &Name,
    y: &Name,
    e: u32,
    b: u32,
    left: u32,
) -> Result<Option<Lanes>, NoMemory>
    requires e_known { e < length nodes.now.terms }
    requires b_known { b < length nodes.now.terms }
    requires long { AllLong len frames.now }
    ensures { IfOk result (λ o. IfSome o (AreGiven frames.now outer.now.means
        (LetPairE (name_of x.now) (name_of y.now) (term_at nodes.now.terms e) (term_at nodes.now.terms b)) len)) }
{
    let Some(pair) = lanes_of(alloc, nodes, frames, outer, len, e, left)? else {
        return Ok(None);
    };
    let Some((first, second)) = halves(pair, len)? else {
        return Ok(None);
    };
    let inner = under_two(alloc, frames, *x, first, *y, second)?;
    lanes_of(alloc, nodes, &inner, outer, len, b, left)
}

// What `if e then a else b` gives. Both branches are found for all rows.
#[cycle(meaning)]
#[inline(never)]
fn lanes_of_if(
    alloc: Global,
    nodes: &Nodes,
    frames: &Frames,
    outer: &Scope,
    len: usize,
    e: u32,
    a: u32,
    b: u32,
    left: u32,
) -> Result<Option<Lanes>, NoMemory>
    requires e_known { e < length nodes.now.terms }
    requires a_known { a < length nodes.now.terms }
    requires b_known { b < length nodes.now.terms }
    requires long { AllLong len frames.now }
    ensures { IfOk result (λ o. IfSome o
        (AreGiven frames.now outer.now.means (IfE (term_at nodes.now.terms e) (term_at nodes.now.terms a) (term_at nodes.now.terms b)) len)) }
{
    let Some(Lanes::Truth(mask)) = lanes_of(alloc, nodes, frames, outer, len, e, left)? else {
        return Ok(None);
    };
    let Some(x) = lanes_of(alloc, nodes, frames, outer, len, a, left)? else {
        return Ok(None);
    };
    let Some(y) = lanes_of(alloc, nodes, frames, outer, len, b, left)? else {
        return Ok(None);
    };
    chosen(alloc, &mask, x, y, len)
}
