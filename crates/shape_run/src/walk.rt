//! The walk over numbered nodes.
#![tactic(none)]

ghost use Rattle.std.specs.Prelude.{◌≡◌, ◌+◌, ◌<◌, ◌≤◌, List, length};
ghost use Rattle.fz_ast.specs.Names.{name_of};
ghost use Rattle.fz_ast.specs.TermNodes.{IsKnown, term_of, term_at};
ghost use Rattle.fz_ast.specs.TypeNodes.{type_at};
ghost use Rattle.shape_law.specs.Shapes.{Shape, Shapes, first_half, in_bang, second_half};
ghost use Rattle.shape_law.specs.Walk.{enters, over, walk, walk_rules};
ghost use Rattle.shape_run.specs.Cells.{Grown, IsScope, IsShape};
ghost use Rattle.shape_run.specs.Rules.{Scopes, StandsForShape, beside, combined, branches};
ghost use Rattle.shape_run.specs.Tells.{Tells, tally_of};

use crate::gives::{
    give_bag, give_ground, give_leaf, give_pair, give_part, give_union, give_wider, part_of,
    take_turn,
};
use crate::plan::{Count, ShapeFault};
use crate::store::{Cell, Store};
use fz_ast::{Binary, Form, Name, Nodes, Span};

// The body of a function under one name more.
#[cycle(visiting)]
fn visit_under(
    nodes: &Nodes,
    store: &mut Store,
    count: &mut Count,
    scope: u32,
    name: Name,
    shape: u32,
    i: u32,
    left: u32,
    here: u32,
) -> Result<u32, ShapeFault>
    requires known { i < length nodes.now.terms }
    requires scope { Scopes nodes.now.terms store.old.cells.items scope }
    requires shape { StandsForShape nodes.now.terms store.old.cells.items shape }
    requires room { here + left < 4294967295 }
    ensures is { (σ : Shapes) (p : Shape) → IsScope nodes.now.terms store.old.cells.items scope σ → IsShape nodes.now.terms store.old.cells.items shape p
        → Tells nodes.now.terms store.new.cells.items count.new result
        (walk left here (Rattle.shape_law.specs.Shapes.Also (name_of name) p σ) (term_at nodes.now.terms i) (tally_of count.old)) }
    ensures grown { Grown store.old.cells.items store.new.cells.items }
{
    let Ok(inner) = store.bind(name, shape, scope) else {
        return Err(ShapeFault::NoMemory);
    };
    visit(nodes, store, count, inner, i, left, here)
}

// The body of a `let !x`, under what the bang holds.
#[cycle(visiting)]
fn visit_held(
    nodes: &Nodes,
    store: &mut Store,
    count: &mut Count,
    scope: u32,
    name: Name,
    bang: u32,
    i: u32,
    left: u32,
    here: u32,
) -> Result<u32, ShapeFault>
    requires known { i < length nodes.now.terms }
    requires scope { Scopes nodes.now.terms store.old.cells.items scope }
    requires bang { StandsForShape nodes.now.terms store.old.cells.items bang }
    requires room { here + left < 4294967295 }
    ensures is { (σ : Shapes) (p : Shape) → IsScope nodes.now.terms store.old.cells.items scope σ → IsShape nodes.now.terms store.old.cells.items bang p
        → Tells nodes.now.terms store.new.cells.items count.new result
        (walk left here (Rattle.shape_law.specs.Shapes.Also (name_of name) (in_bang p) σ) (term_at nodes.now.terms i) (tally_of count.old)) }
    ensures grown { Grown store.old.cells.items store.new.cells.items }
{
    let Ok(held) = store.in_bang(bang) else {
        return Err(ShapeFault::NoMemory);
    };
    visit_under(nodes, store, count, scope, name, held, i, left, here)
}

// The body of a `let (x, y)`, under the halves' shapes.
#[cycle(visiting)]
fn visit_halves(
    nodes: &Nodes,
    store: &mut Store,
    count: &mut Count,
    scope: u32,
    names: (Name, Name),
    pair: u32,
    i: u32,
    left: u32,
    here: u32,
) -> Result<u32, ShapeFault>
    requires known { i < length nodes.now.terms }
    requires scope { Scopes nodes.now.terms store.old.cells.items scope }
    requires pair { StandsForShape nodes.now.terms store.old.cells.items pair }
    requires room { here + left < 4294967295 }
    ensures is { (σ : Shapes) (p : Shape) → IsScope nodes.now.terms store.old.cells.items scope σ → IsShape nodes.now.terms store.old.cells.items pair p
        → Tells nodes.now.terms store.new.cells.items count.new result
        (walk left here (Rattle.shape_law.specs.Shapes.Also (name_of names.1) (second_half p)
        (Rattle.shape_law.specs.Shapes.Also (name_of names.0) (first_half p) σ))
        (term_at nodes.now.terms i) (tally_of count.old)) }
    ensures grown { Grown store.old.cells.items store.new.cells.items }
{
    let Ok(inner) = store.bind_first(names.0, pair, scope) else {
        return Err(ShapeFault::NoMemory);
    };
    let Ok(second) = store.second(pair) else {
        return Err(ShapeFault::NoMemory);
    };
    visit_under(nodes, store, count, inner, names.1, second, i, left, here)
}

// Two branches, each under its names.
#[cycle(visiting)]
fn visit_both(
    nodes: &Nodes,
    store: &mut Store,
    count: &mut Count,
    scope: u32,
    a: u32,
    other: u32,
    b: u32,
    left: u32,
    here: u32,
) -> Result<u32, ShapeFault>
    requires first { a < length nodes.now.terms }
    requires second { b < length nodes.now.terms }
    requires scope { Scopes nodes.now.terms store.old.cells.items scope }
    requires other { Scopes nodes.now.terms store.old.cells.items other }
    requires room { here + left < 4294967295 }
    ensures is { (σ τ : Shapes) → IsScope nodes.now.terms store.old.cells.items scope σ → IsScope nodes.now.terms store.old.cells.items other τ
        → Tells nodes.now.terms store.new.cells.items count.new result
        (branches (walk left here) σ (term_at nodes.now.terms a) τ (term_at nodes.now.terms b) (tally_of count.old)) }
    ensures grown { Grown store.old.cells.items store.new.cells.items }
{
    let first = visit(nodes, store, count, scope, a, left, here)?;
    let second = visit(nodes, store, count, other, b, left, here)?;
    give_wider(store, count, first, second)
}

// The branches of a `case`, each under its name, which is as wide as the condition.
#[cycle(visiting)]
fn visit_sides(
    nodes: &Nodes,
    store: &mut Store,
    count: &mut Count,
    scope: u32,
    side: u32,
    first: (Name, u32),
    second: (Name, u32),
    left: u32,
    here: u32,
) -> Result<u32, ShapeFault>
    requires first { first.1 < length nodes.now.terms }
    requires second { second.1 < length nodes.now.terms }
    requires scope { Scopes nodes.now.terms store.old.cells.items scope }
    requires side { StandsForShape nodes.now.terms store.old.cells.items side }
    requires room { here + left < 4294967295 }
    ensures is { (σ : Shapes) (p : Shape) → IsScope nodes.now.terms store.old.cells.items scope σ → IsShape nodes.now.terms store.old.cells.items side p
        → Tells nodes.now.terms store.new.cells.items count.new result
        (branches (walk left here) (beside (name_of first.0) p σ) (term_at nodes.now.terms first.1)
        (beside (name_of second.0) p σ) (term_at nodes.now.terms second.1) (tally_of count.old)) }
    ensures grown { Grown store.old.cells.items store.new.cells.items }
{
    let Ok(under_x) = store.bind_side(first.0, side, scope) else {
        return Err(ShapeFault::NoMemory);
    };
    let Ok(under_y) = store.bind_side(second.0, side, scope) else {
        return Err(ShapeFault::NoMemory);
    };
    visit_both(
        nodes, store, count, under_x, first.1, under_y, second.1, left, here,
    )
}

/// The body of a function that is entered.
#[cycle(visiting)]
pub fn enter(
    nodes: &Nodes,
    store: &mut Store,
    count: &mut Count,
    c: u32,
    u: u32,
    left: u32,
    here: u32,
) -> Result<u32, ShapeFault>
    requires function { StandsForShape nodes.now.terms store.old.cells.items c }
    requires argument { StandsForShape nodes.now.terms store.old.cells.items u }
    requires room { here + left < 4294967295 }
    ensures is { (p q : Shape) → IsShape nodes.now.terms store.old.cells.items c p → IsShape nodes.now.terms store.old.cells.items u q
        → Tells nodes.now.terms store.new.cells.items count.new result (enters (walk left here) p q (tally_of count.old)) }
    ensures grown { Grown store.old.cells.items store.new.cells.items }
{
    match store.cell(c) {
        Cell::Fun(name, body, scope) => visit_under(
            nodes, store, count, scope, name, u, body, left, here,
        ),
        Cell::Fn(name, body, scope) => {
            let Ok(held) = store.in_bang(u) else {
                return Err(ShapeFault::NoMemory);
            };
            visit_under(nodes, store, count, scope, name, held, body, left, here)
        }
        _ => give_ground(store, count, 0, 0, 0),
    }
}

// What a word or sign of two parts makes of their shapes.
#[cycle(visiting)]
fn combine(
    nodes: &Nodes,
    store: &mut Store,
    count: &mut Count,
    span: Span,
    form: Binary,
    a: u32,
    b: u32,
    left: u32,
    here: u32,
) -> Result<u32, ShapeFault>
    requires first { StandsForShape nodes.now.terms store.old.cells.items a }
    requires second { StandsForShape nodes.now.terms store.old.cells.items b }
    requires room { here + left < 4294967295 }
    ensures is { (p q : Shape) → IsShape nodes.now.terms store.old.cells.items a p → IsShape nodes.now.terms store.old.cells.items b q
        → Tells nodes.now.terms store.new.cells.items count.new result (combined here (walk left here) span form p q (tally_of count.old)) }
    ensures grown { Grown store.old.cells.items store.new.cells.items }
{
    match form {
        Binary::Pair | Binary::With => give_pair(store, count, a, b),
        Binary::App => enter(nodes, store, count, a, b, left, here),
        Binary::Plus | Binary::Minus | Binary::AtMost | Binary::Equal => give_ground(
            store, count, 0, 0, 0,
        ),
        Binary::Union => give_union(store, count, span, a, b),
        Binary::Map | Binary::Filter | Binary::Split => {
            over(nodes, store, count, a, b, left, here)
        }
    }
}

// A bag primitive: the function is entered once, whatever the bag.
#[cycle(visiting)]
fn over(
    nodes: &Nodes,
    store: &mut Store,
    count: &mut Count,
    c: u32,
    b: u32,
    left: u32,
    here: u32,
) -> Result<u32, ShapeFault>
    requires function { StandsForShape nodes.now.terms store.old.cells.items c }
    requires bag { StandsForShape nodes.now.terms store.old.cells.items b }
    requires room { here + left < 4294967295 }
    ensures is { (p q : Shape) → IsShape nodes.now.terms store.old.cells.items c p → IsShape nodes.now.terms store.old.cells.items b q
        → Tells nodes.now.terms store.new.cells.items count.new result (over here (walk left here) p q (tally_of count.old)) }
    ensures grown { Grown store.old.cells.items store.new.cells.items }
{
    let Ok(element) = store.ground(0, 0, 0) else {
        return Err(ShapeFault::NoMemory);
    };
    let before = *count;
    count.plan.walks = 0;
    count.plan.reach = here;
    let _ = enter(nodes, store, count, c, element, left, here)?;
    give_bag(store, count, b, before, here)
}

// The shape of a term after its own turn. Its parts are at `here`.
#[cycle(visiting)]
fn visit_parts(
    nodes: &Nodes,
    store: &mut Store,
    count: &mut Count,
    scope: u32,
    i: u32,
    left: u32,
    here: u32,
) -> Result<u32, ShapeFault>
    requires known { i < length nodes.now.terms }
    requires scope { Scopes nodes.now.terms store.old.cells.items scope }
    requires room { here + left < 4294967295 }
    ensures is { (σ : Shapes) → IsScope nodes.now.terms store.old.cells.items scope σ
        → Tells nodes.now.terms store.new.cells.items count.new result (walk_rules here (walk left here) σ (term_at nodes.now.terms i) (tally_of count.old)) }
    ensures grown { Grown store.old.cells.items store.new.cells.items }
{
    let node = nodes.node(i);
    if let Some(e) = part_of(&node.form) {
        let a = visit(nodes, store, count, scope, e, left, here)?;
        return give_part(store, count, &node.form, a, here);
    }
    match node.form {
        Form::Binary(form, a, b) => {
            let first = visit(nodes, store, count, scope, a, left, here)?;
            let second = visit(nodes, store, count, scope, b, left, here)?;
            combine(
                nodes, store, count, node.span, form, first, second, left, here,
            )
        }
        Form::Let(name, e, b) => {
            let shape = visit(nodes, store, count, scope, e, left, here)?;
            visit_under(nodes, store, count, scope, name, shape, b, left, here)
        }
        Form::LetBang(name, e, b) => {
            let bang = visit(nodes, store, count, scope, e, left, here)?;
            visit_held(nodes, store, count, scope, name, bang, b, left, here)
        }
        Form::LetPair(x, y, e, b) => {
            let pair = visit(nodes, store, count, scope, e, left, here)?;
            visit_halves(nodes, store, count, scope, (x, y), pair, b, left, here)
        }
        Form::If(e, a, b) => {
            let _ = visit(nodes, store, count, scope, e, left, here)?;
            visit_both(nodes, store, count, scope, a, scope, b, left, here)
        }
        Form::Case(e, x, a, y, b) => {
            let side = visit(nodes, store, count, scope, e, left, here)?;
            visit_sides(nodes, store, count, scope, side, (x, a), (y, b), left, here)
        }
        _ => give_leaf(store, count, scope, &node.form),
    }
}

/// The shape of a term that is visited at depth `here`, from which on so many depths are left.
#[cycle(visiting)]
pub fn visit(
    nodes: &Nodes,
    store: &mut Store,
    count: &mut Count,
    scope: u32,
    i: u32,
    left: u32,
    here: u32,
) -> Result<u32, ShapeFault>
    requires known { i < length nodes.now.terms }
    requires scope { Scopes nodes.now.terms store.old.cells.items scope }
    requires room { here + left < 4294967295 }
    ensures is { (σ : Shapes) → IsScope nodes.now.terms store.old.cells.items scope σ
        → Tells nodes.now.terms store.new.cells.items count.new result (walk left here σ (term_at nodes.now.terms i) (tally_of count.old)) }
    ensures grown { Grown store.old.cells.items store.new.cells.items }
{
    let span = nodes.node(i).span;
    if left == 0 {
        return Err(ShapeFault::TooDeep { span });
    }
    if count.plan.turns >= 20000 {
        return Err(ShapeFault::TooLong { span });
    }
    take_turn(count, here);
    visit_parts(nodes, store, count, scope, i, left - 1, here + 1)
}
