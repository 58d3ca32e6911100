//! What a term gives, with the widest shape so far.
ghost use Rattle.std.specs.Prelude.{◌≡◌, ◌+◌, ◌<◌, ◌≤◌, List, length, max};
ghost use Rattle.fz_ast.specs.Names.{name_of};
ghost use Rattle.fz_ast.specs.TermNodes.{term_at};
ghost use Rattle.fz_ast.specs.Terms.{Term, at};
ghost use Rattle.shape_law.specs.Shapes.{Shape, Shapes, bang_shape, first_half, pair_shape, second_half, shape_of, side_shape, wider};
ghost use Rattle.shape_law.specs.Walk.{bag, yields, turn, turn_limit, union, walks_at, weighed};
ghost use Rattle.shape_run.specs.Cells.{Grown, HasScope, HasShape, HaveShapes, IsScope, IsShape};
ghost use Rattle.shape_run.specs.Rules.{HasBody, HasLeaf, function_shape, leaf_shape, part_gives, part_in};
ghost use Rattle.shape_run.specs.Tells.{Tells, tally_of};

use crate::plan::{Count, ShapeFault};
use crate::store::Store;
use fz_ast::{Arrow, Form, Name, Ranged, Span, Unary};

// How many walks one may take, with itself.
const WALKS: u32 = 64;

// How deep walks within walks may be evaluated: so many levels fit into the stack of a thread.
const REACH: u32 = 400;

/// The shape in this cell.
pub fn give(store: &Store, count: &mut Count, k: u32) -> Result<u32, ShapeFault>
    requires { HasShape store.now.cells.items k }
    ensures { (N : List Term) (p : Shape) → IsShape N store.now.cells.items k p
        → Tells N store.now.cells.items count.new result (yields p (tally_of count.old)) }
{
    count.plan.width = count.plan.width.max(store.width(k) as u32);
    Ok(k)
}

/// The shape of a ground value.
pub fn give_ground(
    store: &mut Store,
    count: &mut Count,
    width: u8,
    walks: u8,
    height: u32,
) -> Result<u32, ShapeFault>
    ensures is { (N : List Term) → Tells N store.new.cells.items count.new result
        (yields (Rattle.shape_law.specs.Shapes.Wide width walks height) (tally_of count.old)) }
    ensures grown { Grown store.old.cells.items store.new.cells.items }
{
    let Ok(k) = store.ground(width, walks, height) else {
        return Err(ShapeFault::NoMemory);
    };
    give(store, count, k)
}

/// The shape of a pair.
pub fn give_pair(store: &mut Store, count: &mut Count, a: u32, b: u32) -> Result<u32, ShapeFault>
    requires { HaveShapes store.old.cells.items a b }
    ensures is { (N : List Term) (p q : Shape) → IsShape N store.old.cells.items a p → IsShape N store.old.cells.items b q
        → Tells N store.new.cells.items count.new result (yields (pair_shape p q) (tally_of count.old)) }
    ensures grown { Grown store.old.cells.items store.new.cells.items }
{
    let Ok(k) = store.pair(a, b) else {
        return Err(ShapeFault::NoMemory);
    };
    give(store, count, k)
}

/// The shape of a pair's first half.
pub fn give_first(store: &mut Store, count: &mut Count, a: u32) -> Result<u32, ShapeFault>
    requires { HasShape store.old.cells.items a }
    ensures is { (N : List Term) (p : Shape) → IsShape N store.old.cells.items a p
        → Tells N store.new.cells.items count.new result (yields (first_half p) (tally_of count.old)) }
    ensures grown { Grown store.old.cells.items store.new.cells.items }
{
    let Ok(k) = store.first(a) else {
        return Err(ShapeFault::NoMemory);
    };
    give(store, count, k)
}

/// The shape of a pair's second half.
pub fn give_second(store: &mut Store, count: &mut Count, a: u32) -> Result<u32, ShapeFault>
    requires { HasShape store.old.cells.items a }
    ensures is { (N : List Term) (p : Shape) → IsShape N store.old.cells.items a p
        → Tells N store.new.cells.items count.new result (yields (second_half p) (tally_of count.old)) }
    ensures grown { Grown store.old.cells.items store.new.cells.items }
{
    let Ok(k) = store.second(a) else {
        return Err(ShapeFault::NoMemory);
    };
    give(store, count, k)
}

/// The shape of a bang.
pub fn give_bang(store: &mut Store, count: &mut Count, a: u32) -> Result<u32, ShapeFault>
    requires { HasShape store.old.cells.items a }
    ensures is { (N : List Term) (p : Shape) → IsShape N store.old.cells.items a p
        → Tells N store.new.cells.items count.new result (yields (bang_shape p) (tally_of count.old)) }
    ensures grown { Grown store.old.cells.items store.new.cells.items }
{
    let Ok(k) = store.bang(a) else {
        return Err(ShapeFault::NoMemory);
    };
    give(store, count, k)
}

/// The shape of a sum, of the width of its side.
pub fn give_side(store: &mut Store, count: &mut Count, a: u32) -> Result<u32, ShapeFault>
    requires { HasShape store.old.cells.items a }
    ensures is { (N : List Term) (p : Shape) → IsShape N store.old.cells.items a p
        → Tells N store.new.cells.items count.new result (yields (side_shape p) (tally_of count.old)) }
    ensures grown { Grown store.old.cells.items store.new.cells.items }
{
    let width = store.width(a);
    let walks = store.walks(a);
    let height = store.height(a);
    give_ground(store, count, width, walks, height)
}

/// The wider of two ground shapes.
pub fn give_wider(store: &mut Store, count: &mut Count, a: u32, b: u32) -> Result<u32, ShapeFault>
    requires { HaveShapes store.old.cells.items a b }
    ensures is { (N : List Term) (p q : Shape) → IsShape N store.old.cells.items a p → IsShape N store.old.cells.items b q
        → Tells N store.new.cells.items count.new result (yields (wider p q) (tally_of count.old)) }
    ensures grown { Grown store.old.cells.items store.new.cells.items }
{
    let width = store.width(a).max(store.width(b));
    let walks = store.walks(a).max(store.walks(b));
    let height = store.height(a).max(store.height(b));
    give_ground(store, count, width, walks, height)
}

/// The shape of a name.
fn give_name(
    store: &mut Store,
    count: &mut Count,
    scope: u32,
    name: &Name,
) -> Result<u32, ShapeFault>
    requires { HasScope store.old.cells.items scope }
    ensures is { (N : List Term) (σ : Shapes) → IsScope N store.old.cells.items scope σ
        → Tells N store.new.cells.items count.new result (yields (shape_of σ (name_of name.now)) (tally_of count.old)) }
    ensures grown { Grown store.old.cells.items store.new.cells.items }
{
    match store.find(scope, name) {
        Some(k) => give(store, count, k),
        None => give_ground(store, count, 0, 0, 0),
    }
}

/// The shape of a function with its names.
fn give_function(
    store: &mut Store,
    count: &mut Count,
    scope: u32,
    arrow: Arrow,
    name: Name,
    body: u32,
) -> Result<u32, ShapeFault>
    requires { (N : List Term) × (σ : Shapes) × IsScope N store.old.cells.items scope σ × (body < length N) }
    ensures is { (N : List Term) (σ : Shapes) → IsScope N store.old.cells.items scope σ → body < length N
        → Tells N store.new.cells.items count.new result (yields (function_shape arrow (name_of name) (term_at N body) σ) (tally_of count.old)) }
    ensures grown { Grown store.old.cells.items store.new.cells.items }
{
    let Ok(k) = store.function(arrow, name, body, scope) else {
        return Err(ShapeFault::NoMemory);
    };
    give(store, count, k)
}

/// The shape of a form that visits nothing.
pub fn give_leaf(
    store: &mut Store,
    count: &mut Count,
    scope: u32,
    form: &Form,
) -> Result<u32, ShapeFault>
    requires { HasLeaf store.old.cells.items scope form.now }
    ensures is { (N : List Term) (σ : Shapes) → IsScope N store.old.cells.items scope σ → HasBody (length N) form.now
        → Tells N store.new.cells.items count.new result (yields (leaf_shape N σ form.now) (tally_of count.old)) }
    ensures grown { Grown store.old.cells.items store.new.cells.items }
{
    match form {
        Form::Var(name) => give_name(store, count, scope, name),
        Form::Lambda(arrow, name, _, _, body) => {
            give_function(store, count, scope, *arrow, *name, *body)
        }
        _ => give_ground(store, count, 0, 0, 0),
    }
}

/// The part of a form of one part, in which no name is bound.
pub fn part_of(form: &Form) -> Option<u32>
    ensures { result ≡ part_in form.now }
{
    match form {
        Form::Unary(_, e) => Some(*e),
        Form::Times(_, e) => Some(*e),
        Form::Ranged(_, _, _, e) => Some(*e),
        Form::Inject(_, _, _, e) => Some(*e),
        Form::Bang(_, e) => Some(*e),
        _ => None,
    }
}

/// A bag's size or sum at depth `here`, which is one walk, with those inside it. Where its functions would be evaluated too deep, that is noted.
fn give_walk(store: &mut Store, count: &mut Count, a: u32, here: u32) -> Result<u32, ShapeFault>
    requires { HasShape store.old.cells.items a }
    ensures is { (N : List Term) (p : Shape) → IsShape N store.old.cells.items a p
        → Tells N store.new.cells.items count.new result (walks_at here p (tally_of count.old)) }
    ensures grown { Grown store.old.cells.items store.new.cells.items }
{
    let reach = here.saturating_add(store.height(a));
    if reach > REACH {
        count.too_many = true;
        return give_ground(store, count, 0, 0, 0);
    }
    let inside = store.walks(a);
    let Some(walks) = count.plan.walks.checked_add(inside as u32 + 1) else {
        return Err(ShapeFault::NoMemory);
    };
    count.plan.walks = walks;
    count.plan.reach = count.plan.reach.max(reach);
    give_ground(store, count, 0, 0, 0)
}

/// The shape of a bag whose functions take so many walks and are evaluated so deep. Where a walk would take more than 64 with itself, that
/// is noted, and none count.
fn give_weighed(
    store: &mut Store,
    count: &mut Count,
    width: u8,
    walks: u32,
    height: u32,
) -> Result<u32, ShapeFault>
    ensures is { (N : List Term) → Tells N store.new.cells.items count.new result (weighed width walks height (tally_of count.old)) }
    ensures grown { Grown store.old.cells.items store.new.cells.items }
{
    if walks >= WALKS {
        count.too_many = true;
        return give_ground(store, count, width, 0, 0);
    }
    give_ground(store, count, width, walks as u8, height)
}

/// What the rows of the bag `b` become, where a function's body was visited at depth `here` and counted what `count` says since `before`:
/// a walk takes those inside the bag and, for each table, as many as the body, and is evaluated as deep as the deeper of both.
pub fn give_bag(
    store: &mut Store,
    count: &mut Count,
    b: u32,
    before: Count,
    here: u32,
) -> Result<u32, ShapeFault>
    requires { HasShape store.old.cells.items b }
    ensures is { (N : List Term) (q : Shape) → IsShape N store.old.cells.items b q
        → Tells N store.new.cells.items count.new result (bag here q (tally_of before) (tally_of count.old)) }
    ensures grown { Grown store.old.cells.items store.new.cells.items }
{
    let width = store.width(b);
    let Some(body) = count.plan.walks.checked_mul(width as u32) else {
        return Err(ShapeFault::NoMemory);
    };
    let Some(walks) = body.checked_add(store.walks(b) as u32) else {
        return Err(ShapeFault::NoMemory);
    };
    let height = store.height(b).max(count.plan.reach.saturating_sub(here));
    count.plan.walks = before.plan.walks;
    count.plan.reach = before.plan.reach;
    give_weighed(store, count, width, walks, height)
}

/// What such a form makes of the shape of its part at depth `here`.
pub fn give_part(
    store: &mut Store,
    count: &mut Count,
    form: &Form,
    a: u32,
    here: u32,
) -> Result<u32, ShapeFault>
    requires { HasShape store.old.cells.items a }
    ensures is { (N : List Term) (p : Shape) → IsShape N store.old.cells.items a p
        → Tells N store.new.cells.items count.new result (part_gives here form.now p (tally_of count.old)) }
    ensures grown { Grown store.old.cells.items store.new.cells.items }
{
    match form {
        Form::Unary(Unary::Fst, _) => give_first(store, count, a),
        Form::Unary(Unary::Snd, _) => give_second(store, count, a),
        Form::Inject(_, _, _, _) => give_side(store, count, a),
        Form::Bang(_, _) => give_bang(store, count, a),
        Form::Unary(Unary::Size, _) => give_walk(store, count, a, here),
        Form::Ranged(Ranged::Sum, _, _, _) => give_walk(store, count, a, here),
        _ => give_ground(store, count, 0, 0, 0),
    }
}

/// The shape of the union at this span.
pub fn give_union(
    store: &mut Store,
    count: &mut Count,
    span: Span,
    a: u32,
    b: u32,
) -> Result<u32, ShapeFault>
    requires { HaveShapes store.old.cells.items a b }
    ensures is { (N : List Term) (p q : Shape) → IsShape N store.old.cells.items a p → IsShape N store.old.cells.items b q
        → Tells N store.new.cells.items count.new result (union span p q (tally_of count.old)) }
    ensures grown { Grown store.old.cells.items store.new.cells.items }
{
    let width = store.width(a) as u32 + store.width(b) as u32;
    if width > 64 {
        return Err(ShapeFault::TooWide { span, width });
    }
    let walks = store.walks(a) as u32 + store.walks(b) as u32;
    let height = store.height(a).max(store.height(b));
    give_weighed(store, count, width as u8, walks, height)
}

/// One turn more.
pub fn take_turn(count: &mut Count, here: u32)
    requires { count.old.plan.turns < turn_limit }
    ensures { tally_of count.new ≡ turn here (tally_of count.old) }
{
    count.plan.turns += 1;
    count.plan.depth = count.plan.depth.max(here);
    count.plan.reach = count.plan.reach.max(here);
}
