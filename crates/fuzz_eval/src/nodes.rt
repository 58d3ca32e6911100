//! Nodes by their numbers.
ghost use Rattle.std.specs.Prelude.{◌≡◌, ◌<◌, ◌≤◌, ◌+◌, IfOk, OnOk, length, max};
ghost use Rattle.fz_ast.specs.Limits.{TermLimits};
ghost use Rattle.fz_ast.specs.Names.{name_of};
ghost use Rattle.fz_ast.specs.TermNodes.{IsKnown, term_of, term_at};
ghost use Rattle.fz_ast.specs.TypeNodes.{type_at};
ghost use Rattle.metric_values.specs.Values.{Bind, UnitV};
ghost use Rattle.flow_values.specs.Founds.{rebound};
ghost use Rattle.flow_values.specs.Views.{IsFunction};
ghost use Rattle.fuzz_eval.specs.Loops.{bound_element};
ghost use Rattle.fuzz_eval.specs.Steps.{IsClosureOf};

use flow_values::{Scope, Value};
use fz_ast::{Arrow, Form, Name, NoMemory, Node, Nodes};
use std::alloc::Global;
use std::rc::Rc;

/// The node of this number.
pub fn look(nodes: &Rc<Nodes>, i: u32) -> &Node
    requires { i < length nodes.now.value.terms }
    ensures form { term_at nodes.now.value.terms i ≡ term_of (type_at nodes.now.value.types) (term_at nodes.now.value.terms) result.now.span result.now.form }
    ensures known { IsKnown (length nodes.now.value.types) i result.now.form }
    ensures limits { TermLimits (term_at nodes.now.value.terms i) }
{
    nodes.node(i)
}

/// A function's arrow, its name, and the number of its body.
#[derive(Clone, Copy)]
pub struct Body {
    pub arrow: Arrow,
    pub name: Name,
    pub term: u32,
}

/// The function at a node.
pub fn body_of(nodes: &Rc<Nodes>, lambda: u32) -> Body
    requires known { lambda < length nodes.now.value.terms }
    requires function { IsFunction (term_at nodes.now.value.terms lambda) }
    ensures within { result.term < length nodes.now.value.terms }
    ensures is { IsClosureOf (term_at nodes.now.value.terms lambda) result.arrow (name_of result.name) (term_at nodes.now.value.terms result.term) }
{
    match look(nodes, lambda).form {
        Form::Lambda(arrow, name, _, _, term) => Body { arrow, name, term },
        _ => unreachable!(),
    }
}

/// The scope inside a function's name, for elements of a bag: the name stands for `()` so far. Where the body takes a pair apart, the
/// frame has the names for its halves.
pub fn element_scope(
    alloc: Global,
    nodes: &Rc<Nodes>,
    scope: &Scope,
    body: Body,
) -> Result<Scope, NoMemory>
    requires { body.term < length nodes.now.value.terms }
    ensures means { IfOk result (λ s. s.means ≡ Bind (name_of body.name) UnitV scope.now.means) }
    ensures deep { IfOk result (λ s. s.deep ≡ scope.now.deep + 2) }
{
    match &look(nodes, body.term).form {
        Form::LetPair(x, y, _, _) => { scope.with_element(alloc, &body.name, x, y, Value::unit()) }
        _ => scope.with(alloc, body.name, Value::unit()),
    }
}

/// A function's name stands for this element of a bag: for its bang, where the arrow is `fun`.
pub fn bind_element(
    alloc: Global,
    arrow: Arrow,
    inner: &mut Scope,
    x: Value,
) -> Result<(), NoMemory>
    ensures means { OnOk result (inner.new.means ≡ rebound inner.old.means (bound_element arrow x.means)) }
    ensures deep { OnOk result (inner.new.deep ≤ max inner.old.deep (x.deep + 3)) }
{
    match arrow {
        Arrow::Fun => {
            let bang = Value::bang(alloc, x)?;
            inner.rebind(alloc, bang)
        }
        Arrow::Fn => inner.rebind(alloc, x),
    }
}
