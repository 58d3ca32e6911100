//! Terms that need no evaluation: operands of signs are compared and added in their places, and no value is made of them.
ghost use Rattle.std.specs.Prelude.{◌≡◌, ◌<◌, ◌≤◌, ◌+◌, IfOk, IfSome, length};
ghost use Rattle.fz_ast.specs.Names.{name_of};
ghost use Rattle.fz_ast.specs.TermNodes.{term_at};
ghost use Rattle.metric_values.specs.Values.{NumV, TextV};
ghost use Rattle.flow_values.specs.Founds.{plain_of};
ghost use Rattle.fuzz_eval.specs.Operands.{GivesAtOnce, GivesSign, IsOperand, TakesApart};

use crate::nodes::look;
use crate::numbers::{minus, plus};
use flow_values::{Plain, Scope, Value};
use fz_ast::{Binary, Form, Name, NoMemory, Nodes};
use std::rc::Rc;

// The number or text that a term is, or that its name stands for.
fn operand<'a>(nodes: &'a Rc<Nodes>, scope: &'a Scope, i: u32) -> Plain<'a>
    requires { i < length nodes.now.value.terms }
    ensures { IsOperand scope.now.means (term_at nodes.now.value.terms i) (plain_of result) }
{
    match &look(nodes, i).form {
        Form::Var(name) => scope.find_plain(name),
        Form::Num(z) => Plain::Num(*z),
        Form::Text(text) => Plain::Text(text.as_bytes()),
        _ => Plain::Other,
    }
}

// What a sign gives for two numbers.
fn of_numbers(form: Binary, y: i64, z: i64) -> Option<Value>
    ensures gives { IfSome result (λ v. GivesSign form (NumV y) (NumV z) v.means) }
    ensures deep { IfSome result (λ v. v.deep ≡ 0) }
{
    match form {
        Binary::AtMost => Some(Value::truth(y <= z)),
        Binary::Equal => Some(Value::truth(y == z)),
        Binary::Plus => Some(Value::num(plus(y, z))),
        Binary::Minus => Some(Value::num(minus(y, z))),
        _ => None,
    }
}

// What a sign gives for two texts.
fn of_texts(form: Binary, s: &[u8], t: &[u8]) -> Option<Value>
    ensures gives { IfSome result (λ v. GivesSign form (TextV s.now) (TextV t.now) v.means) }
    ensures deep { IfSome result (λ v. v.deep ≡ 0) }
{
    match form {
        Binary::Equal => Some(Value::truth(s == t)),
        _ => None,
    }
}

/// What a sign gives between two operands, where they are names, numbers or texts and stand for numbers or texts.
pub fn at_once(nodes: &Rc<Nodes>, scope: &Scope, form: Binary, a: u32, b: u32) -> Option<Value>
    requires a_known { a < length nodes.now.value.terms }
    requires b_known { b < length nodes.now.value.terms }
    ensures gives { IfSome result (λ v. GivesAtOnce scope.now.means form (term_at nodes.now.value.terms a) (term_at nodes.now.value.terms b) v.means) }
    ensures deep { IfSome result (λ v. v.deep ≡ 0) }
{
    match operand(nodes, scope, a) {
        Plain::Num(y) => match operand(nodes, scope, b) {
            Plain::Num(z) => of_numbers(form, y, z),
            _ => None,
        },
        Plain::Text(s) => match operand(nodes, scope, b) {
            Plain::Text(t) => of_texts(form, s, t),
            _ => None,
        },
        Plain::Other => None,
    }
}

/// The scope inside `let (x, y) = e`, where `e` is the name of an element, whose frame has these names for its halves.
pub fn taken_apart(
    nodes: &Rc<Nodes>,
    scope: &Scope,
    x: &Name,
    y: &Name,
    e: u32,
) -> Result<Option<Scope>, NoMemory>
    requires { e < length nodes.now.value.terms }
    ensures apart { IfOk result (λ o. IfSome o (λ s. TakesApart scope.now.means (name_of x.now) (name_of y.now) (term_at nodes.now.value.terms e) s.means)) }
    ensures deep { IfOk result (λ o. IfSome o (λ s. s.deep ≤ scope.now.deep + 4)) }
{
    match &look(nodes, e).form {
        Form::Var(name) => scope.opened(name, x, y),
        _ => Ok(None),
    }
}
