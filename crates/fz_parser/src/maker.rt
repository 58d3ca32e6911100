//! What each action makes of the parts on top.
ghost use Rattle.std.specs.Prelude.{◌≡◌, IfOk};
ghost use Rattle.fz_parser.specs.Parts.{made, type_, term};
ghost use Rattle.fz_parser.specs.Kept.{what_of, state_of, IsHeld, IsInOrder, sort_at, Makes};
ghost use Rattle.fz_parser.specs.declared.grammar.Action.{Action};
ghost use Rattle.fz_ast.specs.declared.span.Span.{Span};

use crate::grammar::{Action, Joint};
use crate::reader::{Held, Reader};
use fz_ast::{Arrow, Binary, Form, NoMemory, Ranged, Side, Span, TypeForm, Unary};
use fz_frac::{Frac, Sens};

/// `fun (x : t) => e`, `fn (x : t) => e`
pub fn lambda(reader: &mut Reader, arrow: Arrow, whole: Span) -> Result<Held, NoMemory>
    requires kept { IsInOrder reader.old }
    requires at_0 { sort_at 0 (state_of reader.old) ≡ term }
    requires at_1 { sort_at 1 (state_of reader.old) ≡ type_ }
    ensures { IfOk result (λ held. Makes reader.old reader.new held (made (Action.LambdaTerm arrow) whole (state_of reader.old))) }
{
    let name = reader.name(2);
    let (span, ty) = reader.written(1);
    let body = reader.term(0);
    reader.new_term(whole, Form::Lambda(arrow, name, span, ty, body))
}

pub fn let_bang(reader: &mut Reader, whole: Span) -> Result<Held, NoMemory>
    requires kept { IsInOrder reader.old }
    requires at_0 { sort_at 0 (state_of reader.old) ≡ term }
    requires at_1 { sort_at 1 (state_of reader.old) ≡ term }
    ensures { IfOk result (λ held. Makes reader.old reader.new held (made Action.LetBangTerm whole (state_of reader.old))) }
{
    let name = reader.name(2);
    let bound = reader.term(1);
    let body = reader.term(0);
    reader.new_term(whole, Form::LetBang(name, bound, body))
}

pub fn let_pair(reader: &mut Reader, whole: Span) -> Result<Held, NoMemory>
    requires kept { IsInOrder reader.old }
    requires at_0 { sort_at 0 (state_of reader.old) ≡ term }
    requires at_1 { sort_at 1 (state_of reader.old) ≡ term }
    ensures { IfOk result (λ held. Makes reader.old reader.new held (made Action.LetPairTerm whole (state_of reader.old))) }
{
    let first = reader.name(3);
    let second = reader.name(2);
    let bound = reader.term(1);
    let body = reader.term(0);
    reader.new_term(whole, Form::LetPair(first, second, bound, body))
}

pub fn let_plain(reader: &mut Reader, whole: Span) -> Result<Held, NoMemory>
    requires kept { IsInOrder reader.old }
    requires at_0 { sort_at 0 (state_of reader.old) ≡ term }
    requires at_1 { sort_at 1 (state_of reader.old) ≡ term }
    ensures { IfOk result (λ held. Makes reader.old reader.new held (made Action.LetTerm whole (state_of reader.old))) }
{
    let name = reader.name(2);
    let bound = reader.term(1);
    let body = reader.term(0);
    reader.new_term(whole, Form::Let(name, bound, body))
}

pub fn case(reader: &mut Reader, whole: Span) -> Result<Held, NoMemory>
    requires kept { IsInOrder reader.old }
    requires at_0 { sort_at 0 (state_of reader.old) ≡ term }
    requires at_2 { sort_at 2 (state_of reader.old) ≡ term }
    requires at_4 { sort_at 4 (state_of reader.old) ≡ term }
    ensures { IfOk result (λ held. Makes reader.old reader.new held (made Action.CaseTerm whole (state_of reader.old))) }
{
    let subject = reader.term(4);
    let left = reader.name(3);
    let on_left = reader.term(2);
    let right = reader.name(1);
    let on_right = reader.term(0);
    reader.new_term(whole, Form::Case(subject, left, on_left, right, on_right))
}

/// `if e then a else b`
pub fn choice(reader: &mut Reader, whole: Span) -> Result<Held, NoMemory>
    requires kept { IsInOrder reader.old }
    requires at_0 { sort_at 0 (state_of reader.old) ≡ term }
    requires at_1 { sort_at 1 (state_of reader.old) ≡ term }
    requires at_2 { sort_at 2 (state_of reader.old) ≡ term }
    ensures { IfOk result (λ held. Makes reader.old reader.new held (made Action.IfTerm whole (state_of reader.old))) }
{
    let test = reader.term(2);
    let yes = reader.term(1);
    let no = reader.term(0);
    reader.new_term(whole, Form::If(test, yes, no))
}

/// `a + b` and the like, or `(a, b)` and the like, which begin at their first token.
pub fn binary(reader: &mut Reader, op: Binary, whole: Span) -> Result<Held, NoMemory>
    requires kept { IsInOrder reader.old }
    requires at_0 { sort_at 0 (state_of reader.old) ≡ term }
    requires at_1 { sort_at 1 (state_of reader.old) ≡ term }
    ensures infix { IfOk result (λ held. Makes reader.old reader.new held (made (Action.InfixTerm op) whole (state_of reader.old))) }
    ensures prefix { IfOk result (λ held. Makes reader.old reader.new held (made (Action.PrefixTerm op) whole (state_of reader.old))) }
{
    let a = reader.term(1);
    let b = reader.term(0);
    reader.new_term(whole, Form::Binary(op, a, b))
}

pub fn negative(reader: &mut Reader, whole: Span) -> Result<Held, NoMemory>
    requires { IsInOrder reader.old }
    ensures { IfOk result (λ held. Makes reader.old reader.new held (made Action.NegativeTerm whole (state_of reader.old))) }
{
    let number = reader.number(0);
    reader.new_term(whole, Form::Num(-number))
}

pub fn negative_times(reader: &mut Reader, whole: Span) -> Result<Held, NoMemory>
    requires kept { IsInOrder reader.old }
    requires at_0 { sort_at 0 (state_of reader.old) ≡ term }
    ensures { IfOk result (λ held. Makes reader.old reader.new held (made Action.NegativeTimesTerm whole (state_of reader.old))) }
{
    let number = reader.number(1);
    let e = reader.term(0);
    reader.new_term(whole, Form::Times(-number, e))
}

pub fn times(reader: &mut Reader, whole: Span) -> Result<Held, NoMemory>
    requires kept { IsInOrder reader.old }
    requires at_0 { sort_at 0 (state_of reader.old) ≡ term }
    ensures { IfOk result (λ held. Makes reader.old reader.new held (made Action.TimesTerm whole (state_of reader.old))) }
{
    let number = reader.number(1);
    let e = reader.term(0);
    reader.new_term(whole, Form::Times(number, e))
}

pub fn plain_number(reader: &mut Reader, whole: Span) -> Result<Held, NoMemory>
    requires { IsInOrder reader.old }
    ensures { IfOk result (λ held. Makes reader.old reader.new held (made Action.NumberTerm whole (state_of reader.old))) }
{
    let number = reader.number(0);
    reader.new_term(whole, Form::Num(number))
}

pub fn unary(reader: &mut Reader, op: Unary, whole: Span) -> Result<Held, NoMemory>
    requires kept { IsInOrder reader.old }
    requires at_0 { sort_at 0 (state_of reader.old) ≡ term }
    ensures { IfOk result (λ held. Makes reader.old reader.new held (made (Action.UnaryTerm op) whole (state_of reader.old))) }
{
    let e = reader.term(0);
    reader.new_term(whole, Form::Unary(op, e))
}

pub fn ranged(reader: &mut Reader, op: Ranged, whole: Span) -> Result<Held, NoMemory>
    requires kept { IsInOrder reader.old }
    requires at_0 { sort_at 0 (state_of reader.old) ≡ term }
    ensures { IfOk result (λ held. Makes reader.old reader.new held (made (Action.RangedTerm op) whole (state_of reader.old))) }
{
    let low = reader.integer(2);
    let high = reader.integer(1);
    let e = reader.term(0);
    reader.new_term(whole, Form::Ranged(op, low, high, e))
}

pub fn inject(reader: &mut Reader, side: Side, whole: Span) -> Result<Held, NoMemory>
    requires kept { IsInOrder reader.old }
    requires at_0 { sort_at 0 (state_of reader.old) ≡ term }
    requires at_1 { sort_at 1 (state_of reader.old) ≡ type_ }
    ensures { IfOk result (λ held. Makes reader.old reader.new held (made (Action.InjectTerm side) whole (state_of reader.old))) }
{
    let (span, ty) = reader.written(1);
    let e = reader.term(0);
    reader.new_term(whole, Form::Inject(side, span, ty, e))
}

pub fn bang(reader: &mut Reader, whole: Span) -> Result<Held, NoMemory>
    requires kept { IsInOrder reader.old }
    requires at_0 { sort_at 0 (state_of reader.old) ≡ term }
    ensures { IfOk result (λ held. Makes reader.old reader.new held (made Action.BangTerm whole (state_of reader.old))) }
{
    let factor = reader.factor(1);
    let e = reader.term(0);
    reader.new_term(whole, Form::Bang(factor, e))
}

pub fn variable(reader: &mut Reader, whole: Span) -> Result<Held, NoMemory>
    requires { IsInOrder reader.old }
    ensures { IfOk result (λ held. Makes reader.old reader.new held (made Action.NameTerm whole (state_of reader.old))) }
{
    let name = reader.name(0);
    reader.new_term(whole, Form::Var(name))
}

pub fn literal(reader: &mut Reader, whole: Span) -> Result<Held, NoMemory>
    requires { IsInOrder reader.old }
    ensures { IfOk result (λ held. Makes reader.old reader.new held (made Action.TextTerm whole (state_of reader.old))) }
{
    let text = reader.text(0);
    reader.new_term(whole, Form::Text(text))
}

/// `true` is `inl[unit] ()`, and `false` is `inr[unit] ()`.
pub fn truth(reader: &mut Reader, side: Side, whole: Span) -> Result<Held, NoMemory>
    requires { IsInOrder reader.old }
    ensures { IfOk result (λ held. Makes reader.old reader.new held (made (Action.TruthTerm side) whole (state_of reader.old))) }
{
    let ty = reader.nodes.push_type(TypeForm::Unit)?;
    let e = reader.nodes.push(whole, Form::Unit)?;
    let number = reader.nodes.push(whole, Form::Inject(side, whole, ty, e))?;
    Ok(Held::Term(number))
}

pub fn join(reader: &mut Reader, joint: Joint, whole: Span) -> Result<Held, NoMemory>
    requires kept { IsInOrder reader.old }
    requires at_0 { sort_at 0 (state_of reader.old) ≡ type_ }
    requires at_1 { sort_at 1 (state_of reader.old) ≡ type_ }
    ensures { IfOk result (λ held. Makes reader.old reader.new held (made (Action.JoinType joint) whole (state_of reader.old))) }
{
    let (_, a) = reader.written(1);
    let (_, b) = reader.written(0);
    let form = match joint {
        Joint::Lollipop => TypeForm::Arrow(a, b),
        Joint::Sum => TypeForm::Sum(a, b),
        Joint::Tensor => TypeForm::Tensor(a, b),
        Joint::With => TypeForm::With(a, b),
    };
    reader.new_type(whole, form)
}

/// `a -> b` is `![inf] a -o b`.
pub fn arrow(reader: &mut Reader, whole: Span) -> Result<Held, NoMemory>
    requires kept { IsInOrder reader.old }
    requires at_0 { sort_at 0 (state_of reader.old) ≡ type_ }
    requires at_1 { sort_at 1 (state_of reader.old) ≡ type_ }
    ensures { IfOk result (λ held. Makes reader.old reader.new held (made Action.ArrowType whole (state_of reader.old))) }
{
    let (_, a) = reader.written(1);
    let (_, b) = reader.written(0);
    let from = reader.nodes.push_type(TypeForm::Bang(Sens::Inf, a))?;
    let number = reader.nodes.push_type(TypeForm::Arrow(from, b))?;
    Ok(Held::Written(whole, number))
}

pub fn bang_type(reader: &mut Reader, whole: Span) -> Result<Held, NoMemory>
    requires kept { IsInOrder reader.old }
    requires at_0 { sort_at 0 (state_of reader.old) ≡ type_ }
    ensures { IfOk result (λ held. Makes reader.old reader.new held (made Action.BangType whole (state_of reader.old))) }
{
    let factor = reader.factor(1);
    let (_, a) = reader.written(0);
    reader.new_type(whole, TypeForm::Bang(factor, a))
}

pub fn bag_type(reader: &mut Reader, whole: Span) -> Result<Held, NoMemory>
    requires kept { IsInOrder reader.old }
    requires at_0 { sort_at 0 (state_of reader.old) ≡ type_ }
    ensures { IfOk result (λ held. Makes reader.old reader.new held (made Action.BagType whole (state_of reader.old))) }
{
    let (_, a) = reader.written(0);
    reader.new_type(whole, TypeForm::Bag(a))
}

/// `bool` is `unit + unit`.
pub fn bool_type(reader: &mut Reader, whole: Span) -> Result<Held, NoMemory>
    requires { IsInOrder reader.old }
    ensures { IfOk result (λ held. Makes reader.old reader.new held (made Action.BoolType whole (state_of reader.old))) }
{
    let unit = reader.nodes.push_type(TypeForm::Unit)?;
    let number = reader.nodes.push_type(TypeForm::Sum(unit, unit))?;
    Ok(Held::Written(whole, number))
}

pub fn group_term(reader: &Reader) -> Held
    requires kept { IsInOrder reader.now }
    requires at_0 { sort_at 0 (state_of reader.now) ≡ term }
    ensures known { IsHeld reader.now.nodes result }
    ensures is { (whole : Span) → what_of reader.now.nodes result ≡ made Action.GroupTerm whole (state_of reader.now) }
{
    let e = reader.term(0);
    Held::Term(e)
}

pub fn group_type(reader: &Reader) -> Held
    requires kept { IsInOrder reader.now }
    requires at_0 { sort_at 0 (state_of reader.now) ≡ type_ }
    ensures known { IsHeld reader.now.nodes result }
    ensures is { (whole : Span) → what_of reader.now.nodes result ≡ made Action.GroupType whole (state_of reader.now) }
{
    let (span, ty) = reader.written(0);
    Held::Written(span, ty)
}

pub fn plain_integer(reader: &Reader) -> Held
    requires { IsInOrder reader.now }
    ensures known { IsHeld reader.now.nodes result }
    ensures is { (whole : Span) → what_of reader.now.nodes result ≡ made Action.PlainInteger whole (state_of reader.now) }
{
    let number = reader.number(0);
    Held::Integer(number)
}

pub fn negative_integer(reader: &Reader) -> Held
    requires { IsInOrder reader.now }
    ensures known { IsHeld reader.now.nodes result }
    ensures is { (whole : Span) → what_of reader.now.nodes result ≡ made Action.NegativeInteger whole (state_of reader.now) }
{
    let number = reader.number(0);
    Held::Integer(-number)
}

pub fn whole_factor(reader: &Reader) -> Held
    requires { IsInOrder reader.now }
    ensures known { IsHeld reader.now.nodes result }
    ensures is { (whole : Span) → what_of reader.now.nodes result ≡ made Action.WholeFactor whole (state_of reader.now) }
{
    let p = reader.positive(0);
    Held::Factor(Sens::whole(p))
}

pub fn fraction(reader: &Reader) -> Held
    requires { IsInOrder reader.now }
    ensures known { IsHeld reader.now.nodes result }
    ensures is { (whole : Span) → what_of reader.now.nodes result ≡ made Action.FractionFactor whole (state_of reader.now) }
{
    let p = reader.positive(1);
    let q = reader.positive(0);
    let fraction = Frac::new(p as u64, q as u64).unwrap();
    Held::Factor(Sens::Finite(fraction))
}
