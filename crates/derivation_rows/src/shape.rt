//! What a rule asks of a part's type, and the type that it gives a node. No type is added to the arena.
ghost use Rattle.std.specs.Prelude.{◌≡◌, ◌<◌, length, IfOk};
ghost use Rattle.fz_ast.specs.Arena.{Grows};
ghost use Rattle.fz_ast.specs.Types.{BoolT, NumT, TextT, UnitT, BagT, WithT, UnlimitedT, same_type};
ghost use Rattle.fz_ast.specs.TypeNodes.{type_at, type_of, IsKnownType};
ghost use Rattle.derivation_lines.specs.Interned.{IsNumberOf};
ghost use Rattle.derivation_rows.specs.Rows.{is_bag};
ghost use Rattle.derivation_rows.specs.Shapes.{shape_type, IsKnownShape, AreTensorParts, AreSumParts, AreBangParts, AreUnlimitedParts};

use fz_ast::{Arena, NoMemory, TypeForm};
use fz_frac::Sens;

/// A type, of which parts are numbers in an arena. It may be in no arena itself.
#[derive(Clone, Copy)]
pub enum Shape {
    /// The type of this number.
    Known(u32),
    /// The type of this form.
    Of(TypeForm),
    /// `bool`
    Truth,
    /// `A -> B`
    Unlimited(u32, u32),
}

/// Whether the type is `num`.
pub fn is_number(arena: &Arena, t: u32) -> bool
    requires { t < length arena.now }
    ensures { result ≡ same_type (type_at arena.now t) NumT }
{
    matches!(arena.form(t), TypeForm::Num)
}

/// Whether the type is `text`.
pub fn is_text(arena: &Arena, t: u32) -> bool
    requires { t < length arena.now }
    ensures { result ≡ same_type (type_at arena.now t) TextT }
{
    matches!(arena.form(t), TypeForm::Text)
}

fn is_unit(arena: &Arena, t: u32) -> bool
    requires { t < length arena.now }
    ensures { result ≡ same_type (type_at arena.now t) UnitT }
{
    matches!(arena.form(t), TypeForm::Unit)
}

/// Whether the type is `bool`.
pub fn is_truth(arena: &Arena, t: u32) -> bool
    requires { t < length arena.now }
    ensures { result ≡ same_type (type_at arena.now t) BoolT }
{
    match arena.form(t) {
        TypeForm::Sum(a, b) => is_unit(arena, a) && is_unit(arena, b),
        _ => false,
    }
}

/// Whether the type is `num & num`.
pub fn is_number_pair(arena: &Arena, t: u32) -> bool
    requires { t < length arena.now }
    ensures { result ≡ same_type (type_at arena.now t) (WithT NumT NumT) }
{
    match arena.form(t) {
        TypeForm::With(a, b) => is_number(arena, a) && is_number(arena, b),
        _ => false,
    }
}

/// Whether the type is `bag num`.
pub fn is_number_bag(arena: &Arena, t: u32) -> bool
    requires { t < length arena.now }
    ensures { result ≡ same_type (type_at arena.now t) (BagT NumT) }
{
    match arena.form(t) {
        TypeForm::Bag(a) => is_number(arena, a),
        _ => false,
    }
}

/// Whether the type is a bag.
pub fn is_bag(arena: &Arena, t: u32) -> bool
    requires { t < length arena.now }
    ensures { result ≡ is_bag (type_at arena.now t) }
{
    matches!(arena.form(t), TypeForm::Bag(_))
}

/// Whether the type is `bag A`, with A the type number `a`.
pub fn is_bag_of(arena: &Arena, t: u32, a: u32) -> bool
    requires t_known { t < length arena.now }
    requires a_known { a < length arena.now }
    ensures { result ≡ same_type (type_at arena.now t) (BagT (type_at arena.now a)) }
{
    match arena.form(t) {
        TypeForm::Bag(b) => arena.same(b, a),
        _ => false,
    }
}

/// The sides of `A * B`, and `None` for any other type.
pub fn tensor_parts(arena: &Arena, t: u32) -> Option<(u32, u32)>
    requires { t < length arena.now }
    ensures { AreTensorParts arena.now result (type_at arena.now t) }
{
    match arena.form(t) {
        TypeForm::Tensor(a, b) => Some((a, b)),
        _ => None,
    }
}

/// The sides of `A + B`, and `None` for any other type.
pub fn sum_parts(arena: &Arena, t: u32) -> Option<(u32, u32)>
    requires { t < length arena.now }
    ensures { AreSumParts arena.now result (type_at arena.now t) }
{
    match arena.form(t) {
        TypeForm::Sum(a, b) => Some((a, b)),
        _ => None,
    }
}

/// The number and the part of `![r] A`, and `None` for any other type.
pub fn bang_parts(arena: &Arena, t: u32) -> Option<(Sens, u32)>
    requires { t < length arena.now }
    ensures { AreBangParts arena.now result (type_at arena.now t) }
{
    match arena.form(t) {
        TypeForm::Bang(r, a) => Some((r, a)),
        _ => None,
    }
}

/// What an unlimited function takes and gives, and `None` for any other type.
pub fn unlimited_parts(arena: &Arena, t: u32) -> Option<(u32, u32)>
    requires { t < length arena.now }
    ensures { AreUnlimitedParts arena.now result (type_at arena.now t) }
{
    match arena.form(t) {
        TypeForm::Arrow(x, y) => match arena.form(x) {
            TypeForm::Bang(Sens::Inf, a) => Some((a, y)),
            _ => None,
        },
        _ => None,
    }
}

// Whether the type is the unlimited arrow between these.
fn is_unlimited(arena: &Arena, t: u32, a: u32, b: u32) -> bool
    requires t_known { t < length arena.now }
    requires a_known { a < length arena.now }
    requires b_known { b < length arena.now }
    ensures { result ≡ same_type (type_at arena.now t) (UnlimitedT (type_at arena.now a) (type_at arena.now b)) }
{
    match unlimited_parts(arena, t) {
        Some((x, y)) => arena.same(x, a) && arena.same(y, b),
        None => false,
    }
}

// Whether the type is of this form.
fn is_of(arena: &Arena, t: u32, form: TypeForm) -> bool
    requires t_known { t < length arena.now }
    requires form_known { IsKnownType (length arena.now) form }
    ensures { result ≡ same_type (type_at arena.now t) (type_of (type_at arena.now) form) }
{
    arena.each_once();
    arena.form(t) == form
}

impl Shape {
    /// Whether it is the type of this number.
    pub fn is(&self, arena: &Arena, t: u32) -> bool
        requires t_known { t < length arena.now }
        requires known { IsKnownShape (length arena.now) self.now }
        ensures { result ≡ same_type (type_at arena.now t) (shape_type arena.now self.now) }
    {
        match *self {
            Shape::Known(a) => arena.same(t, a),
            Shape::Of(form) => is_of(arena, t, form),
            Shape::Truth => is_truth(arena, t),
            Shape::Unlimited(a, b) => is_unlimited(arena, t, a, b),
        }
    }
}

// `bool`
fn truth(arena: &mut Arena) -> Result<u32, NoMemory>
    ensures grows { Grows arena.old arena.new }
    ensures is { IfOk result (λ n. IsNumberOf arena.new n BoolT) }
{
    let unit = arena.intern(TypeForm::Unit)?;
    arena.intern(TypeForm::Sum(unit, unit))
}

// `A -> B`
fn unlimited(arena: &mut Arena, a: u32, b: u32) -> Result<u32, NoMemory>
    requires a_known { a < length arena.old }
    requires b_known { b < length arena.old }
    ensures grows { Grows arena.old arena.new }
    ensures is { IfOk result (λ n. IsNumberOf arena.new n (UnlimitedT (type_at arena.old a) (type_at arena.old b))) }
{
    let taken = arena.intern(TypeForm::Bang(Sens::Inf, a))?;
    arena.intern(TypeForm::Arrow(taken, b))
}

impl Shape {
    /// Its number in the arena, to which it is added where it isn't there.
    pub fn number(&self, arena: &mut Arena) -> Result<u32, NoMemory>
        requires { IsKnownShape (length arena.old) self.now }
        ensures grows { Grows arena.old arena.new }
        ensures is { IfOk result (λ n. IsNumberOf arena.new n (shape_type arena.old self.now)) }
    {
        match *self {
            Shape::Known(n) => Ok(n),
            Shape::Of(form) => arena.intern(form),
            Shape::Truth => truth(arena),
            Shape::Unlimited(a, b) => unlimited(arena, a, b),
        }
    }
}
