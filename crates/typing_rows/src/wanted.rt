//! What a row asks of a type, and the types that it wants.
ghost use Rattle.std.specs.Prelude.{◌≡◌, ◌<◌, length, List, IfOk, IfErr};
ghost use Rattle.fz_ast.specs.Types.{Ty, NumT, TextT, UnitT, BoolT, WithT, BagT, UnlimitedT, WellFormed, formed, same_type};
ghost use Rattle.fz_ast.specs.TypeNodes.{type_at, type_of, IsKnownType, HasBang};
ghost use Rattle.fz_ast.specs.Arena.{Grows};
ghost use Rattle.linear_types.specs.Inferred.{Inferred, Untyped, Mismatch, Exactly, need_formed};
ghost use Rattle.linear_types.specs.Rule.{halves};
ghost use Rattle.typing_rows.specs.Parts.{IsTyped, AreParts};
ghost use Rattle.typing_rows.specs.Says.{IsFaultOf};

use crate::clause::{RowFault, Wanted};
use fz_ast::{Arena, Formed, NoMemory, Span, TypeForm};
use fz_frac::Sens;

/// Whether the type is `num`.
pub fn is_number(arena: &Arena, t: u32) -> bool
    requires { t < length arena.now }
    ensures { result ≡ same_type (type_at arena.now t) NumT }
{
    matches!(arena.form(t), TypeForm::Num)
}

fn is_unit(arena: &Arena, t: u32) -> bool
    requires { t < length arena.now }
    ensures { result ≡ same_type (type_at arena.now t) UnitT }
{
    matches!(arena.form(t), TypeForm::Unit)
}

/// Whether the type is `text`.
pub fn is_text(arena: &Arena, t: u32) -> bool
    requires { t < length arena.now }
    ensures { result ≡ same_type (type_at arena.now t) TextT }
{
    matches!(arena.form(t), TypeForm::Text)
}

/// Whether the type is `bool`.
pub fn is_truth(arena: &Arena, t: u32) -> bool
    requires { t < length arena.now }
    ensures { result ≡ same_type (type_at arena.now t) BoolT }
{
    match arena.form(t) {
        TypeForm::Sum(a, b) => is_unit(arena, a) && is_unit(arena, b),
        _ => false,
    }
}

/// Whether the type is `num & num`.
pub fn is_number_pair(arena: &Arena, t: u32) -> bool
    requires { t < length arena.now }
    ensures { result ≡ same_type (type_at arena.now t) (WithT NumT NumT) }
{
    match arena.form(t) {
        TypeForm::With(a, b) => is_number(arena, a) && is_number(arena, b),
        _ => false,
    }
}

/// Whether the type is `bag num`.
pub fn is_number_bag(arena: &Arena, t: u32) -> bool
    requires { t < length arena.now }
    ensures { result ≡ same_type (type_at arena.now t) (BagT NumT) }
{
    match arena.form(t) {
        TypeForm::Bag(a) => is_number(arena, a),
        _ => false,
    }
}

/// Whether the type is `bag A`, with A the type number `a`.
pub fn is_bag_of(arena: &Arena, t: u32, a: u32) -> bool
    requires t_known { t < length arena.now }
    requires a_known { a < length arena.now }
    ensures { result ≡ same_type (type_at arena.now t) (BagT (type_at arena.now a)) }
{
    match arena.form(t) {
        TypeForm::Bag(b) => arena.same(b, a),
        _ => false,
    }
}

/// What an unlimited function takes and gives, and `None` for any other type.
pub fn unlimited_parts(arena: &Arena, t: u32) -> Option<(u32, u32)>
    requires { t < length arena.now }
    ensures { AreParts arena.now result (type_at arena.now t) }
{
    match arena.form(t) {
        TypeForm::Arrow(x, y) => match arena.form(x) {
            TypeForm::Bang(Sens::Inf, a) => Some((a, y)),
            _ => None,
        },
        _ => None,
    }
}

/// `bool`
pub fn truth(arena: &mut Arena) -> Result<u32, NoMemory>
    ensures grows { Grows arena.old arena.new }
    ensures is { IfOk result (λ t. IsTyped arena.new t BoolT) }
{
    let unit = arena.intern(TypeForm::Unit)?;
    arena.intern(TypeForm::Sum(unit, unit))
}

/// `num & num`
fn number_pair(arena: &mut Arena) -> Result<u32, NoMemory>
    ensures grows { Grows arena.old arena.new }
    ensures is { IfOk result (λ t. IsTyped arena.new t (WithT NumT NumT)) }
{
    let number = arena.intern(TypeForm::Num)?;
    arena.intern(TypeForm::With(number, number))
}

/// `bag num`
fn number_bag(arena: &mut Arena) -> Result<u32, NoMemory>
    ensures grows { Grows arena.old arena.new }
    ensures is { IfOk result (λ t. IsTyped arena.new t (BagT NumT)) }
{
    let number = arena.intern(TypeForm::Num)?;
    arena.intern(TypeForm::Bag(number))
}

/// `A -> B`, with A and B the types number `a` and `b`.
pub fn unlimited_type(arena: &mut Arena, a: u32, b: u32) -> Result<u32, NoMemory>
    requires a_known { a < length arena.old }
    requires b_known { b < length arena.old }
    ensures grows { Grows arena.old arena.new }
    ensures is { IfOk result (λ t. IsTyped arena.new t (UnlimitedT (type_at arena.old a) (type_at arena.old b))) }
{
    let taken = arena.intern(TypeForm::Bang(Sens::Inf, a))?;
    arena.intern(TypeForm::Arrow(taken, b))
}

/// `A -> bool`, with A the type number `a`.
fn test_type(arena: &mut Arena, a: u32) -> Result<u32, NoMemory>
    requires { a < length arena.old }
    ensures grows { Grows arena.old arena.new }
    ensures is { IfOk result (λ t. IsTyped arena.new t (UnlimitedT (type_at arena.old a) BoolT)) }
{
    let given = truth(arena)?;
    unlimited_type(arena, a, given)
}

/// `bag A * bag A`, with A the type number `a`.
pub fn halves_type(arena: &mut Arena, a: u32) -> Result<u32, NoMemory>
    requires { a < length arena.old }
    ensures grows { Grows arena.old arena.new }
    ensures is { IfOk result (λ t. IsTyped arena.new t (halves (type_at arena.old a))) }
{
    let bag = arena.intern(TypeForm::Bag(a))?;
    arena.intern(TypeForm::Tensor(bag, bag))
}

/// The type number `t`, written at `u`, is well formed.
pub fn written(arena: &Arena, u: Span, t: u32) -> Result<(), RowFault>
    requires { t < length arena.now }
    ensures ok { IfOk result (λ _. formed (type_at arena.now t) ≡ WellFormed) }
    ensures err { IfErr result (λ fault. (T : List Ty) (o : Inferred) → IsFaultOf T fault (need_formed u (formed (type_at arena.now t)) o)) }
{
    match arena.formed(t) {
        Formed::WellFormed => Ok(()),
        Formed::UngroundSum => Err(RowFault::NotGround { span: u }),
        Formed::UnflatBag => Err(RowFault::NotFlat { span: u }),
    }
}

// The fault of a part at `span` whose type number is `found`, where another type was wanted.
fn mismatch(span: Span, found: u32, wanted: Result<u32, NoMemory>) -> RowFault
    ensures { (T U : List Ty) (A : Ty) → found < length T → Grows T U → IfOk wanted (λ t. IsTyped U t A)
        → IsFaultOf U result (Untyped (Mismatch span (type_at T found) (Exactly A))) }
{
    match wanted {
        Ok(t) => RowFault::Mismatch {
            span,
            found,
            wanted: Wanted::Exactly(t),
        },
        Err(NoMemory) => RowFault::NoMemory,
    }
}

/// The fault of a part whose type isn't of this form.
pub fn not_form(arena: &mut Arena, span: Span, found: u32, form: TypeForm) -> RowFault
    requires found_known { found < length arena.old }
    requires known { IsKnownType (length arena.old) form }
    requires bang { HasBang form }
    ensures grows { Grows arena.old arena.new }
    ensures is { IsFaultOf arena.new result (Untyped (Mismatch span (type_at arena.old found) (Exactly (type_of (type_at arena.old) form)))) }
{
    let wanted = arena.intern(form);
    mismatch(span, found, wanted)
}

/// The fault of a part that isn't a `bool`.
pub fn not_truth(arena: &mut Arena, span: Span, found: u32) -> RowFault
    requires found_known { found < length arena.old }
    ensures grows { Grows arena.old arena.new }
    ensures is { IsFaultOf arena.new result (Untyped (Mismatch span (type_at arena.old found) (Exactly BoolT))) }
{
    let wanted = truth(arena);
    mismatch(span, found, wanted)
}

/// The fault of a part that isn't a `num & num`.
pub fn not_number_pair(arena: &mut Arena, span: Span, found: u32) -> RowFault
    requires found_known { found < length arena.old }
    ensures grows { Grows arena.old arena.new }
    ensures is { IsFaultOf arena.new result (Untyped (Mismatch span (type_at arena.old found) (Exactly (WithT NumT NumT)))) }
{
    let wanted = number_pair(arena);
    mismatch(span, found, wanted)
}

/// The fault of a part that isn't a `bag num`.
pub fn not_number_bag(arena: &mut Arena, span: Span, found: u32) -> RowFault
    requires found_known { found < length arena.old }
    ensures grows { Grows arena.old arena.new }
    ensures is { IsFaultOf arena.new result (Untyped (Mismatch span (type_at arena.old found) (Exactly (BagT NumT)))) }
{
    let wanted = number_bag(arena);
    mismatch(span, found, wanted)
}

/// The fault of a part that isn't an `A -> bool`, with A the type number `a`.
pub fn not_test(arena: &mut Arena, span: Span, found: u32, a: u32) -> RowFault
    requires found_known { found < length arena.old }
    requires a_known { a < length arena.old }
    ensures grows { Grows arena.old arena.new }
    ensures is { IsFaultOf arena.new result (Untyped (Mismatch span (type_at arena.old found) (Exactly (UnlimitedT (type_at arena.old a) BoolT)))) }
{
    let wanted = test_type(arena, a);
    mismatch(span, found, wanted)
}
