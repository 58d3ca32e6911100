//! The types written in a term, each by its number in an arena.
ghost use Rattle.std.specs.Prelude.{◌≡◌, ◌<◌, length, IfOk, List};
ghost use Rattle.fz_ast.specs.Types.{Ty};
ghost use Rattle.fz_ast.specs.TypeNodes.{type_at, type_of, HasBang, IsKnownType};
ghost use Rattle.fz_ast.specs.Arena.{Grows};
ghost use Rattle.sensitivity_check.specs.Written.{AreNumbers, AreWritten, IsNumberOf};

use fz_ast::{Arena, NoMemory, Ty, TypeForm, Types};
use std::alloc::Global;

// The same form, its parts being numbers in the arena.
fn placed(form: TypeForm, numbers: &[u32]) -> TypeForm
    requires { IsKnownType (length numbers.now) form }
    ensures known { (T U : List Ty) → AreNumbers T U numbers.now → IsKnownType (length U) result }
    ensures is { (T U : List Ty) → AreNumbers T U numbers.now → type_of (type_at U) result ≡ type_of (type_at T) form }
    ensures bang { HasBang form → HasBang result }
{
    match form {
        TypeForm::Num | TypeForm::Text | TypeForm::Unit => form,
        TypeForm::Tensor(a, b) => TypeForm::Tensor(numbers[a as usize], numbers[b as usize]),
        TypeForm::With(a, b) => TypeForm::With(numbers[a as usize], numbers[b as usize]),
        TypeForm::Sum(a, b) => TypeForm::Sum(numbers[a as usize], numbers[b as usize]),
        TypeForm::Arrow(a, b) => TypeForm::Arrow(numbers[a as usize], numbers[b as usize]),
        TypeForm::Bang(r, a) => TypeForm::Bang(r, numbers[a as usize]),
        TypeForm::Bag(a) => TypeForm::Bag(numbers[a as usize]),
    }
}

/// The number in the arena of each type, in order. It takes time by how many there are.
pub fn interned(alloc: Global, arena: &mut Arena, types: &Types) -> Result<Vec<u32>, NoMemory>
    ensures grows { Grows arena.old arena.new }
    ensures are { IfOk result (λ numbers. AreWritten types.now arena.new numbers.items) }
{
    let mut numbers = Vec::new(alloc);
    for i in 0..types.len() {
        // There are no more types than a u32 numbers.
        if i > u32::MAX as usize {
            return Err(NoMemory);
        }
        let form = placed(types.form(i as u32), &numbers);
        let number = arena.intern(form)?;
        if let Err(_) = numbers.push(number) {
            return Err(NoMemory);
        }
    }
    Ok(numbers)
}

/// The number in the arena of a type.
pub fn type_number(alloc: Global, arena: &mut Arena, ty: &Ty) -> Result<u32, NoMemory>
    ensures grows { Grows arena.old arena.new }
    ensures is { IfOk result (λ n. IsNumberOf arena.new n ty.now) }
{
    let (types, root) = ty.parts();
    let numbers = interned(alloc, arena, types)?;
    Ok(numbers[root as usize])
}
