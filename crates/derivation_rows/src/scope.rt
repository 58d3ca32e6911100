//! The names in scope.
ghost use Rattle.std.specs.Prelude.{◌≡◌, ◌<◌, ◌∷◌, List, length, IfOk, IfSome, Option};
ghost use Rattle.fz_ast.specs.Names.{name_of};
ghost use Rattle.fz_ast.specs.Types.{Ty};
ghost use Rattle.fz_frac.specs.Distance.{Distance};
ghost use Rattle.fz_frac.specs.Sens.{distance_of};
ghost use Rattle.derivation_rows.specs.Faults.{are_in_scope, suffices, suffices_at};
ghost use Rattle.derivation_lines.specs.Held.{lines_in};
ghost use Rattle.derivation_lines.specs.Lines.{Line as Says, amount_in};
ghost use Rattle.derivation_rows.specs.Placed.{IsNumber, number_of};
ghost use Rattle.derivation_rows.specs.Rows.{type_in, var_row};
ghost use Rattle.derivation_rows.specs.Ruled.{IsRow};
ghost use Rattle.derivation_lines.specs.Said.{says_of};
ghost use Rattle.derivation_rows.specs.Scoped.{HasKnownTypes, IsTypeNumber, context_in};

use crate::numbers::{Numbers, is_same};
use crate::row::{Row, known};
use derivation_lines::line::{Line, Said};
use fz_ast::{Name, NoMemory};
use fz_frac::{Range, Sens};
use std::alloc::Global;

/// A name in scope, and the number of its type in the arena.
#[derive(Clone, Copy)]
pub struct Bound {
    pub name: Name,
    pub ty: u32,
}

/// The type of the innermost name that is this one, the innermost of all standing first.
pub fn type_in(scope: &[Bound], name: &Name) -> Option<u32>
    ensures is { (T : List Ty) → IsTypeNumber T result (type_in (context_in T scope.now) (name_of name.now)) }
    ensures known { (T : List Ty) → HasKnownTypes T scope.now → IfSome result (λ n. n < length T) }
{
    for bound in scope {
        if is_same(&bound.name, name) {
            return Some(bound.ty);
        }
    }
    None
}

/// The scope inside one more name.
pub fn under(alloc: Global, scope: &[Bound], bound: Bound) -> Result<Vec<Bound>, NoMemory>
    ensures { IfOk result (λ inner. inner.items ≡ bound ∷ scope.now) }
{
    let mut inner = Vec::new(alloc);
    if let Err(_) = inner.push(bound) {
        return Err(NoMemory);
    }
    if let Err(_) = inner.extend_from_slice(scope) {
        return Err(NoMemory);
    }
    Ok(inner)
}

/// A name, which must be in scope.
pub fn look(scope: &[Bound], name: &Name) -> Option<Row>
    ensures { (T : List Ty) (L : List Says) → HasKnownTypes T scope.now
        → IsRow T L result (var_row (name_of name.now) (type_in (context_in T scope.now) (name_of name.now))) }
{
    match type_in(scope, name) {
        Some(t) => known(t, Numbers::One(*name)),
        None => None,
    }
}

/// Whether each name that is said is in scope.
pub fn are_in_scope(scope: &[Bound], says: &[Said]) -> bool
    ensures { (T : List Ty) → result ≡ are_in_scope (context_in T scope.now) (says_of says.now) }
{
    for said in says {
        if let None = type_in(scope, &said.name) {
            return false;
        }
    }
    true
}

// Whether what is said is at least the rule's number, which is in range.
fn suffices(number: Result<Sens, Range>, said: Sens) -> bool
    ensures { (o : Option Distance) → IsNumber number o → result ≡ suffices o (distance_of said) }
{
    match number {
        Ok(number) => number.le(said),
        Err(_) => false,
    }
}

/// Whether a line says at least the rule's number at each name in scope.
pub fn suffices_at(scope: &[Bound], lines: &[Line], numbers: &Numbers, line: &Line) -> bool
    ensures { (T U : List Ty) → result
        ≡ suffices_at (context_in T scope.now) (number_of (lines_in U lines.now) numbers.now) (amount_in (says_of line.now.says.items)) }
{
    for bound in scope {
        let number = numbers.at(lines, &bound.name);
        if !suffices(number, line.amount(&bound.name)) {
            return false;
        }
    }
    true
}
