//! The names in scope.
ghost use Rattle.std.specs.Prelude.{◌≡◌, ◌<◌, ◌∷◌, List, length, MatchOption, IfOk, IfSome};
ghost use Rattle.fz_ast.specs.Names.{name_of};
ghost use Rattle.fz_ast.specs.Types.{Ty};
ghost use Rattle.linear_types.specs.Rule.{var_rule};
ghost use Rattle.sensitivity_check.specs.Scope.{IsInnermost, HasKnownTypes, IsUnbound, context_in};
ghost use Rattle.typing_rows.specs.Says.{Says};

use fz_ast::{Name, NoMemory, Span};
use linear_types::places::used_at;
use std::alloc::Global;
use typing_rows::clause::{Judged, RowFault};

/// A name in scope, and the number of its type in the arena.
#[derive(Clone, Copy)]
pub struct Bound {
    pub name: Name,
    pub ty: u32,
}

/// The place of the innermost name that is this one, the innermost of all standing first.
pub fn place_of(scope: &[Bound], name: &Name) -> Option<usize>
    ensures is { MatchOption result (IsUnbound (name_of name.now) scope.now) (λ i. IsInnermost (name_of name.now) scope.now i) }
    ensures within { IfSome result (λ i. i < length scope.now) }
{
    for i in 0..scope.len() {
        if scope[i].name.as_bytes() == name.as_bytes() {
            return Some(i);
        }
    }
    None
}

/// The scope inside one more name.
pub fn under(alloc: Global, scope: &[Bound], bound: Bound) -> Result<Vec<Bound>, NoMemory>
    ensures { IfOk result (λ inner. inner.items ≡ bound ∷ scope.now) }
{
    let mut inner = Vec::new(alloc);
    if let Err(_) = inner.push(bound) {
        return Err(NoMemory);
    }
    for outer in scope {
        if let Err(_) = inner.push(*outer) {
            return Err(NoMemory);
        }
    }
    Ok(inner)
}

/// A name's type, at 1 in its own place.
pub fn look(alloc: Global, s: Span, scope: &[Bound], name: Name) -> Result<Judged, RowFault>
    ensures { (T : List Ty) → HasKnownTypes T scope.now → Says T result (var_rule s (context_in T scope.now) (name_of name)) }
{
    let Some(i) = place_of(scope, &name) else {
        return Err(RowFault::Unbound { span: s });
    };
    match used_at(alloc, i) {
        Ok(amounts) => Ok(Judged {
            ty: scope[i].ty,
            amounts,
        }),
        Err(_) => Err(RowFault::NoMemory),
    }
}
