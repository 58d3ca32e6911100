//! A whole program, over the tables of a signature.
ghost use Rattle.std.specs.Prelude.{◌≡◌, IfOk, IfErr, Ok};
ghost use Rattle.fz_ast.specs.Arena.{Grows};
ghost use Rattle.fz_ast.specs.Limits.{TermLimits};
ghost use Rattle.fz_ast.specs.Signature.{Signature};
ghost use Rattle.linear_types.specs.Inferred.{Inferred};
ghost use Rattle.linear_types.specs.Program.{context_of};
ghost use Rattle.linear_types.specs.Rule.{rule};
ghost use Rattle.sensitivity_check.specs.Answered.{IsChecked, IsFaultIn, IsFirstFault, HasBound};
ghost use Rattle.typing_rows.specs.Says.{IsFaultOf, Says};

use crate::amounts::{by_name, first_endless, greatest};
use crate::fault::CheckFault;
use crate::judge::Walk;
use crate::tables::tables_in_scope;
use crate::written::interned;
use fz_ast::{Arena, Sig, Term, TypeForm};
use fz_frac::Sens;
use linear_types::env::Env;
use std::alloc::Global;
use typing_rows::clause::{Judged, RowFault};

/// A program that was accepted: the tables' signature and the term, both as they were handed in, its greatest sensitivity
/// over the tables, in lowest terms, and its sensitivity to each table by name.
#[derive(Drop)]
pub struct Checked<'a> {
    pub sig: &'a Sig,
    pub term: &'a Term,
    pub sens: Sens,
    pub env: Env,
}

/// A term's type and sensitivities, the tables being the names in scope.
pub fn judged(alloc: Global, arena: &mut Arena, sig: &Sig, term: &Term) -> Result<Judged, RowFault>
    ensures says { Says arena.new result (rule (context_of sig.now) term.now) }
    ensures limits { TermLimits term.now }
{
    let (nodes, root) = term.parts();
    let scope = tables_in_scope(alloc, arena, sig)?;
    let written = interned(alloc, arena, nodes.types())?;
    let walk = Walk {
        alloc,
        nodes,
        written: &written,
    };
    walk.judge(arena, &scope, root)
}

/// The fault with its types.
pub fn with_types(arena: Arena, fault: RowFault) -> CheckFault
    ensures { (ts : Signature) (v : Inferred) → IsFaultOf arena fault v → IsFaultIn ts v result }
{
    match fault {
        RowFault::Unbound { span } => CheckFault::Unbound { span },
        RowFault::Mismatch {
            span,
            found,
            wanted,
        } => CheckFault::Mismatch {
            span,
            types: arena.into_types(),
            found,
            wanted,
        },
        RowFault::NotGround { span } => CheckFault::NotGround { span },
        RowFault::NotFlat { span } => CheckFault::NotFlat { span },
        RowFault::TooSensitive { span, name, r } => CheckFault::TooSensitive { span, name, r },
        RowFault::Range { span } => CheckFault::Range { span },
        RowFault::NoMemory => CheckFault::NoMemory,
    }
}

// What the program is, its type and sensitivities being these.
fn accepted<'a>(
    alloc: Global,
    arena: Arena,
    sig: &'a Sig,
    term: &'a Term,
    judged: Judged,
) -> Result<Checked<'a>, CheckFault>
    requires says { Says arena (Ok judged) (rule (context_of sig.now) term.now) }
    requires limits { TermLimits term.now }
    ensures checked { IfOk result (IsChecked sig.now term.now) }
    ensures fault { IfErr result (IsFirstFault sig.now term.now) }
    ensures bound { IfOk result (λ checked. HasBound sig.now term.now (checked.sens)) }
{
    if let Some(table) = first_endless(&judged.amounts, sig.len()) {
        return Err(CheckFault::Unbounded { table });
    }
    let TypeForm::Num = arena.form(judged.ty) else {
        return Err(CheckFault::NotNum {
            types: arena.into_types(),
            found: judged.ty,
        });
    };
    match by_name(alloc, sig, &judged.amounts) {
        Ok(env) => Ok(Checked {
            sig,
            term,
            sens: greatest(&judged.amounts),
            env,
        }),
        Err(_) => Err(CheckFault::NoMemory),
    }
}

/// Checks a program by the typing rules.
///
/// Types are kept once each and compared by their numbers, and none is walked over as a tree, so a type that is exponentially
/// large as a tree costs its nodes alone. The recursion goes down the term, which is at most 64 deep.
///
/// # Errors
///
/// The first fault in the order of the rules; `Unbounded` and then `NotNum` come last. `NoMemory` where memory ran out.
pub fn check<'a>(alloc: Global, sig: &'a Sig, term: &'a Term) -> Result<Checked<'a>, CheckFault>
    ensures checked { IfOk result (IsChecked sig.now term.now) }
    ensures fault { IfErr result (IsFirstFault sig.now term.now) }
    ensures bound { IfOk result (λ checked. HasBound sig.now term.now (checked.sens)) }
{
    let mut arena = Arena::new(alloc);
    match judged(alloc, &mut arena, sig, term) {
        Ok(judged) => accepted(alloc, arena, sig, term, judged),
        Err(fault) => Err(with_types(arena, fault)),
    }
}
