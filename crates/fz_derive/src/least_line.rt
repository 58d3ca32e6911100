//! A node's line in a least derivation.
ghost use Rattle.std.specs.Prelude.{◌≡◌, ◌<◌, ◌++◌, length, IfOk, MatchResult, None, Some, List};
ghost use Rattle.fz_ast.specs.Arena.{Grows};
ghost use Rattle.fz_ast.specs.Names.{name_of};
ghost use Rattle.fz_ast.specs.TermNodes.{FormLimits, IsKnown};
ghost use Rattle.fz_ast.specs.Terms.{Name as Bytes};
ghost use Rattle.fz_ast.specs.TypeNodes.{type_at};
ghost use Rattle.fz_ast.specs.Types.{Ty};
ghost use Rattle.derivation_rows.specs.Formed.{ArePlaced, form_row};
ghost use Rattle.derivation_lines.specs.Held.{lines_in};
ghost use Rattle.fz_derive.specs.Least.{said_of_each};
ghost use Rattle.derivation_lines.specs.Lines.{line_at};
ghost use Rattle.fz_derive.specs.Making.{IsMaking, IsOwn};
ghost use Rattle.derivation_rows.specs.Numbers.{Numbers as Wanted};
ghost use Rattle.derivation_rows.specs.Placed.{AreOne, number_of};
ghost use Rattle.fz_derive.specs.Putting.{names_in, said_above};
ghost use Rattle.derivation_lines.specs.Said.{says_of};
ghost use Rattle.derivation_rows.specs.Scoped.{context_in};
ghost use Rattle.fz_frac.specs.Sens.{distance_of};

use crate::sorted::Scope;
use derivation_lines::line::{Line, Said};
use derivation_rows::numbers::Numbers;
use derivation_rows::rows::{Places, View};
use fz_ast::{Arena, Form, Name, NoMemory, Nodes};
use fz_frac::Sens;
use std::alloc::{AllocError, Global};

/// Why a term has no least derivation.
#[derive(Clone, Copy, Debug, PartialEq, Eq)]
pub enum LeastFault {
    /// The rule of some node fails: a condition doesn't hold, or a number is out of range.
    Fails,
    /// Memory ran out.
    NoMemory,
}

impl From<AllocError> for LeastFault {
    ghost use Rattle.std.specs.Prelude.{◌≡◌};
    ghost use Rattle.fz_derive.specs.declared.least_line.LeastFault.TheVariants.{NoMemory};

    ghost from_gives = { λ _ e. e ≡ NoMemory };

    fn from(_error: AllocError) -> LeastFault {
        LeastFault::NoMemory
    }
}

impl From<NoMemory> for LeastFault {
    ghost use Rattle.std.specs.Prelude.{◌≡◌};
    ghost use Rattle.fz_derive.specs.declared.least_line.LeastFault.TheVariants.{NoMemory};

    ghost from_gives = { λ _ e. e ≡ NoMemory };

    fn from(_error: NoMemory) -> LeastFault {
        LeastFault::NoMemory
    }
}

// What is said of a name, unless it is at 0.
fn put_said(says: &mut Vec<Said>, name: Name, amount: Sens) -> Result<(), NoMemory>
    ensures { IfOk result (λ _. says_of says.new.items ≡ says_of says.old.items ++ said_above (name_of name) (distance_of amount)) }
{
    if amount.le(Sens::whole(0)) {
        return Ok(());
    }
    if let Err(_) = says.push(Said { name, amount }) {
        return Err(NoMemory);
    }
    Ok(())
}

// What a row says of each name that isn't at 0.
fn said_of_each(
    alloc: Global,
    names: &[Name],
    lines: &[Line],
    numbers: &Numbers,
) -> Result<Vec<Said>, LeastFault>
    ensures { (T : List Ty) (n : Wanted) → ((x : Bytes) → AreOne (number_of (lines_in T lines.now) numbers.now x) (n x))
        → MatchResult result (λ says. said_of_each (names_in names.now) n ≡ Some (says_of says.items))
        (λ fault. fault ≡ LeastFault.Fails → said_of_each (names_in names.now) n ≡ None) }
{
    let mut says = Vec::new(alloc);
    for name in names {
        let Ok(amount) = numbers.at(lines, name) else {
            return Err(LeastFault::Fails);
        };
        put_said(&mut says, *name, amount)?;
    }
    Ok(says)
}

/// What the least derivation is made of: the term's nodes, and the numbers in an arena of the types that are written in it.
#[derive(Clone, Copy)]
pub struct Making<'a> {
    pub alloc: Global,
    pub nodes: &'a Nodes,
    pub written: &'a [u32],
}

impl Making<'_> {
    /// The line of a node of this form, whose parts' lines stand at these places.
    pub fn own(
        &self,
        arena: &mut Arena,
        scope: &Scope,
        lines: &[Line],
        form: &Form,
        places: Places,
    ) -> Result<Line, LeastFault>
        requires making { IsMaking self.now.nodes.now arena.old self.now.written.now scope.now.bounds.items lines.now }
        requires known { IsKnown (length self.now.nodes.now.types) (length self.now.nodes.now.terms) form.now }
        requires limits { FormLimits form.now }
        requires placed { ArePlaced (length lines.now) form.now places }
        ensures grows { Grows arena.old arena.new }
        ensures is { let T = arena.old in let L = lines_in T lines.now in let Γ = context_in T scope.now.bounds.items in
            IsOwn Γ (form_row (type_at self.now.nodes.now.types) Γ form.now (line_at L places.first) (line_at L places.second)
            (line_at L places.third)) arena.new result }
    {
        let view = View {
            nodes: self.nodes,
            arena,
            written: self.written,
            lines,
        };
        let Some(row) = view.row(&scope.bounds, form, places) else {
            return Err(LeastFault::Fails);
        };
        let says = said_of_each(self.alloc, &scope.names, lines, &row.numbers)?;
        let ty = row.shape.number(arena)?;
        Ok(Line { ty, says })
    }
}
