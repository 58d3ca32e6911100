//! Judges a derivation: the greatest of what its first line says, or the least line at fault.
ghost use Rattle.std.specs.Prelude.{◌≡◌, ◌≤◌, ◌<◌, length, min, IfOk, IfErr, None};
ghost use Rattle.fz_ast.specs.TermNodes.{term_at};
ghost use Rattle.fz_frac.specs.Distance.{Fin};
ghost use Rattle.fz_frac.specs.Sens.{distance_of};
ghost use Rattle.fz_derive.specs.Bound.{HasBound};
ghost use Rattle.fz_derive.specs.Answered.{ExplainsJudge, ExplainsPlace, IsBoundedBy};
ghost use Rattle.derivation_lines.specs.Held.{line_in};
ghost use Rattle.fz_derive.specs.Judged.{IsJudged, greatest_said};
ghost use Rattle.derivation_lines.specs.Lines.{line_at};
ghost use Rattle.derivation_rows.specs.Nodes.{nodes_of};
ghost use Rattle.derivation_lines.specs.Said.{says_of};
ghost use Rattle.derivation_rows.specs.Scoped.{HasKnownTypes};
ghost use Rattle.derivation_rows.specs.Viewed.{lines_seen};
ghost use Rattle.fz_derive.specs.Walked.{AreSizes, most_counted};
ghost use Rattle.fz_derive.specs.Walking.{IsWalk, names_seen, nodes_seen, program_fault};
ghost use Rattle.derivation_lines.specs.Written.{longest};

use crate::sizes::sizes;
use crate::tables::tables_in_scope;
use crate::walk::Walk;
use derivation_lines::interned::interned;
pub use derivation_lines::line::JudgeFault;
use derivation_lines::line::{Line, Said};
use derivation_lines::lines::read_lines;
use derivation_rows::rows::View;
use derivation_rows::scope::Bound;
use derivation_rows::shape::is_number;
use fz_ast::{Arena, Nodes, Sig, Term};
use fz_frac::{Frac, Sens};
use std::alloc::Global;

// The greatest of what is said, and 0 where nothing is.
fn greatest(says: &[Said]) -> Sens
    ensures { distance_of result ≡ greatest_said (says_of says.now) }
{
    let mut greatest = Sens::whole(0);
    for i in (0..says.len()).rev() {
        greatest = says[i].amount.max(greatest);
    }
    greatest
}

// The greatest of what a line says, which must be of a number and at inf in no table.
fn bounded(arena: &Arena, line: &Line) -> Option<Frac>
    requires { line.now.ty < length arena.now }
    ensures { IsBoundedBy result (line_in arena.now line.now) }
{
    if !is_number(arena, line.ty) {
        return None;
    }
    match greatest(&line.says) {
        Sens::Finite(r) => Some(r),
        Sens::Inf => None,
    }
}

// A program whose lines are seen: the names in scope are the tables.
fn verdict(walk: &Walk, scope: &[Bound], root: u32) -> Result<Frac, JudgeFault>
    requires walk { IsWalk walk.now }
    requires scope { HasKnownTypes walk.now.view.arena.now scope.now }
    requires known { root < length walk.now.sizes.now }
    requires some { 0 < length walk.now.view.lines.now }
    requires fits { nodes_seen walk.now root ≤ length walk.now.view.lines.now }
    ensures ok { IfOk result (λ r. (program_fault walk.now (names_seen walk.now scope.now) root ≡ None)
        × (Fin r.p r.q ≡ greatest_said (line_at (lines_seen walk.now.view) 0).says)) }
    ensures fault { IfErr result (ExplainsPlace (program_fault walk.now (names_seen walk.now scope.now) root)) }
{
    match bounded(walk.view.arena, &walk.view.lines[0]) {
        Some(r) => match walk.fault_at(scope, root, 0)? {
            Some(at) => Err(JudgeFault::Line { at }),
            None => Ok(r),
        },
        None => Err(JudgeFault::Line { at: 0 }),
    }
}

// The number of lines that a term is to have, as far as they are counted.
fn count(sizes: &[u32], nodes: &Nodes, root: u32) -> usize
    requires known { root < length sizes.now }
    requires sizes { AreSizes nodes.now.terms sizes.now }
    ensures { result ≡ min (nodes_of (term_at nodes.now.terms root)) most_counted }
{
    let _ = nodes;
    sizes[root as usize] as usize
}

// A program of which the types go into this arena.
fn judge_in(
    alloc: Global,
    arena: &mut Arena,
    sig: &Sig,
    term: &Term,
    bytes: &[u8],
) -> Result<Frac, JudgeFault>
    requires { length bytes.now ≤ longest }
    ensures ok { IfOk result (λ r. IsJudged sig.now term.now bytes.now (Fin r.p r.q)) }
    ensures bound { IfOk result (λ r. HasBound sig.now term.now (Fin r.p r.q)) }
    ensures fault { IfErr result (ExplainsJudge sig.now term.now bytes.now) }
{
    let (nodes, root) = term.parts();
    let scope = tables_in_scope(alloc, arena, sig)?;
    let written = interned(alloc, arena, nodes.types())?;
    let sizes = sizes(alloc, nodes, root)?;
    let lines = read_lines(alloc, arena, bytes, count(&sizes, nodes, root))?;
    let view = View {
        nodes,
        arena,
        written: &written,
        lines: &lines,
    };
    let walk = Walk {
        alloc,
        view,
        sizes: &sizes,
    };
    verdict(&walk, &scope, root)
}

/// Judges bytes as a derivation of a program over these tables: a line for each node of its term, in preorder. It answers the
/// greatest number of the first line.
///
/// # Errors
///
/// `Line` at the least line, from 0, that is missing, isn't of the form or is too many, and with none such at the least node
/// whose rule fails over its parts' lines. `NoMemory` where memory ran out.
pub fn judge(alloc: Global, sig: &Sig, term: &Term, bytes: &[u8]) -> Result<Frac, JudgeFault>
    requires { length bytes.now ≤ longest }
    ensures ok { IfOk result (λ r. IsJudged sig.now term.now bytes.now (Fin r.p r.q)) }
    ensures bound { IfOk result (λ r. HasBound sig.now term.now (Fin r.p r.q)) }
    ensures fault { IfErr result (ExplainsJudge sig.now term.now bytes.now) }
{
    let mut arena = Arena::new(alloc);
    judge_in(alloc, &mut arena, sig, term, bytes)
}
