//! The least derivation of a term, from its parts' upwards.
#![tactic(none)]

ghost use Rattle.std.specs.Prelude.{◌≡◌, ◌<◌, length, slice_index, IfErr, IfOk, None, Some};
ghost use Rattle.fz_ast.specs.Arena.{Grows};
ghost use Rattle.fz_ast.specs.Limits.{TermLimits};
ghost use Rattle.fz_ast.specs.Names.{name_of};
ghost use Rattle.fz_ast.specs.TermNodes.{IsKnown, term_at};
ghost use Rattle.fz_ast.specs.TypeNodes.{type_at};
ghost use Rattle.fz_ast.specs.declared.span.Span.{Span};
ghost use Rattle.fz_ast.specs.declared.term.Arrow.{Arrow};
ghost use Rattle.fz_ast.specs.declared.term.Binary.{Binary};
ghost use Rattle.fz_ast.specs.declared.term.Form.{Form};
ghost use Rattle.fz_ast.specs.declared.term.Form.TheVariants.{Binary as Op2, Let, LetBang, LetPair, If, Case, Lambda};
ghost use Rattle.term_meanings.specs.Scopes.{Under};
ghost use Rattle.derivation_lines.specs.Held.{AreHeld, lines_in};
ghost use Rattle.fz_derive.specs.Judged.{names_of};
ghost use Rattle.fz_derive.specs.Law.{LeastIsDerived};
ghost use Rattle.fz_derive.specs.Least.{Derived, least, lines_of};
ghost use Rattle.fz_derive.specs.Making.{Adds, AddsParts, IsMaking, IsOnePart, IsUnderBang};
ghost use Rattle.derivation_rows.specs.Scoped.{context_in};
ghost use Rattle.fz_derive.specs.declared.least_line.LeastFault.TheVariants.{Fails};

use crate::least_line::{LeastFault, Making};
use crate::sorted::Scope;
use crate::tables::tables_in_scope;
use derivation_lines::interned::interned;
use derivation_lines::line::Line;
use derivation_rows::rows::Places;
use derivation_rows::scope::Bound;
use derivation_rows::shape::{sum_parts, tensor_parts};
use fz_ast::{Arena, Form, Name, Sig, Term, TypeForm};
use std::alloc::Global;

// The part of `![r] A`, and `None` for any other type.
#[tactic(auto)]
fn under_bang(arena: &Arena, t: u32) -> Option<u32>
    requires { t < length arena.now }
    ensures { IsUnderBang arena.now result (type_at arena.now t) }
{
    match arena.form(t) {
        TypeForm::Bang(_, a) => Some(a),
        _ => None,
    }
}

// Where one part's lines begin.
#[tactic(auto)]
fn one_place(first: usize) -> Places
    ensures { result ≡ record { first = first; second = first; third = first } }
{
    Places {
        first,
        second: first,
        third: first,
    }
}

// Where two parts' lines begin.
#[tactic(auto)]
fn two_places(first: usize, second: usize) -> Places
    ensures { result ≡ record { first = first; second = second; third = first } }
{
    Places {
        first,
        second,
        third: first,
    }
}

// The number in the arena of type number `t` of those that are written.
#[tactic(auto)]
fn written_number(written: &[u32], t: u32) -> u32
    requires { t < length written.now }
    ensures { result ≡ slice_index written.now t }
{
    written[t as usize]
}

impl Making<'_> {
    // A term inside one more name.
    #[cycle(making)]
    fn under(
        &self,
        arena: &mut Arena,
        scope: &Scope,
        lines: &mut Vec<Line>,
        bound: Bound,
        i: u32,
    ) -> Result<(), LeastFault>
        requires known { i < length self.now.nodes.now.terms }
        requires bound { bound.ty < length arena.old }
        requires making { IsMaking self.now.nodes.now arena.old self.now.written.now scope.now.bounds.items lines.old.items }
        ensures grows { Grows arena.old arena.new }
        ensures adds { Adds (Under (name_of bound.name) (type_at arena.old bound.ty) (context_in arena.old scope.now.bounds.items)) (term_at self.now.nodes.now.terms i)
            arena.old lines.old.items arena.new lines.new.items result }
    {
        let inner = scope.inside(self.alloc, bound)?;
        self.node(arena, &inner, lines, i)
    }

    // A form of one part.
    #[cycle(making)]
    fn one(
        &self,
        arena: &mut Arena,
        scope: &Scope,
        lines: &mut Vec<Line>,
        e: u32,
    ) -> Result<Places, LeastFault>
        requires e_known { e < length self.now.nodes.now.terms }
        requires making { IsMaking self.now.nodes.now arena.old self.now.written.now scope.now.bounds.items lines.old.items }
        ensures grows { Grows arena.old arena.new }
        ensures adds { (form : Form) → IsOnePart form e → AddsParts self.now.nodes.now (context_in arena.old scope.now.bounds.items) form arena.old lines.old.items arena.new lines.new.items result }
    {
        let first = lines.len();
        self.node(arena, scope, lines, e)?;
        Ok(one_place(first))
    }

    // A form of two parts.
    #[cycle(making)]
    fn two(
        &self,
        arena: &mut Arena,
        scope: &Scope,
        lines: &mut Vec<Line>,
        a: u32,
        b: u32,
    ) -> Result<Places, LeastFault>
        requires a_known { a < length self.now.nodes.now.terms }
        requires b_known { b < length self.now.nodes.now.terms }
        requires making { IsMaking self.now.nodes.now arena.old self.now.written.now scope.now.bounds.items lines.old.items }
        ensures grows { Grows arena.old arena.new }
        ensures adds { (form : Binary) → AddsParts self.now.nodes.now (context_in arena.old scope.now.bounds.items) (Op2 form a b) arena.old lines.old.items arena.new lines.new.items result }
    {
        let first = lines.len();
        self.node(arena, scope, lines, a)?;
        let second = lines.len();
        self.node(arena, scope, lines, b)?;
        Ok(two_places(first, second))
    }

    // let x = e in b
    #[cycle(making)]
    fn let_name(
        &self,
        arena: &mut Arena,
        scope: &Scope,
        lines: &mut Vec<Line>,
        x: Name,
        e: u32,
        b: u32,
    ) -> Result<Places, LeastFault>
        requires e_known { e < length self.now.nodes.now.terms }
        requires b_known { b < length self.now.nodes.now.terms }
        requires making { IsMaking self.now.nodes.now arena.old self.now.written.now scope.now.bounds.items lines.old.items }
        ensures grows { Grows arena.old arena.new }
        ensures adds { AddsParts self.now.nodes.now (context_in arena.old scope.now.bounds.items) (Let x e b) arena.old lines.old.items arena.new lines.new.items result }
    {
        let first = lines.len();
        self.node(arena, scope, lines, e)?;
        let ty = lines[first].ty;
        let second = lines.len();
        self.under(arena, scope, lines, Bound { name: x, ty }, b)?;
        Ok(two_places(first, second))
    }

    // let !x = e in b
    #[cycle(making)]
    fn let_bang(
        &self,
        arena: &mut Arena,
        scope: &Scope,
        lines: &mut Vec<Line>,
        x: Name,
        e: u32,
        b: u32,
    ) -> Result<Places, LeastFault>
        requires e_known { e < length self.now.nodes.now.terms }
        requires b_known { b < length self.now.nodes.now.terms }
        requires making { IsMaking self.now.nodes.now arena.old self.now.written.now scope.now.bounds.items lines.old.items }
        ensures grows { Grows arena.old arena.new }
        ensures adds { AddsParts self.now.nodes.now (context_in arena.old scope.now.bounds.items) (LetBang x e b) arena.old lines.old.items arena.new lines.new.items result }
    {
        let first = lines.len();
        self.node(arena, scope, lines, e)?;
        let Some(ty) = under_bang(arena, lines[first].ty) else {
            return Err(LeastFault::Fails);
        };
        let second = lines.len();
        self.under(arena, scope, lines, Bound { name: x, ty }, b)?;
        Ok(two_places(first, second))
    }

    // let (x, y) = e in b
    #[cycle(making)]
    fn let_pair(
        &self,
        arena: &mut Arena,
        scope: &Scope,
        lines: &mut Vec<Line>,
        x: Name,
        y: Name,
        e: u32,
        b: u32,
    ) -> Result<Places, LeastFault>
        requires e_known { e < length self.now.nodes.now.terms }
        requires b_known { b < length self.now.nodes.now.terms }
        requires making { IsMaking self.now.nodes.now arena.old self.now.written.now scope.now.bounds.items lines.old.items }
        ensures grows { Grows arena.old arena.new }
        ensures adds { AddsParts self.now.nodes.now (context_in arena.old scope.now.bounds.items) (LetPair x y e b) arena.old lines.old.items arena.new lines.new.items result }
    {
        let first = lines.len();
        self.node(arena, scope, lines, e)?;
        let Some((left, right)) = tensor_parts(arena, lines[first].ty) else {
            return Err(LeastFault::Fails);
        };
        let outer = scope.inside(self.alloc, Bound { name: x, ty: left })?;
        let second = lines.len();
        self.under(arena, &outer, lines, Bound { name: y, ty: right }, b)?;
        Ok(two_places(first, second))
    }

    // if e then a else b
    #[cycle(making)]
    fn choice(
        &self,
        arena: &mut Arena,
        scope: &Scope,
        lines: &mut Vec<Line>,
        e: u32,
        a: u32,
        b: u32,
    ) -> Result<Places, LeastFault>
        requires e_known { e < length self.now.nodes.now.terms }
        requires a_known { a < length self.now.nodes.now.terms }
        requires b_known { b < length self.now.nodes.now.terms }
        requires making { IsMaking self.now.nodes.now arena.old self.now.written.now scope.now.bounds.items lines.old.items }
        ensures grows { Grows arena.old arena.new }
        ensures adds { AddsParts self.now.nodes.now (context_in arena.old scope.now.bounds.items) (If e a b) arena.old lines.old.items arena.new lines.new.items result }
    {
        let first = lines.len();
        self.node(arena, scope, lines, e)?;
        let second = lines.len();
        self.node(arena, scope, lines, a)?;
        let third = lines.len();
        self.node(arena, scope, lines, b)?;
        Ok(Places {
            first,
            second,
            third,
        })
    }

    // case e of inl x => a | inr y => b
    #[cycle(making)]
    fn cases(
        &self,
        arena: &mut Arena,
        scope: &Scope,
        lines: &mut Vec<Line>,
        e: u32,
        x: Name,
        a: u32,
        y: Name,
        b: u32,
    ) -> Result<Places, LeastFault>
        requires e_known { e < length self.now.nodes.now.terms }
        requires a_known { a < length self.now.nodes.now.terms }
        requires b_known { b < length self.now.nodes.now.terms }
        requires making { IsMaking self.now.nodes.now arena.old self.now.written.now scope.now.bounds.items lines.old.items }
        ensures grows { Grows arena.old arena.new }
        ensures adds { AddsParts self.now.nodes.now (context_in arena.old scope.now.bounds.items) (Case e x a y b) arena.old lines.old.items arena.new lines.new.items result }
    {
        let first = lines.len();
        self.node(arena, scope, lines, e)?;
        let Some((left, right)) = sum_parts(arena, lines[first].ty) else {
            return Err(LeastFault::Fails);
        };
        let second = lines.len();
        self.under(arena, scope, lines, Bound { name: x, ty: left }, a)?;
        let third = lines.len();
        self.under(arena, scope, lines, Bound { name: y, ty: right }, b)?;
        Ok(Places {
            first,
            second,
            third,
        })
    }

    // fun (x : t) => e, fn (x : t) => e
    #[cycle(making)]
    fn lambda(
        &self,
        arena: &mut Arena,
        scope: &Scope,
        lines: &mut Vec<Line>,
        x: Name,
        t: u32,
        e: u32,
    ) -> Result<Places, LeastFault>
        requires e_known { e < length self.now.nodes.now.terms }
        requires t_known { t < length self.now.nodes.now.types }
        requires making { IsMaking self.now.nodes.now arena.old self.now.written.now scope.now.bounds.items lines.old.items }
        ensures grows { Grows arena.old arena.new }
        ensures adds { (form : Arrow) (u : Span) → AddsParts self.now.nodes.now (context_in arena.old scope.now.bounds.items) (Lambda form x u t e) arena.old lines.old.items arena.new lines.new.items result }
    {
        let first = lines.len();
        let ty = written_number(self.written, t);
        self.under(arena, scope, lines, Bound { name: x, ty }, e)?;
        Ok(one_place(first))
    }

    // The least derivations of the parts of node `i`, which is of this form, behind the lines that are there.
    #[cycle(making)]
    fn parts(
        &self,
        arena: &mut Arena,
        scope: &Scope,
        lines: &mut Vec<Line>,
        form: &Form,
        i: u32,
    ) -> Result<Places, LeastFault>
        requires within { i < length self.now.nodes.now.terms }
        requires known { IsKnown (length self.now.nodes.now.types) i form.now }
        requires making { IsMaking self.now.nodes.now arena.old self.now.written.now scope.now.bounds.items lines.old.items }
        ensures grows { Grows arena.old arena.new }
        ensures adds { AddsParts self.now.nodes.now (context_in arena.old scope.now.bounds.items) form.now arena.old lines.old.items arena.new lines.new.items result }
    {
        match *form {
            Form::Var(_) | Form::Num(_) | Form::Text(_) | Form::Unit => Ok(one_place(lines.len())),
            Form::Unary(_, e)
            | Form::Times(_, e)
            | Form::Ranged(_, _, _, e)
            | Form::Inject(_, _, _, e)
            | Form::Bang(_, e) => self.one(arena, scope, lines, e),
            Form::Binary(_, a, b) => self.two(arena, scope, lines, a, b),
            Form::Let(x, e, b) => self.let_name(arena, scope, lines, x, e, b),
            Form::LetBang(x, e, b) => self.let_bang(arena, scope, lines, x, e, b),
            Form::LetPair(x, y, e, b) => self.let_pair(arena, scope, lines, x, y, e, b),
            Form::If(e, a, b) => self.choice(arena, scope, lines, e, a, b),
            Form::Case(e, x, a, y, b) => self.cases(arena, scope, lines, e, x, a, y, b),
            Form::Lambda(_, x, _, t, e) => self.lambda(arena, scope, lines, x, t, e),
        }
    }

    /// Puts the least derivation of node `i` behind the lines that are there.
    #[cycle(making)]
    pub fn node(
        &self,
        arena: &mut Arena,
        scope: &Scope,
        lines: &mut Vec<Line>,
        i: u32,
    ) -> Result<(), LeastFault>
        requires known { i < length self.now.nodes.now.terms }
        requires making { IsMaking self.now.nodes.now arena.old self.now.written.now scope.now.bounds.items lines.old.items }
        ensures grows { Grows arena.old arena.new }
        ensures adds { Adds (context_in arena.old scope.now.bounds.items) (term_at self.now.nodes.now.terms i) arena.old lines.old.items arena.new lines.new.items result }
    {
        let form = self.nodes.node(i).form;
        let at = lines.len();
        // Its own line comes first, but is made of its parts' lines.
        let says = Vec::new(self.alloc);
        if let Err(_) = lines.push(Line { ty: 0, says }) {
            return Err(LeastFault::NoMemory);
        }
        let places = self.parts(arena, scope, lines, &form, i)?;
        let own = self.own(arena, scope, lines, &form, places)?;
        lines[at] = own;
        Ok(())
    }
}

// The least derivation of a program, of which the types go into this arena.
#[tactic(auto)]
fn least_in(
    alloc: Global,
    arena: &mut Arena,
    sig: &Sig,
    term: &Term,
) -> Result<Vec<Line>, LeastFault>
    ensures held { IfOk result (λ lines. AreHeld arena.new lines.items) }
    ensures is { IfOk result (λ lines. (d : Derived) × (least (names_of sig.now) term.now ≡ Some d) × (lines_in arena.new lines.items ≡ lines_of d)) }
    ensures fails { IfErr result (λ fault. fault ≡ Fails → least (names_of sig.now) term.now ≡ None) }
    ensures limits { TermLimits term.now }
{
    let (nodes, root) = term.parts();
    // A node's line is at some type before its own is found.
    arena.intern(TypeForm::Num)?;
    let tables = tables_in_scope(alloc, arena, sig)?;
    let written = interned(alloc, arena, nodes.types())?;
    let scope = Scope::of(alloc, tables)?;
    let making = Making {
        alloc,
        nodes,
        written: &written,
    };
    let mut lines = Vec::new(alloc);
    making.node(arena, &scope, &mut lines, root)?;
    Ok(lines)
}

/// The least derivation of a program over these tables, and the arena of its lines' types.
///
/// # Errors
///
/// `Fails` where it has none, and `NoMemory` where memory ran out.
#[tactic(auto)]
pub fn least(alloc: Global, sig: &Sig, term: &Term) -> Result<(Arena, Vec<Line>), LeastFault>
    ensures held { IfOk result (λ made. AreHeld made.0 made.1.items) }
    ensures is { IfOk result (λ made. (d : Derived) × (least (names_of sig.now) term.now ≡ Some d) × (lines_in made.0 made.1.items ≡ lines_of d)) }
    ensures fails { IfErr result (λ fault. fault ≡ Fails → least (names_of sig.now) term.now ≡ None) }
    ensures limits { TermLimits term.now }
{
    let mut arena = Arena::new(alloc);
    let lines = least_in(alloc, &mut arena, sig, term)?;
    Ok((arena, lines))
}

/// The least derivation of a term is a derivation.
#[tactic(auto)]
pub fn the_least_is_derived()
    ensures { LeastIsDerived }
{}
