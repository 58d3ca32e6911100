//! The walk over a term's nodes: its type and sensitivities, or its first fault.
#![tactic(none)]

ghost use Rattle.std.specs.Prelude.{◌≡◌, ◌<◌, length, slice_index};
ghost use Rattle.fz_ast.specs.Arena.{Grows};
ghost use Rattle.fz_ast.specs.Limits.{IsBang, IsNumber};
ghost use Rattle.fz_ast.specs.Names.{name_of};
ghost use Rattle.fz_ast.specs.TermNodes.{term_at};
ghost use Rattle.fz_ast.specs.Terms.{span_of};
ghost use Rattle.fz_ast.specs.TypeNodes.{type_at};
ghost use Rattle.fz_ast.specs.declared.span.Span.{Span};
ghost use Rattle.fz_ast.specs.declared.term.Form.TheVariants.{Unary as Op, Binary as Op2, Times, Ranged as Bounded, Inject, Bang};
ghost use Rattle.fz_ast.specs.declared.term.Form.TheVariants.{Let, LetBang, LetPair, If, Case, Lambda};
ghost use Rattle.fz_frac.specs.Sens.{distance_of};
ghost use Rattle.linear_types.specs.Rule.{rule};
ghost use Rattle.linear_types.specs.Typing.{Under};
ghost use Rattle.sensitivity_check.specs.Judging.{IsReady, SayTwo, node_term};
ghost use Rattle.sensitivity_check.specs.Scope.{context_in};
ghost use Rattle.typing_rows.specs.Says.{Says};

use crate::groups::{binary, inject, lambda, ranged, unary};
use crate::scope::{Bound, look, under};
use fz_ast::{Arena, Arrow, Binary, Form, Name, Nodes, Ranged, Side, Span, TypeForm, Unary};
use fz_frac::Sens;
use std::alloc::Global;
use typing_rows::Wanted;
use typing_rows::branches::{branches, choice};
use typing_rows::clause::{Judged, RowFault};
use typing_rows::functions::{bang, let_bang, let_name};
use typing_rows::numbers::{number, text, times, unit};
use typing_rows::products::let_pair;

/// The terms to be judged, and the numbers in the arena of the types written in them.
#[derive(Clone, Copy)]
pub struct Walk<'a> {
    pub alloc: Global,
    pub nodes: &'a Nodes,
    pub written: &'a [u32],
}

/// Two parts that were judged.
#[derive(Drop)]
pub struct Two {
    pub first: Judged,
    pub second: Judged,
}

impl Walk<'_> {
    #[tactic(auto)]
    fn span(&self, i: u32) -> Span
        requires { i < length self.now.nodes.now.terms }
        ensures { result ≡ span_of (term_at self.now.nodes.now.terms i) }
    {
        self.nodes.node(i).span
    }

    // The number in the arena of the type written as number `t`.
    #[tactic(auto)]
    fn arena_number(&self, t: u32) -> u32
        requires { t < length self.now.written.now }
        ensures { result ≡ slice_index self.now.written.now t }
    {
        self.written[t as usize]
    }

    // Two parts, the first one first.
    #[cycle(judging)]
    fn judge_two(&self, arena: &mut Arena, scope: &[Bound], a: u32, b: u32) -> Result<Two, RowFault>
        requires a_known { a < length self.now.nodes.now.terms }
        requires b_known { b < length self.now.nodes.now.terms }
        requires ready { IsReady self.now.nodes.now arena.old self.now.written.now scope.now }
        ensures grows { Grows arena.old arena.new }
        ensures says { SayTwo arena.new result (rule (context_in arena.old scope.now) (term_at self.now.nodes.now.terms a))
            (rule (context_in arena.old scope.now) (term_at self.now.nodes.now.terms b)) }
    {
        let first = self.judge(arena, scope, a)?;
        let second = self.judge(arena, scope, b)?;
        Ok(Two { first, second })
    }

    // A term inside one more name.
    #[cycle(judging)]
    fn judge_under(
        &self,
        arena: &mut Arena,
        scope: &[Bound],
        bound: Bound,
        i: u32,
    ) -> Result<Judged, RowFault>
        requires known { i < length self.now.nodes.now.terms }
        requires bound { bound.ty < length arena.old }
        requires ready { IsReady self.now.nodes.now arena.old self.now.written.now scope.now }
        ensures grows { Grows arena.old arena.new }
        ensures says { Says arena.new result (rule (Under (name_of bound.name) (type_at arena.old bound.ty) (context_in arena.old scope.now))
            (term_at self.now.nodes.now.terms i)) }
    {
        let inner = under(self.alloc, scope, bound)?;
        self.judge(arena, &inner, i)
    }

    // A form of one part.
    #[cycle(judging)]
    fn judge_unary(
        &self,
        arena: &mut Arena,
        scope: &[Bound],
        form: Unary,
        e: u32,
    ) -> Result<Judged, RowFault>
        requires e_known { e < length self.now.nodes.now.terms }
        requires ready { IsReady self.now.nodes.now arena.old self.now.written.now scope.now }
        ensures grows { Grows arena.old arena.new }
        ensures says { (s : Span) → Says arena.new result (rule (context_in arena.old scope.now) (node_term self.now.nodes.now s (Op form e))) }
    {
        let o = self.judge(arena, scope, e)?;
        unary(arena, form, self.span(e), o)
    }

    // A form of two parts.
    #[cycle(judging)]
    fn judge_binary(
        &self,
        arena: &mut Arena,
        scope: &[Bound],
        s: Span,
        form: Binary,
        a: u32,
        b: u32,
    ) -> Result<Judged, RowFault>
        requires a_known { a < length self.now.nodes.now.terms }
        requires b_known { b < length self.now.nodes.now.terms }
        requires ready { IsReady self.now.nodes.now arena.old self.now.written.now scope.now }
        ensures grows { Grows arena.old arena.new }
        ensures says { Says arena.new result (rule (context_in arena.old scope.now) (node_term self.now.nodes.now s (Op2 form a b))) }
    {
        let two = self.judge_two(arena, scope, a, b)?;
        let (u, v) = (self.span(a), self.span(b));
        binary(self.alloc, arena, form, s, u, v, &two.first, &two.second)
    }

    // k * e
    #[cycle(judging)]
    fn judge_times(
        &self,
        arena: &mut Arena,
        scope: &[Bound],
        s: Span,
        k: i64,
        e: u32,
    ) -> Result<Judged, RowFault>
        requires e_known { e < length self.now.nodes.now.terms }
        requires number { IsNumber k }
        requires ready { IsReady self.now.nodes.now arena.old self.now.written.now scope.now }
        ensures grows { Grows arena.old arena.new }
        ensures says { Says arena.new result (rule (context_in arena.old scope.now) (node_term self.now.nodes.now s (Times k e))) }
    {
        let o = self.judge(arena, scope, e)?;
        times(self.alloc, arena, s, self.span(e), k, &o)
    }

    // A form with bounds.
    #[cycle(judging)]
    fn judge_ranged(
        &self,
        arena: &mut Arena,
        scope: &[Bound],
        s: Span,
        form: Ranged,
        lo: i64,
        hi: i64,
        e: u32,
    ) -> Result<Judged, RowFault>
        requires e_known { e < length self.now.nodes.now.terms }
        requires lo_number { IsNumber lo }
        requires hi_number { IsNumber hi }
        requires ready { IsReady self.now.nodes.now arena.old self.now.written.now scope.now }
        ensures grows { Grows arena.old arena.new }
        ensures says { Says arena.new result (rule (context_in arena.old scope.now) (node_term self.now.nodes.now s (Bounded form lo hi e))) }
    {
        let o = self.judge(arena, scope, e)?;
        ranged(self.alloc, arena, form, s, self.span(e), lo, hi, o)
    }

    // inl[t] e, inr[t] e
    #[cycle(judging)]
    fn judge_inject(
        &self,
        arena: &mut Arena,
        scope: &[Bound],
        side: Side,
        u: Span,
        t: u32,
        e: u32,
    ) -> Result<Judged, RowFault>
        requires e_known { e < length self.now.nodes.now.terms }
        requires t_known { t < length self.now.nodes.now.types }
        requires ready { IsReady self.now.nodes.now arena.old self.now.written.now scope.now }
        ensures grows { Grows arena.old arena.new }
        ensures says { (s : Span) → Says arena.new result (rule (context_in arena.old scope.now) (node_term self.now.nodes.now s (Inject side u t e))) }
    {
        let o = self.judge(arena, scope, e)?;
        inject(arena, side, u, self.arena_number(t), self.span(e), o)
    }

    // ![r] e
    #[cycle(judging)]
    fn judge_bang(
        &self,
        arena: &mut Arena,
        scope: &[Bound],
        s: Span,
        r: Sens,
        e: u32,
    ) -> Result<Judged, RowFault>
        requires e_known { e < length self.now.nodes.now.terms }
        requires bang { IsBang (distance_of r) }
        requires ready { IsReady self.now.nodes.now arena.old self.now.written.now scope.now }
        ensures grows { Grows arena.old arena.new }
        ensures says { Says arena.new result (rule (context_in arena.old scope.now) (node_term self.now.nodes.now s (Bang r e))) }
    {
        let o = self.judge(arena, scope, e)?;
        bang(self.alloc, arena, s, r, &o)
    }

    // let x = e in b
    #[cycle(judging)]
    fn judge_let(
        &self,
        arena: &mut Arena,
        scope: &[Bound],
        s: Span,
        x: Name,
        e: u32,
        b: u32,
    ) -> Result<Judged, RowFault>
        requires e_known { e < length self.now.nodes.now.terms }
        requires b_known { b < length self.now.nodes.now.terms }
        requires ready { IsReady self.now.nodes.now arena.old self.now.written.now scope.now }
        ensures grows { Grows arena.old arena.new }
        ensures says { Says arena.new result (rule (context_in arena.old scope.now) (node_term self.now.nodes.now s (Let x e b))) }
    {
        let o = self.judge(arena, scope, e)?;
        let p = self.judge_under(arena, scope, Bound { name: x, ty: o.ty }, b)?;
        let_name(self.alloc, s, &o.amounts, &p)
    }

    // let !x = e in b
    #[cycle(judging)]
    fn judge_let_bang(
        &self,
        arena: &mut Arena,
        scope: &[Bound],
        s: Span,
        x: Name,
        e: u32,
        b: u32,
    ) -> Result<Judged, RowFault>
        requires e_known { e < length self.now.nodes.now.terms }
        requires b_known { b < length self.now.nodes.now.terms }
        requires ready { IsReady self.now.nodes.now arena.old self.now.written.now scope.now }
        ensures grows { Grows arena.old arena.new }
        ensures says { Says arena.new result (rule (context_in arena.old scope.now) (node_term self.now.nodes.now s (LetBang x e b))) }
    {
        let o = self.judge(arena, scope, e)?;
        #[tactic(auto)]
        let TypeForm::Bang(r, ty) = arena.form(o.ty) else {
            return Err(RowFault::Mismatch {
                span: self.span(e),
                found: o.ty,
                wanted: Wanted::Bang,
            });
        };
        let p = self.judge_under(arena, scope, Bound { name: x, ty }, b)?;
        let_bang(self.alloc, s, r, &o.amounts, &p)
    }

    // let (x, y) = e in b
    #[cycle(judging)]
    fn judge_let_pair(
        &self,
        arena: &mut Arena,
        scope: &[Bound],
        s: Span,
        x: Name,
        y: Name,
        e: u32,
        b: u32,
    ) -> Result<Judged, RowFault>
        requires e_known { e < length self.now.nodes.now.terms }
        requires b_known { b < length self.now.nodes.now.terms }
        requires ready { IsReady self.now.nodes.now arena.old self.now.written.now scope.now }
        ensures grows { Grows arena.old arena.new }
        ensures says { Says arena.new result (rule (context_in arena.old scope.now) (node_term self.now.nodes.now s (LetPair x y e b))) }
    {
        let o = self.judge(arena, scope, e)?;
        #[tactic(auto)]
        let TypeForm::Tensor(first, second) = arena.form(o.ty) else {
            return Err(RowFault::Mismatch {
                span: self.span(e),
                found: o.ty,
                wanted: Wanted::Tensor,
            });
        };
        let outer = under(self.alloc, scope, Bound { name: x, ty: first })?;
        let p = self.judge_under(
            arena,
            &outer,
            Bound {
                name: y,
                ty: second,
            },
            b,
        )?;
        let_pair(self.alloc, s, &o.amounts, &p)
    }

    // if e then a else b
    #[cycle(judging)]
    fn judge_if(
        &self,
        arena: &mut Arena,
        scope: &[Bound],
        s: Span,
        e: u32,
        a: u32,
        b: u32,
    ) -> Result<Judged, RowFault>
        requires e_known { e < length self.now.nodes.now.terms }
        requires a_known { a < length self.now.nodes.now.terms }
        requires b_known { b < length self.now.nodes.now.terms }
        requires ready { IsReady self.now.nodes.now arena.old self.now.written.now scope.now }
        ensures grows { Grows arena.old arena.new }
        ensures says { Says arena.new result (rule (context_in arena.old scope.now) (node_term self.now.nodes.now s (If e a b))) }
    {
        let o = self.judge(arena, scope, e)?;
        let two = self.judge_two(arena, scope, a, b)?;
        let (u, w) = (self.span(e), self.span(b));
        choice(self.alloc, arena, s, u, w, &o, &two.first, &two.second)
    }

    // case e of inl x => a | inr y => b
    #[cycle(judging)]
    fn judge_case(
        &self,
        arena: &mut Arena,
        scope: &[Bound],
        s: Span,
        e: u32,
        x: Name,
        a: u32,
        y: Name,
        b: u32,
    ) -> Result<Judged, RowFault>
        requires e_known { e < length self.now.nodes.now.terms }
        requires a_known { a < length self.now.nodes.now.terms }
        requires b_known { b < length self.now.nodes.now.terms }
        requires ready { IsReady self.now.nodes.now arena.old self.now.written.now scope.now }
        ensures grows { Grows arena.old arena.new }
        ensures says { Says arena.new result (rule (context_in arena.old scope.now) (node_term self.now.nodes.now s (Case e x a y b))) }
    {
        let o = self.judge(arena, scope, e)?;
        #[tactic(auto)]
        let TypeForm::Sum(left, right) = arena.form(o.ty) else {
            return Err(RowFault::Mismatch {
                span: self.span(e),
                found: o.ty,
                wanted: Wanted::Sum,
            });
        };
        let p = self.judge_under(arena, scope, Bound { name: x, ty: left }, a)?;
        let q = self.judge_under(arena, scope, Bound { name: y, ty: right }, b)?;
        branches(self.alloc, arena, s, self.span(b), &o.amounts, &p, &q)
    }

    // fun (x : t) => e, fn (x : t) => e
    #[cycle(judging)]
    fn judge_lambda(
        &self,
        arena: &mut Arena,
        scope: &[Bound],
        s: Span,
        form: Arrow,
        x: Name,
        u: Span,
        t: u32,
        e: u32,
    ) -> Result<Judged, RowFault>
        requires e_known { e < length self.now.nodes.now.terms }
        requires t_known { t < length self.now.nodes.now.types }
        requires ready { IsReady self.now.nodes.now arena.old self.now.written.now scope.now }
        ensures grows { Grows arena.old arena.new }
        ensures says { Says arena.new result (rule (context_in arena.old scope.now) (node_term self.now.nodes.now s (Lambda form x u t e))) }
    {
        let ty = self.arena_number(t);
        let o = self.judge_under(arena, scope, Bound { name: x, ty }, e)?;
        lambda(self.alloc, arena, form, s, x, u, ty, &o)
    }

    /// The type and sensitivities of the term of number `i`, or its first fault.
    #[cycle(judging)]
    pub fn judge(&self, arena: &mut Arena, scope: &[Bound], i: u32) -> Result<Judged, RowFault>
        requires known { i < length self.now.nodes.now.terms }
        requires ready { IsReady self.now.nodes.now arena.old self.now.written.now scope.now }
        ensures grows { Grows arena.old arena.new }
        ensures says { Says arena.new result (rule (context_in arena.old scope.now) (term_at self.now.nodes.now.terms i)) }
    {
        let node = self.nodes.node(i);
        let s = node.span;
        match node.form {
            Form::Var(name) => look(self.alloc, s, scope, name),
            Form::Num(_) => number(self.alloc, arena),
            Form::Text(_) => text(self.alloc, arena),
            Form::Unit => unit(self.alloc, arena),
            Form::Unary(form, e) => self.judge_unary(arena, scope, form, e),
            Form::Binary(form, a, b) => self.judge_binary(arena, scope, s, form, a, b),
            Form::Times(k, e) => self.judge_times(arena, scope, s, k, e),
            Form::Ranged(form, lo, hi, e) => self.judge_ranged(arena, scope, s, form, lo, hi, e),
            Form::Inject(side, u, t, e) => self.judge_inject(arena, scope, side, u, t, e),
            Form::Bang(r, e) => self.judge_bang(arena, scope, s, r, e),
            Form::Let(x, e, b) => self.judge_let(arena, scope, s, x, e, b),
            Form::LetBang(x, e, b) => self.judge_let_bang(arena, scope, s, x, e, b),
            Form::LetPair(x, y, e, b) => self.judge_let_pair(arena, scope, s, x, y, e, b),
            Form::If(e, a, b) => self.judge_if(arena, scope, s, e, a, b),
            Form::Case(e, x, a, y, b) => self.judge_case(arena, scope, s, e, x, a, y, b),
            Form::Lambda(form, x, u, t, e) => self.judge_lambda(arena, scope, s, form, x, u, t, e),
        }
    }
}
