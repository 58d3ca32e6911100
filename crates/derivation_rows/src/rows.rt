//! The row of a node, by its form.
ghost use Rattle.std.specs.Prelude.{◌≡◌, ◌<◌, length, slice_index};
ghost use Rattle.fz_ast.specs.TermNodes.{FormLimits, IsKnown};
ghost use Rattle.fz_ast.specs.TypeNodes.{type_at};
ghost use Rattle.derivation_rows.specs.Formed.{ArePlaced, form_row};
ghost use Rattle.derivation_lines.specs.Lines.{line_at};
ghost use Rattle.derivation_rows.specs.Ruled.{IsRow, part_line};
ghost use Rattle.derivation_rows.specs.Scoped.{HasKnownTypes, context_in};
ghost use Rattle.derivation_rows.specs.Viewed.{IsView, lines_seen};

use crate::numbers::Numbers;
use crate::row::{Part, Row, formed};
use crate::row_factors::{bang, choice, inject, ranged, times};
use crate::row_names::{cases, lambda, let_bang, let_name, let_pair};
use crate::row_parts::{binary, unary};
use crate::scope::{Bound, look};
use derivation_lines::line::Line;
use fz_ast::{Arena, Form, Nodes, TypeForm};

/// The places of the lines of a node's parts, in written order: as many as it has parts.
#[derive(Clone, Copy)]
pub struct Places {
    pub first: usize,
    pub second: usize,
    pub third: usize,
}

/// What a rule looks at besides its node: the term's nodes, an arena of types, the numbers there of the types that are written in
/// the term, and lines.
#[derive(Clone, Copy)]
pub struct View<'a> {
    pub nodes: &'a Nodes,
    pub arena: &'a Arena,
    pub written: &'a [u32],
    pub lines: &'a [Line],
}

impl View<'_> {
    /// The type of this line.
    pub fn line_type(&self, at: usize) -> u32
        requires view { IsView self.now }
        requires known { at < length self.now.lines.now }
        ensures known { result < length self.now.arena.now }
        ensures is { type_at self.now.arena.now result ≡ (line_at (lines_seen self.now) at).ty }
    {
        self.lines[at].ty
    }

    // The part of this line.
    fn at(&self, at: usize) -> Part
        requires view { IsView self.now }
        requires known { at < length self.now.lines.now }
        ensures known { result.ty < length self.now.arena.now }
        ensures is { part_line self.now.arena.now (lines_seen self.now) result
            ≡ line_at (lines_seen self.now) at }
    {
        Part {
            at,
            ty: self.lines[at].ty,
        }
    }

    /// The number in the arena of the type written as number `t`.
    pub fn written_type(&self, t: u32) -> u32
        requires view { IsView self.now }
        requires known { t < length self.now.nodes.now.types }
        ensures known { result < length self.now.arena.now }
        ensures is { type_at self.now.arena.now result ≡ type_at self.now.nodes.now.types t }
    {
        self.written[t as usize]
    }

    /// What its rule gives a node of this form, and `None` where one of the rule's conditions fails.
    pub fn row(&self, scope: &[Bound], form: &Form, places: Places) -> Option<Row>
        requires view { IsView self.now }
        requires scope { HasKnownTypes self.now.arena.now scope.now }
        requires known { IsKnown (length self.now.nodes.now.types) (length self.now.nodes.now.terms) form.now }
        requires limits { FormLimits form.now }
        requires placed { ArePlaced (length self.now.lines.now) form.now places }
        ensures { let T = self.now.arena.now in let L = lines_seen self.now in IsRow T L result
            (form_row (type_at self.now.nodes.now.types) (context_in T scope.now) form.now
            (line_at L places.first) (line_at L places.second) (line_at L places.third)) }
    {
        let (arena, lines, p) = (self.arena, self.lines, places);
        match form {
            Form::Var(x) => look(scope, x),
            Form::Num(_) => formed(TypeForm::Num, Numbers::Zero),
            Form::Text(_) => formed(TypeForm::Text, Numbers::Zero),
            Form::Unit => formed(TypeForm::Unit, Numbers::Zero),
            Form::Unary(form, _) => unary(arena, *form, self.at(p.first)),
            Form::Binary(form, _, _) => binary(arena, *form, self.at(p.first), self.at(p.second)),
            Form::Times(k, _) => times(arena, *k, self.at(p.first)),
            Form::Ranged(form, lo, hi, _) => ranged(arena, *form, *lo, *hi, self.at(p.first)),
            Form::Inject(side, _, t, _) => {
                inject(arena, *side, self.written_type(*t), self.at(p.first))
            }
            Form::Bang(r, _) => bang(arena, *r, self.at(p.first)),
            Form::Let(x, _, _) => let_name(arena, lines, x, self.at(p.first), self.at(p.second)),
            Form::LetBang(x, ..) => let_bang(arena, lines, x, self.at(p.first), self.at(p.second)),
            Form::LetPair(x, y, _, _) => {
                let_pair(arena, lines, x, y, self.at(p.first), self.at(p.second))
            }
            Form::If(..) => choice(arena, self.at(p.first), self.at(p.second), self.at(p.third)),
            Form::Case(_, x, _, y, _) => {
                let (a, b) = (self.at(p.second), self.at(p.third));
                cases(arena, lines, self.at(p.first), x, a, y, b)
            }
            Form::Lambda(form, x, _, t, _) => {
                let w = self.written_type(*t);
                lambda(arena, lines, *form, x, w, self.at(p.first))
            }
        }
    }
}
