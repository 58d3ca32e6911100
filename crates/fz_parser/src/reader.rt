//! The parts that were read, and the nodes that are made of them.
ghost use Rattle.std.specs.Prelude.{◌≡◌, ◌<◌, ◌≤◌, ◌++◌, [], ◌∷◌, length, IfOk, OnOk, pos};
ghost use Rattle.fz_frac.specs.Sens.{distance_of};
ghost use Rattle.fz_ast.specs.Names.{name_of, text_of};
ghost use Rattle.fz_ast.specs.Limits.{IsNumber, IsBang};
ghost use Rattle.fz_ast.specs.TypeNodes.{type_at, type_of, IsKnownType, HasBang};
ghost use Rattle.fz_ast.specs.TermNodes.{term_at, term_of, IsKnown, FormLimits};
ghost use Rattle.fz_parser.specs.Parts.{TypePart, TermPart, part, type_, term};
ghost use Rattle.fz_parser.specs.Parts.{start_at, in_name, in_number, in_positive, in_text, in_integer, in_factor, in_span, in_type, in_term, shift};
ghost use Rattle.fz_parser.specs.Grammar.{Fits, empty};

use crate::grammar::Terminal;
use fz_ast::{Form, Name, NoMemory, Nodes, Span, Text, TypeForm};
use fz_frac::Sens;
use fz_lexer::{Kind, Token};
use std::alloc::Global;

/// What a part holds. Types and terms are numbers of nodes.
#[derive(Clone, Copy)]
pub enum Held {
    /// A construct begins here.
    Begun,
    Name(Name),
    Number(u64),
    /// From 1 to 2^32 - 1.
    Positive(u32),
    Text(Text),
    Integer(i64),
    Factor(Sens),
    /// A written type, and its span.
    Written(Span, u32),
    Term(u32),
}

/// A part, and where its text begins: at its parentheses, if it stands in some.
#[derive(Clone, Copy)]
pub struct Entry {
    pub from: u32,
    pub held: Held,
}

/// The span of the last token, the parts so far, and the nodes that they name.
#[derive(Drop)]
pub struct Reader {
    pub last: Span,
    pub entries: Vec<Entry>,
    pub nodes: Nodes,
}

impl Reader {
    ghost use Rattle.fz_parser.specs.Kept.{what_of, state_of, IsHeld, IsInOrder, sort_at, Makes};

    pub fn new(alloc: Global) -> Reader
        ensures kept { IsInOrder result }
        ensures state { state_of result ≡ empty }
    {
        Reader {
            last: Span { from: 0, to: 0 },
            entries: Vec::new(alloc),
            nodes: Nodes::new(alloc),
        }
    }

    /// What part `i` holds, 0 being the last one.
    fn held(&self, i: usize) -> Held
        requires { IsInOrder self.now }
        ensures is { what_of self.now.nodes result ≡ (part i (state_of self.now)).what }
        ensures known { IsHeld self.now.nodes result }
    {
        if i < self.entries.len() {
            self.entries[self.entries.len() - 1 - i].held
        } else {
            Held::Begun
        }
    }

    /// Where the last `count` parts begin.
    pub fn start(&self, count: usize) -> u32
        ensures { result ≡ start_at count (state_of self.now) }
    {
        if count == 0 {
            return self.last.from;
        }
        if count <= self.entries.len() {
            self.entries[self.entries.len() - count].from
        } else {
            0
        }
    }

    pub fn name(&self, i: usize) -> Name
        requires { IsInOrder self.now }
        ensures { name_of result ≡ in_name (part i (state_of self.now)).what }
    {
        match self.held(i) {
            Held::Name(name) => name,
            _ => Name::new(b""),
        }
    }

    pub fn number(&self, i: usize) -> i64
        requires { IsInOrder self.now }
        ensures is { result ≡ pos (in_number (part i (state_of self.now)).what) }
        ensures limit { IsNumber result }
    {
        match self.held(i) {
            Held::Number(number) => number as i64,
            _ => 0,
        }
    }

    pub fn positive(&self, i: usize) -> u32
        requires { IsInOrder self.now }
        ensures is { result ≡ in_positive (part i (state_of self.now)).what }
        ensures some { 0 < result }
    {
        match self.held(i) {
            Held::Positive(number) => number,
            _ => 1,
        }
    }

    pub fn text(&self, i: usize) -> Text
        requires { IsInOrder self.now }
        ensures { text_of result ≡ in_text (part i (state_of self.now)).what }
    {
        match self.held(i) {
            Held::Text(text) => text,
            _ => Text::new(b""),
        }
    }

    pub fn integer(&self, i: usize) -> i64
        requires { IsInOrder self.now }
        ensures is { result ≡ in_integer (part i (state_of self.now)).what }
        ensures limit { IsNumber result }
    {
        match self.held(i) {
            Held::Integer(number) => number,
            _ => 0,
        }
    }

    pub fn factor(&self, i: usize) -> Sens
        requires { IsInOrder self.now }
        ensures is { distance_of result ≡ in_factor (part i (state_of self.now)).what }
        ensures limit { IsBang (distance_of result) }
    {
        match self.held(i) {
            Held::Factor(factor) => factor,
            _ => Sens::Inf,
        }
    }

    /// A written type's span, and its number.
    pub fn written(&self, i: usize) -> (Span, u32)
        requires kept { IsInOrder self.now }
        requires sort { sort_at i (state_of self.now) ≡ type_ }
        ensures span { result.0 ≡ in_span (part i (state_of self.now)).what }
        ensures is { type_at self.now.nodes.types result.1 ≡ in_type (part i (state_of self.now)).what }
        ensures known { result.1 < length self.now.nodes.types }
    {
        match self.held(i) {
            Held::Written(span, number) => (span, number),
            _ => (self.last, 0),
        }
    }

    pub fn term(&self, i: usize) -> u32
        requires kept { IsInOrder self.now }
        requires sort { sort_at i (state_of self.now) ≡ term }
        ensures is { term_at self.now.nodes.terms result ≡ in_term (part i (state_of self.now)).what }
        ensures known { result < length self.now.nodes.terms }
    {
        match self.held(i) {
            Held::Term(number) => number,
            _ => 0,
        }
    }

    /// A new term of this form.
    pub fn new_term(&mut self, whole: Span, form: Form) -> Result<Held, NoMemory>
        requires kept { IsInOrder self.old }
        requires known { IsKnown (length self.old.nodes.types) (length self.old.nodes.terms) form }
        requires limits { FormLimits form }
        ensures { IfOk result (λ held.
            Makes self.old self.new held (TermPart (term_of (type_at self.old.nodes.types) (term_at self.old.nodes.terms) whole form))) }
    {
        let number = self.nodes.push(whole, form)?;
        Ok(Held::Term(number))
    }

    /// A new written type of this form.
    pub fn new_type(&mut self, whole: Span, form: TypeForm) -> Result<Held, NoMemory>
        requires kept { IsInOrder self.old }
        requires known { IsKnownType (length self.old.nodes.types) form }
        requires bang { HasBang form }
        ensures { IfOk result (λ held. Makes self.old self.new held (TypePart whole (type_of (type_at self.old.nodes.types) form))) }
    {
        let number = self.nodes.push_type(form)?;
        Ok(Held::Written(whole, number))
    }
}
