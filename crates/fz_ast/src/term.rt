//! Terms as numbered nodes, each after its parts.
ghost use Rattle.std.specs.Prelude.{◌≡◌, ◌+◌, ◌<◌, ◌≤◌, ◌++◌, [], ◌∷◌, suc, max, length, IfOk, OnOk, OnErr};
ghost use Rattle.fz_ast.specs.Limits.{TermLimits};
ghost use Rattle.fz_ast.specs.Depth.{depth, type_depth};

use crate::memory::NoMemory;
use crate::name::{Name, Text};
use crate::span::Span;
use crate::types::{TypeForm, Types};
use fz_frac::Sens;
use std::alloc::Global;
use std::marker::Model;

/// Words with one part.
#[derive(Clone, Copy, Debug, PartialEq, Eq)]
pub enum Unary {
    Fst,
    Snd,
    Least,
    Greatest,
    Size,
}

/// Words and signs with two parts.
#[derive(Clone, Copy, Debug, PartialEq, Eq)]
pub enum Binary {
    /// `(a, b)`
    Pair,
    /// `<a, b>`
    With,
    /// `f a`
    App,
    Plus,
    Minus,
    /// `a <= b`
    AtMost,
    /// `a == b`
    Equal,
    Union,
    Map,
    Filter,
    Split,
}

/// Words with bounds.
#[derive(Clone, Copy, Debug, PartialEq, Eq)]
pub enum Ranged {
    Sum,
    Clip,
}

/// The sides of a sum.
#[derive(Clone, Copy, Debug, PartialEq, Eq)]
pub enum Side {
    Inl,
    Inr,
}

/// Linear and unlimited functions.
#[derive(Clone, Copy, Debug, PartialEq, Eq)]
pub enum Arrow {
    /// `fun (x : T) => e`
    Fun,
    /// `fn (x : T) => e`
    Fn,
}

/// A term's outermost form. A part, or a written type, is the number of its node.
#[derive(Clone, Copy)]
pub enum Form {
    Var(Name),
    Num(i64),
    Text(Text),
    Unit,
    Unary(Unary, u32),
    Binary(Binary, u32, u32),
    /// `k * e`
    Times(i64, u32),
    /// The bounds, and then the part.
    Ranged(Ranged, i64, i64, u32),
    /// `inl[T] e`: the span of the written type, the type, and the part.
    Inject(Side, Span, u32, u32),
    /// `![r] e`
    Bang(Sens, u32),
    /// `let x = e in b`
    Let(Name, u32, u32),
    /// `let !x = e in b`
    LetBang(Name, u32, u32),
    /// `let (x, y) = e in b`
    LetPair(Name, Name, u32, u32),
    /// `if e then a else b`
    If(u32, u32, u32),
    /// `case e of inl x => a | inr y => b`
    Case(u32, Name, u32, Name, u32),
    /// The name, the span of the written type, the type, and the body.
    Lambda(Arrow, Name, Span, u32, u32),
}

/// A node, where it stands, and how deep its tree is.
#[derive(Clone, Copy)]
pub struct Node {
    pub span: Span,
    pub form: Form,
    pub depth: u64,
}

/// Terms by number, and the types written in them. A contract sees their trees, in order.
#[derive(Drop)]
pub struct Nodes {
    types: Types,
    nodes: Vec<Node>,
}

impl Model for Nodes {
    ghost use Rattle.std.specs.Prelude.{[]};
    ghost use Rattle.fz_ast.specs.Codes.{parts_code};
    ghost use Rattle.fz_ast.specs.Parts.{Parts};
    ghost use Rattle.fz_ast.specs.TypeNodes.{type_at};
    ghost use Rattle.fz_ast.specs.TermNodes.{terms_after, AreTerms};

    ghost Value = { Parts };

    ghost coded = { parts_code };

    ghost view = { λ s. record { types = s.types; terms = terms_after (type_at s.types) [] s.nodes.items } };

    ghost invariant = { λ s. AreTerms s.types (terms_after (type_at s.types) [] s.nodes.items) s.nodes.items };
}

impl Nodes {
    ghost use Rattle.fz_ast.specs.TypeNodes.{type_at, type_of, IsKnownType, HasBang};
    ghost use Rattle.fz_ast.specs.TermNodes.{term_at, term_of, IsKnown, FormLimits};
    ghost use Rattle.fz_ast.specs.declared.span.Span.{Span};

    /// No terms and no types.
    pub fn new(alloc: Global) -> Nodes
        ensures { result ≡ record { types = []; terms = [] } }
    {
        Nodes {
            types: Types::new(alloc),
            nodes: Vec::new(alloc),
        }
    }

    /// The types written in the terms.
    pub fn types(&self) -> &Types
        ensures { result.now ≡ self.now.types }
    {
        &self.types
    }

    /// How many terms there are.
    pub fn len(&self) -> usize
        ensures { result ≡ length self.now.terms }
    {
        self.nodes.len()
    }

    pub fn node(&self, i: u32) -> &Node
        requires { i < length self.now.terms }
        ensures form { term_at self.now.terms i ≡ term_of (type_at self.now.types) (term_at self.now.terms) result.now.span result.now.form }
        ensures known { IsKnown (length self.now.types) i result.now.form }
        ensures limits { TermLimits (term_at self.now.terms i) }
    {
        &self.nodes[i as usize]
    }

    pub fn depth(&self, i: u32) -> u64
        requires { i < length self.now.terms }
        ensures is { result ≡ depth (term_at self.now.terms i) }
        ensures shallow { result ≤ i + 4294967296 }
    {
        self.nodes[i as usize].depth
    }

    // One more than a part's depth.
    fn depth_above(&self, e: u32) -> u64
        requires { e < length self.now.terms }
        ensures is { result ≡ suc (depth (term_at self.now.terms e)) }
        ensures shallow { result ≤ length self.now.terms + 4294967296 }
    {
        1 + self.depth(e)
    }

    // One more than the greater of two parts' depths.
    fn depth_above_two(&self, a: u32, b: u32) -> u64
        requires { (a < length self.now.terms) × (b < length self.now.terms) }
        ensures is { result ≡ suc (max (depth (term_at self.now.terms a)) (depth (term_at self.now.terms b))) }
        ensures shallow { result ≤ length self.now.terms + 4294967296 }
    {
        1 + self.depth(a).max(self.depth(b))
    }

    // One more than the greatest of three parts' depths.
    fn depth_above_three(&self, e: u32, a: u32, b: u32) -> u64
        requires { (e < length self.now.terms) × (a < length self.now.terms) × (b < length self.now.terms) }
        ensures is { result ≡ suc (max (depth (term_at self.now.terms e)) (max (depth (term_at self.now.terms a)) (depth (term_at self.now.terms b)))) }
        ensures shallow { result ≤ length self.now.terms + 4294967296 }
    {
        1 + self.depth(e).max(self.depth(a).max(self.depth(b)))
    }

    // One more than the greater of a written type's depth and a part's.
    fn depth_above_type(&self, t: u32, e: u32) -> u64
        requires { (t < length self.now.types) × (e < length self.now.terms) }
        ensures is { result ≡ suc (max (type_depth (type_at self.now.types t)) (depth (term_at self.now.terms e))) }
        ensures shallow { result ≤ length self.now.terms + 4294967296 }
    {
        1 + u64::from(self.types.depth(t)).max(self.depth(e))
    }

    fn depth_of(&self, form: &Form) -> u64
        requires { IsKnown (length self.now.types) (length self.now.terms) form.now }
        ensures is { (s : Span) → result ≡ depth (term_of (type_at self.now.types) (term_at self.now.terms) s form.now) }
        ensures shallow { result ≤ length self.now.terms + 4294967296 }
    {
        match form {
            Form::Var(_) | Form::Num(_) | Form::Text(_) | Form::Unit => 1,
            Form::Unary(_, e) | Form::Times(_, e) | Form::Ranged(_, _, _, e) | Form::Bang(_, e) => {
                self.depth_above(*e)
            }
            Form::Binary(_, a, b)
            | Form::Let(_, a, b)
            | Form::LetBang(_, a, b)
            | Form::LetPair(_, _, a, b) => self.depth_above_two(*a, *b),
            Form::If(e, a, b) | Form::Case(e, _, a, _, b) => self.depth_above_three(*e, *a, *b),
            Form::Inject(_, _, t, e) | Form::Lambda(_, _, _, t, e) => self.depth_above_type(*t, *e),
        }
    }

    /// Adds the type of this form, and answers its number.
    pub fn push_type(&mut self, form: TypeForm) -> Result<u32, NoMemory>
        requires known { IsKnownType (length self.old.types) form }
        requires bang { HasBang form }
        ensures number { IfOk result (λ n. n ≡ length self.old.types) }
        ensures grown { OnOk result (self.new ≡ record { types = self.old.types ++ type_of (type_at self.old.types) form ∷ []; terms = self.old.terms }) }
        ensures err { OnErr result (self.new ≡ self.old) }
    {
        let n = self.types.push(form)?;
        Ok(n)
    }

    /// Adds the term of this form, and answers its number. There are at most 2^32 - 1 terms.
    pub fn push(&mut self, span: Span, form: Form) -> Result<u32, NoMemory>
        requires known { IsKnown (length self.old.types) (length self.old.terms) form }
        requires limits { FormLimits form }
        ensures number { IfOk result (λ n. n ≡ length self.old.terms) }
        ensures grown { OnOk result (self.new ≡ record {
          types = self.old.types;
          terms = self.old.terms
              ++ term_of (type_at self.old.types) (term_at self.old.terms) span form ∷ [];
        }) }
        ensures err { OnErr result (self.new ≡ self.old) }
    {
        let n = self.nodes.len();
        if n >= u32::MAX as usize {
            return Err(NoMemory);
        }
        let depth = self.depth_of(&form);
        if let Err(_) = self.nodes.push(Node { span, form, depth }) {
            return Err(NoMemory);
        }
        Ok(n as u32)
    }

    /// An equal copy.
    pub fn copy(&self) -> Result<Nodes, NoMemory>
        ensures { IfOk result (λ n. n ≡ self.now) }
    {
        let types = self.types.copy()?;
        let nodes = Vec::from_slice(*self.nodes.allocator(), &self.nodes)?;
        Ok(Nodes { types, nodes })
    }
}
