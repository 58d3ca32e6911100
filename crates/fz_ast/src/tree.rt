//! One type and one term, by themselves.
ghost use Rattle.std.specs.Prelude.{◌≡◌, ◌<◌, ◌≤◌, ◌↔◌, length, IfOk, IsTrue};
ghost use Rattle.fz_ast.specs.Types.{is_ground, is_flat, formed, same_type, WellFormed};
ghost use Rattle.fz_ast.specs.Limits.{TypeLimits, TermLimits};
ghost use Rattle.fz_ast.specs.Depth.{depth};
ghost use Rattle.fz_ast.specs.TypeNodes.{type_at};

use crate::memory::NoMemory;
use crate::term::Nodes;
use crate::types::{Formed, Types};
use std::marker::Model;

/// A type. A contract sees its tree.
#[derive(Drop)]
pub struct Ty {
    types: Types,
    root: u32,
}

impl Model for Ty {
    ghost use Rattle.fz_ast.specs.Types.{Ty};
    ghost use Rattle.std.specs.Prelude.{◌<◌, length};
    ghost use Rattle.fz_ast.specs.Codes.{type_code};
    ghost use Rattle.fz_ast.specs.TypeNodes.{type_at};

    ghost Value = { Ty };

    ghost coded = { type_code };

    ghost view = { λ t. type_at t.types t.root };

    ghost invariant = { λ t. t.root < length t.types };
}

impl Ty {
    /// The type of this number.
    pub fn new(types: Types, root: u32) -> Ty
        requires { root < length types }
        ensures { result ≡ type_at types root }
    {
        Ty { types, root }
    }

    /// The nodes, and the number of the type's own.
    pub fn parts(&self) -> (&Types, u32)
        ensures known { result.1 < length result.0.now }
        ensures is { type_at result.0.now result.1 ≡ self.now }
        ensures limits { TypeLimits self.now }
    {
        let _ = self.types.form(self.root);
        (&self.types, self.root)
    }

    /// An equal copy.
    pub fn copy(&self) -> Result<Ty, NoMemory>
        ensures { IfOk result (λ t. t ≡ self.now) }
    {
        let types = self.types.copy()?;
        Ok(Ty {
            types,
            root: self.root,
        })
    }
}

/// A term at most 64 deep. A contract sees its tree.
#[derive(Drop)]
pub struct Term {
    nodes: Nodes,
    root: u32,
}

impl Model for Term {
    ghost use Rattle.std.specs.Prelude.{◌<◌, ◌≤◌, length};
    ghost use Rattle.fz_ast.specs.Terms.{Term};
    ghost use Rattle.fz_ast.specs.Codes.{term_code};
    ghost use Rattle.fz_ast.specs.Depth.{depth};
    ghost use Rattle.fz_ast.specs.TermNodes.{term_at};

    ghost Value = { Term };

    ghost coded = { term_code };

    ghost view = { λ t. term_at t.nodes.terms t.root };

    ghost invariant = { λ t. (t.root < length t.nodes.terms) × (depth (term_at t.nodes.terms t.root) ≤ 64) };
}

impl Term {
    ghost use Rattle.fz_ast.specs.TermNodes.{term_at};

    /// The term of this number.
    pub fn new(nodes: Nodes, root: u32) -> Term
        requires known { root < length nodes.terms }
        requires shallow { depth (term_at nodes.terms root) ≤ 64 }
        ensures { result ≡ term_at nodes.terms root }
    {
        Term { nodes, root }
    }

    /// The nodes, and the number of the term's own.
    pub fn parts(&self) -> (&Nodes, u32)
        ensures known { result.1 < length result.0.now.terms }
        ensures is { term_at result.0.now.terms result.1 ≡ self.now }
        ensures limits { TermLimits self.now }
        ensures shallow { depth self.now ≤ 64 }
    {
        let _ = self.nodes.node(self.root);
        (&self.nodes, self.root)
    }

    /// An equal copy.
    pub fn copy(&self) -> Result<Term, NoMemory>
        ensures { IfOk result (λ t. t ≡ self.now) }
    {
        let nodes = self.nodes.copy()?;
        Ok(Term {
            nodes,
            root: self.root,
        })
    }
}

/// Whether there is no function inside.
pub fn is_ground(ty: &Ty) -> bool
    ensures { result ≡ is_ground ty.now }
{
    ty.types.is_ground(ty.root)
}

/// Whether it is ground and has no bag inside.
pub fn is_flat(ty: &Ty) -> bool
    ensures { result ≡ is_flat ty.now }
{
    ty.types.is_flat(ty.root)
}

/// Whether both sides of each sum are ground, and each bag's element is flat.
pub fn well_formed(ty: &Ty) -> bool
    ensures { IsTrue result ↔ (formed ty.now ≡ WellFormed) }
{
    matches!(ty.types.formed(ty.root), Formed::WellFormed)
}

/// Whether two types are one tree. It walks both as trees: where parts are shared, each doubling doubles its time, and it
/// goes as deep as they are, so a million nested bags outrun the stack. No path of the server calls it: types that are
/// checked are of one `Arena`, whose numbers are compared.
pub fn same_type(a: &Ty, b: &Ty) -> bool
    ensures is { result ≡ same_type a.now b.now }
    ensures trees { IsTrue result ↔ (a.now ≡ b.now) }
{
    a.types.same(a.root, &b.types, b.root)
}
