//! Types as numbered nodes, each after its parts.
ghost use Rattle.std.specs.Prelude.{◌≡◌, ◌+◌, ◌<◌, ◌≤◌, ◌++◌, [], ◌∷◌, length, IfOk, OnOk, OnErr};
ghost use Rattle.fz_ast.specs.Types.{is_ground, is_flat, both, formed, same_type};
ghost use Rattle.fz_ast.specs.Limits.{TypeLimits};
ghost use Rattle.fz_ast.specs.Depth.{type_depth};

use crate::memory::NoMemory;
use fz_frac::Sens;
use std::alloc::Global;
use std::marker::Model;

/// A type's outermost form. A part is the number of its node.
#[derive(Clone, Copy, PartialEq, Eq, Hash)]
pub enum TypeForm {
    Num,
    Text,
    Unit,
    /// `A * B`
    Tensor(u32, u32),
    /// `A & B`
    With(u32, u32),
    /// `A + B`
    Sum(u32, u32),
    /// `A -o B`
    Arrow(u32, u32),
    /// `![r] A`
    Bang(Sens, u32),
    /// `bag A`
    Bag(u32),
}

/// What is wrong with a type: the first fault, the outermost first.
#[derive(Clone, Copy)]
pub enum Formed {
    WellFormed,
    /// A side of a sum isn't ground.
    UngroundSum,
    /// A bag's element isn't flat.
    UnflatBag,
}

impl Formed {
    ghost use Rattle.fz_ast.specs.TypeNodes.{formed_of};

    fn and(self, other: Formed) -> Formed
        ensures { formed_of result ≡ both (formed_of self) (formed_of other) }
    {
        match self {
            Formed::WellFormed => other,
            Formed::UngroundSum => Formed::UngroundSum,
            Formed::UnflatBag => Formed::UnflatBag,
        }
    }
}

/// A node, and what it keeps of its type.
#[derive(Clone, Copy)]
pub struct TypeNode {
    pub form: TypeForm,
    pub ground: bool,
    pub flat: bool,
    pub formed: Formed,
    pub depth: u32,
}

/// Types by number. A contract sees their trees, in order.
#[derive(Drop)]
pub struct Types {
    nodes: Vec<TypeNode>,
}

impl Model for Types {
    ghost use Rattle.std.specs.Prelude.{List, []};
    ghost use Rattle.fz_ast.specs.Types.{Ty};
    ghost use Rattle.fz_ast.specs.Codes.{types_code};
    ghost use Rattle.fz_ast.specs.TypeNodes.{types_after, AreTypes};

    ghost Value = { List Ty };

    ghost coded = { types_code };

    ghost view = { λ s. types_after [] s.nodes.items };

    ghost invariant = { λ s. AreTypes (types_after [] s.nodes.items) s.nodes.items };
}

impl Types {
    ghost use Rattle.fz_ast.specs.TypeNodes.{type_at, type_of, IsKnownType, HasBang, formed_of, Notes};

    /// No types.
    pub fn new(alloc: Global) -> Types
        ensures { result ≡ [] }
    {
        Types {
            nodes: Vec::new(alloc),
        }
    }

    /// How many there are.
    pub fn len(&self) -> usize
        ensures { result ≡ length self.now }
    {
        self.nodes.len()
    }

    pub fn form(&self, i: u32) -> TypeForm
        requires { i < length self.now }
        ensures form { type_at self.now i ≡ type_of (type_at self.now) result }
        ensures known { IsKnownType i result }
        ensures limits { TypeLimits (type_at self.now i) }
    {
        self.nodes[i as usize].form
    }

    pub fn is_ground(&self, i: u32) -> bool
        requires { i < length self.now }
        ensures { result ≡ is_ground (type_at self.now i) }
    {
        self.nodes[i as usize].ground
    }

    pub fn is_flat(&self, i: u32) -> bool
        requires { i < length self.now }
        ensures { result ≡ is_flat (type_at self.now i) }
    {
        self.nodes[i as usize].flat
    }

    pub fn formed(&self, i: u32) -> Formed
        requires { i < length self.now }
        ensures { formed_of result ≡ formed (type_at self.now i) }
    {
        self.nodes[i as usize].formed
    }

    pub fn depth(&self, i: u32) -> u32
        requires { i < length self.now }
        ensures is { result ≡ type_depth (type_at self.now i) }
        ensures shallow { result ≤ i + 1 }
    {
        self.nodes[i as usize].depth
    }

    fn is_ground_form(&self, form: TypeForm) -> bool
        requires { IsKnownType (length self.now) form }
        ensures { result ≡ is_ground (type_of (type_at self.now) form) }
    {
        match form {
            TypeForm::Num | TypeForm::Text | TypeForm::Unit => true,
            TypeForm::Tensor(a, b) | TypeForm::With(a, b) | TypeForm::Sum(a, b) => self.is_ground(a)
                && self.is_ground(b),
            TypeForm::Arrow(_, _) => false,
            TypeForm::Bang(_, a) | TypeForm::Bag(a) => self.is_ground(a),
        }
    }

    fn is_flat_form(&self, form: TypeForm) -> bool
        requires { IsKnownType (length self.now) form }
        ensures { result ≡ is_flat (type_of (type_at self.now) form) }
    {
        match form {
            TypeForm::Num | TypeForm::Text | TypeForm::Unit => true,
            TypeForm::Tensor(a, b) | TypeForm::With(a, b) | TypeForm::Sum(a, b) => self.is_flat(a)
                && self.is_flat(b),
            TypeForm::Arrow(_, _) | TypeForm::Bag(_) => false,
            TypeForm::Bang(_, a) => self.is_flat(a),
        }
    }

    fn formed_form(&self, form: TypeForm) -> Formed
        requires { IsKnownType (length self.now) form }
        ensures { formed_of result ≡ formed (type_of (type_at self.now) form) }
    {
        match form {
            TypeForm::Num | TypeForm::Text | TypeForm::Unit => Formed::WellFormed,
            TypeForm::Tensor(a, b) | TypeForm::With(a, b) | TypeForm::Arrow(a, b) => self
                .formed(a)
                .and(self.formed(b)),
            TypeForm::Sum(a, b) => {
                if self.is_ground(a) && self.is_ground(b) {
                    self.formed(a).and(self.formed(b))
                } else {
                    Formed::UngroundSum
                }
            }
            TypeForm::Bang(_, a) => self.formed(a),
            TypeForm::Bag(a) => {
                if self.is_flat(a) {
                    self.formed(a)
                } else {
                    Formed::UnflatBag
                }
            }
        }
    }

    fn depth_form(&self, form: TypeForm) -> u32
        requires known { IsKnownType (length self.now) form }
        requires room { length self.now < 4294967295 }
        ensures is { result ≡ type_depth (type_of (type_at self.now) form) }
        ensures shallow { result ≤ length self.now + 1 }
    {
        match form {
            TypeForm::Num | TypeForm::Text | TypeForm::Unit => 1,
            TypeForm::Tensor(a, b)
            | TypeForm::With(a, b)
            | TypeForm::Sum(a, b)
            | TypeForm::Arrow(a, b) => 1 + self.depth(a).max(self.depth(b)),
            TypeForm::Bang(_, a) | TypeForm::Bag(a) => 1 + self.depth(a),
        }
    }

    fn node_of(&self, form: TypeForm) -> TypeNode
        requires known { IsKnownType (length self.now) form }
        requires bang { HasBang form }
        requires room { length self.now < 4294967295 }
        ensures form { result.form ≡ form }
        ensures notes { Notes (type_of (type_at self.now) form) (length self.now) result }
    {
        let _ = &self.nodes;
        TypeNode {
            form,
            ground: self.is_ground_form(form),
            flat: self.is_flat_form(form),
            formed: self.formed_form(form),
            depth: self.depth_form(form),
        }
    }

    /// Adds the type of this form, and answers its number. There are at most 2^32 - 1 types.
    pub fn push(&mut self, form: TypeForm) -> Result<u32, NoMemory>
        requires known { IsKnownType (length self.old) form }
        requires bang { HasBang form }
        ensures number { IfOk result (λ n. n ≡ length self.old) }
        ensures grown { OnOk result (self.new ≡ self.old ++ type_of (type_at self.old) form ∷ []) }
        ensures err { OnErr result (self.new ≡ self.old) }
    {
        let n = self.nodes.len();
        if n >= u32::MAX as usize {
            return Err(NoMemory);
        }
        let node = self.node_of(form);
        if let Err(_) = self.nodes.push(node) {
            return Err(NoMemory);
        }
        Ok(n as u32)
    }

    /// Whether two types are one tree, by a walk over both, as `same_type` says: a checker compares numbers of an `Arena`.
    pub fn same(&self, i: u32, other: &Types, j: u32) -> bool
        requires here { i < length self.now }
        requires there { j < length other.now }
        ensures { result ≡ same_type (type_at self.now i) (type_at other.now j) }
    {
        match self.form(i) {
            TypeForm::Num => matches!(other.form(j), TypeForm::Num),
            TypeForm::Text => matches!(other.form(j), TypeForm::Text),
            TypeForm::Unit => matches!(other.form(j), TypeForm::Unit),
            TypeForm::Tensor(a, b) => match other.form(j) {
                TypeForm::Tensor(c, d) => self.same(a, other, c) && self.same(b, other, d),
                _ => false,
            },
            TypeForm::With(a, b) => match other.form(j) {
                TypeForm::With(c, d) => self.same(a, other, c) && self.same(b, other, d),
                _ => false,
            },
            TypeForm::Sum(a, b) => match other.form(j) {
                TypeForm::Sum(c, d) => self.same(a, other, c) && self.same(b, other, d),
                _ => false,
            },
            TypeForm::Arrow(a, b) => match other.form(j) {
                TypeForm::Arrow(c, d) => self.same(a, other, c) && self.same(b, other, d),
                _ => false,
            },
            TypeForm::Bang(r, a) => match other.form(j) {
                TypeForm::Bang(s, b) => r == s && self.same(a, other, b),
                _ => false,
            },
            TypeForm::Bag(a) => match other.form(j) {
                TypeForm::Bag(b) => self.same(a, other, b),
                _ => false,
            },
        }
    }

    /// An equal copy.
    pub fn copy(&self) -> Result<Types, NoMemory>
        ensures { IfOk result (λ t. t ≡ self.now) }
    {
        let nodes = Vec::from_slice(*self.nodes.allocator(), &self.nodes)?;
        Ok(Types { nodes })
    }
}
