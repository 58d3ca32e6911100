//! Types by number, each stored once.
ghost use Rattle.std.specs.Prelude.{◌≡◌, ◌<◌, [], length, IfOk, OnOk, OnErr};
ghost use Rattle.fz_ast.specs.Types.{is_ground, is_flat, formed, same_type};
ghost use Rattle.fz_ast.specs.Limits.{TypeLimits};

use crate::memory::NoMemory;
use crate::types::{Formed, TypeForm, Types};
use indexmap::IndexSet;
use std::alloc::Global;
use std::marker::Model;

/// Types by number, each once: two numbers are equal exactly where their types are. A contract sees
/// their trees, in order.
///
/// A type is found by the hash of its form, in expected constant time. The hash's seed is fixed: whoever
/// picks forms that collide makes finding one of them take as many steps as there are such forms.
#[derive(Drop)]
pub struct Arena {
    types: Types,
    // The form of each type, in order.
    forms: IndexSet<TypeForm>,
}

impl Model for Arena {
    ghost use Rattle.std.specs.Prelude.{List};
    ghost use Rattle.fz_ast.specs.Types.{Ty};
    ghost use Rattle.fz_ast.specs.Codes.{types_code};
    ghost use Rattle.fz_ast.specs.Arena.{IsArena};

    ghost Value = { List Ty };

    ghost coded = { types_code };

    ghost view = { λ s. s.types };

    ghost invariant = { λ s. IsArena s.types s.forms.keys };
}

impl Arena {
    ghost use Rattle.fz_ast.specs.TypeNodes.{type_at, type_of, IsKnownType, HasBang, formed_of};
    ghost use Rattle.fz_ast.specs.Arena.{Grows, AreDistinct, with_type};

    /// No types.
    pub fn new(alloc: Global) -> Arena
        ensures { result ≡ [] }
    {
        Arena {
            types: Types::new(alloc),
            forms: IndexSet::new(alloc),
        }
    }

    /// How many there are.
    pub fn len(&self) -> usize
        ensures { result ≡ length self.now }
    {
        self.types.len()
    }

    pub fn types(&self) -> &Types
        ensures { result.now ≡ self.now }
    {
        &self.types
    }

    pub fn into_types(self) -> Types
        ensures { result ≡ self }
    {
        self.types
    }

    /// No type has two numbers.
    pub fn each_once(&self)
        ensures { AreDistinct self.now }
    {
        let _ = &self.types;
    }

    pub fn form(&self, i: u32) -> TypeForm
        requires { i < length self.now }
        ensures form { type_at self.now i ≡ type_of (type_at self.now) result }
        ensures known { IsKnownType i result }
        ensures limits { TypeLimits (type_at self.now i) }
    {
        self.types.form(i)
    }

    pub fn is_ground(&self, i: u32) -> bool
        requires { i < length self.now }
        ensures { result ≡ is_ground (type_at self.now i) }
    {
        self.types.is_ground(i)
    }

    pub fn is_flat(&self, i: u32) -> bool
        requires { i < length self.now }
        ensures { result ≡ is_flat (type_at self.now i) }
    {
        self.types.is_flat(i)
    }

    pub fn formed(&self, i: u32) -> Formed
        requires { i < length self.now }
        ensures { formed_of result ≡ formed (type_at self.now i) }
    {
        self.types.formed(i)
    }

    /// Whether two types are one tree: their numbers tell.
    pub fn same(&self, a: u32, b: u32) -> bool
        requires { (a < length self.now) × (b < length self.now) }
        ensures { result ≡ same_type (type_at self.now a) (type_at self.now b) }
    {
        // This read gives the proof what the arena keeps.
        let _ = &self.types;
        a == b
    }

    /// The number of the type of this form, which is added where it isn't there. There are at most
    /// 2^32 - 1 types.
    pub fn intern(&mut self, form: TypeForm) -> Result<u32, NoMemory>
        requires known { IsKnownType (length self.old) form }
        requires bang { HasBang form }
        ensures grows { Grows self.old self.new }
        ensures added { OnOk result (self.new ≡ with_type self.old (type_of (type_at self.old) form)) }
        ensures err { OnErr result (self.new ≡ self.old) }
        ensures is { IfOk result (λ n. (n < length self.new) × (type_at self.new n ≡ type_of (type_at self.old) form)) }
    {
        if let Some(i) = self.forms.get_index_of(&form) {
            return Ok(i as u32);
        }
        if let Err(_) = self.forms.reserve(1) {
            return Err(NoMemory);
        }
        let n = self.types.push(form)?;
        self.forms.insert(form).unwrap();
        Ok(n)
    }
}
