//! The tables that a program may name.
ghost use Rattle.std.specs.Prelude.{◌≡◌, ◌<◌, ◌++◌, [], ◌∷◌, true, false, ◌↔◌, IsTrue, length, OnOk, OnErr, Some, slice_get};
ghost use Rattle.fz_ast.specs.Types.{is_flat, formed, WellFormed};
ghost use Rattle.fz_ast.specs.Signature.{IsFresh, IsSignature};

use crate::memory::NoMemory;
use crate::name::Name;
use crate::tree::Ty;
use std::alloc::Global;
use std::marker::Model;

/// A table's name, and the type of its rows.
#[derive(Drop)]
pub struct TableType {
    pub name: Name,
    pub row: Ty,
}

/// Tables in order. Their names are distinct, and their rows' types flat and well formed.
#[derive(Drop)]
pub struct Sig {
    tables: Vec<TableType>,
}

impl Model for Sig {
    ghost use Rattle.fz_ast.specs.Codes.{signature_code};
    ghost use Rattle.fz_ast.specs.Signature.{Signature, IsSignature};
    ghost use Rattle.fz_ast.specs.Tables.{signature_of};

    ghost Value = { Signature };

    ghost coded = { signature_code };

    ghost view = { λ s. signature_of s.tables.items };

    ghost invariant = { λ s. IsSignature (signature_of s.tables.items) };
}

impl Sig {
    ghost use Rattle.fz_ast.specs.Names.{name_of};
    ghost use Rattle.fz_ast.specs.Tables.{table_of};

    /// No tables.
    pub fn new(alloc: Global) -> Sig
        ensures { result ≡ [] }
    {
        Sig {
            tables: Vec::new(alloc),
        }
    }

    /// How many tables there are.
    pub fn len(&self) -> usize
        ensures { result ≡ length self.now }
    {
        self.tables.len()
    }

    pub fn is_empty(&self) -> bool
        ensures { IsTrue result ↔ (self.now ≡ []) }
    {
        self.tables.is_empty()
    }

    pub fn table(&self, i: usize) -> &TableType
        requires { i < length self.now }
        ensures is { slice_get self.now i ≡ Some (table_of result.now) }
        ensures signature { IsSignature self.now }
    {
        &self.tables[i]
    }

    /// Whether a table has this name.
    pub fn contains(&self, name: &[u8]) -> bool
        ensures free { result ≡ false → IsFresh name.now self.now }
        ensures taken { result ≡ true → IsFresh name.now self.now → ⊥ }
    {
        for table in &self.tables {
            if table.name.as_bytes() == name {
                return true;
            }
        }
        false
    }

    /// Adds a table of a new name.
    pub fn push(&mut self, name: Name, row: Ty) -> Result<(), NoMemory>
        requires fresh { IsFresh (name_of name) self.old }
        requires flat { is_flat row ≡ true }
        requires formed { formed row ≡ WellFormed }
        ensures ok { OnOk result (self.new ≡ self.old ++ record { name = name_of name; row = row } ∷ []) }
        ensures err { OnErr result (self.new ≡ self.old) }
    {
        let _ = row.parts();
        if let Err(_) = self.tables.push(TableType { name, row }) {
            return Err(NoMemory);
        }
        Ok(())
    }
}
