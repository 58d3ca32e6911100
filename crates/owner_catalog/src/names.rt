//! The names of a list, each found at its number.
ghost use Rattle.std.specs.Prelude.{◌≡◌, ◌++◌, [], ◌∷◌, not, position, bytes_eq, IfOk, if◌then◌else◌};
ghost use Rattle.std.specs.List.{list_any};

use indexmap::IndexSet;
use std::alloc::{AllocError, Global};
use std::marker::Model;

/// Names or keys in order, no two of them the same.
///
/// One is found by its hash, in expected constant time. The hash's seed is fixed: whoever picks names that collide makes
/// finding one of them take as many steps as there are such names.
#[derive(Drop)]
pub(crate) struct Names {
    texts: IndexSet<Vec<u8>>,
}

impl Model for Names {
    ghost use Rattle.std.specs.Prelude.{List, ℕ, map};

    ghost Value = { List (List ℕ) };

    ghost view = { λ n. map (λ text. text.items) n.texts.keys };
}

impl Names {
    pub(crate) fn new(alloc: Global) -> Names
        ensures { result ≡ [] }
    {
        Names {
            texts: IndexSet::new(alloc),
        }
    }

    /// Puts a name behind the others, unless it is one of them, and says whether it did.
    pub(crate) fn add(&mut self, alloc: Global, name: &str) -> Result<bool, AllocError>
        ensures added { IfOk result (λ added. added ≡ not (list_any (bytes_eq name.now) self.old)) }
        ensures names { IfOk result (λ added. self.new ≡ (if added then self.old ++ name.now ∷ [] else self.old)) }
    {
        let text = Vec::from_slice(alloc, name.as_bytes())?;
        let added = self.texts.insert(text)?;
        Ok(added)
    }

    /// The number of a name, if it is one of them.
    pub(crate) fn number(&self, name: &[u8]) -> Option<usize>
        ensures { result ≡ position (bytes_eq name.now) self.now }
    {
        self.texts.get_index_of(name)
    }
}
