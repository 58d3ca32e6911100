//! The names of the files that were read. Clauses alone see them: at run time there is nothing of them.

ghost use Rattle.std.specs.Prelude.{◌≡◌, ℕ, List, [], ◌∷◌, ◌++◌};
ghost use Rattle.std.specs.Borrow.{ftrue};

use std::marker::Model;

/// A file's name.
#[derive(Clone, Copy, Drop)]
pub(crate) struct Name<'a> {
    pub text: &'a str,
}

/// The names of the files that were read so far. It takes no memory.
#[derive(Drop)]
pub struct Names {
    pub ghost read: { List (List ℕ) },
}

impl Model for Names {
    ghost also_owns = { λ _. ftrue };
}

impl Names {
    /// No name.
    pub(crate) fn new() -> Names
        ensures { result.read ≡ [] }
    {
        Names {}
    }

    /// One name more.
    pub(crate) fn and(&self, _name: &Name<'_>) -> Names
        ensures { result.read ≡ self.now.read ++ _name.now.text.now ∷ [] }
    {
        Names {}
    }
}
