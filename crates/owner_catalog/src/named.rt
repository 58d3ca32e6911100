//! Things that have names, and how one of them is found by its name.
ghost use Rattle.std.specs.Prelude.{◌≡◌, List, ℕ, position, bytes_eq};

use std::marker::Model;

/// A name or a key.
#[derive(Debug, Drop)]
pub struct Label {
    text: String,
}

impl Model for Label {
    ghost use Rattle.std.specs.Prelude.{List, ℕ};
    ghost use Rattle.std.specs.String.{string_bytes};

    ghost Value = { List ℕ };

    ghost view = { λ l. string_bytes l.text };
}

impl Label {
    ghost use Rattle.std.specs.String.{string_bytes};

    pub(crate) fn new(text: String) -> Label
        ensures { result ≡ string_bytes text }
    {
        Label { text }
    }

    pub fn as_str(&self) -> &str
        ensures { result.now ≡ self.now }
    {
        self.text.as_str()
    }
}

/// What has a name.
pub(crate) trait Named {
    ghost name_of: { Self → List ℕ };

    fn name(&self) -> &str
        ensures { result.now ≡ name_of self.now };
}

impl Named for Label {
    ghost name_of = { λ label. label };

    fn name(&self) -> &str {
        self.as_str()
    }
}

/// The number of the one with this name.
pub(crate) fn find<T: Named>(all: &[T], name: &[u8]) -> Option<usize>
    ensures { result ≡ position (λ one. bytes_eq name.now (T.name_of one)) all.now }
{
    all.iter().position(|one| one.name().as_bytes() == name)
}
