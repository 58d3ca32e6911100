//! A line of a derivation as the code has it.

ghost use Rattle.std.specs.Prelude.{◌≡◌};
ghost use Rattle.std.specs.Cmp.Lexicographic.{slice_cmp};
ghost use Rattle.std.specs.List.Sorted.{IsStrictlySortedBy-prop};
ghost use Rattle.std.specs.Ordering.{nat_cmp};
ghost use Rattle.fz_ast.specs.Names.{name_of};
ghost use Rattle.derivation_lines.specs.Lines.{AreInOrder, names_said};
ghost use Rattle.derivation_lines.specs.Said.{says_of};

use fz_ast::{Name, NoMemory};
use fz_frac::Sens;
use std::cmp::Ordering;

/// A name, and how sensitive the node is to it.
#[derive(Clone, Copy)]
pub struct Said {
    pub name: Name,
    pub amount: Sens,
}

/// A node's type, by its number in an arena, and what is said of names, which stand in byte order.
#[derive(Drop)]
pub struct Line {
    pub ty: u32,
    pub says: Vec<Said>,
    pub ghost order: { AreInOrder (says_of says.items) } by { IsStrictlySortedBy-prop (slice_cmp nat_cmp) (names_said (says_of says.items)) },
}

/// Why a derivation isn't right.
#[derive(Clone, Copy, Debug, PartialEq, Eq)]
pub enum JudgeFault {
    /// The least line at fault, from 0.
    Line { at: usize },
    /// Memory ran out.
    NoMemory,
}

impl From<NoMemory> for JudgeFault {
    ghost use Rattle.std.specs.Prelude.{◌≡◌};
    ghost use Rattle.derivation_lines.specs.declared.line.JudgeFault.TheVariants.{NoMemory};

    ghost from_gives = { λ _ fault. fault ≡ NoMemory };

    fn from(_error: NoMemory) -> JudgeFault {
        JudgeFault::NoMemory
    }
}

/// How two names stand in byte order.
pub fn byte_order(x: &Name, y: &Name) -> Ordering
    ensures { result ≡ slice_cmp nat_cmp (name_of x.now) (name_of y.now) }
{
    x.as_bytes().cmp(y.as_bytes())
}

impl Line {
    ghost use Rattle.std.specs.Prelude.{MatchResult};
    ghost use Rattle.fz_frac.specs.Distance.{none};
    ghost use Rattle.fz_frac.specs.Sens.{distance_of};
    ghost use Rattle.derivation_lines.specs.Lines.{amount_in};
    ghost use Rattle.derivation_lines.specs.Found.{IsSaidAt};

    // Where the name is said, or else where it would be.
    fn place_of(&self, name: &Name) -> Result<usize, usize>
        ensures { MatchResult result (IsSaidAt self.now.says.items (name_of name.now))
            (λ _. amount_in (says_of self.now.says.items) (name_of name.now) ≡ none) }
    {
        self.says
            .binary_search_by(|said| byte_order(&said.name, name))
    }

    /// What is said of a name: 0 where nothing is.
    pub fn amount(&self, name: &Name) -> Sens
        ensures { distance_of result ≡ amount_in (says_of self.now.says.items) (name_of name.now) }
    {
        match self.place_of(name) {
            Ok(place) => self.says[place].amount,
            Err(_) => Sens::whole(0),
        }
    }
}
