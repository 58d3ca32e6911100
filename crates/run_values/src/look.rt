//! Elements looked at without memory: the outermost form, and its parts in their places.
ghost use Rattle.std.specs.Prelude.{◌≡◌};
ghost use Rattle.run_values.specs.Looks.{look_of, part_of};

use crate::value::Value;

/// What stands at a place inside a value.
#[derive(Clone, Copy)]
pub enum Part<'a> {
    Whole(&'a Value),
    /// What a truth holds.
    Unit,
}

/// The outermost form of an element. What is no element, a bag or a function, looks like `()`.
#[derive(Clone, Copy)]
pub enum Look<'a> {
    Num(i64),
    Text(&'a [u8]),
    Unit,
    Pair(Part<'a>, Part<'a>),
    Inl(Part<'a>),
    Inr(Part<'a>),
    Bang(Part<'a>),
}

impl<'a> Part<'a> {
    pub fn look(self) -> Look<'a>
        ensures { look_of result ≡ part_of self.entry }
    {
        match self {
            Part::Whole(value) => value.look(),
            Part::Unit => Look::Unit,
        }
    }
}
