//! What a row of the typing rules answers.
use fz_ast::{Name, NoMemory, Span};
use fz_frac::Sens;

/// What a part's type was wanted to be. A type is a number in the fault's types.
#[derive(Clone, Copy)]
pub enum Wanted {
    Exactly(u32),
    WithPair,
    Tensor,
    Sum,
    Arrow,
    Bang,
    Bag,
    UnlimitedArrow,
    NumberOrText,
}

/// A term's type, by its number in the arena, and its sensitivities, the innermost name first.
#[derive(Drop)]
pub struct Judged {
    pub ty: u32,
    pub amounts: Vec<Sens>,
}

/// The first fault of a term. Types are numbers in the arena.
#[derive(Clone, Copy)]
pub enum RowFault {
    Unbound {
        span: Span,
    },
    Mismatch {
        span: Span,
        found: u32,
        wanted: Wanted,
    },
    NotGround {
        span: Span,
    },
    NotFlat {
        span: Span,
    },
    TooSensitive {
        span: Span,
        name: Name,
        r: Sens,
    },
    Range {
        span: Span,
    },
    NoMemory,
}

impl From<NoMemory> for RowFault {
    ghost use Rattle.std.specs.Prelude.{◌≡◌};
    ghost use Rattle.typing_rows.specs.declared.clause.RowFault.TheVariants.{NoMemory as Wanting};

    ghost from_gives = { λ _ fault. fault ≡ Wanting };

    fn from(_: NoMemory) -> RowFault {
        RowFault::NoMemory
    }
}
