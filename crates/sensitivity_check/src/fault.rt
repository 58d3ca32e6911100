//! What the checker finds wrong with a program.
use fz_ast::{Name, Span, Types};
use fz_frac::Sens;
use typing_rows::Wanted;

/// The first fault of a program. Types are numbers in the list of types beside them.
#[derive(Drop)]
pub enum CheckFault {
    /// The name is neither bound nor a table.
    Unbound {
        span: Span,
    },
    /// A part's type isn't the wanted one, or of the wanted form.
    Mismatch {
        span: Span,
        types: Types,
        found: u32,
        wanted: Wanted,
    },
    /// A sum or a case would hold a type with a function inside.
    NotGround {
        span: Span,
    },
    /// A bag would hold a type with a function or a bag inside.
    NotFlat {
        span: Span,
    },
    /// A linear function uses its argument at `r`, which is above 1.
    TooSensitive {
        span: Span,
        name: Name,
        r: Sens,
    },
    /// A fraction at this term is out of range.
    Range {
        span: Span,
    },
    /// The program's sensitivity to this table, by its number, has no bound; it is the first such.
    Unbounded {
        table: usize,
    },
    /// The program is no number.
    NotNum {
        types: Types,
        found: u32,
    },
    /// There was no memory for the answer.
    NoMemory,
}
