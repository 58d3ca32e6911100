//! What the run without data tells of a program.
use fz_ast::Span;

/// How deep, long and wide the runs of a program are: the deepest visit, the visits, and the tables in the widest bag; and how many walks
/// of bags they take where each table has one row.
#[derive(Clone, Copy, Debug, PartialEq, Eq)]
pub struct Plan {
    pub depth: u32,
    pub turns: u32,
    pub width: u32,
    pub walks: u32,
    /// How deep terms are evaluated within one another, those of the functions that a walk calls at the walk.
    pub reach: u32,
}

/// What a run without data counted so far, and whether some bag takes more walks than one may, or is evaluated deeper.
#[derive(Clone, Copy)]
pub struct Count {
    pub plan: Plan,
    pub too_many: bool,
}

/// Why a program has no plan: the first limit that its run without data passes, and where; or too many walks, where no limit is passed.
#[derive(Clone, Copy)]
pub enum ShapeFault {
    /// A visit is deeper than 128.
    TooDeep { span: Span },
    /// A visit is the 20,001st.
    TooLong { span: Span },
    /// A union is more than 64 tables wide.
    TooWide { span: Span, width: u32 },
    /// No limit is passed, but a walk of a bag takes more than 64 walks with itself, or is evaluated deeper than 400.
    TooManyWalks,
    /// Memory ran out.
    NoMemory,
}
