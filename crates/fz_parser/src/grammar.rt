//! What the grammar is made of.
use fz_ast::{Arrow, Binary, Ranged, Side, Unary};
use fz_lexer::{Sign, Word};

/// What a token has to be.
#[derive(Clone, Copy)]
pub enum Terminal {
    Named,
    Numeral,
    /// A number from 1 to 2^32 - 1.
    Positive,
    Quoted,
    Keyword(Word),
    Symbol(Sign),
}

/// What a rule stands for.
#[derive(Clone, Copy)]
#[rattlefmt::skip]
pub enum Phrase {
    Expression, Binding, Comparison, ComparisonTail, Addition, AdditionTail, Multiplication,
    NegativeTail, NumeralTail, Application, ApplicationTail, Atom, Simple, Inside, InsideTail,
    Integer, Sensitivity, SensitivityTail, AnyType, AnyTypeTail, PlusType, PlusTypeTail,
    ProductType, ProductTypeTail, PrefixType,
}

/// What stands between two types.
#[derive(Clone, Copy)]
pub enum Joint {
    Lollipop,
    Sum,
    Tensor,
    With,
}

/// What is made of the parts that were read last.
#[derive(Clone, Copy)]
#[rattlefmt::skip]
pub enum Action {
    Begin, LambdaTerm(Arrow), LetBangTerm, LetPairTerm, LetTerm, CaseTerm, IfTerm,
    InfixTerm(Binary), NegativeTerm, NegativeTimesTerm, TimesTerm, NumberTerm, UnaryTerm(Unary),
    RangedTerm(Ranged), InjectTerm(Side), BangTerm, PrefixTerm(Binary), NameTerm, TextTerm,
    TruthTerm(Side), UnitTerm, GroupTerm, PlainInteger, NegativeInteger, WholeFactor,
    FractionFactor, InfFactor, JoinType(Joint), ArrowType, BangType, BagType, NumType, TextType,
    UnitType, BoolType, GroupType,
}

/// What a rule's body is made of.
#[derive(Clone, Copy)]
pub enum Item {
    /// A token.
    Take(Terminal),
    /// What one of the phrase's rules stands for.
    Read(Phrase),
    /// A part is made.
    Make(Action),
}

/// What is on top of the stack before a token.
#[derive(Clone, Copy)]
pub enum Top {
    /// Nothing.
    Empty,
    /// Such a token.
    Wants(Terminal),
    /// No rule fits.
    DeadEnd,
}
