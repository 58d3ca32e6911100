//! What is proved of derivations.
ghost use Rattle.fz_derive.specs.Law.{DerivableExactly, DerivableIsBounded, DerivedByPlace, DerivedHasValue, DerivedIsBounded, EitherForAllBytes, JudgedIsBounded, LinesAreNodes, NumberOrLine, OneLine, OneNumber};
ghost use Rattle.fz_derive.specs.Names.{NamesAreOfTokens, WordsAreRead};

/// What is derived by names is derived by the places of names, and what is derived so bounds how far a term's value moves, by meanings
/// alone; and the term has a value.
pub fn derived_is_bounded()
    ensures places { DerivedByPlace }
    ensures bound { DerivedIsBounded }
    ensures value { DerivedHasValue }
{}

/// And so of a whole program: it has a number on each dataset, and its numbers on two differ by at most the greatest of what its first
/// line says times how far these are apart. Whatever bytes are judged to be a number, that number is such a bound.
pub fn derivable_is_bounded()
    ensures derivable { DerivableIsBounded }
    ensures judged { JudgedIsBounded }
{}

/// No line is at fault exactly where the lines are a derivation, which has a line for each node.
pub fn faultless_is_derivable()
    ensures exact { DerivableExactly }
    ensures lines { LinesAreNodes }
{}

/// All bytes are judged, in one way: a number, and one alone, or a least line at fault, and one alone.
pub fn one_judgement()
    ensures all { EitherForAllBytes }
    ensures number { OneNumber }
    ensures either { NumberOrLine }
    ensures line { OneLine }
{}

/// The names of a term, those of variables and those that are bound, are among its tokens. So the names of a term that is read from
/// bytes are names of the language, which a line can say.
pub fn names_are_of_tokens()
    ensures tokens { NamesAreOfTokens }
    ensures words { WordsAreRead }
{}
