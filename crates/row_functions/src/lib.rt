//! Functions of a table's rows: terms without tables that give each row a text, and that text as a function of term and row.
#![tactic(auto)]

ghost use Rattle.fz_ast.specs.Types.{ArrowT, NumT, TextT, UnlimitedT};
ghost use Rattle.fz_frac.specs.Distance.{Fin};
ghost use Rattle.linear_types.specs.Inferred.{TooSensitive, Unbound};
ghost use Rattle.metric_law.specs.Worked.{numeral_at, span};
ghost use Rattle.row_functions.specs.Laws.{FunctionsAreInferred, MeaningsAreComputed, RowFunctionsGiveTexts, TextsAreComputed, TextsAreUnique};
ghost use Rattle.row_functions.specs.RowFunctions.{IsRowFunction, row_text};
ghost use Rattle.row_functions.specs.Worked.{HasFault, HasType, counts_people, in_town, same_text, text_used, thirty, town_and_age, town_once, young_or_old};
ghost use Rattle.metric_values.specs.Values.{TextF};
ghost use Rattle.std.specs.Prelude.{codes, pos, replicate, ◌≡◌};

/// Where the rules of meaning give a term a value, it is the one that is computed.
pub fn meanings_are_computed()
    ensures { MeaningsAreComputed }
{}

/// A term is inferred to be a function of rows exactly where it is one.
pub fn functions_are_inferred()
    ensures { FunctionsAreInferred }
{}

/// A function of rows gives each row of its type a text of at most 64 bytes, and no other; within the limit of depth it is the one
/// that is computed.
pub fn rows_have_texts()
    ensures texts { RowFunctionsGiveTexts }
    ensures unique { TextsAreUnique }
    ensures computed { TextsAreComputed }
{}

/// Worked functions of rows with the columns town and age: the class of a row on both sides of 30 years, and what is no such function.
pub fn worked_functions()
    ensures function { IsRowFunction town_and_age young_or_old }
    ensures young { row_text young_or_old (in_town (codes "Bern") (pos 30)) ≡ codes "young" }
    ensures old { row_text young_or_old (in_town (codes "Bern") (pos 31)) ≡ codes "old" }
    ensures longest { row_text same_text (TextF (replicate 64 97)) ≡ replicate 64 97 }
    ensures other_row { HasType same_text 18 (UnlimitedT TextT TextT) }
    ensures no_text { HasType thirty 25 (UnlimitedT town_and_age NumT) }
    ensures linear { HasType town_once 43 (ArrowT town_and_age TextT) }
    ensures number { HasType (numeral_at 0 2 30) 2 NumT }
    ensures used_thrice { HasFault text_used (TooSensitive (span 0 41) (codes "t") (Fin 3 1)) }
    ensures unbound { HasFault counts_people (Unbound (span 28 34)) }
{}
