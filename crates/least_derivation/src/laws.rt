//! What is proved of the derivations that are written.
ghost use Rattle.least_derivation.specs.Derived.{RulesAreLeast};
ghost use Rattle.least_derivation.specs.Law.{DerivedIsJudged};

/// A term that the typing rules accept has a least derivation, with its type and its sensitivities.
pub fn rules_are_least()
    ensures { RulesAreLeast }
{}

/// What is written of an accepted program is judged to be a derivation of it, with the checker's own number.
pub fn derived_is_judged()
    ensures { DerivedIsJudged }
{}
