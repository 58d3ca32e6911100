//! What is proved of the definitions.

ghost use Rattle.std.specs.Prelude.{◌≡◌};
ghost use Rattle.derivation_commands.specs.Task.{Task};
ghost use Rattle.derivation_commands.specs.Outcome.{IsOutcomeOf, Outcome};
ghost use Rattle.derivation_commands.specs.Promise.{AYesBoundsTheValues, WhatIsDerivedIsJudgedYes};

/// What comes of a derivation that is to be written or judged is one.
pub fn outcomes_are_unique()
    ensures { (task : Task) (a b : Outcome) → IsOutcomeOf task a → IsOutcomeOf task b → a ≡ b }
{}

/// Where a derivation gets a yes, whoever wrote it, the values of the program on two datasets differ by at most the number of the yes times how far
/// these are apart, and there is one on each.
pub fn a_yes_bounds_the_values()
    ensures { AYesBoundsTheValues }
{}

/// What is written as a program's derivation is judged yes, with the sensitivity that a `check` finds.
pub fn what_is_derived_is_judged_yes()
    ensures { WhatIsDerivedIsJudgedYes }
{}
