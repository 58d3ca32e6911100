//! The values of numbers change no type, no sensitivity and no plan: a release's text is judged as its widest text is.
#![tactic(auto)]

ghost use Rattle.release_laws.specs.Numbers.{NumbersChangeNoLimit, NumbersChangeNoPlan, NumbersChangeNoSensitivity, NumbersChangeNoWalks};
ghost use Rattle.release_laws.specs.Texts.{TextsAreJudgedAsTheWidest};

/// Two programs that differ in spans and in the values of their numbers alone are accepted with the same sensitivities and have the
/// same plan, or pass a limit both, or take too many walks both.
pub fn numbers_change_no_judgement()
    ensures sensitivities { NumbersChangeNoSensitivity }
    ensures plans { NumbersChangeNoPlan }
    ensures walks { NumbersChangeNoWalks }
    ensures limits { NumbersChangeNoLimit }
{}

/// Whatever the earlier answers are: what the widest text is accepted with, the text is.
pub fn texts_are_judged_as_the_widest()
    ensures { TextsAreJudgedAsTheWidest }
{}
