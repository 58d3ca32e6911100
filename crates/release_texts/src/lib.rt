//! The texts of a release block: what the text of a release is, once the earlier answers stand in front of it.
#![tactic(auto)]

ghost use Rattle.release_texts.specs.Fronts.{OneAnswerInFront};
ghost use Rattle.release_texts.specs.Numbers.{NumbersAreSpelled};
ghost use Rattle.release_texts.specs.Releases.{OneAnswerMore, PlacesChangeNoTerm};
ghost use Rattle.release_texts.specs.Slices.{SlicesHaveTheirTokens};
ghost use Rattle.release_texts.specs.Texts.{NoTextHasMoreTokens, NoTextIsLonger, TextsHaveTheirTokens, WidestTextsAreTexts};
ghost use Rattle.release_texts.specs.Words.{NoTermHasTheseWords};

/// A release's tokens with one answer more in front are the release's term under one name more.
pub fn one_number_more()
    ensures more { OneAnswerMore }
    ensures places { PlacesChangeNoTerm }
{}

/// `do`, `release` and `at` stand in no term, so a block is cut at them.
pub fn no_term_has_these_words()
    ensures { NoTermHasTheseWords }
{}

/// `let x = v in ` in front of a text puts its five or six tokens in front of the text's.
pub fn one_answer_in_front()
    ensures { OneAnswerInFront }
{}

/// What stands between two tokens of a text is cut into the tokens between them.
pub fn a_slice_has_its_tokens()
    ensures { SlicesHaveTheirTokens }
{}

/// An answer that is written in a text is read back as that number.
pub fn numbers_are_spelled()
    ensures { NumbersAreSpelled }
{}

/// The text of a release is the tokens of its `let`s and then its own; its widest text is that of the least answers, and none is longer or has
/// more tokens.
pub fn texts_and_their_widest()
    ensures tokens { TextsHaveTheirTokens }
    ensures widest { WidestTextsAreTexts }
    ensures bytes { NoTextIsLonger }
    ensures count { NoTextHasMoreTokens }
{}
