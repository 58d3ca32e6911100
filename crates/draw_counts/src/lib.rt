//! How noise is distributed: laws of how many lists of draws give which numbers. There is nothing to run.
#![tactic(auto)]

ghost use Rattle.draw_counts.specs.Sequence.{SequenceIsPrivate};
ghost use Rattle.draw_counts.specs.Laws.{UniformIsCounted, UniformIsEven, TrialsAreExact};
ghost use Rattle.draw_counts.specs.Laws.{NoiseIsSymmetric, LargerNoiseIsRarer, ExhaustionIsRare, WholeEpsIsPrivate};

/// Of the lists of n draws, equally many give each number below m, whatever is asked of the draws after it; and a trial of
/// n/d gives a one in exactly n/d of the lists that give it a result. (It is proved for every m, n and d.)
pub fn uniform_numbers_are_uniform()
    ensures counted { UniformIsCounted }
    ensures equal { UniformIsEven }
    ensures fraction { TrialsAreExact }
{}

/// A noise and its opposite come from equally many lists of draws, the limit of 4,096 included. (It is proved for every
/// scale and for whatever is asked of a noise.)
pub fn noise_is_symmetric()
    ensures symmetric { NoiseIsSymmetric }
{}

/// A noise k + 1 comes from no more lists of draws than k, from 0 on. (It is proved for every EPS of up to six places; with
/// `noise_is_symmetric` it says the same of negative noise.)
pub fn larger_noise_is_rarer()
    ensures rarer { LargerNoiseIsRarer }
{}

/// Fewer than one list of 4,096 draws in 2^200 gives no noise. (It is proved for every scale t/s with t up to 10^6, so for
/// every EPS of up to six places.)
pub fn exhaustion_is_rare()
    ensures rare { ExhaustionIsRare }
{}

/// At EPS 1, 2, 3, .. an answer, a value with noise, is (epsilon, 2^-128)-differentially private, where epsilon is EPS times
/// how far two values are apart and at most 100: for any two values and any set of answers. (It is proved, and there is
/// nothing to do.)
pub fn whole_eps_is_private()
    ensures private { WholeEpsIsPrivate }
{}

/// At EPS 1, 2, 3, .. a whole sequence of answers about the same data is (epsilon, asks * 2^-128)-differentially private: each
/// ask may hang on the answers before, and epsilon is the sum, over the asks, of EPS times how far apart the values are that
/// two sets of data give. (It is proved, and there is nothing to do.)
pub fn sequence_is_private()
    ensures private { SequenceIsPrivate }
{}
