//! What the model of a disk says. Each function does nothing: its contract is the law.

ghost use Rattle.outside_disks.specs.Laws.{ReadsAreAnImage, NowIsAMoment, SinceNowIsNow, MomentsStay};

/// What reads give is one of the files that a stop now may leave.
pub fn reads_are_an_image()
    ensures { ReadsAreAnImage }
{}

/// A stop now is one at some moment since any earlier one.
pub fn now_is_a_moment()
    ensures { NowIsAMoment }
{}

/// Since now there is only now.
pub fn since_now_is_now()
    ensures { SinceNowIsNow }
{}

/// What a stop may have left, it may have left still after further steps.
pub fn moments_stay()
    ensures { MomentsStay }
{}
