//! What is proved of the definitions. Each function does nothing: its contract is the law.

ghost use Rattle.answer_path.specs.Laws.{AcceptedAreBounded, AcceptedHaveValues, AloneIsAnswered, AloneIsMet, ChargedAreBounded, ChargedHaveValues};
ghost use Rattle.answer_path.specs.Laws.{EveryReading, ExactlyIsMet, LostAreCharged, OnePassCloses, OneReading, OneValue, VerdictsSeeNoAnswers};
ghost use Rattle.answer_path.specs.Laws.{RefusalsAddNothing, RefusalsLeavePass, RefusalsLeaveRecords, WalksAloneHaveNoVerdict, WalksAreTold};

/// Any bytes come to just one term or one fault.
pub fn programs_are_read_in_one_way()
    ensures reading { OneReading }
    ensures every { EveryReading }
{}

/// An accepted program has one number on each dataset, and on two datasets these differ by at most its sensitivity times
/// how far the datasets are apart.
pub fn programs_are_bounded()
    ensures value { AcceptedHaveValues }
    ensures one { OneValue }
    ensures bound { AcceptedAreBounded }
{}

/// A program that is accepted in a view has a number on the view's rows, so one that is granted a reservation can be
/// answered; on two datasets these differ by at most its sensitivity times how far the view's rows are apart.
pub fn accepted_programs_have_values()
    ensures value { ChargedHaveValues }
    ensures bound { ChargedAreBounded }
{}

/// A verdict is the same with every answer in the records set to 0; rows and noise it isn't given.
pub fn verdicts_see_no_answers()
    ensures { VerdictsSeeNoAnswers }
{}

/// A line that is alone is answered on the records that it saw, and its book closed by its own appends alone.
pub fn lone_asks_are_answered()
    ensures answered { AloneIsAnswered }
    ensures closes { OnePassCloses }
{}

/// A demand whose line is alone is met on just the records that were known, and what it adds stands right behind them.
pub fn lone_demands_are_met()
    ensures exact { AloneIsMet }
    ensures met { ExactlyIsMet }
{}

/// Where a reply says that an answer was lost, its reservation and its settlement were added.
pub fn lost_answers_are_charged()
    ensures { LostAreCharged }
{}

/// A line that is refused by the budget (40, 41), a recall, a balance, and one that is told 42 of a book that was seen shut before, add
/// nothing: the pass's own records stay, and what it has seen goes on from what it had. A pass that is alone on its book is the same after it,
/// and where demands are met exactly, as one worker's are, the records are.
pub fn refusals_add_nothing()
    ensures any { RefusalsAddNothing }
    ensures alone { RefusalsLeavePass }
    ensures exactly { RefusalsLeaveRecords }
{}

/// A query whose program takes too many walks is told that memory ran out, adds nothing, and is never charged; on each other there is a verdict.
pub fn walks_are_told()
    ensures told { WalksAreTold }
    ensures verdict { WalksAloneHaveNoVerdict }
{}
