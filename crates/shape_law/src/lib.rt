//! The run of a term without data, and the law that it bounds the height of each run on data.
#![tactic(auto)]

ghost use Rattle.metric_law.specs.Worked.{span, counted, filtered_and_mapped};
ghost use Rattle.shape_law.specs.Law.{FunctionPlansAreWithinLimits, Planned, PlansAreWithinLimits, ShapedFunctionsRun, ShapedProgramsRun, WalksHaveHeights};
ghost use Rattle.row_functions.specs.Worked.{town_once, young_or_old};
ghost use Rattle.shape_law.specs.Walk.{TooDeep, TooLong, TooWide};
ghost use Rattle.shape_law.specs.Worked.{FunctionPassesLimit, FunctionPlans, behind_lets, least_of, of_rows, ten_functions};
ghost use Rattle.shape_law.specs.Worked.{PassesLimit, Plans, WalksTooMuch, doubled, doubled_and_nested, nested, nested_and_doubled, united};

/// Where an accepted program has a shape by a walk of some height, it has a number on each dataset by a derivation no higher.
pub fn runs_are_planned()
    ensures { Planned }
{}

/// A walk that stops nowhere is as high as the deepest visit that it tells, and no limit is passed;
/// so an accepted program that has a shape has a number on each dataset by a derivation no higher.
pub fn walks_are_high_enough()
    ensures heights { WalksHaveHeights }
    ensures limits { PlansAreWithinLimits }
    ensures runs { ShapedProgramsRun }
{}

/// A function of rows that has a shape when it is applied to a row, without data, passes no limit, and gives each row its text by
/// derivations no higher than the depth that is told.
pub fn functions_are_planned()
    ensures limits { FunctionPlansAreWithinLimits }
    ensures runs { ShapedFunctionsRun }
{}

/// Plans of worked programs: a count, a filter over a map, a bag doubled six times, and one doubled seven times, which is too wide;
/// six maps, each of which sums the bag before for each row, and seven, whose walks are too many; three that sum a union of the
/// bag before with itself, and four, of which the last union takes too many; and seven maps with seven unions, which are too wide,
/// whichever come first, and with six, whose walks are too many.
pub fn worked_plans()
    ensures counted { Plans counted 2 2 1 1 2 }
    ensures filtered_and_mapped { Plans filtered_and_mapped 12 5 1 1 4 }
    ensures doubled_six_times { Plans (doubled 6) 26 8 64 1 8 }
    ensures too_wide { PassesLimit (doubled 7) (TooWide (span 0 1) 128) }
    ensures nested_six_times { Plans (nested 6) 38 9 1 64 14 }
    ensures too_many_walks { WalksTooMuch (nested 7) }
    ensures united_three_times { Plans (united 3) 32 8 2 41 10 }
    ensures too_many_in_a_union { WalksTooMuch (united 4) }
    ensures wide_behind_walks { PassesLimit (nested_and_doubled 7 7) (TooWide (span 0 1) 128) }
    ensures wide_before_walks { PassesLimit (doubled_and_nested 7 7) (TooWide (span 0 1) 128) }
    ensures walks_before_unions { WalksTooMuch (nested_and_doubled 7 6) }
    ensures walks_behind_unions { WalksTooMuch (doubled_and_nested 6 7) }
{}

/// Plans of worked functions of rows, on both sides of the limits: the term is as deep as a program, its body one deeper than that, and
/// no deeper where the term is deep itself; the term's turns count.
pub fn worked_functions()
    ensures young_or_old { FunctionPlans young_or_old 9 5 5 }
    ensures linear { FunctionPlans town_once 4 3 3 }
    ensures deep_body { FunctionPlans (of_rows (least_of 126)) 128 128 128 }
    ensures too_deep_body { FunctionPassesLimit (of_rows (least_of 127)) (TooDeep (span 0 1)) }
    ensures deep_term { FunctionPlans (behind_lets 127 (of_rows (least_of 0))) 256 128 128 }
    ensures too_deep_term { FunctionPassesLimit (behind_lets 128 (of_rows (least_of 0))) (TooDeep (span 3 4)) }
    ensures long { FunctionPlans (of_rows (ten_functions 13)) 20000 77 77 }
    ensures too_long { FunctionPassesLimit (of_rows (ten_functions 14)) (TooLong (span 7 8)) }
{}
