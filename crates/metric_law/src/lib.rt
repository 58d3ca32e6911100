//! The law that a program's type bounds how far its value moves.
#![tactic(auto)]

ghost use Rattle.fz_ast.specs.Limits.{IsBang, IsNumber};
ghost use Rattle.fz_ast.specs.Types.{ArrowT, BagT, BangT, NumT, SumT, TensorT, UnlimitedT};
ghost use Rattle.fz_frac.specs.Distance.{Distance, Fin, none, one, ◌⊑◌};
ghost use Rattle.linear_types.specs.Program.{Faulty, sensitivity_of};
ghost use Rattle.linear_types.specs.Rule.{rule};
ghost use Rattle.linear_types.specs.Typing.{Closed, Under};
ghost use Rattle.linear_types.specs.Inferred.{ASum, Exactly, Has, Mismatch, NotFlat, NotGround, NotNum, Range, TooSensitive, Unbound, Unbounded};
ghost use Rattle.metric_law.specs.Blanks.{BlanksChangeNoNumber, BlanksChangeNoValue};
ghost use Rattle.metric_law.specs.Law.{FlatTyping, GroundTyping, LooserFilter, LooserLetBang, LooserSplit, MetricPreservation};
ghost use Rattle.metric_law.specs.Law.{NearIsDistance, ProgramsAreBounded, ProgramsHaveValues, Totality, Uniqueness};
ghost use Rattle.metric_law.specs.Reached.{Reached, at_least_one, at_most_zero, bang, equal_to_zero, first_name_of, left_case_of, let_bang_of, let_of};
ghost use Rattle.metric_law.specs.Reached.{map_to_n, n, n_and_a_bag, n_of, right_case_of, second_name_of, sum_between, times_of, zero_is_equal};
ghost use Rattle.metric_law.specs.Refusals.{branches_of_functions, compared, condition_before_branches, map_to_bags, part_out_of_range, parts_come_first};
ghost use Rattle.metric_law.specs.Refusals.{range_comes_last, range_of_a_part_first, side_of_functions, table_alone, table_as_number, too_large_a_factor};
ghost use Rattle.metric_law.specs.Refusals.{too_large_a_product, unbound_table, unbounded_comes_first, used_twice, used_twice_without_limit};
ghost use Rattle.metric_law.specs.Unsound.{ComparedAtOne, FilterAtZero, LetBangUndivided, MapWithoutInf, PairByMaximum, RemovedAfterwards};
ghost use Rattle.metric_law.specs.Unsound.{SplitAtZero, TextComparedAtZero, Unsound, UnusedCaseAtZero, UsedAt};
ghost use Rattle.metric_law.specs.Worked.{Answers, Datasets, LooserScalar, Premises, adds_n, span};
ghost use Rattle.metric_law.specs.Worked.{bang_undone, clipped, counted, counted_twice, filtered_and_mapped, worked_tables};
ghost use Rattle.metric_law.specs.Worked.{scaled_argument, some_ages, split_in_halves, three_ages, unused_names};
ghost use Rattle.std.specs.Prelude.{[], codes, pos, ℕ, ℤ, ◌∷◌, ◌≡◌, ◌≤ℤ◌};

/// Near environments give near values, at the sum of sensitivity times distance, at every type and for every form of term.
pub fn metric_preservation()
    ensures law { MetricPreservation }
    ensures distance { NearIsDistance }
    ensures looser { LooserLetBang }
    ensures filter { LooserFilter }
    ensures split { LooserSplit }
{}

/// Where no function is inside, what a type has is said without meanings.
pub fn ground_typing()
    ensures elements { FlatTyping }
    ensures values { GroundTyping }
{}

/// A term that has a type has exactly one value in each typed environment.
pub fn one_value()
    ensures total { Totality }
    ensures unique { Uniqueness }
{}

/// Blanks change no meaning: a term's values are those of the term without its spans, but for the spans in functions.
pub fn blanks_change_no_meaning()
    ensures values { BlanksChangeNoValue }
    ensures numbers { BlanksChangeNoNumber }
{}

/// An accepted program has a number within the bounds of numbers on each dataset, and on two they differ by at most
/// its sensitivity times how far the datasets are apart.
pub fn programs_are_bounded()
    ensures value { ProgramsHaveValues }
    ensures bound { ProgramsAreBounded }
{}

/// With any one of these rules in the place of its own, a program breaks the bound.
pub fn each_rule_is_needed()
    ensures unused_case { Unsound UnusedCaseAtZero }
    ensures pair { Unsound PairByMaximum }
    ensures let_bang { Unsound LetBangUndivided }
    ensures comparison { Unsound ComparedAtOne }
    ensures text_comparison { Unsound TextComparedAtZero }
    ensures removal { Unsound RemovedAfterwards }
    ensures mapping { Unsound MapWithoutInf }
    ensures filter { Unsound FilterAtZero }
    ensures split { Unsound SplitAtZero }
    ensures linear { (r : Distance) → IsBang r → (r ⊑ one → ⊥) → Unsound (UsedAt r) }
{}

/// Each rule's scalar is the least that suffices: a term for each, and two near environments at which its value moves by just
/// as much as the rules say. Not so where several suffice: `let !x` over inf takes the least whole number, a case with unused
/// names 1, and `filter` and `split` inf for their function, where any above 0 does. A sum's bounds are in order here.
pub fn bounds_are_reached()
    ensures name { Reached (n_of NumT) n (one ∷ []) }
    ensures bang { (r : Distance) → IsBang r → Reached (n_of NumT) (bang r n) (one ∷ []) }
    ensures let_name { (r : Distance) → IsBang r → Reached (n_of NumT) (let_of r) (one ∷ []) }
    ensures let_bang { (p q : ℕ) (r : Distance) → IsBang (Fin p q) → IsBang r → Reached (n_of (BangT (Fin p q) NumT)) (let_bang_of r) (Fin p q ∷ []) }
    ensures first_name { (r : Distance) → IsBang r → Reached (n_of (TensorT NumT NumT)) (first_name_of r) (one ∷ []) }
    ensures second_name { (r : Distance) → IsBang r → Reached (n_of (TensorT NumT NumT)) (second_name_of r) (one ∷ []) }
    ensures left_case { (r : Distance) → IsBang r → Reached (n_of (SumT NumT NumT)) (left_case_of r) (one ∷ []) }
    ensures right_case { (r : Distance) → IsBang r → Reached (n_of (SumT NumT NumT)) (right_case_of r) (one ∷ []) }
    ensures factor { (k : ℤ) → IsNumber k → Reached (n_of NumT) (times_of k) (one ∷ []) }
    ensures sum { (lo hi : ℤ) → lo ≤ℤ hi → IsNumber lo → IsNumber hi → Reached (n_of (BagT NumT)) (sum_between lo hi) (one ∷ []) }
    ensures at_most_left { Reached (n_of NumT) at_most_zero (one ∷ []) }
    ensures at_most_right { Reached (n_of NumT) at_least_one (one ∷ []) }
    ensures equal_left { Reached (n_of NumT) equal_to_zero (one ∷ []) }
    ensures equal_right { Reached (n_of NumT) zero_is_equal (one ∷ []) }
    ensures map { Reached n_and_a_bag map_to_n (one ∷ none ∷ []) }
{}

/// Worked programs over a table of three ages, each with its sensitivity and its value.
pub fn worked_programs()
    ensures bang_undone { Answers bang_undone one three_ages (pos 3) }
    ensures scaled_argument { Answers scaled_argument (Fin 3 2) three_ages (pos 3) }
    ensures unused_names { Answers unused_names one three_ages (pos 5) }
    ensures split_in_halves { Answers split_in_halves one three_ages (pos 3) }
    ensures counted_twice { Answers counted_twice (Fin 2 1) three_ages (pos 6) }
    ensures filtered_and_mapped { Answers filtered_and_mapped one three_ages (pos 1) }
    ensures clipped { Answers clipped (Fin 100 1) some_ages (pos 140) }
{}

/// Worked refusals, at least one for each kind of fault: a comparison's sensitivity, a factor and a product past the range,
/// a linear argument used twice, an unbound table, and so on. Without the limit on its argument that function has a type.
pub fn worked_refusals()
    ensures compared { sensitivity_of worked_tables compared ≡ Faulty (Unbounded (codes "people")) }
    ensures factor { sensitivity_of worked_tables too_large_a_factor ≡ Faulty (Range (span 0 30)) }
    ensures product { sensitivity_of worked_tables too_large_a_product ≡ Faulty (Range (span 0 39)) }
    ensures used_twice { sensitivity_of worked_tables used_twice ≡ Faulty (TooSensitive (span 1 23) (codes "x") (Fin 2 1)) }
    ensures unbound { sensitivity_of worked_tables unbound_table ≡ Faulty (Unbound (span 5 12)) }
    ensures mismatch { sensitivity_of worked_tables table_as_number ≡ Faulty (Mismatch (span 0 6) (BagT NumT) (Exactly NumT)) }
    ensures branches { sensitivity_of worked_tables branches_of_functions ≡ Faulty (NotGround (span 0 59)) }
    ensures side { sensitivity_of worked_tables side_of_functions ≡ Faulty (NotGround (span 4 14)) }
    ensures map { sensitivity_of worked_tables map_to_bags ≡ Faulty (NotFlat (span 5 27)) }
    ensures no_number { sensitivity_of worked_tables table_alone ≡ Faulty (NotNum (BagT NumT)) }
    ensures without_limit { rule Closed used_twice_without_limit ≡ Has (UnlimitedT NumT NumT) [] }
{}

/// Of two faults the first is told: parts come before conditions, a condition on e before the branches,
/// conditions before range, unbounded before not a number. A part's range is told of the part.
pub fn first_faults()
    ensures parts_first { sensitivity_of worked_tables parts_come_first ≡ Faulty (Unbound (span 9 16)) }
    ensures condition_first { sensitivity_of worked_tables condition_before_branches ≡ Faulty (Mismatch (span 5 11) (BagT NumT) ASum) }
    ensures range_last { sensitivity_of worked_tables range_comes_last ≡ Faulty (Mismatch (span 19 25) (BagT NumT) (Exactly NumT)) }
    ensures unbounded_first { sensitivity_of worked_tables unbounded_comes_first ≡ Faulty (Unbounded (codes "people")) }
    ensures part_range { sensitivity_of worked_tables part_out_of_range ≡ Faulty (Range (span 4 34)) }
    ensures part_range_first { sensitivity_of worked_tables range_of_a_part_first ≡ Faulty (Range (span 9 23)) }
{}

/// The law's premises are met: by two datasets that are 3 apart, and at the type of a function.
pub fn premises_are_met()
    ensures datasets { Datasets counted 3 (pos 2) (pos 3) }
    ensures function { Premises (Under (codes "n") NumT Closed) adds_n (ArrowT NumT NumT) (one ∷ []) }
    ensures looser { LooserScalar }
{}
