//! The laws of distances, each as a clause of a function that does nothing.
ghost use Rattle.std.specs.Prelude.{◌≡◌, ◌↔◌, ◌<◌, ◌≤◌, ◌⊎◌, ℕ, false, IsTrue, Some};
ghost use Rattle.std.specs.Int.{IsGcd};
ghost use Rattle.fz_frac.specs.Distance.{Distance, Fin, Inf, ◌⊑◌, ◌≈◌, is_le, none, one, add, mul, greater, quotient, ceil_times};
ghost use Rattle.fz_frac.specs.Sens.{distance_of};
ghost use Rattle.fz_frac.specs.declared.sens.Sens.{Sens};
ghost use Rattle.fz_frac.specs.Lowest.{gcd, is_out, lowest, IsNarrow};

/// Distances with sum and product are a commutative semiring, in which 0 times infinity is 0, and
/// sum and product keep the order.
pub fn ordered_semiring()
    ensures add_is_associative { (a b c : Distance) → add (add a b) c ≈ add a (add b c) }
    ensures add_is_commutative { (a b : Distance) → add a b ≈ add b a }
    ensures none_adds_nothing { (a : Distance) → add none a ≈ a }
    ensures mul_is_associative { (a b c : Distance) → mul (mul a b) c ≈ mul a (mul b c) }
    ensures mul_is_commutative { (a b : Distance) → mul a b ≈ mul b a }
    ensures one_changes_nothing { (a : Distance) → mul one a ≈ a }
    ensures mul_distributes { (a b c : Distance) → mul a (add b c) ≈ add (mul a b) (mul a c) }
    ensures none_times_any_is_none { (a : Distance) → mul none a ≈ none }
    ensures none_times_inf_is_none { mul none Inf ≡ none }
    ensures add_keeps_order { (a b c d : Distance) → a ⊑ b → c ⊑ d → add a c ⊑ add b d }
    ensures mul_keeps_order { (a b c d : Distance) → a ⊑ b → c ⊑ d → mul a c ⊑ mul b d }
{}

/// Distances are totally ordered from 0 to infinity, and the greater of two is their least upper
/// bound.
pub fn order()
    ensures reflexive { (a : Distance) → a ⊑ a }
    ensures transitive { (a b c : Distance) → a ⊑ b → b ⊑ c → a ⊑ c }
    ensures total { (a b : Distance) → (a ⊑ b) ⊎ (b ⊑ a) }
    ensures none_is_least { (a : Distance) → none ⊑ a }
    ensures inf_is_greatest { (a : Distance) → a ⊑ Inf }
    ensures decided { (a b : Distance) → IsTrue (is_le a b) ↔ (a ⊑ b) }
    ensures greater_is_least_bound { (a b d : Distance) → (greater a b ⊑ d) ↔ ((a ⊑ d) × (b ⊑ d)) }
{}

/// What lowest terms, range, quotient and rounding up mean.
pub fn lowest_terms()
    ensures greatest_divisor { (a b : ℕ) → IsGcd a b (gcd a b) }
    ensures one_form { (p q r s : ℕ) → 0 < q → 0 < s → gcd p q ≡ 1 → gcd r s ≡ 1 → Fin p q ≈ Fin r s → (p ≡ r) × (q ≡ s) }
    ensures in_range { (a : Distance) → IsTrue (is_out a) ⊎ IsNarrow a }
    ensures out_of_range { (a : Distance) → IsTrue (is_out a) → IsNarrow a → ⊥ }
    ensures kept_in_range { (s : Sens) → is_out (distance_of s) ≡ false }
    ensures kept_lowest { (s : Sens) (d : Distance) → distance_of s ≈ d → distance_of s ≡ lowest d }
    ensures quotient_is_least { (a k : Distance) (r s : ℕ) → 0 < r → (quotient a (Fin r s) ⊑ k) ↔ (a ⊑ mul k (Fin r s)) }
    ensures ceiling_is_least { (a : Distance) (e m : ℕ) → ceil_times a e ≡ Some m → (n : ℕ) → (mul a (Fin e 1) ⊑ Fin n 1) ↔ (m ≤ n) }
{}
