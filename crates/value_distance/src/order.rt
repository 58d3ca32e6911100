//! The order by which elements are sorted.
ghost use Rattle.std.specs.Prelude.{◌≡◌};
ghost use Rattle.std.specs.Cmp.{IsTotalOrder};
ghost use Rattle.std.specs.declared.cmp.Ordering.TheVariants.{Equal};
ghost use Rattle.metric_values.specs.Values.{Flat};
ghost use Rattle.value_distance.specs.Order.{element_cmp};

/// Elements are totally ordered, and only equal ones tie.
pub fn elements_are_ordered()
    ensures total { IsTotalOrder element_cmp }
    ensures ties { (x y : Flat) → element_cmp x y ≡ Equal → x ≡ y }
{}
