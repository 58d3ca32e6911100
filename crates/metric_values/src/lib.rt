//! Tables in memory, values, and the distance of two.
#![tactic(auto)]

ghost use Rattle.metric_values.specs.Laws.{ApartSymmetric, ApartTriangle, ApartZeroIsSameRows, BagSymmetric, BagTriangle};
ghost use Rattle.metric_values.specs.Laws.{BagZeroIsPermutation, RemovalLeavesLeast, Symmetric, Triangle, ZeroIsSame};

pub mod column;
pub mod table;
pub mod texts;

pub use column::{Cell, Column};
pub use table::{Table, Tables};
pub use texts::Texts;

/// The distance of values is a metric up to the order of bags.
pub fn distance_is_a_metric()
    ensures zero { ZeroIsSame }
    ensures symmetric { Symmetric }
    ensures triangle { Triangle }
{}

/// The distance of bags is the removal of equal elements one for one, and a metric up to their order.
pub fn bag_distance_is_a_metric()
    ensures removal { RemovalLeavesLeast }
    ensures zero { BagZeroIsPermutation }
    ensures symmetric { BagSymmetric }
    ensures triangle { BagTriangle }
{}

/// How far datasets are apart is a metric up to the order of rows.
pub fn apart_is_a_metric()
    ensures zero { ApartZeroIsSameRows }
    ensures symmetric { ApartSymmetric }
    ensures triangle { ApartTriangle }
{}
