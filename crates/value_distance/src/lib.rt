//! How far values, bags and tables are apart.
#![tactic(auto)]

pub mod bags;
pub mod dist;
pub mod order;
pub mod ratio;
pub mod rows;
pub mod sorted;
pub mod values;

pub use bags::bag_distance;
pub use dist::{Dist, DistFault};
pub use ratio::Ratio;
pub use rows::{table_apart, tables_apart};
pub use values::distance;
