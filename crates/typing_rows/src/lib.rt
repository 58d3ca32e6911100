//! The rows of the typing rules in code: what a form of term makes of its parts' types and sensitivities.
#![tactic(auto)]

pub mod bags;
pub mod branches;
pub mod clause;
pub mod functions;
pub mod numbers;
pub mod products;
pub mod ranged;
pub mod wanted;

pub use clause::{Judged, RowFault, Wanted};
