//! Derivations are written and judged over files: what `derive` and `judge` do, from the names in their words to their lines.
#![tactic(auto)]

mod derive;
mod ending;
mod judge;
mod laws;
mod lines;
mod reading;

pub use crate::derive::derive_file;
pub use crate::ending::Ending;
pub use crate::judge::judge_file;
pub use crate::laws::{
    a_yes_bounds_the_values, outcomes_are_unique, what_is_derived_is_judged_yes,
};
pub use crate::lines::{refusal_line, sensitivity_line};
