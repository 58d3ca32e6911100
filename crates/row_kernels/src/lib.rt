//! Terms meant for many rows at once: a column of values for each part.
#![tactic(auto)]

pub mod cells;
pub mod columns;
pub mod flows;
pub mod frames;
pub mod gather;
pub mod lanes;
pub mod meant;
pub mod numbers;
pub mod texts;

pub use flows::{Passed, flat_total, pass_stages};
pub use frames::{Frame, Frames};
pub use gather::{Gather, add_total, share};
pub use lanes::Lanes;
pub use meant::lanes_of;
