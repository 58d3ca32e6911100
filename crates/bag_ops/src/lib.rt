//! Operations on bags: each is its definition on lists, over functions that may answer want of memory.
#![tactic(auto)]

pub mod by_place;
pub mod numbers;
pub mod put;
pub mod slices;

pub use numbers::clipped;
pub use slices::{clipped_sum, filter, map, size, split, union};
