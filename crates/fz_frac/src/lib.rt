//! Exact fractions of 32 bits, and the sensitivities that are one of them or infinite.
#![tactic(auto)]

pub mod frac;
pub mod semiring;
pub mod sens;

pub use frac::{Frac, Range};
pub use sens::Sens;
