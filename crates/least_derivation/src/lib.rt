//! The derivation of a program that the checker accepts: written, and judged to be what the checker says.
#![tactic(auto)]

pub mod derived;
pub mod laws;

pub use derived::{DeriveFault, derive};
