//! Derivations: a program's typing written out, a line for each node, and a judge of them that stands on meanings alone.
#![tactic(auto)]

pub mod judge;
pub mod laws;
pub mod least;
pub mod least_line;
pub mod sizes;
pub mod sorted;
pub mod tables;
pub mod walk;
