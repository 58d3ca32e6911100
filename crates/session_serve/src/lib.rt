//! One connection served: its lines are answered one after another, all that have come before more is read.
#![tactic(auto)]

pub mod line;
pub mod serve;
