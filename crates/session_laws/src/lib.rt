//! What follows for a whole script and its owners' records, in whatever order its lines came.
#![tactic(auto)]

pub mod laws;
