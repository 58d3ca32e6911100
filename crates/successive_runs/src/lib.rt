//! What holds of an owner's journal over any runs, one after another, whatever stopped them.
#![tactic(auto)]

pub mod laws;
