//! Doors, where connections come, as a trait whose contracts say which connections came, which were handed back, and how often a
//! door has failed.
#![tactic(auto)]

pub mod door;
pub mod memory;
pub mod real;
pub mod waits;
