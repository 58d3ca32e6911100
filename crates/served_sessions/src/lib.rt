//! What holds of sessions on connections, one after another and by several workers.
#![tactic(auto)]

pub mod laws;
