//! One owner's budget on a disk, or on two: a ledger whose records are kept in a synced journal.
#![tactic(auto)]

pub mod book;
pub mod both;
pub mod failure;
pub mod halves;
pub mod laws;
pub mod opening;
