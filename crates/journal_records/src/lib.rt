//! The records of a journal and its header, and the one encoding of each.
#![tactic(auto)]

pub mod coding;
pub mod decoding;
mod fields;
pub mod laws;
pub mod records;
