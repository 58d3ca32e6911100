//! What the charges of one owner cost: the whole view's amounts added up, and for each partition its dearest part's.
#![tactic(auto)]

pub mod costs;
pub mod laws;
mod parts;
pub mod view;
