//! A house: a catalog's analysts and owners, and what each owner holds.
#![tactic(auto)]

pub mod entry;
pub mod house;
