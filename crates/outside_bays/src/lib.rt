//! Bays: where the disks of owners are kept, one or two for each.
//!
//! Disks in a bay are at home, or they are taken and the one who took them has them.
#![tactic(auto)]

pub mod bay;
pub mod memory;
pub mod real;
