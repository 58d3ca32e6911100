//! Lines of derivations: read from bytes, and written.
#![tactic(auto)]

pub mod count;
pub mod interned;
pub mod line;
pub mod lines;
pub mod write;
