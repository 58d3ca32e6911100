//! The typing rules over lines of derivations, one name at a time.
#![tactic(auto)]

pub mod numbers;
pub mod row;
pub mod row_factors;
pub mod row_names;
pub mod row_parts;
pub mod rows;
pub mod scope;
pub mod shape;
