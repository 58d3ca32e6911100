//! Values while a program runs: bags are made where they are walked.
#![tactic(auto)]

pub mod plain;
pub mod scope;
pub mod stages;
pub mod value;

pub use plain::Plain;
pub use stages::Branch;
pub use value::{Chain, Closure, Flow, Scope, Stage, Strand, Value};
