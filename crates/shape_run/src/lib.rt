//! The run of a term without data: how deep, long and wide its runs are.
#![tactic(auto)]

mod function;
mod gives;
mod plan;
mod program;
mod store;
mod walk;

pub use function::shape_fun;
pub use plan::{Plan, ShapeFault};
pub use program::shape;
