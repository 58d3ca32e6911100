//! The checker: a program's type and sensitivities, or its first fault.
#![tactic(auto)]

pub mod amounts;
pub mod checker;
pub mod fault;
pub mod function;
pub mod groups;
pub mod judge;
pub mod scope;
pub mod tables;
pub mod written;

pub use checker::{Checked, check};
pub use fault::CheckFault;
pub use function::{CheckedFun, check_fun};
pub use typing_rows::Wanted;
