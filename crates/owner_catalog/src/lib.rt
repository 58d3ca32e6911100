//! Catalogs: the analysts and the owners with their budgets, tables and partitions, read from JSON.
//!
//! `specs/Catalog.antt` says which catalog the bytes of a file hold, and `read` reads it.
#![tactic(auto)]

mod catalog;
mod fault;
mod hashing;
mod list;
mod making;
mod member;
mod named;
mod names;
mod parts;
mod reading;
mod text;

pub use catalog::Catalog;
pub use fault::{CatalogFault, FaultKind, Member, Place};
pub use hashing::digest;
pub use making::OneOwner;
pub use named::Label;
pub use reading::read;
