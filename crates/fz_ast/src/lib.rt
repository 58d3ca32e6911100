//! Types, terms and signatures of the query language.
#![tactic(auto)]

pub mod arena;
pub mod memory;
pub mod name;
pub mod row;
pub mod sig;
pub mod span;
pub mod term;
pub mod tree;
pub mod types;

pub use arena::Arena;
pub use memory::NoMemory;
pub use name::{Name, Text};
pub use row::{Column, row_type};
pub use sig::{Sig, TableType};
pub use span::Span;
pub use term::{Arrow, Binary, Form, Node, Nodes, Ranged, Side, Unary};
pub use tree::{Term, Ty, is_flat, is_ground, same_type, well_formed};
pub use types::{Formed, TypeForm, TypeNode, Types};
