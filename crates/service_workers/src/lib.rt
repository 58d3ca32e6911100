//! Doors served by several workers: each has passes of its own and answers the connections of one door, one after another, in a thread
//! of its own.
#![tactic(auto)]

mod crew;
mod posting;
mod service;
mod worker;

pub use posting::{Posting, Service};
pub use service::serve_all;
