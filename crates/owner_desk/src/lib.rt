//! An owner's book behind a lock: each call is the book's, by a pass, of which every worker has one.
#![tactic(auto)]

mod desk;
mod guarded;
mod held;
mod noted;

pub use desk::{Desk, Pass};
pub use guarded::Guarded;
pub use held::{Held, Knows, Locked, Locks};
pub use noted::Noted;
