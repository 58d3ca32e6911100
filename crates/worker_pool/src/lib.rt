//! A crew of workers, each in a thread of its own: the calling thread only waits for them. Its own stack can't grow where others have filled
//! the address space.
#![tactic(auto)]

mod each;
mod gate;
mod together;

pub use each::work_each;
pub use together::{NotStarted, work_together};

/// The most workers of a run, a service or a generated run.
pub const MOST_WORKERS: usize = 16;
