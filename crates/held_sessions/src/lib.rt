//! Sessions that were held one after another, by one worker or by several, and what holds of them.
#![tactic(auto)]

pub mod laws;

// The crates above serve sessions by these, too.
pub use session_serve::serve::{SessionEnd, serve};
