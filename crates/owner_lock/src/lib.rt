//! A lock round one state whose history is counted. Threads come in by passes, and each pass knows a beginning of one history.
#![tactic(auto)]

mod law;
mod lock;
mod owned;
mod pass;
mod stands;
mod view;

pub use lock::{NoMemory, Owned};
pub use pass::{Pass, Ticket};
pub use stands::StandsFor;
pub use view::View;
