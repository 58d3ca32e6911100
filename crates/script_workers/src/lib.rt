//! A script answered by several workers: each has passes of its own and answers the blocks dealt to it, and the replies are put in the
//! script's order.
#![tactic(auto)]

mod answer;
mod crew;
mod needs;
mod order;
mod starts;
mod texts;
mod worker;

pub use answer::answer_script;
// The crates above hold their passes by these, too.
pub use session_core::passes::{Bundle, Passes, Token};
pub use session_core::server::Server;
pub use session_core::{Admitted, Desk, admit, check_program, read_program};
