//! A run in memory that is generated from a seed: one analyst asks one owner the same question again and again, until its budget is
//! spent and as often again.
#![tactic(auto)]

mod counting;
mod run;

pub use counting::Tally;
pub use run::run_generated;
// The crates above answer their scripts by these, and admit programs.
pub use script_workers::{
    Admitted, Desk, Passes, admit, answer_script, check_program, read_program,
};
