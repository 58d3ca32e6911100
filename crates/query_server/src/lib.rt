//! The top call of the server: one command, from its words to its status.
#![tactic(auto)]

mod audit;
mod check;
mod end;
mod gap;
mod generated;
mod grant;
mod init;
mod laws;
mod listing;
mod run;
mod serve;
mod server;
mod whole;
mod writing;

pub use crate::end::Status;
pub use crate::laws::{
    derivations_are_exact, disk_refusals_have_causes, faulty_words_are_told, gaps_are_bounded,
    gaps_are_of_datasets, lines_are_exact, lines_are_headlines, one_worker_transcribes,
    other_ends_keep_what_was_found, outside_stays, programs_are_exact, refusals_are_exact,
    runs_are_answered, statuses_are_of_commands, valid_commands_end_well, verdicts_are_exact,
    what_is_loaded_is_lawful,
};
pub use crate::server::run_server;
