//! The program's words, read with clap.
#![tactic(auto)]

mod commands;
mod laws;
mod mirror;
mod words;

pub use crate::laws::{
    faults_alone_are_no_command, generated_runs_are_in_range, grants_are_in_range,
    plain_words_are_a_table, services_are_in_range, workers_are_in_range,
    workers_are_said_by_a_number,
};
pub use crate::mirror::is_mirrored;
pub use crate::words::{Command, WordsFault, read_words};
