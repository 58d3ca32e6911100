//! Reads tokens as a term, a type or a sensitivity.
#![tactic(auto)]

mod fault;
mod grammar;
mod look;
mod make;
mod maker;
mod parser;
mod reader;
mod tables;

pub use fault::ParseFault;
pub use parser::{
    every_list_of_tokens_is_a_sensitivity, every_list_of_tokens_is_a_type,
    every_list_of_tokens_is_parsed, one_fault, one_sensitivity, one_stuck_place, one_term,
    one_type, parse, parse_sensitivity, parse_type, products_as_written, refused_is_none,
    terms_keep_limits, types_keep_limits, what_is_written_reads_back,
    written_sensitivities_read_back, written_types_read_back,
};
