//! One demand of an owner: a query, from the bytes of its program to what an analyst is told of it, a recall or a balance.
#![tactic(auto)]

mod answer;
mod deciding;
pub mod demand;
pub mod last_program;
mod laws;
mod meeting;
pub mod program;
pub mod query;
mod refusals;
mod standing;

pub use answer::ask;
pub use demand::Demand;
pub use last_program::{LastProgram, Program};
pub use laws::{
    accepted_programs_have_values, lone_asks_are_answered, lone_demands_are_met,
    lost_answers_are_charged, programs_are_bounded, programs_are_read_in_one_way,
    refusals_add_nothing, verdicts_see_no_answers, walks_are_told,
};
pub use meeting::meet;
pub use owner_desk::{Desk, Guarded, Held, Knows, Noted, Pass};
pub use owner_house::house::House;
pub use part_views::Dataset;
pub use program::{Accepted, Admitted, admit, check_program, read_program};
pub use query::Query;
