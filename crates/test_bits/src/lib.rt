//! Small tasks with their inputs and selections, variables for these, and what graphs of gates read
//! as, for the crates of tests.
#![tactic(auto)]

mod outcomes;
mod samples;
mod tasks;
mod variables;

pub use outcomes::Truths;
pub use samples::{
    end_of, inputs_of, push_members, selections_of, truths_of_case, truths_of_number,
};
pub use tasks::{TASKS, Texts, bytes_of, task_of};
pub use variables::{arguments, picks_of, variable_members};
