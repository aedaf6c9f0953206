//! The programs of a task as bits, over any logic: the reference, and all that the rules make of
//! the submission, with what it costs.
#![tactic(auto)]

mod constants;
mod cost;
mod programs;

pub use constants::{constant_case, constant_picks};
pub use cost::task_cost_reaches;
pub use programs::{candidates, reference};
