//! The search for a choice of least cost that agrees on all inputs, over any questions that find
//! choices and inputs.
#![tactic(auto)]

mod asked;
mod closing;
mod laws;
mod outcome;
mod questions;
mod search;

pub use asked::Asked;
pub use closing::close_search;
pub use laws::{any_ruled_out, cheaper_ruled_out, choice_didnt_fail, few_questions};
pub use outcome::Least;
pub use questions::Questions;
pub use search::least;
