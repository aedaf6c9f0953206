//! When a certificate is right for a task, and what a right one shows: laws, each the contract of a
//! function without a body.
#![tactic(auto)]

mod laws;
mod spaces;

pub use laws::{
    honest_trails_are_short, least_choices_are_best, right_certificates_show,
    right_under_any_budget,
};
pub use spaces::NoQuestions;
