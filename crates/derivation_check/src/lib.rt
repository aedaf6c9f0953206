//! Checks that a clause follows from known clauses by hints.
#![tactic(auto)]

pub mod checker;
mod marks;
pub mod soundness;
