//! The weighted tree of a program: all its rewritings by the rules of an error model.
#![tactic(auto)]

mod copies;
mod counter;
mod error;
mod grow;
mod laws;
mod least_program;
mod least_size;
mod rewriting;
mod sharing;
mod side;
mod spot;
mod statements;
mod written;

pub use error::RewriteError;
pub use laws::{
    rewritten_trees_have_all_rewritings, rewritten_trees_have_small_costs,
    trees_by_no_rules_are_lifted,
};
pub use rewriting::rewrite;
