//! Laws of programs and their meaning, each the contract of a function without a body.
#![tactic(auto)]

mod lines;
mod trees;

pub use lines::lines_do_not_matter;
pub use trees::{lists_follow_the_trees, trees_of_different_programs_differ};
